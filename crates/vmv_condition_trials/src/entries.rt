use crate::puts::{put_cond, put_proc, put_ranges};
use crate::texts::{entry_of, framed_of, program_of};
use std::alloc::Global;
use vmv_back::boxes;
use vmv_cases::{Case, Sheet};
use vmv_demands::{Demand, demands, ends};
use vmv_snapshot::{ParamBox, Snapshot};
use vmv_tree::NameEnds;

/// Writes boxes in a line.
fn put_boxes(found: &[ParamBox], sheet: &mut Sheet) {
    sheet.put(b"boxes");
    for within in found {
        sheet.put(b" |");
        put_ranges(within.ranges(), sheet);
    }
    sheet.line(b"");
}

/// `? boxes`: the boxes of the entry `e` of the text that is asked about, between the texts `head` and `tail`.
pub fn boxes_of(alloc: Global, case: &Case, ask: &[u8], sheet: &mut Sheet) {
    let Some(snapshot) = framed_of(alloc, case, ask, sheet) else {
        return;
    };
    let Some(entry) = entry_of(&snapshot, b"e", sheet) else {
        return;
    };
    match boxes(alloc, &snapshot, entry) {
        Ok(found) => put_boxes(found.as_slice(), sheet),
        Err(_) => sheet.fall_short(),
    }
}

/// Writes demands in a line, without their sites.
fn put_demands(found: &[Demand], sheet: &mut Sheet) {
    sheet.put(b"demands");
    for demand in found {
        sheet.put(b" | ");
        put_cond(&demand.name, demand.cond, sheet);
    }
    sheet.line(b"");
}

/// Writes a line for each demand, with its site.
fn put_sites(snapshot: &Snapshot, found: &[Demand], sheet: &mut Sheet) {
    for demand in found {
        put_cond(&demand.name, demand.cond, sheet);
        sheet.put(b" at ");
        put_proc(snapshot, demand.site.proc, sheet);
        sheet.put(b" ");
        sheet.show(&demand.site.index);
        sheet.line(b"");
    }
}

/// `? demands`: the demands of the entry `e` of the text that is asked about, between the texts `head` and `tail`.
/// `? sites`: these with the first site of each.
pub fn demands_of(alloc: Global, case: &Case, ask: &[u8], with_sites: bool, sheet: &mut Sheet) {
    let Some(snapshot) = framed_of(alloc, case, ask, sheet) else {
        return;
    };
    let Some(entry) = entry_of(&snapshot, b"e", sheet) else {
        return;
    };
    match demands(alloc, &snapshot, entry) {
        Ok(found) if with_sites => put_sites(&snapshot, found.as_slice(), sheet),
        Ok(found) => put_demands(found.as_slice(), sheet),
        Err(_) => sheet.fall_short(),
    }
}

/// Writes a line for each name, with its ends.
fn put_ends(found: &[NameEnds], sheet: &mut Sheet) {
    for of_name in found {
        sheet.put(of_name.name.bytes());
        for end in of_name.ends.as_slice() {
            sheet.put(b" ");
            sheet.show(end);
        }
        sheet.line(b"");
    }
}

/// `? ends`: the ends of the ranges of each outside name of the text `program`.
pub fn ends_of(alloc: Global, case: &Case, sheet: &mut Sheet) {
    let Some(snapshot) = program_of(alloc, case, sheet) else {
        return;
    };
    match ends(alloc, &snapshot) {
        Ok(found) => put_ends(found.as_slice(), sheet),
        Err(_) => sheet.fall_short(),
    }
}
