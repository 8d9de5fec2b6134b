ghost use Rattle.std.specs.Prelude.{◌≡◌, true, Some, map, slice_get, IfSome};
ghost use Rattle.vmv_snapshot.specs.Procs.{is_entry};
ghost use Rattle.vmv_snapshot.specs.Resolution.{procs_of};

use sqlite_items::Items;
use std::alloc::Global;
use vmv_back::boxes;
use vmv_cases::{Case, Sheet, cut, numbers};
use vmv_snapshot::{ParamBox, ProcId, Snapshot};
use vmv_source::{TextFault, parse};
use vmv_thresholds::Thresholds;
use vmv_tree::{Ends, Name, NameEnds};

/// The program of a case, which is its text `program`.
pub fn program_of(alloc: Global, case: &Case, sheet: &mut Sheet) -> Option<Snapshot> {
    match parse(alloc, case.text(b"program")) {
        Ok(snapshot) => Some(snapshot),
        Err(TextFault::Memory) => {
            sheet.fall_short();
            None
        }
        Err(_) => {
            sheet.refuse();
            None
        }
    }
}

/// The entry of this name.
pub fn entry_of(snapshot: &Snapshot, name: &[u8]) -> Option<ProcId>
    ensures { IfSome result (λ e. slice_get (map is_entry (procs_of snapshot.now)) e.0 ≡ Some true) }
{
    let entry = snapshot.find_proc(&Name::read(name)?)?;
    if entry.0 >= snapshot.proc_count() {
        return None;
    }
    if !snapshot.is_entry(entry) {
        return None;
    }
    Some(entry)
}

/// Writes the ranges of a box.
fn put_box(within: &ParamBox, sheet: &mut Sheet) {
    sheet.put(b"box");
    for (lo, hi) in within.ranges() {
        sheet.put(b" ");
        sheet.show(lo);
        sheet.put(b"..");
        sheet.show(hi);
    }
    sheet.line(b"");
}

/// `? boxes ENTRY`: the boxes of an entry, a line for each.
pub fn boxes_of(alloc: Global, case: &Case, name: &[u8], sheet: &mut Sheet) {
    let Some(snapshot) = program_of(alloc, case, sheet) else {
        return;
    };
    let Some(entry) = entry_of(&snapshot, name) else {
        sheet.refuse();
        return;
    };
    match boxes(alloc, &snapshot, entry) {
        Ok(all) => {
            for within in all.as_slice() {
                put_box(within, sheet);
            }
        }
        Err(_) => sheet.fall_short(),
    }
}

/// Adds the ends that a line `NAME END ..` gives.
fn add_ends(alloc: Global, all: &mut Ends, line: &[u8], sheet: &mut Sheet) {
    let (word, rest) = cut(line);
    let Some(name) = Name::read(word) else {
        sheet.refuse();
        return;
    };
    let ends = Items::from_vec(numbers(alloc, rest, sheet));
    if all.push(NameEnds { name, ends }).is_err() {
        sheet.fall_short();
    }
}

/// The ends that the text `ends` of a case gives, a line for each outside name.
pub fn ends_of(alloc: Global, case: &Case, sheet: &mut Sheet) -> Ends {
    let mut all = Items::new(alloc);
    for line in case.text(b"ends").split(|byte| *byte == b'\n') {
        if !line.is_empty() {
            add_ends(alloc, &mut all, line, sheet);
        }
    }
    all
}

/// Writes numbers, a line for each.
fn put_numbers(numbers: &[i128], sheet: &mut Sheet) {
    for number in numbers {
        sheet.show(number);
        sheet.line(b"");
    }
}

/// `? thresholds ENTRY`: the thresholds of an entry, where the text `ends` has the ends of outside names.
pub fn thresholds(alloc: Global, case: &Case, name: &[u8], sheet: &mut Sheet) {
    let Some(snapshot) = program_of(alloc, case, sheet) else {
        return;
    };
    let Some(entry) = entry_of(&snapshot, name) else {
        sheet.refuse();
        return;
    };
    let ends = ends_of(alloc, case, sheet);
    match Thresholds::of(alloc, &snapshot, entry, &ends) {
        Ok(thresholds) => put_numbers(thresholds.as_slice(), sheet),
        Err(_) => sheet.fall_short(),
    }
}
