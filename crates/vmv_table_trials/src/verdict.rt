use crate::entry::program_of;
use crate::read::read_table;
use std::alloc::Global;
use vmv_assumption::Assumption;
use vmv_cases::{Case, Sheet, cut};
use vmv_cert::Table;
use vmv_check::check_table;
use vmv_snapshot::Snapshot;
use vmv_state_texts::read_cond;
use vmv_tree::Name;

/// Assumes what a line `NAME COND` says. Answers whether the name has a condition.
fn assume(assumed: &mut Assumption, line: &[u8]) -> bool {
    let (word, rest) = cut(line);
    let Some(name) = Name::read(word) else {
        return false;
    };
    match read_cond(rest) {
        Some(cond) => assumed.set(&name, cond),
        None => false,
    }
}

/// The assumption of the text `assumed` of a case, which has a line for each outside name whose answers aren't any word.
pub fn assumed_of(
    alloc: Global,
    snapshot: &Snapshot,
    case: &Case,
    sheet: &mut Sheet,
) -> Option<Assumption> {
    let Ok(mut assumed) = Assumption::whole(alloc, snapshot) else {
        sheet.fall_short();
        return None;
    };
    for line in case.text(b"assumed").split(|byte| *byte == b'\n') {
        if !line.is_empty() && !assume(&mut assumed, line) {
            sheet.refuse();
        }
    }
    Some(assumed)
}

/// Writes what the checker says of a table.
pub fn put_verdict(snapshot: &Snapshot, assumed: &Assumption, table: &Table, sheet: &mut Sheet) {
    if table.rows.len() > 1000 {
        sheet.refuse();
        return;
    }
    match check_table(snapshot, assumed, table) {
        Ok(_) => sheet.line(b"accepted"),
        Err(refused) => {
            sheet.put(b"refused at row ");
            sheet.show(&refused.row);
            sheet.put(b" step ");
            sheet.show(&refused.step);
            sheet.line(b"");
        }
    }
}

/// `? check`: what the checker says of the table of the last text, under the conditions of the text `assumed`.
pub fn check(alloc: Global, case: &Case, sheet: &mut Sheet) {
    let Some(snapshot) = program_of(alloc, case, sheet) else {
        return;
    };
    let Some(assumed) = assumed_of(alloc, &snapshot, case, sheet) else {
        return;
    };
    let table = read_table(alloc, case.text(b""), sheet);
    put_verdict(&snapshot, &assumed, &table, sheet);
}
