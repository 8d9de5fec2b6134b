use crate::acts::is_same_change;
use crate::history::failing;
use std::alloc::Global;
use vmv_cases::{Case, Sheet, tail};
use vmv_desk_texts::{change, is_change, look, put_fault};
use vmv_keeper::{Change, FaultlessKeeper, KeepFault, Keeper, MemoryKeeper};

/// The copy of the change of a line.
fn copied(alloc: Global, case: &Case, line: &[u8], sheet: &mut Sheet) -> Option<Change> {
    let change = change(alloc, case, line, sheet)?;
    let copy = change.copy(alloc).ok()?;
    if is_same_change(&copy, &change) {
        Some(copy)
    } else {
        None
    }
}

fn put_committed(answer: Result<(), KeepFault>, sheet: &mut Sheet) {
    match answer {
        Ok(()) => sheet.line(b"made"),
        Err(fault) => put_fault(fault, sheet),
    }
}

/// Makes the change of a line where it fits.
fn commit(keeper: &mut MemoryKeeper, alloc: Global, case: &Case, line: &[u8], sheet: &mut Sheet) {
    let Some(change) = copied(alloc, case, line, sheet) else {
        sheet.refuse();
        return;
    };
    if keeper.fits(&change) {
        put_committed(keeper.commit(alloc, &change), sheet);
    } else {
        sheet.line(b"doesn't fit");
    }
}

/// Makes the change of a line where it fits.
fn commit_faultless(
    keeper: &mut FaultlessKeeper,
    alloc: Global,
    case: &Case,
    line: &[u8],
    sheet: &mut Sheet,
) {
    let Some(change) = copied(alloc, case, line, sheet) else {
        sheet.refuse();
        return;
    };
    if keeper.fits(&change) {
        put_committed(keeper.commit(alloc, &change), sheet);
    } else {
        sheet.line(b"doesn't fit");
    }
}

/// `? store CALL ..`: what the lines of the text `store` answer, over a store in memory whose calls with these numbers
/// fail.
pub fn store(alloc: Global, case: &Case, ask: &[u8], sheet: &mut Sheet) {
    let mut keeper = MemoryKeeper::new(alloc, failing(alloc, tail(ask, 1), sheet));
    for line in case.text(b"store").split(|byte| *byte == b'\n') {
        if is_change(line) {
            commit(&mut keeper, alloc, case, line, sheet);
        } else if !line.is_empty() {
            look(&mut keeper, alloc, line, sheet);
        }
    }
}

/// `? faultless_store`: the same over a store that never fails.
pub fn faultless_store(alloc: Global, case: &Case, sheet: &mut Sheet) {
    let mut keeper = FaultlessKeeper::new(alloc);
    for line in case.text(b"store").split(|byte| *byte == b'\n') {
        if is_change(line) {
            commit_faultless(&mut keeper, alloc, case, line, sheet);
        } else if !line.is_empty() {
            look(&mut keeper, alloc, line, sheet);
        }
    }
}
