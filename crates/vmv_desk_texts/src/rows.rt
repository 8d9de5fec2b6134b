//! Rows of a store, written as words.

use crate::replies::{put_number, put_versions};
use std::alloc::Global;
use vmv_cases::Sheet;
use vmv_keeper::{Bench, Held, KeepFault, Keeper, Label};

/// Writes why a call of a store gave no answer.
pub fn put_fault(fault: KeepFault, sheet: &mut Sheet) {
    match fault {
        KeepFault::Failed => sheet.line(b"failed"),
        KeepFault::Memory => sheet.fall_short(),
    }
}

/// Writes a project with the numbers that wait in it.
pub fn put_bench(bench: &Bench, sheet: &mut Sheet) {
    sheet.put(b"project ");
    sheet.put(bench.owner.bytes());
    sheet.put(b" ");
    sheet.put(bench.name.bytes());
    sheet.put(b" waiting");
    for submission in bench.pending.as_slice() {
        sheet.put(b" ");
        sheet.show(submission);
    }
    sheet.line(b"");
}

fn put_held(held: &Held, sheet: &mut Sheet) {
    sheet.put(b"  members");
    for member in held.members.as_slice() {
        sheet.put(b" ");
        sheet.put(member.bytes());
    }
    sheet.line(b"");
    put_versions(held.versions.as_slice(), sheet);
    put_number(b"  next", held.next, sheet);
}

/// Writes the project of an owner and a name.
pub fn put_project<K: Keeper>(
    keeper: &mut K,
    alloc: Global,
    owner: &Label,
    name: &Label,
    sheet: &mut Sheet,
) {
    match keeper.load(alloc, owner, name) {
        Ok(Some(held)) => put_held(&held, sheet),
        Ok(None) => sheet.line(b"none"),
        Err(fault) => put_fault(fault, sheet),
    }
}

fn put_projects<K: Keeper>(keeper: &mut K, alloc: Global, benches: &[Bench], sheet: &mut Sheet) {
    for bench in benches {
        put_bench(bench, sheet);
        put_project(keeper, alloc, &bench.owner, &bench.name, sheet);
    }
}

/// Writes how many replies are kept for a caller.
pub fn put_replies<K: Keeper>(keeper: &mut K, alloc: Global, caller: &Label, sheet: &mut Sheet) {
    match keeper.replies(alloc, caller) {
        Ok(count) => put_number(b"replies kept", count, sheet),
        Err(fault) => put_fault(fault, sheet),
    }
}

/// Writes how many calls of a store have failed, how many replies it keeps for a caller, and its projects.
pub fn put_rows<K: Keeper>(keeper: &mut K, alloc: Global, caller: &Label, sheet: &mut Sheet) {
    sheet.put(b"faults ");
    sheet.show(&keeper.faults());
    sheet.line(b"");
    put_replies(keeper, alloc, caller, sheet);
    match keeper.projects(alloc) {
        Ok(benches) => put_projects(keeper, alloc, benches.as_slice(), sheet),
        Err(fault) => put_fault(fault, sheet),
    }
}
