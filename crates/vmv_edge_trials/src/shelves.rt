use crate::reads::{failing, put_reads};
use std::alloc::Global;
use std::str;
use vmv_cases::{Case, Sheet, cut, tail};
use vmv_edge::{FaultlessShelf, FileShelf, MemoryShelf};

/// Holds the text that a line `NAME TEXT` writes.
fn hold_in_memory(shelf: &mut MemoryShelf, alloc: Global, line: &[u8], sheet: &mut Sheet) {
    let (bytes, text) = cut(line);
    let Ok(name) = str::from_utf8(bytes) else {
        sheet.refuse();
        return;
    };
    if shelf.hold(alloc, name, text).is_err() {
        sheet.fall_short();
    }
}

/// `? memory_shelf CALL ..`: the reads of a shelf in memory that holds the text `held`, and fails at these calls.
pub fn memory_shelf(alloc: Global, case: &Case, ask: &[u8], sheet: &mut Sheet) {
    let mut shelf = MemoryShelf::new(alloc, failing(alloc, tail(ask, 1), sheet));
    for line in case.text(b"held").split(|byte| *byte == b'\n') {
        if !line.is_empty() {
            hold_in_memory(&mut shelf, alloc, line, sheet);
        }
    }
    put_reads(&mut shelf, alloc, case, sheet);
}

/// Holds the text that a line `NAME TEXT` writes.
fn hold_faultless(shelf: &mut FaultlessShelf, alloc: Global, line: &[u8], sheet: &mut Sheet) {
    let (bytes, text) = cut(line);
    let Ok(name) = str::from_utf8(bytes) else {
        sheet.refuse();
        return;
    };
    if shelf.hold(alloc, name, text).is_err() {
        sheet.fall_short();
    }
}

/// `? faultless_shelf`: the reads of a shelf without faults that holds the text `held`.
pub fn faultless_shelf(alloc: Global, case: &Case, sheet: &mut Sheet) {
    let mut shelf = FaultlessShelf::new(alloc);
    for line in case.text(b"held").split(|byte| *byte == b'\n') {
        if !line.is_empty() {
            hold_faultless(&mut shelf, alloc, line, sheet);
        }
    }
    put_reads(&mut shelf, alloc, case, sheet);
}

/// `? file_shelf`: the reads of the files beside the program.
pub fn file_shelf(rt: &HostRuntime, alloc: Global, case: &Case, sheet: &mut Sheet) {
    let mut shelf = FileShelf::new(rt);
    put_reads(&mut shelf, alloc, case, sheet);
}
