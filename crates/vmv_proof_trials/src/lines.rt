use std::alloc::Global;
use vmv_cases::{Sheet, word};
use vmv_proof_line::{
    LineFault, read_box, read_entries, read_exclude, read_exclusions, read_input, read_keep,
    read_left, read_plain, read_result, read_row, read_table,
};

/// Writes that a line is told, or how it departs.
fn put_told(fault: Option<LineFault>, sheet: &mut Sheet) {
    match fault {
        None => sheet.line(b"told"),
        Some(LineFault::Form) => sheet.line(b"syntax"),
        Some(LineFault::Size) => sheet.line(b"range"),
        Some(LineFault::Memory) => sheet.fall_short(),
    }
}

/// How a line of a count, a name or a head departs, if it does.
fn fault_of_head(kind: &[u8], line: &[u8]) -> Option<LineFault> {
    if kind == b"exclusions".as_slice() {
        read_exclusions(line).err()
    } else if kind == b"table".as_slice() {
        read_table(line).err()
    } else if kind == b"entries".as_slice() {
        read_entries(line).err()
    } else if kind == b"exclude".as_slice() {
        read_exclude(line).err()
    } else if kind == b"row".as_slice() {
        read_row(line).err()
    } else {
        read_plain(line).err()
    }
}

/// Writes how a line is read by the reader of its kind, which is its first word.
fn put_line(alloc: Global, line: &[u8], sheet: &mut Sheet) {
    let kind = word(line, 0);
    if kind == b"input".as_slice() {
        put_told(read_input(line).err(), sheet);
    } else if kind == b"keep".as_slice() {
        put_told(read_keep(line).err(), sheet);
    } else if kind == b"box".as_slice() {
        put_told(read_box(line).err(), sheet);
    } else if kind == b"result".as_slice() {
        put_told(read_result(line).err(), sheet);
    } else if kind == b"left".as_slice() {
        put_told(read_left(alloc, line).err(), sheet);
    } else {
        put_told(fault_of_head(kind, line), sheet);
    }
}

/// Writes how each line of a text is read.
pub(crate) fn put_lines(alloc: Global, text: &[u8], sheet: &mut Sheet) {
    for line in text.split(|byte| *byte == b'\n') {
        if !line.is_empty() {
            put_line(alloc, line, sheet);
        }
    }
}
