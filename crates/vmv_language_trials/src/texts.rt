use crate::faults::{put_read_fault, put_text_fault};
use std::alloc::Global;
use vmv_cases::Sheet;
use vmv_print::{print, print_program};
use vmv_snapshot::Snapshot;
use vmv_source::parse;
use vmv_text::{Parsed, read_program};
use vmv_tree::{DeepProgram, Name, Program};

/// `? name`: the bytes of the name that these are, or `no name`.
pub fn name(bytes: &[u8], sheet: &mut Sheet) {
    match Name::read(bytes) {
        Some(name) => sheet.line(name.bytes()),
        None => sheet.line(b"no name"),
    }
}

/// Writes what is told of a program without a tree: how many items it has of each kind, how many of all stand above the
/// procedure that is too deep, and how large that one is.
fn put_deep(told: &DeepProgram, sheet: &mut Sheet) {
    sheet.put(b"deep: items ");
    sheet.show(&told.counts.outsides);
    sheet.put(b" ");
    sheet.show(&told.counts.helpers);
    sheet.put(b" ");
    sheet.show(&told.counts.entries);
    sheet.put(b", above ");
    sheet.show(&told.above.as_slice().len());
    sheet.put(b", variables ");
    sheet.show(&told.deep.variables);
    sheet.put(b", statements ");
    sheet.show(&told.deep.statements);
    sheet.put(b", nesting ");
    sheet.show(&told.deep.nesting);
    sheet.put(b", ");
    sheet.line(told.deep.name.bytes());
}

/// The program of a text. Where it has no tree, what is told of it is written, or the fault.
pub fn program_of(alloc: Global, text: &[u8], sheet: &mut Sheet) -> Option<Program> {
    match read_program(alloc, text) {
        Ok(Parsed::Whole(program)) => Some(program),
        Ok(Parsed::Deep(told)) => {
            put_deep(&told, sheet);
            None
        }
        Err(fault) => {
            put_read_fault(fault, sheet);
            None
        }
    }
}

/// The snapshot of a text. Where it has none, the fault is written.
pub fn snapshot_of(alloc: Global, text: &[u8], sheet: &mut Sheet) -> Option<Snapshot> {
    match parse(alloc, text) {
        Ok(snapshot) => Some(snapshot),
        Err(fault) => {
            put_text_fault(fault, sheet);
            None
        }
    }
}

/// `? read`: how many items the program of a text has, or the fault.
pub fn read(alloc: Global, text: &[u8], sheet: &mut Sheet) {
    let Some(program) = program_of(alloc, text, sheet) else {
        return;
    };
    sheet.put(b"items: ");
    sheet.show(&program.items.as_slice().len());
    sheet.line(b"");
}

/// `? parse`: `valid`, or the fault.
pub fn parsed(alloc: Global, text: &[u8], sheet: &mut Sheet) {
    if snapshot_of(alloc, text, sheet).is_some() {
        sheet.line(b"valid");
    }
}

/// `? canonical`: the canonical text of the program of a text.
pub fn canonical(alloc: Global, text: &[u8], sheet: &mut Sheet) {
    let Some(program) = program_of(alloc, text, sheet) else {
        return;
    };
    match print_program(alloc, &program) {
        Ok(printed) => sheet.put(printed.bytes()),
        Err(_) => sheet.fall_short(),
    }
}

/// Writes the canonical text of the snapshot of a text, and answers nothing where there is none.
fn put_printed(alloc: Global, text: &[u8], sheet: &mut Sheet) {
    let Some(snapshot) = snapshot_of(alloc, text, sheet) else {
        return;
    };
    match print(alloc, &snapshot) {
        Ok(printed) => sheet.put(printed.bytes()),
        Err(_) => sheet.fall_short(),
    }
}

/// `? print`: the canonical text of the snapshot of a text, and whether that of the printed text is the same.
pub fn printed(alloc: Global, text: &[u8], sheet: &mut Sheet) {
    let mut once = Sheet::new(alloc);
    put_printed(alloc, text, &mut once);
    let mut twice = Sheet::new(alloc);
    put_printed(alloc, once.bytes(), &mut twice);
    sheet.put(once.bytes());
    if once.bytes() == twice.bytes() {
        sheet.line(b"again the same");
    } else {
        sheet.line(b"again another");
    }
    if once.is_short() || twice.is_short() {
        sheet.fall_short();
    }
}
