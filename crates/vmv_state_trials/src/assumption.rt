use crate::cond::read_piece;
use crate::words::{put_answer, put_words};
use std::alloc::Global;
use vmv_assumption::Assumption;
use vmv_cases::{Case, Sheet, tail, word};
use vmv_snapshot::Snapshot;
use vmv_source::{TextFault, parse};
use vmv_state_texts::read_cond;
use vmv_tree::Name;

/// The program of a case, which is its text `program`.
pub fn program_of(alloc: Global, case: &Case, sheet: &mut Sheet) -> Option<Snapshot> {
    match parse(alloc, case.text(b"program")) {
        Ok(snapshot) => Some(snapshot),
        Err(TextFault::Memory) => {
            sheet.fall_short();
            None
        }
        Err(_) => {
            sheet.refuse();
            None
        }
    }
}

/// The assumption that a case's program starts with.
pub fn whole_of(alloc: Global, case: &Case, sheet: &mut Sheet) -> Option<Assumption> {
    let snapshot = program_of(alloc, case, sheet)?;
    let Ok(whole) = Assumption::whole(alloc, &snapshot) else {
        sheet.fall_short();
        return None;
    };
    Some(whole)
}

/// Sets, cuts or keeps a name's condition. Answers whether it has one, where the line can be read.
pub fn change(assumed: &mut Assumption, line: &[u8]) -> Option<bool> {
    let name = Name::read(word(line, 1))?;
    match word(line, 0) {
        b"set" => Some(assumed.set(&name, read_cond(tail(line, 2))?)),
        b"cut" => Some(assumed.cut(&name, read_piece(tail(line, 2))?)),
        b"keep" => Some(assumed.keep_to(&name, read_piece(tail(line, 2))?)),
        _ => None,
    }
}

/// Writes whether a line's name has a condition, which it changes.
fn put_change(assumed: &mut Assumption, line: &[u8], sheet: &mut Sheet) {
    match change(assumed, line) {
        Some(held) => put_answer(held, sheet),
        None => sheet.refuse(),
    }
}

/// Writes the names that have a condition, and these.
fn put_conds(assumed: &Assumption, sheet: &mut Sheet) {
    for (name, cond) in assumed.conds() {
        sheet.put(name.bytes());
        sheet.put(b" ");
        put_words(*cond, sheet);
        sheet.line(b"");
    }
}

/// Writes what is assumed of a name's answers.
fn put_cond_of(assumed: &Assumption, name: &[u8], sheet: &mut Sheet) {
    match Name::read(name) {
        Some(name) => {
            put_words(assumed.get(&name), sheet);
            sheet.line(b"");
        }
        None => sheet.refuse(),
    }
}

/// A second assumption that is the same.
fn copy_of(alloc: Global, assumed: &Assumption, sheet: &mut Sheet) -> Option<Assumption> {
    let copied = assumed.copy(alloc).ok();
    if copied.is_none() {
        sheet.fall_short();
    }
    copied
}

/// Answers a line of `? assume` but for `copy`, over the assumption and the copy that was made last.
fn answer_line(
    assumed: &mut Assumption,
    copied: &Option<Assumption>,
    line: &[u8],
    sheet: &mut Sheet,
) {
    match word(line, 0) {
        b"conds" => put_conds(assumed, sheet),
        b"get" => put_cond_of(assumed, word(line, 1), sheet),
        b"copied" => match copied {
            Some(copied) => put_cond_of(copied, word(line, 1), sheet),
            None => sheet.refuse(),
        },
        _ => put_change(assumed, line, sheet),
    }
}

/// `? assume`: answers to the lines of the last text, one behind the other, from the assumption that holds any answer:
/// `set NAME COND`, `cut NAME PIECE` and `keep NAME PIECE` answer whether the name has a condition, `get NAME` what is assumed of it,
/// `conds` all conditions, `copy` makes a copy and answers nothing, and `copied NAME` is `get` in the copy.
pub fn assume(alloc: Global, case: &Case, sheet: &mut Sheet) {
    let Some(mut assumed) = whole_of(alloc, case, sheet) else {
        return;
    };
    let mut copied = None;
    for line in case.text(b"").split(|byte| *byte == b'\n') {
        if line == b"copy".as_slice() {
            copied = copy_of(alloc, &assumed, sheet);
        } else if !line.is_empty() {
            answer_line(&mut assumed, &copied, line, sheet);
        }
    }
}
