//! Trials of programs and their texts: reading, faults, resolved trees, and printing.
#![tactic(auto)]

mod code;
mod faults;
mod numbers;
mod procs;
mod texts;
mod tree;

use std::alloc::Global;
use std::process::ExitCode;
use vmv_cases::{Case, Sheet, Trial, run_cases, tail, word};

struct Trials;

/// Answers an ask about a text alone. Answers whether it is one.
fn ask_text(alloc: Global, word: &[u8], text: &[u8], sheet: &mut Sheet) -> bool {
    if word == b"name".as_slice() {
        texts::name(text, sheet);
    } else if word == b"read".as_slice() {
        texts::read(alloc, text, sheet);
    } else if word == b"tree".as_slice() {
        tree::tree(alloc, text, sheet);
    } else if word == b"parse".as_slice() {
        texts::parsed(alloc, text, sheet);
    } else if word == b"canonical".as_slice() {
        texts::canonical(alloc, text, sheet);
    } else if word == b"print".as_slice() {
        texts::printed(alloc, text, sheet);
    } else {
        return false;
    }
    true
}

/// Answers an ask about the snapshot of a text. Answers whether it is one.
fn ask_snapshot(alloc: Global, word: &[u8], text: &[u8], sheet: &mut Sheet) -> bool {
    if word == b"snapshot".as_slice() {
        procs::snapshot(alloc, text, sheet);
    } else if word == b"procs".as_slice() {
        procs::procs(alloc, text, sheet);
    } else {
        return false;
    }
    true
}

/// Answers an ask with numbers. Answers whether it is one.
fn ask_numbers(alloc: Global, case: &Case, ask: &[u8], sheet: &mut Sheet) -> bool {
    let word = word(ask, 0);
    if word == b"box".as_slice() {
        numbers::boxed(alloc, tail(ask, 1), sheet);
    } else if word == b"place".as_slice() {
        numbers::place(case.text(b""), tail(ask, 1), sheet);
    } else if word == b"code".as_slice() {
        numbers::code_of(alloc, case.text(b""), tail(ask, 1), sheet);
    } else {
        return false;
    }
    true
}

impl Trial for Trials {
    fn answer(&self, alloc: Global, case: &Case, ask: &[u8], sheet: &mut Sheet) {
        let first = word(ask, 0);
        if ask_text(alloc, first, case.subject(ask), sheet) {
            return;
        }
        if ask_snapshot(alloc, first, case.subject(ask), sheet) {
            return;
        }
        if !ask_numbers(alloc, case, ask, sheet) {
            sheet.refuse();
        }
    }
}

fn main(rt: HostRuntime) -> ExitCode {
    run_cases(&rt, rt.alloc(), &Trials)
}
