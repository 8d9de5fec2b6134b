//! Trials of what lies outside, in memory, over files and over writers, and of linked lists.
#![tactic(auto)]

mod links;
mod moves;
mod pieces;
mod reads;
mod shelves;
mod sinks;
mod small;
mod streams;

use std::alloc::Global;
use std::process::ExitCode;
use vmv_cases::{Case, Sheet, Trial, run_cases, word};

#[derive(Drop)]
struct Trials<'r> {
    rt: &'r HostRuntime,
}

/// Answers an ask about a shelf. Answers whether it is one.
fn ask_shelf(rt: &HostRuntime, alloc: Global, case: &Case, ask: &[u8], sheet: &mut Sheet) -> bool {
    let word = word(ask, 0);
    if word == b"memory_shelf".as_slice() {
        shelves::memory_shelf(alloc, case, ask, sheet);
    } else if word == b"faultless_shelf".as_slice() {
        shelves::faultless_shelf(alloc, case, sheet);
    } else if word == b"file_shelf".as_slice() {
        shelves::file_shelf(rt, alloc, case, sheet);
    } else {
        return false;
    }
    true
}

/// Answers an ask about a sink. Answers whether it is one.
fn ask_sink(rt: &HostRuntime, alloc: Global, case: &Case, ask: &[u8], sheet: &mut Sheet) -> bool {
    let word = word(ask, 0);
    if word == b"memory_sink".as_slice() {
        sinks::memory_sink(alloc, case, ask, sheet);
    } else if word == b"faultless_sink".as_slice() {
        sinks::faultless_sink(alloc, case, ask, sheet);
    } else if word == b"stream".as_slice() {
        streams::stream(case, ask, sheet);
    } else if word == b"stdout".as_slice() {
        streams::stdout(rt, alloc, case.subject(ask), sheet);
    } else {
        return false;
    }
    true
}

/// Answers another ask. Answers whether it is one.
fn ask_other(alloc: Global, case: &Case, ask: &[u8], sheet: &mut Sheet) -> bool {
    let word = word(ask, 0);
    if word == b"text".as_slice() {
        small::text(alloc, case.subject(ask), sheet);
    } else if word == b"links".as_slice() {
        links::links(alloc, case, sheet);
    } else {
        return false;
    }
    true
}

impl<'r> Trial for Trials<'r> {
    fn answer(&self, alloc: Global, case: &Case, ask: &[u8], sheet: &mut Sheet) {
        if ask_shelf(self.rt, alloc, case, ask, sheet) {
            return;
        }
        if ask_sink(self.rt, alloc, case, ask, sheet) {
            return;
        }
        if !ask_other(alloc, case, ask, sheet) {
            sheet.refuse();
        }
    }
}

fn main(rt: HostRuntime) -> ExitCode {
    run_cases(&rt, rt.alloc(), &Trials { rt: &rt })
}
