//! Trials of what is found of programs: the boxes and the demands of entries, the conditions of programs, and what
//! probes find.
#![tactic(auto)]

mod entries;
mod given;
mod needs;
mod probes;
mod puts;
mod texts;

use std::alloc::Global;
use std::process::ExitCode;
use std::thread::Threads;
use vmv_cases::{Case, Sheet, Trial, run_cases, word};
use vmv_crew::Shared;

/// What the trials work with.
#[derive(Drop)]
struct Trials<'a, R> {
    rt: &'a R,
}

/// Answers an ask about an entry's statements. Answers whether it is one.
fn ask_statements(alloc: Global, case: &Case, ask: &[u8], sheet: &mut Sheet) -> bool {
    let word = word(ask, 0);
    if word == b"boxes".as_slice() {
        entries::boxes_of(alloc, case, ask, sheet);
    } else if word == b"demands".as_slice() {
        entries::demands_of(alloc, case, ask, false, sheet);
    } else if word == b"sites".as_slice() {
        entries::demands_of(alloc, case, ask, true, sheet);
    } else {
        return false;
    }
    true
}

/// Answers an ask about a program. Answers whether it is one.
fn ask_program<R: Threads + Sync>(
    rt: &R,
    alloc: Global,
    case: &Case,
    ask: &[u8],
    sheet: &mut Sheet,
) -> bool {
    let word = word(ask, 0);
    if word == b"ends".as_slice() {
        entries::ends_of(alloc, case, sheet);
    } else if word == b"necessary".as_slice() {
        needs::necessary_of(rt, alloc, case, sheet);
    } else if word == b"sufficient".as_slice() {
        given::sufficient_of(rt, alloc, case, sheet);
    } else if word == b"probes".as_slice() {
        probes::probes_of(rt, alloc, case, ask, sheet);
    } else {
        return false;
    }
    true
}

impl<'a, R: Threads + Shared + Sync> Trial for Trials<'a, R> {
    fn answer(&self, alloc: Global, case: &Case, ask: &[u8], sheet: &mut Sheet) {
        if ask_statements(alloc, case, ask, sheet) {
            return;
        }
        self.rt.shared();
        if !ask_program(self.rt, alloc, case, ask, sheet) {
            sheet.refuse();
        }
    }
}

fn main(rt: HostRuntime) -> ExitCode {
    run_cases(&rt, rt.alloc(), &Trials { rt: &rt })
}
