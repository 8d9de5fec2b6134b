//! Trials of runs and of witnesses.
#![tactic(auto)]

mod given;
mod runs;
mod witnesses;

use std::alloc::Global;
use std::process::ExitCode;
use vmv_cases::{Case, Sheet, Trial, run_cases, tail, word};

struct Trials;

impl Trial for Trials {
    fn answer(&self, alloc: Global, case: &Case, ask: &[u8], sheet: &mut Sheet) {
        let first = word(ask, 0);
        if first == b"run".as_slice() {
            runs::run(alloc, case.text(b""), tail(ask, 1), sheet);
        } else if first == b"constant".as_slice() {
            runs::constant_run(alloc, case.text(b""), tail(ask, 1), sheet);
        } else if first == b"witness".as_slice() {
            witnesses::read(alloc, case.subject(ask), sheet);
        } else if first == b"written".as_slice() {
            witnesses::written(alloc, case.subject(ask), sheet);
        } else if first == b"fit".as_slice() {
            witnesses::fits(
                alloc,
                case.text(word(ask, 1)),
                case.text(word(ask, 2)),
                sheet,
            );
        } else {
            sheet.refuse();
        }
    }
}

fn main(rt: HostRuntime) -> ExitCode {
    run_cases(&rt, rt.alloc(), &Trials)
}
