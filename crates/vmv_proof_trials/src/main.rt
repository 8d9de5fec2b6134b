//! Trials of the texts of proofs, and of their lines.
#![tactic(auto)]

mod lines;
mod texts;

use std::alloc::Global;
use std::process::ExitCode;
use vmv_cases::{Case, Sheet, Trial, run_cases, word};

struct Trials;

impl Trial for Trials {
    fn answer(&self, alloc: Global, case: &Case, ask: &[u8], sheet: &mut Sheet) {
        let first = word(ask, 0);
        if first == b"lines".as_slice() {
            lines::put_lines(alloc, case.subject(ask), sheet);
        } else if first == b"proof".as_slice() {
            texts::put_proof(alloc, case.subject(ask), sheet);
        } else {
            sheet.refuse();
        }
    }
}

fn main(rt: HostRuntime) -> ExitCode {
    run_cases(&rt, rt.alloc(), &Trials)
}
