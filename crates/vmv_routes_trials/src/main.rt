//! Trials of routes: which command a request asks for, or why it is refused.
#![tactic(auto)]

mod ask;
mod show;

use std::alloc::Global;
use std::process::ExitCode;
use vmv_cases::{Case, Sheet, Trial, run_cases};

struct Trials;

impl Trial for Trials {
    fn answer(&self, alloc: Global, case: &Case, ask: &[u8], sheet: &mut Sheet) {
        ask::answer(alloc, case, ask, sheet);
    }
}

fn main(rt: HostRuntime) -> ExitCode {
    run_cases(&rt, rt.alloc(), &Trials)
}
