//! Trials of exchanges: what requests are answered over a link, and what they leave.
#![tactic(auto)]

mod ask;
mod each;
mod judge;
mod links;
mod requests;
mod sessions;
mod show;

use std::alloc::Global;
use std::process::ExitCode;
use vmv_cases::{Case, Sheet, Trial, run_cases};
use vmv_gate::Gate;
use vmv_keeper::Judge;

/// What the trials work with.
#[derive(Drop)]
struct Trials<'a, J> {
    gate: &'a J,
}

impl<'a, J: Judge> Trial for Trials<'a, J> {
    fn answer(&self, alloc: Global, case: &Case, ask: &[u8], sheet: &mut Sheet) {
        ask::answer(self.gate, alloc, case, ask, sheet);
    }
}

fn main(rt: HostRuntime) -> ExitCode {
    let gate = Gate::new(&rt, 1);
    run_cases(&rt, rt.alloc(), &Trials { gate: &gate })
}
