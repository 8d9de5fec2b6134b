//! Trials of the store over SQL, in memory and in files: what is committed, found again, taken over, spoiled, or stopped.
#![tactic(auto)]

mod histories;
mod stops;
mod store;
mod vaults;

use std::alloc::Global;
use std::process::ExitCode;
use std::rt::HostRuntime;
use vmv_cases::{Case, Sheet, Trial, run_cases, word};

/// What the trials work with.
#[derive(Drop)]
struct Trials<'r> {
    rt: &'r HostRuntime,
}

impl<'r> Trial for Trials<'r> {
    fn answer(&self, alloc: Global, case: &Case, ask: &[u8], sheet: &mut Sheet) {
        let word = word(ask, 0);
        if word == b"sql_store".as_slice() {
            store::in_memory(alloc, case, sheet);
        } else if word == b"vault".as_slice() {
            vaults::vault(self.rt, alloc, case, ask, sheet);
        } else if word == b"both".as_slice() {
            histories::both(alloc, case, ask, sheet);
        } else if word == b"stops".as_slice() {
            stops::stops(alloc, case, ask, sheet);
        } else {
            sheet.refuse();
        }
    }
}

fn main(rt: HostRuntime) -> ExitCode {
    run_cases(&rt, rt.alloc(), &Trials { rt: &rt })
}
