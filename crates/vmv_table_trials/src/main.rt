//! Trials of tables, and of what they are made from: the boxes and thresholds of an entry, its least table over a box, and what
//! the checker says of a table.
#![tactic(auto)]

mod entry;
mod least;
mod read;
mod verdict;
mod write;

use std::alloc::Global;
use std::process::ExitCode;
use vmv_cases::{Case, Sheet, Trial, run_cases, word};

struct Trials;

impl Trial for Trials {
    fn answer(&self, alloc: Global, case: &Case, ask: &[u8], sheet: &mut Sheet) {
        let first = word(ask, 0);
        if first == b"boxes".as_slice() {
            entry::boxes_of(alloc, case, word(ask, 1), sheet);
        } else if first == b"thresholds".as_slice() {
            entry::thresholds(alloc, case, word(ask, 1), sheet);
        } else if first == b"least".as_slice() {
            least::least(alloc, case, ask, sheet);
        } else if first == b"check".as_slice() {
            verdict::check(alloc, case, sheet);
        } else {
            sheet.refuse();
        }
    }
}

fn main(rt: HostRuntime) -> ExitCode {
    run_cases(&rt, rt.alloc(), &Trials)
}
