//! Trials of the desk: histories of commands, the rows that they leave, and the calls of the store that they make.
#![tactic(auto)]

mod acts;
mod history;
mod judged;
mod keeper;
mod migrated;
mod repeats;
mod small;
mod stores;

use std::alloc::Global;
use std::process::ExitCode;
use vmv_cases::{Case, Sheet, Trial, run_cases, word};
use vmv_gate::Gate;
use vmv_keeper::Judge;

/// What the trials work with.
#[derive(Drop)]
struct Trials<'a, J> {
    gate: &'a J,
}

/// Answers an ask about a history. Answers whether it is one.
fn ask_history<J: Judge>(
    gate: &J,
    alloc: Global,
    case: &Case,
    ask: &[u8],
    sheet: &mut Sheet,
) -> bool {
    let word = word(ask, 0);
    if word == b"replies".as_slice() {
        history::replies(alloc, case, ask, sheet);
    } else if word == b"calls".as_slice() {
        history::calls(alloc, case, ask, sheet);
    } else if word == b"rows".as_slice() {
        history::rows(alloc, case, ask, sheet);
    } else if word == b"list".as_slice() {
        history::list(alloc, case, sheet);
    } else if word == b"gate".as_slice() {
        history::gated(gate, alloc, case, sheet);
    } else {
        return false;
    }
    true
}

/// Answers an ask about a store or a judge. Answers whether it is one.
fn ask_store<J: Judge>(
    gate: &J,
    alloc: Global,
    case: &Case,
    ask: &[u8],
    sheet: &mut Sheet,
) -> bool {
    let word = word(ask, 0);
    if word == b"store".as_slice() {
        stores::store(alloc, case, ask, sheet);
    } else if word == b"faultless_store".as_slice() {
        stores::faultless_store(alloc, case, sheet);
    } else if word == b"inspect".as_slice() || word == b"compare".as_slice() {
        judged::judged(alloc, case, ask, sheet);
    } else if word == b"gate_inspect".as_slice() || word == b"gate_compare".as_slice() {
        judged::gated(gate, alloc, case, ask, sheet);
    } else {
        return false;
    }
    true
}

/// Answers an ask about a label, a list, an act or a version. Answers whether it is one.
fn ask_small(alloc: Global, case: &Case, ask: &[u8], sheet: &mut Sheet) -> bool {
    let word = word(ask, 0);
    if word == b"label".as_slice() {
        small::label(case.subject(ask), sheet);
    } else if word == b"list_of".as_slice() {
        small::list_of(alloc, ask, sheet);
    } else if word == b"same".as_slice() {
        acts::same(alloc, case, ask, sheet);
    } else if word == b"migrate".as_slice() {
        migrated::migrated(alloc, case.subject(ask), sheet);
    } else if word == b"history_copy".as_slice() {
        migrated::history_copy(alloc, case.subject(ask), sheet);
    } else {
        return false;
    }
    true
}

impl<'a, J: Judge> Trial for Trials<'a, J> {
    fn answer(&self, alloc: Global, case: &Case, ask: &[u8], sheet: &mut Sheet) {
        if ask_history(self.gate, alloc, case, ask, sheet) {
            return;
        }
        if ask_store(self.gate, alloc, case, ask, sheet) {
            return;
        }
        if !ask_small(alloc, case, ask, sheet) {
            sheet.refuse();
        }
    }
}

fn main(rt: HostRuntime) -> ExitCode {
    let gate = Gate::new(&rt, 1);
    run_cases(&rt, rt.alloc(), &Trials { gate: &gate })
}
