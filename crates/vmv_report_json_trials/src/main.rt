//! Trials of reports as JSON, by texts.
#![tactic(auto)]

use std::alloc::{AllocError, Global};
use std::process::ExitCode;
use std::sync::Arc;
use std::thread::Threads;
use vmv_cases::{Case, Sheet, Trial, run_cases, word};
use vmv_crew::{Open, Shared};
use vmv_edge::Text;
use vmv_report::{baseline, judge};
use vmv_report_json::json_of;
use vmv_snapshot::Snapshot;
use vmv_source::{TextFault, parse};

/// What the trials work with.
#[derive(Drop)]
struct Trials<'a, R> {
    rt: &'a R,
}

/// The program of a text.
fn program(alloc: Global, text: &[u8], sheet: &mut Sheet) -> Option<Snapshot> {
    match parse(alloc, text) {
        Ok(program) => Some(program),
        Err(TextFault::Memory) => {
            sheet.fall_short();
            None
        }
        Err(_) => {
            sheet.refuse();
            None
        }
    }
}

/// The JSON of the report of a revision against a base.
fn reviewed<R: Threads + Sync>(
    rt: &R,
    alloc: Global,
    base: Snapshot,
    revision: &Snapshot,
) -> Result<Text, AllocError> {
    let found = baseline(rt, alloc, Arc::new(alloc, base)?, 1, &Open)?;
    let report = judge(rt, alloc, &found, revision, 1, &Open)?;
    json_of(alloc, &report, found.base(), revision)
}

/// Answers with the JSON of a review.
fn json<R: Threads + Sync>(rt: &R, alloc: Global, base: &[u8], revision: &[u8], sheet: &mut Sheet) {
    let Some(base) = program(alloc, base, sheet) else {
        return;
    };
    let Some(revision) = program(alloc, revision, sheet) else {
        return;
    };
    match reviewed(rt, alloc, base, &revision) {
        Ok(text) => sheet.line(text.bytes()),
        Err(_) => sheet.fall_short(),
    }
}

impl<'a, R: Threads + Shared + Sync> Trial for Trials<'a, R> {
    fn answer(&self, alloc: Global, case: &Case, ask: &[u8], sheet: &mut Sheet) {
        if word(ask, 0) == b"json".as_slice() {
            let base = case.text(word(ask, 1));
            self.rt.shared();
            json(self.rt, alloc, base, case.text(word(ask, 2)), sheet);
        } else {
            sheet.refuse();
        }
    }
}

fn main(rt: HostRuntime) -> ExitCode {
    run_cases(&rt, rt.alloc(), &Trials { rt: &rt })
}
