//! Trials of jobs beside each other: where there are two workers, two jobs are at work at once.
#![tactic(auto)]

mod finds;
mod meeting;

use crate::finds::{find_necessary, find_report, find_sufficient, find_witnesses};
use crate::meeting::Meeting;
use std::alloc::{AllocError, Global};
use std::process::ExitCode;
use std::thread::Threads;
use vmv_cases::{Case, Sheet, Trial, run_cases, word};
use vmv_crew::Shared;
use vmv_snapshot::Snapshot;
use vmv_source::{TextFault, parse};

/// What the trials work with.
#[derive(Drop)]
struct Trials<'a, R> {
    rt: &'a R,
}

/// The program of a text.
fn program(alloc: Global, text: &[u8], sheet: &mut Sheet) -> Option<Snapshot> {
    match parse(alloc, text) {
        Ok(program) => Some(program),
        Err(TextFault::Memory) => {
            sheet.fall_short();
            None
        }
        Err(_) => {
            sheet.refuse();
            None
        }
    }
}

/// Does the work that an ask names. Answers whether it is one.
fn work<R: Threads + Sync>(
    rt: &R,
    alloc: Global,
    ask: &[u8],
    programs: (Snapshot, Snapshot),
    meeting: &Meeting,
) -> Result<bool, AllocError> {
    let what = word(ask, 0);
    let (base, revision) = programs;
    if what == b"necessary".as_slice() {
        find_necessary(rt, alloc, &base, meeting)?;
    } else if what == b"sufficient".as_slice() {
        find_sufficient(rt, alloc, &base, meeting)?;
    } else if what == b"witnesses".as_slice() {
        find_witnesses(rt, alloc, &base, word(ask, 1), meeting)?;
    } else if what == b"judge".as_slice() {
        find_report(rt, alloc, base, &revision, meeting)?;
    } else {
        return Ok(false);
    }
    Ok(true)
}

/// Writes whether two jobs were at work at once.
fn put_meeting(meeting: &Meeting, sheet: &mut Sheet) {
    if meeting.has_met() {
        sheet.line(b"two at once");
    } else {
        sheet.line(b"one after another");
    }
}

impl<'a, R: Threads + Shared + Sync> Trial for Trials<'a, R> {
    fn answer(&self, alloc: Global, case: &Case, ask: &[u8], sheet: &mut Sheet) {
        let Some(base) = program(alloc, case.text(b"program"), sheet) else {
            return;
        };
        let Some(revision) = program(alloc, case.text(b"program"), sheet) else {
            return;
        };
        self.rt.shared();
        let meeting = Meeting::new();
        match work(self.rt, alloc, ask, (base, revision), &meeting) {
            Ok(true) => put_meeting(&meeting, sheet),
            Ok(false) => sheet.refuse(),
            Err(_) => sheet.fall_short(),
        }
    }
}

fn main(rt: HostRuntime) -> ExitCode {
    run_cases(&rt, rt.alloc(), &Trials { rt: &rt })
}
