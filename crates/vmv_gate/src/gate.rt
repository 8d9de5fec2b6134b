ghost use Rattle.std.specs.Prelude.{◌≡◌, ◌≤◌};
ghost use Rattle.std.proofs.Props.{props};
ghost use Rattle.vmv_tree.specs.Safe.{RelCorrect};
ghost use Rattle.vmv_snapshot.specs.Resolution.{Resolution, IsResolution, tree_of};
ghost use Rattle.vmv_report.specs.declared.report.Report.{Report};
ghost use Rattle.vmv_report.specs.Reports.{IsReport};
ghost use Rattle.vmv_report_json.specs.Json.{report_json};

use crate::judging::{compared, inspected};
use std::alloc::{AllocError, Global};
use std::thread::Threads;
use vmv_crew::Shared;
use vmv_edge::Text;
use vmv_keeper::{Compared, Inspected, Judge};
use vmv_report::correct_verdicts_hold;
use vmv_report_laws::reports_are_unique;

/// The judge of texts by their programs, for a number of workers from 1 to 64.
///
/// Its type keeps that number, and two laws of reports by which what it says is one thing and true.
#[derive(Drop)]
pub struct Gate<'a, R> {
    rt: &'a R,
    workers: u32,
    ghost some: { 1 ≤ workers } by { Prim.hlevel props },
    ghost few: { workers ≤ 64 } by { Prim.hlevel props },
    ghost one_report: { (base revision : Resolution) (one other : Report) → IsResolution base → IsReport base revision one → IsReport base revision other → (one.verdict ≡ other.verdict) × (report_json one revision ≡ report_json other revision) } by { Prim.hlevel props },
    ghost true_verdicts: { (base revision : Resolution) (report : Report) → IsResolution base → IsResolution revision → IsReport base revision report → report.verdict ≡ 1 → RelCorrect (tree_of base) (tree_of revision) } by { Prim.hlevel props },
}

impl<'a, R> Gate<'a, R> {
    /// A judge that works with this runtime and so many workers.
    pub fn new(rt: &'a R, workers: u32) -> Gate<'a, R>
        requires some { 1 ≤ workers }
        requires few { workers ≤ 64 }
    {
        reports_are_unique();
        correct_verdicts_hold();
        Gate { rt, workers }
    }

    /// The runtime.
    pub fn runtime(&self) -> &'a R {
        self.rt
    }

    /// The number of workers.
    pub fn workers(&self) -> u32
        ensures some { 1 ≤ result }
        ensures few { result ≤ 64 }
    {
        self.workers
    }
}

impl<'a, R: Threads + Shared + Sync> Judge for Gate<'a, R> {
    ghost use Rattle.vmv_gate.specs.Judged.{Inspects, Compares, Keeps};
    ghost use Rattle.vmv_gate.specs.Said.{inspected_once, compared_once, read_utf8, read_both};
    ghost use Rattle.vmv_gate.specs.Kept.{keeps_itself, keeps_on, keeps_sound};

    ghost inspected = { λ judge. Inspects };

    ghost compared = { λ judge. Compares };

    ghost keeps = { λ judge. Keeps };

    fn inspect(&self, alloc: Global, text: &Text) -> Result<Inspected, AllocError> {
        self.rt.shared();
        inspected(self.rt, alloc, text, self.workers)
    }

    fn compare(&self, alloc: Global, base: &Text, revision: &Text) -> Result<Compared, AllocError> {
        self.rt.shared();
        compared(self.rt, alloc, base, revision, self.workers)
    }

    ghost one_inspected = { λ judge text one other h k. inspected_once text one other h k };

    ghost one_compared = { λ judge base revision one other h k. compared_once judge.one_report base revision one other h k };

    ghost utf8 = { λ judge text said is h. read_utf8 text said is h };

    ghost readable = { λ judge base revision first second said h k is. read_both base revision first second said h k is };

    ghost reflexive = { λ judge text said is h. keeps_itself text said is h };

    ghost transitive = { λ judge first second third h g. keeps_on first second third h g };

    ghost sound = { λ judge base revision said is h. keeps_sound judge.true_verdicts base revision said is h };
}
