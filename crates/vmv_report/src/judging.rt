ghost use Rattle.std.specs.Prelude.{◌≡◌, ◌≤◌, List, IfOk, IfSome};
ghost use Rattle.vmv_tree.specs.declared.name.Name.{Name};
ghost use Rattle.vmv_cond.specs.declared.cond.Cond.{Cond};
ghost use Rattle.vmv_assumption.specs.Assumed.{cond_of};
ghost use Rattle.vmv_demands.specs.Ends.{AreEnds};
ghost use Rattle.vmv_need.specs.declared.cut.Cut.{Cut as Recorded};
ghost use Rattle.vmv_need.specs.declared.needed.Needed.TheVariants.{Conditions};
ghost use Rattle.vmv_proving.specs.Shown.{AreShown};
ghost use Rattle.vmv_report.specs.Rows.{verdict_of};
ghost use Rattle.vmv_report.specs.Work.{IsReady};
ghost use Rattle.vmv_report.specs.Reports.{vacuous_report, IsReviewed, IsReport};

use crate::class::Class;
use crate::entries::entries_of;
use crate::kept::Baseline;
use crate::proving::Judging;
use crate::report::Report;
use crate::row::ReportRow;
use crate::row_texts::class_count;
use crate::rows::all_rows;
use crate::told::Told;
use sqlite_items::Items;
use std::alloc::{AllocError, Global};
use std::thread::Threads;
use vmv_assumption::Assumption;
use vmv_crew::Turnstile;
use vmv_demands::ends;
use vmv_need::{Needed, ShownBy};
use vmv_proof::Shown;
use vmv_snapshot::Snapshot;
use vmv_tree::Ends;

/// The verdict of the rows.
fn verdict_of(rows: &[ReportRow]) -> u8
    ensures { result ≡ verdict_of rows.now }
{
    if class_count(Class::Regression, rows) != 0 {
        return 3;
    }
    if class_count(Class::Alarm, rows) != 0 {
        return 2;
    }
    1
}

/// Conditions that are the same, where there are some.
fn copied(alloc: Global, enough: &Option<Assumption>) -> Result<Option<Assumption>, AllocError>
    ensures { IfOk result (λ copied. copied ≡ enough.now) }
{
    match enough {
        Some(assumed) => Ok(Some(assumed.copy(alloc)?)),
        None => Ok(None),
    }
}

/// The report of a base that isn't vacuous.
fn review<R: Threads + Sync, T: Turnstile + Sync>(
    rt: &R,
    alloc: Global,
    judging: &Judging<'_>,
    workers: u32,
    turnstile: &T,
) -> Result<Report, AllocError>
    requires ready { IsReady judging.now }
    requires workers { (1 ≤ workers) × (workers ≤ 64) }
    ensures { IfOk result (IsReviewed judging.now.revision.now judging.now.ends.now judging.now.needed.now judging.now.enough.now) }
{
    let conditions = judging.needed.copy(alloc)?;
    let sufficient = copied(alloc, judging.enough)?;
    let Told {
        rows,
        witnesses,
        ..
    } = all_rows(rt, alloc, judging, workers, turnstile)?;
    Ok(Report {
        verdict: verdict_of(rows.as_slice()),
        conditions: Some(conditions),
        enough: sufficient,
        rows,
        witnesses,
        shown_by: None,
    })
}

/// The report of a base with these necessary conditions, by the tables of the revision's entries where they have been made.
fn reviewed<R: Threads + Sync, T: Turnstile + Sync>(
    rt: &R,
    alloc: Global,
    baseline: &Baseline,
    needed: &Assumption,
    revision: &Snapshot,
    ends: &Ends,
    shown: Option<&[Shown]>,
    workers: u32,
    turnstile: &T,
) -> Result<Report, AllocError>
    requires workers { (1 ≤ workers) × (workers ≤ 64) }
    requires needed { (cuts : List Recorded) × (baseline.now.needed ≡ Conditions needed.now cuts) }
    requires ends { AreEnds baseline.now.base ends.now }
    requires shown { IfSome shown (λ list. AreShown revision.now ends.now (cond_of needed.now) list.now) }
    ensures { IfOk result (IsReport baseline.now.base revision.now) }
{
    let _ = revision.program();
    let whole = Assumption::whole(alloc, baseline.base())?;
    let entries = entries_of(alloc, revision)?;
    let judging = Judging {
        revision,
        entries: entries.as_slice(),
        ends,
        whole: &whole,
        needed,
        enough: baseline.enough(),
        shown,
    };
    let report = review(rt, alloc, &judging, workers, turnstile)?;
    Ok(report)
}

/// The report of a vacuous base.
fn vacuous_report(alloc: Global, shown: &ShownBy) -> Result<Report, AllocError>
    ensures { IfOk result (λ report. report ≡ vacuous_report shown.now) }
{
    let shown = shown.copy(alloc)?;
    Ok(Report {
        verdict: 4,
        conditions: None,
        enough: None,
        rows: Items::new(alloc),
        witnesses: Items::new(alloc),
        shown_by: Some(shown),
    })
}

/// What a review tells of a revision, by what was found of the base. It fails for want of memory alone.
///
/// The entries of the revision are judged by so many workers, 1 to 64. Each entry passes the turnstile.
pub fn judge<R: Threads + Sync, T: Turnstile + Sync>(
    rt: &R,
    alloc: Global,
    baseline: &Baseline,
    revision: &Snapshot,
    workers: u32,
    turnstile: &T,
) -> Result<Report, AllocError>
    requires { (1 ≤ workers) × (workers ≤ 64) }
    ensures { IfOk result (IsReport baseline.now.base revision.now) }
{
    match baseline.needed() {
        Needed::Conditions { assumption, .. } => {
            let ends = ends(alloc, baseline.base())?;
            reviewed(
                rt, alloc, baseline, assumption, revision, &ends, None, workers, turnstile,
            )
        }
        Needed::Vacuous { shown_by } => vacuous_report(alloc, shown_by),
    }
}

/// What `judge` tells, by tables of the revision's entries that have been made: no table is made once more. The ends are those
/// of the base's outside names. It fails for want of memory alone.
pub fn judge_by<R: Threads + Sync, T: Turnstile + Sync>(
    rt: &R,
    alloc: Global,
    baseline: &Baseline,
    revision: &Snapshot,
    ends: &Ends,
    shown: &[Shown],
    workers: u32,
    turnstile: &T,
) -> Result<Report, AllocError>
    requires workers { (1 ≤ workers) × (workers ≤ 64) }
    requires ends { AreEnds baseline.now.base ends.now }
    requires shown { (held : List (Name × Cond)) (cuts : List Recorded) → baseline.now.needed ≡ Conditions held cuts → AreShown revision.now ends.now (cond_of held) shown.now }
    ensures { IfOk result (IsReport baseline.now.base revision.now) }
{
    match baseline.needed() {
        Needed::Conditions { assumption, .. } => {
            reviewed(
                rt,
                alloc,
                baseline,
                assumption,
                revision,
                ends,
                Some(shown),
                workers,
                turnstile,
            )
        }
        Needed::Vacuous { shown_by } => vacuous_report(alloc, shown_by),
    }
}
