ghost use Rattle.std.specs.Prelude.{◌≡◌, ◌↔◌, ◌<◌, ◌≤◌, length, IsTrue, IfOk};
ghost use Rattle.vmv_assumption.specs.Assumed.{cond_of};
ghost use Rattle.vmv_table_sound.specs.Told.{IsProved};
ghost use Rattle.vmv_enough.specs.Plan.{IsPlan, IsJudgedAt, AreJudged, AreEmpty};

use crate::plan::Plan;
use std::alloc::{AllocError, Global};
use std::thread::Threads;
use vmv_assumption::Assumption;
use vmv_cert::Sites;
use vmv_crew::{Job, Turnstile, fan};
use vmv_forward::unproved_sites;
use vmv_snapshot::Snapshot;

/// What is lent to those who judge the entries of a program: one answer an entry, which depends on this alone.
#[derive(Drop)]
pub(crate) struct Judging<'a> {
    /// The program.
    pub(crate) base: &'a Snapshot,
    /// What is looked at in it.
    pub(crate) plan: &'a Plan,
    /// What is assumed.
    pub(crate) assumed: &'a Assumption,
}

impl Judging<'_> {
    /// The sites of the entry at a place that aren't provable under what is assumed.
    fn unproved(&self, alloc: Global, place: usize) -> Result<Sites, AllocError>
        requires plan { IsPlan self.now.base.now self.now.plan.now }
        requires place { place < length self.now.plan.now.subjects }
        ensures { IfOk result (IsJudgedAt self.now.base.now self.now.plan.now (cond_of self.now.assumed.now) place) }
    {
        let subjects = self.plan.subjects.as_slice();
        let subject = &subjects[place];
        let sites = unproved_sites(
            alloc,
            self.base,
            subject.entry,
            self.assumed,
            &subject.thresholds,
        )?;
        Ok(sites)
    }
}

impl Job for Judging<'_> {
    type Out = Sites;

    ghost can_run = { λ judging place. IsPlan judging.base.now judging.plan.now × (place < length judging.plan.now.subjects) };

    ghost allows = { λ judging place sites. IsJudgedAt judging.base.now judging.plan.now (cond_of judging.assumed.now) place sites };

    fn run(&self, alloc: Global, place: usize) -> Result<Sites, AllocError> {
        self.unproved(alloc, place)
    }
}

/// The sites that aren't provable under what is assumed, for each entry: one job an entry, by so many workers.
pub(crate) fn judge<R: Threads + Sync, T: Turnstile + Sync>(
    rt: &R,
    alloc: Global,
    base: &Snapshot,
    plan: &Plan,
    assumed: &Assumption,
    workers: u32,
    turnstile: &T,
) -> Result<Vec<Sites>, AllocError>
    requires plan { IsPlan base.now plan.now }
    requires workers { (1 ≤ workers) × (workers ≤ 64) }
    ensures { IfOk result (λ judged. AreJudged base.now plan.now (cond_of assumed.now) judged.items) }
{
    let judging = Judging {
        base,
        plan,
        assumed,
    };
    let count = plan.subjects.len();
    let judged = fan(rt, alloc, &judging, count, workers, turnstile)?;
    Ok(judged.into_vec())
}

/// Whether no entry has a site that isn't provable.
fn are_empty(judged: &[Sites]) -> bool
    ensures { IsTrue result ↔ AreEmpty judged.now }
{
    for sites in judged {
        if !sites.is_empty() {
            return false;
        }
    }
    true
}

/// Whether every site is provable.
pub(crate) fn is_proved(
    base: &Snapshot,
    plan: &Plan,
    assumed: &Assumption,
    judged: &[Sites],
) -> bool
    requires plan { IsPlan base.now plan.now }
    requires judged { AreJudged base.now plan.now (cond_of assumed.now) judged.now }
    ensures { IsTrue result ↔ IsProved base.now plan.now.ends (cond_of assumed.now) }
{
    let _ = base;
    let _ = plan;
    let _ = assumed;
    are_empty(judged)
}
