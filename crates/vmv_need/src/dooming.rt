ghost use Rattle.std.specs.Prelude.{◌<◌, ◌≤◌, length, IfOk};
ghost use Rattle.vmv_assumption.specs.Assumed.{cond_of};
ghost use Rattle.vmv_need.specs.Vacuous.{IsDoomed};
ghost use Rattle.vmv_need.specs.Plan.{IsPlanOf, IsJudged, AreJudged};

use crate::death::death_of;
use crate::plan::Plan;
use std::alloc::{AllocError, Global};
use std::thread::Threads;
use vmv_assumption::Assumption;
use vmv_crew::{Job, Open, fan};
use vmv_snapshot::Snapshot;

/// What is lent to those who look which entries don't return from their boxes: one answer an entry and box.
#[derive(Drop)]
pub(crate) struct Dooming<'a> {
    /// The program.
    pub(crate) base: &'a Snapshot,
    /// What is looked at in it.
    pub(crate) plan: &'a Plan,
    /// What is assumed.
    pub(crate) assumed: &'a Assumption,
}

impl Dooming<'_> {
    /// Whether the entry and box at a place are doomed.
    fn judge(&self, alloc: Global, place: usize) -> Result<bool, AllocError>
        requires planned { IsPlanOf self.now.base.now self.now.plan.now }
        requires place { place < length self.now.plan.now.places.items }
        ensures { IfOk result (IsJudged (IsDoomed self.now.base.now self.now.plan.now.scope (cond_of self.now.assumed.now)) self.now.plan.now.places.items place) }
    {
        let (entry, within) = self.plan.places[place];
        let death = death_of(alloc, self.base, self.plan, entry, &within, self.assumed)?;
        Ok(death.is_some())
    }

    /// Which are doomed, by their places: one job an entry and box, by so many workers.
    pub(crate) fn judge_all<R: Threads + Sync>(
        &self,
        rt: &R,
        alloc: Global,
        workers: u32,
    ) -> Result<Vec<bool>, AllocError>
        requires planned { IsPlanOf self.now.base.now self.now.plan.now }
        requires workers { (1 ≤ workers) × (workers ≤ 64) }
        ensures { IfOk result (λ doomed. AreJudged (IsDoomed self.now.base.now self.now.plan.now.scope (cond_of self.now.assumed.now)) self.now.plan.now.places.items doomed.items) }
    {
        let count = self.plan.places.len();
        let doomed = fan(rt, alloc, self, count, workers, &Open)?;
        Ok(doomed.into_vec())
    }
}

impl Job for Dooming<'_> {
    type Out = bool;

    ghost can_run = { λ dooming place. IsPlanOf dooming.base.now dooming.plan.now × (place < length dooming.plan.now.places.items) };

    ghost allows = { λ dooming place answer. IsJudged (IsDoomed dooming.base.now dooming.plan.now.scope (cond_of dooming.assumed.now)) dooming.plan.now.places.items place answer };

    fn run(&self, alloc: Global, place: usize) -> Result<bool, AllocError> {
        self.judge(alloc, place)
    }
}
