ghost use Rattle.std.specs.Prelude.{◌≡◌, ◌↔◌, ◌<◌, ◌≤◌, length, IsTrue, IfOk};
ghost use Rattle.std.specs.List.{Contains};
ghost use Rattle.vmv_assumption.specs.Assumed.{cond_of};
ghost use Rattle.vmv_need.specs.Candidates.{candidates_of};
ghost use Rattle.vmv_need.specs.Acts.{Meets, Acts};
ghost use Rattle.vmv_need.specs.Plan.{IsReady, IsJudged, AreJudged};

use crate::candidate::Candidate;
use crate::death::death_of;
use crate::plan::Plan;
use std::alloc::{AllocError, Global};
use std::thread::Threads;
use vmv_assumption::Assumption;
use vmv_cond::{Cond, Piece};
use vmv_crew::{Job, Turnstile, fan};
use vmv_snapshot::Snapshot;

/// What is lent to those who judge the candidates of a round: one answer a candidate, which depends on this alone.
#[derive(Drop)]
pub(crate) struct Judging<'a> {
    /// The program.
    pub(crate) base: &'a Snapshot,
    /// What is looked at in it.
    pub(crate) plan: &'a Plan,
    /// What is assumed as the round begins.
    pub(crate) frozen: &'a Assumption,
}

/// Whether some word of the condition is in the piece.
pub(crate) fn meets(cond: Cond, piece: Piece) -> bool
    ensures { IsTrue result ↔ Meets cond piece }
{
    !cond.within(piece).is_empty()
}

impl Judging<'_> {
    /// Whether a candidate acts on what is assumed as the round begins.
    fn acts(&self, alloc: Global, candidate: &Candidate) -> Result<bool, AllocError>
        requires ready { IsReady self.now.base.now self.now.plan.now self.now.frozen.now }
        requires candidate { Contains (candidates_of self.now.plan.now.scope) candidate.now }
        ensures { IfOk result (λ acts. IsTrue acts ↔ Acts self.now.base.now self.now.plan.now.scope (cond_of self.now.frozen.now) candidate.now) }
    {
        if !meets(self.frozen.get(&candidate.name), candidate.piece) {
            return Ok(false);
        }
        let mut kept = self.frozen.copy(alloc)?;
        let _held = kept.keep_to(&candidate.name, candidate.piece);
        let death = death_of(
            alloc,
            self.base,
            self.plan,
            candidate.entry,
            &candidate.within,
            &kept,
        )?;
        Ok(death.is_some())
    }

    /// Whether the candidate at a place acts.
    pub(crate) fn judge(&self, alloc: Global, place: usize) -> Result<bool, AllocError>
        requires ready { IsReady self.now.base.now self.now.plan.now self.now.frozen.now }
        requires place { place < length self.now.plan.now.candidates.items }
        ensures { IfOk result (IsJudged (Acts self.now.base.now self.now.plan.now.scope (cond_of self.now.frozen.now)) self.now.plan.now.candidates.items place) }
    {
        let candidate = self.plan.candidates[place];
        let acts = self.acts(alloc, &candidate)?;
        Ok(acts)
    }

    /// Which candidates act, by their places: one job a candidate, by so many workers.
    pub(crate) fn judge_all<R: Threads + Sync, T: Turnstile + Sync>(
        &self,
        rt: &R,
        alloc: Global,
        workers: u32,
        turnstile: &T,
    ) -> Result<Vec<bool>, AllocError>
        requires ready { IsReady self.now.base.now self.now.plan.now self.now.frozen.now }
        requires workers { (1 ≤ workers) × (workers ≤ 64) }
        ensures { IfOk result (λ acting. AreJudged (Acts self.now.base.now self.now.plan.now.scope (cond_of self.now.frozen.now)) self.now.plan.now.candidates.items acting.items) }
    {
        let count = self.plan.candidates.len();
        let acting = fan(rt, alloc, self, count, workers, turnstile)?;
        Ok(acting.into_vec())
    }
}

impl Job for Judging<'_> {
    type Out = bool;

    ghost can_run = { λ judging place. IsReady judging.base.now judging.plan.now judging.frozen.now × (place < length judging.plan.now.candidates.items) };

    ghost allows = { λ judging place answer. IsJudged (Acts judging.base.now judging.plan.now.scope (cond_of judging.frozen.now)) judging.plan.now.candidates.items place answer };

    fn run(&self, alloc: Global, place: usize) -> Result<bool, AllocError> {
        self.judge(alloc, place)
    }
}
