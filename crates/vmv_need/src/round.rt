ghost use Rattle.std.specs.Prelude.{◌≡◌, ◌≤◌, ◌++◌, List, length, IsTrue, IfOk, OnOk};
ghost use Rattle.std.specs.List.{Contains};
ghost use Rattle.vmv_snapshot.specs.Procs.{outsides};
ghost use Rattle.vmv_snapshot.specs.Resolution.{tree_of};
ghost use Rattle.vmv_assumption.specs.Assumed.{names_of, cond_of};
ghost use Rattle.vmv_need.specs.declared.cut.Cut.{Cut};
ghost use Rattle.vmv_need.specs.Rounds.{cut_of, IsTurn, IsRound, HasCuts};
ghost use Rattle.vmv_need.specs.Plan.{IsPlanOf, IsReady, HasRoom};

use crate::candidate::Candidate;
use crate::cut::{Cut, Cuts};
use crate::judge::{Judging, meets};
use crate::plan::Plan;
use std::alloc::{AllocError, Global};
use std::thread::Threads;
use vmv_assumption::Assumption;
use vmv_crew::Turnstile;
use vmv_snapshot::Snapshot;

/// The exclusion that a candidate makes.
fn cut_of(candidate: &Candidate, under: u32) -> Cut
    ensures { result ≡ cut_of under candidate.now }
{
    Cut {
        entry: candidate.entry,
        within: candidate.within,
        name: candidate.name,
        piece: candidate.piece,
        under,
    }
}

/// A candidate's turn: where it acts and its piece meets the running assumption, that is cut by it and the exclusion
/// recorded.
fn take_turn(
    running: &mut Assumption,
    cuts: &mut Cuts,
    candidate: &Candidate,
    acts: bool,
    under: u32,
) -> Result<(), AllocError>
    requires held { Contains (names_of running.old) candidate.now.name }
    ensures names { OnOk result (names_of running.new ≡ names_of running.old) }
    ensures turn { OnOk result ((made : List Cut) × IsTurn (IsTrue acts) under candidate.now (cond_of running.old) made (cond_of running.new) × (cuts.new ≡ cuts.old ++ made)) }
{
    if acts && meets(running.get(&candidate.name), candidate.piece) {
        let _held = running.cut(&candidate.name, candidate.piece);
        cuts.push(cut_of(candidate, under))?;
    }
    Ok(())
}

impl Judging<'_> {
    /// A round: judges all candidates, then lets each that acts cut the assumption, and records the exclusions.
    fn round<R: Threads + Sync, T: Turnstile + Sync>(
        &self,
        rt: &R,
        alloc: Global,
        cuts: &mut Cuts,
        workers: u32,
        turnstile: &T,
    ) -> Result<Assumption, AllocError>
        requires ready { IsReady self.now.base.now self.now.plan.now self.now.frozen.now }
        requires workers { (1 ≤ workers) × (workers ≤ 64) }
        requires room { HasRoom self.now.plan.now cuts.old }
        ensures names { IfOk result (λ next. names_of next ≡ names_of self.now.frozen.now) }
        ensures round { IfOk result (λ next. (made : List Cut) × IsRound self.now.base.now self.now.plan.now.scope (length cuts.old) (cond_of self.now.frozen.now) made (cond_of next) × (cuts.new ≡ cuts.old ++ made)) }
    {
        let under = cuts.len() as u32;
        let acting = self.judge_all(rt, alloc, workers, turnstile)?;
        let mut running = self.frozen.copy(alloc)?;
        for place in 0..self.plan.candidates.len() {
            let candidate = self.plan.candidates[place];
            take_turn(&mut running, cuts, &candidate, acting[place], under)?;
        }
        Ok(running)
    }
}

/// What the rounds end in.
#[derive(Drop)]
pub(crate) struct Found {
    /// The necessary conditions.
    pub(crate) assumed: Assumption,
    /// The exclusions that were recorded.
    pub(crate) cuts: Cuts,
}

/// Rounds, from the whole conditions until one records nothing.
pub(crate) fn rounds<R: Threads + Sync, T: Turnstile + Sync>(
    rt: &R,
    alloc: Global,
    base: &Snapshot,
    plan: &Plan,
    workers: u32,
    turnstile: &T,
) -> Result<Found, AllocError>
    requires plan { IsPlanOf base.now plan.now }
    requires workers { (1 ≤ workers) × (workers ≤ 64) }
    ensures names { IfOk result (λ found. names_of found.assumed ≡ outsides (tree_of base.now)) }
    ensures cuts { IfOk result (λ found. HasCuts base.now plan.now.scope (cond_of found.assumed) found.cuts) }
{
    let mut frozen = Assumption::whole(alloc, base)?;
    let mut cuts = Cuts::new(alloc);
    'rounds: loop {
        let before = cuts.len();
        let judging = Judging {
            base,
            plan,
            frozen: &frozen,
        };
        let next = judging.round(rt, alloc, &mut cuts, workers, turnstile)?;
        if cuts.len() == before {
            return Ok(Found {
                assumed: next,
                cuts,
            });
        }
        frozen = next;
    }
}
