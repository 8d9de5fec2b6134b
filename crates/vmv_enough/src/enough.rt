ghost use Rattle.std.specs.Prelude.{◌≡◌, ◌<◌, ◌≤◌, IfOk, IfSome, IfNone};
ghost use Rattle.std.specs.List.{Contains};
ghost use Rattle.vmv_snapshot.specs.Procs.{outsides};
ghost use Rattle.vmv_snapshot.specs.Resolution.{tree_of};
ghost use Rattle.vmv_assumption.specs.Assumed.{names_of, cond_of};
ghost use Rattle.vmv_table_sound.specs.Told.{IsProved};
ghost use Rattle.vmv_enough.specs.Plan.{IsPlan, AreJudged};
ghost use Rattle.vmv_enough.specs.Tighten.{IsMetWith};
ghost use Rattle.vmv_enough.specs.Enough.{IsSufficient, NoneEmpty, AreSafe};
ghost use Rattle.vmv_enough.specs.Measure.{Steps, Ended};

use crate::judge::{is_proved, judge};
use crate::levels::{LEVELS, keep_to_level};
use crate::open::first_open;
use crate::plan::{Plan, plan_of};
use std::alloc::{AllocError, Global};
use std::thread::Threads;
use vmv_assumption::Assumption;
use vmv_cert::Sites;
use vmv_crew::Turnstile;
use vmv_demands::Demand;
use vmv_snapshot::Snapshot;
use vmv_table_sound::proved_programs_are_safe;

/// Meets the condition of a demand's name with the demand.
fn meet_demand(assumed: &mut Assumption, demand: &Demand)
    requires { Contains (names_of assumed.old) demand.now.name }
    ensures names { names_of assumed.new ≡ names_of assumed.old }
    ensures met { IsMetWith demand.now (cond_of assumed.old) (cond_of assumed.new) }
{
    let met = assumed.get(&demand.name).meet(demand.cond);
    assumed.set(&demand.name, met);
}

/// Tightens what is assumed once, where so many levels have been taken, and answers how many are taken then: by the first
/// open demand or, where none is open, by the next level. `None` where no level is left.
fn tighten(
    base: &Snapshot,
    plan: &Plan,
    judged: &[Sites],
    assumed: &mut Assumption,
    taken: usize,
) -> Option<usize>
    requires plan { IsPlan base.now plan.now }
    requires judged { AreJudged base.now plan.now (cond_of assumed.old) judged.now }
    requires names { names_of assumed.old ≡ outsides (tree_of base.now) }
    requires taken { taken ≤ 4 }
    ensures names { names_of assumed.new ≡ names_of assumed.old }
    ensures some { IfSome result (Steps base.now plan.now.ends (cond_of assumed.old) taken (cond_of assumed.new)) }
    ensures none { IfNone result (Ended base.now plan.now.ends (cond_of assumed.old) taken (cond_of assumed.new)) }
{
    if let Some(demand) = first_open(base, plan, assumed, judged) {
        meet_demand(assumed, &demand);
        return Some(taken);
    }
    if taken < LEVELS.len() {
        keep_to_level(base, assumed, LEVELS[taken]);
        return Some(taken + 1);
    }
    None
}

/// The sufficient conditions of a program, from its necessary ones: these are tightened, by the first open demand or, where
/// none is open, by the next level, until every site of every entry is provable. `None` where that doesn't come. It fails
/// for want of memory alone.
///
/// The entries are judged by so many workers, 1 to 64, before each step. Each entry passes the turnstile.
pub fn sufficient<R: Threads + Sync, T: Turnstile + Sync>(
    rt: &R,
    alloc: Global,
    base: &Snapshot,
    needed: &Assumption,
    workers: u32,
    turnstile: &T,
) -> Result<Option<Assumption>, AllocError>
    requires workers { (1 ≤ workers) × (workers ≤ 64) }
    requires names { names_of needed.now ≡ outsides (tree_of base.now) }
    requires nonempty { NoneEmpty base.now (cond_of needed.now) }
    ensures sufficient { IfOk result (λ enough. IsSufficient base.now (cond_of needed.now) enough) }
    ensures names { IfOk result (λ enough. IfSome enough (λ held. names_of held ≡ outsides (tree_of base.now))) }
    ensures nonempty { IfOk result (λ enough. IfSome enough (λ held. NoneEmpty base.now (cond_of held))) }
    ensures safe { IfOk result (λ enough. IfSome enough (λ held. AreSafe base.now (cond_of held))) }
{
    proved_programs_are_safe();
    let _ = base.program();
    let plan = plan_of(rt, alloc, base, workers)?;
    let mut assumed = needed.copy(alloc)?;
    let mut taken = 0;
    'tightening: loop {
        let judged = judge(rt, alloc, base, &plan, &assumed, workers, turnstile)?;
        if is_proved(base, &plan, &assumed, judged.as_slice()) {
            return Ok(Some(assumed));
        }
        match tighten(base, &plan, judged.as_slice(), &mut assumed, taken) {
            Some(more) => taken = more,
            None => return Ok(None),
        }
    }
}
