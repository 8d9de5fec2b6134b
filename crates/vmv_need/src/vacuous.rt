ghost use Rattle.std.specs.Prelude.{◌≤◌, MatchOption, IfOk};
ghost use Rattle.std.specs.List.{Contains};
ghost use Rattle.vmv_tree.specs.declared.name.Name.{Name};
ghost use Rattle.vmv_snapshot.specs.declared.code.ProcId.{ProcId};
ghost use Rattle.vmv_snapshot.specs.Procs.{outsides};
ghost use Rattle.vmv_snapshot.specs.Resolution.{tree_of};
ghost use Rattle.vmv_assumption.specs.Assumed.{cond_of};
ghost use Rattle.vmv_cert.specs.Tables.{Box};
ghost use Rattle.vmv_need.specs.Candidates.{places_of};
ghost use Rattle.vmv_need.specs.Vacuous.{IsEmptyName, IsDoomed, IsVacuous, IsFirst, IsShownBy};
ghost use Rattle.vmv_need.specs.Plan.{IsPlanOf, IsFirstDoomed};

use crate::death::death_of;
use crate::dooming::Dooming;
use crate::plan::Plan;
use crate::shown::ShownBy;
use std::alloc::{AllocError, Global};
use std::thread::Threads;
use vmv_assumption::Assumption;
use vmv_snapshot::Snapshot;
use vmv_tree::Name;

/// The first of these names whose condition is empty.
fn first_empty(names: &[Name], assumed: &Assumption) -> Option<Name>
    ensures { MatchOption result ((name : Name) → Contains names.now name → ¬ IsEmptyName (cond_of assumed.now) name) (λ name. IsFirst (IsEmptyName (cond_of assumed.now)) names.now name) }
{
    for name in names {
        if assumed.get(name).is_empty() {
            return Some(*name);
        }
    }
    None
}

/// The first entry and box from which it doesn't return, with the least table. So many workers look.
fn first_doomed<R: Threads + Sync>(
    rt: &R,
    alloc: Global,
    base: &Snapshot,
    plan: &Plan,
    assumed: &Assumption,
    workers: u32,
) -> Result<Option<ShownBy>, AllocError>
    requires planned { IsPlanOf base.now plan.now }
    requires workers { (1 ≤ workers) × (workers ≤ 64) }
    ensures { IfOk result (λ found. MatchOption found ((place : ProcId × Box) → Contains (places_of plan.now.scope) place → ¬ IsDoomed base.now plan.now.scope (cond_of assumed.now) place) (λ shown. IsFirstDoomed base.now plan.now.scope (cond_of assumed.now) shown)) }
{
    let dooming = Dooming {
        base,
        plan,
        assumed,
    };
    let doomed = dooming.judge_all(rt, alloc, workers)?;
    for place in 0..plan.places.len() {
        let (entry, within) = plan.places[place];
        if !doomed[place] {
            continue;
        }
        if let Some(table) = death_of(alloc, base, plan, entry, &within, assumed)? {
            return Ok(Some(ShownBy::Doomed {
                entry,
                within,
                table,
            }));
        }
    }
    Ok(None)
}

/// What shows that the program is vacuous under what is assumed; `None` exactly where it isn't. So many workers look.
pub(crate) fn shown_by<R: Threads + Sync>(
    rt: &R,
    alloc: Global,
    base: &Snapshot,
    plan: &Plan,
    assumed: &Assumption,
    workers: u32,
) -> Result<Option<ShownBy>, AllocError>
    requires planned { IsPlanOf base.now plan.now }
    requires workers { (1 ≤ workers) × (workers ≤ 64) }
    ensures { IfOk result (λ found. MatchOption found (¬ IsVacuous base.now plan.now.scope (cond_of assumed.now)) (λ shown. IsVacuous base.now plan.now.scope (cond_of assumed.now) × IsShownBy base.now plan.now.scope (cond_of assumed.now) shown)) }
{
    match first_empty(base.outsides(), assumed) {
        Some(name) => Ok(Some(ShownBy::EmptyName(name))),
        None => {
            let found = first_doomed(rt, alloc, base, plan, assumed, workers)?;
            Ok(found)
        }
    }
}
