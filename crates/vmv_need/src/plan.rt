ghost use Rattle.std.specs.Prelude.{◌≡◌, ◌≤◌, ◌++◌, IfOk, OnOk};
ghost use Rattle.std.specs.List.{flat_map};
ghost use Rattle.vmv_need.specs.Candidates.{places_in, places_of};
ghost use Rattle.vmv_need.specs.Plan.{IsPlanOf};

use crate::candidate::{Candidate, candidates_in};
use crate::gather::{EntryThresholds, all_thresholds, scope_of};
use crate::subject::{Scope, Subject};
use std::alloc::{AllocError, Global};
use std::thread::Threads;
use vmv_snapshot::{ParamBox, ProcId, Snapshot};

/// What is looked at in a program, in the order of the work.
#[derive(Drop)]
pub(crate) struct Plan {
    /// What is looked at.
    pub(crate) scope: Scope,
    /// The exclusions that are looked at.
    pub(crate) candidates: Vec<Candidate>,
    /// Each entry with each of its boxes.
    pub(crate) places: Vec<(ProcId, ParamBox)>,
    /// The thresholds of each entry.
    pub(crate) thresholds: EntryThresholds,
}

/// Adds an entry with each of its boxes.
fn add_places(places: &mut Vec<(ProcId, ParamBox)>, subject: &Subject) -> Result<(), AllocError>
    ensures { OnOk result (places.new.items ≡ places.old.items ++ places_in subject.now) }
{
    for within in subject.boxes.as_slice() {
        places.push((subject.entry, *within))?;
    }
    Ok(())
}

/// Each entry with each of its boxes, in order.
fn places_in(alloc: Global, scope: &Scope) -> Result<Vec<(ProcId, ParamBox)>, AllocError>
    ensures { IfOk result (λ places. places.items ≡ places_of scope.now) }
{
    let mut places = Vec::new(alloc);
    for subject in scope.subjects.as_slice() {
        add_places(&mut places, subject)?;
    }
    Ok(places)
}

/// The plan of the work on a program. So many workers look.
pub(crate) fn plan_of<R: Threads + Sync>(
    rt: &R,
    alloc: Global,
    base: &Snapshot,
    workers: u32,
) -> Result<Plan, AllocError>
    requires workers { (1 ≤ workers) × (workers ≤ 64) }
    ensures { IfOk result (IsPlanOf base.now) }
{
    let _ = base.program();
    let scope = scope_of(rt, alloc, base, workers)?;
    let candidates = candidates_in(alloc, &scope)?;
    let places = places_in(alloc, &scope)?;
    let thresholds = all_thresholds(alloc, base, &scope.ends)?;
    Ok(Plan {
        scope,
        candidates,
        places,
        thresholds,
    })
}
