ghost use Rattle.std.specs.Prelude.{◌≡◌, ◌≤◌, IfOk};
ghost use Rattle.std.specs.Arc.{arc_value};
ghost use Rattle.vmv_need.specs.Needed.{IsNeeded};
ghost use Rattle.vmv_report.specs.Baselines.{IsEnoughFor};

use crate::kept::Baseline;
use std::alloc::{AllocError, Global};
use std::sync::Arc;
use std::thread::Threads;
use vmv_assumption::Assumption;
use vmv_crew::Turnstile;
use vmv_enough::sufficient;
use vmv_need::{Needed, necessary};
use vmv_snapshot::Snapshot;

/// What suffices for a base to be safe; nothing does where it is vacuous.
fn enough_for<R: Threads + Sync, T: Turnstile + Sync>(
    rt: &R,
    alloc: Global,
    base: &Snapshot,
    needed: &Needed,
    workers: u32,
    turnstile: &T,
) -> Result<Option<Assumption>, AllocError>
    requires needed { IsNeeded base.now needed.now }
    requires workers { (1 ≤ workers) × (workers ≤ 64) }
    ensures { IfOk result (IsEnoughFor base.now needed.now) }
{
    let Needed::Conditions { assumption, .. } = needed else {
        return Ok(None);
    };
    let enough = sufficient(rt, alloc, base, assumption, workers, turnstile)?;
    Ok(enough)
}

/// What a review finds of a base. It fails for want of memory alone; its share of the base is given up then.
///
/// Candidates and entries are judged by so many workers, 1 to 64. Each passes the turnstile.
pub fn baseline<R: Threads + Sync, T: Turnstile + Sync>(
    rt: &R,
    alloc: Global,
    base: Arc<Snapshot>,
    workers: u32,
    turnstile: &T,
) -> Result<Baseline, AllocError>
    requires { (1 ≤ workers) × (workers ≤ 64) }
    ensures { IfOk result (λ found. found.base ≡ arc_value base) }
{
    let needed = necessary(rt, alloc, &base, workers, turnstile)?;
    let enough = enough_for(rt, alloc, &base, &needed, workers, turnstile)?;
    Ok(Baseline::of(base, needed, enough))
}
