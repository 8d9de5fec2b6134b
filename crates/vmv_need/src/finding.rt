ghost use Rattle.std.specs.Prelude.{◌≤◌, IfOk};
ghost use Rattle.vmv_need.specs.Needed.{IsNeeded, AllowsSafe};

use crate::needed::Needed;
use crate::plan::plan_of;
use crate::round::rounds;
use crate::vacuous::shown_by;
use std::alloc::{AllocError, Global};
use std::thread::Threads;
use vmv_crew::Turnstile;
use vmv_snapshot::Snapshot;

/// The necessary conditions of a program: the greatest conditions on the answers of its outside names on which no
/// candidate acts; or, where the program is vacuous under them, what shows it. It fails for want of memory alone.
///
/// The candidates of a round are judged by so many workers, 1 to 64, each under what is assumed as the round begins. Each
/// candidate passes the turnstile. Behind the last round so many workers look whether an entry returns from its boxes, without
/// the turnstile.
pub fn necessary<R: Threads + Sync, T: Turnstile + Sync>(
    rt: &R,
    alloc: Global,
    base: &Snapshot,
    workers: u32,
    turnstile: &T,
) -> Result<Needed, AllocError>
    requires workers { (1 ≤ workers) × (workers ≤ 64) }
    ensures needed { IfOk result (IsNeeded base.now) }
    ensures safe { IfOk result (AllowsSafe base.now) }
{
    let plan = plan_of(rt, alloc, base, workers)?;
    let found = rounds(rt, alloc, base, &plan, workers, turnstile)?;
    match shown_by(rt, alloc, base, &plan, &found.assumed, workers)? {
        Some(shown_by) => Ok(Needed::Vacuous { shown_by }),
        None => Ok(Needed::Conditions {
            assumption: found.assumed,
            cuts: found.cuts,
        }),
    }
}
