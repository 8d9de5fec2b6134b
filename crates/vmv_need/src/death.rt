ghost use Rattle.std.specs.Prelude.{◌↔◌, IfOk, IfSome, IsSome};
ghost use Rattle.vmv_assumption.specs.Assumed.{cond_of};
ghost use Rattle.vmv_cert.specs.Tables.{Dead};
ghost use Rattle.vmv_forward.specs.Least.{IsLeastTable};
ghost use Rattle.vmv_need.specs.Plan.{IsEntryWithin, IsPlanOf};

use crate::plan::Plan;
use std::alloc::{AllocError, Global};
use vmv_assumption::Assumption;
use vmv_cert::Table;
use vmv_forward::death;
use vmv_snapshot::{ParamBox, ProcId, Snapshot};

/// The least table of an entry and a box, where it says that the entry doesn't return. There is none exactly where no
/// accepted table of threshold states says so.
pub(crate) fn death_of(
    alloc: Global,
    base: &Snapshot,
    plan: &Plan,
    entry: ProcId,
    within: &ParamBox,
    assumed: &Assumption,
) -> Result<Option<Table>, AllocError>
    requires plan { IsPlanOf base.now plan.now }
    requires entry { IsEntryWithin base.now entry.0 within.now }
    ensures dead { IfOk result (λ found. IsSome found ↔ Dead base.now entry.0 within.now plan.now.scope.ends (cond_of assumed.now)) }
    ensures table { IfOk result (λ found. IfSome found (λ t. IsLeastTable base.now entry.0 within.now plan.now.scope.ends (cond_of assumed.now) t.rows)) }
{
    let Some(thresholds) = &plan.thresholds[entry.0 as usize] else {
        unreachable!()
    };
    let found = death(alloc, base, entry, within, assumed, thresholds)?;
    Ok(found)
}
