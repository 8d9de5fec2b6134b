ghost use Rattle.std.specs.Prelude.{◌≡◌, ◌↔◌, ◌≤ℤ◌, ℤ, pos, IsTrue, IfSome, IfNone};
ghost use Rattle.vmv_enough.specs.Nearer.{nearer_of};
ghost use Rattle.vmv_tree.specs.Words.{IsWord};
ghost use Rattle.vmv_cond.specs.Cond.{Holds, IsEmpty};
ghost use Rattle.vmv_enough.specs.Picks.{IsPick};
ghost use Rattle.vmv_enough.specs.Probes.{IsInRange, Misses};
ghost use Rattle.vmv_enough.specs.declared.probe.Mode.TheVariants.{Nearest};

use crate::probe::Mode;
use vmv_cond::{Cond, Piece};
use vmv_demands::Demand;

/// The word of the condition that the mode picks.
pub(crate) fn pick(mode: Mode, cond: Cond) -> i64
    requires { ¬ IsEmpty cond }
    ensures word { IsWord result }
    ensures pick { IsPick mode (Holds cond) result }
{
    match mode {
        Mode::Least => cond.lo(),
        Mode::Greatest => cond.hi(),
        Mode::Nearest => nearest(cond),
    }
}

/// The word of the condition that is nearest to 0.
fn nearest(cond: Cond) -> i64
    requires { ¬ IsEmpty cond }
    ensures word { IsWord result }
    ensures pick { IsPick Nearest (Holds cond) result }
{
    match cond.nearest() {
        Some(word) => word,
        None => 0,
    }
}

/// The word of the range that the mode picks.
pub(crate) fn pick_in_range(mode: Mode, range: (i64, i64)) -> i64
    requires { range.0 ≤ℤ range.1 }
    ensures word { IsWord result }
    ensures pick { IsPick mode (IsInRange range) result }
{
    pick(mode, Cond::of(range.0, range.1, false))
}

/// Whether 0 meets the condition and not what is wanted.
fn misses_at_zero(cond: Cond, wanted: Cond) -> bool
    ensures { IsTrue result ↔ (Holds cond (pos 0) × ¬ Holds wanted (pos 0)) }
{
    cond.holds(0) && !wanted.holds(0)
}

/// The word nearest to 0 that meets the condition and misses the demand.
pub(crate) fn nearest_missing(cond: Cond, demand: &Demand) -> Option<i64>
    ensures some { IfSome result (IsPick Nearest (Misses cond demand.now)) }
    ensures none { IfNone result ((w : ℤ) → ¬ Misses cond demand.now w) }
{
    let wanted = demand.cond;
    if misses_at_zero(cond, wanted) {
        return Some(0);
    }
    let below = cond.within(Piece::Below(wanted.lo())).nearest();
    let above = cond.within(Piece::Above(wanted.hi())).nearest();
    nearer(below, above)
}

/// The nearer of two words to 0, the second of two that are as near.
fn nearer(below: Option<i64>, above: Option<i64>) -> Option<i64>
    ensures { result ≡ nearer_of below above }
{
    match below {
        None => above,
        Some(low) => match above {
            None => below,
            Some(high) if high.unsigned_abs() <= low.unsigned_abs() => above,
            Some(_) => below,
        },
    }
}
