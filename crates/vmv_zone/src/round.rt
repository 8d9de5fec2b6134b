ghost use Rattle.std.specs.Prelude.{◌≡◌, ◌≤◌, ◌<◌, ◌-◌, ◌^◌, pos, ◌≤ℤ◌};
ghost use Rattle.std.specs.List.{Contains};
ghost use Rattle.vmv_zone.specs.Bounds.{IsInReach, AreInReach, AreZeroOutside, IsTableBy, bound_at};
ghost use Rattle.vmv_zone.specs.Zone.{vars_of};
ghost use Rattle.vmv_zone.specs.Round.{AreSorted, IsLeastFrom, IsRounded};

use crate::paths::CELLS;
use crate::zone::Zone;

impl Zone {
    /// The least state above this one all of whose bounds are thresholds; Bottom stays Bottom. It isn't normed.
    ///
    /// The thresholds are in order, and have 0 and the bounds that words keep.
    pub fn round_up(&self, thresholds: &[i128]) -> Zone
        requires sorted { AreSorted thresholds.now }
        requires zero { Contains thresholds.now (pos 0) }
        requires greatest_word { Contains thresholds.now (pos (2 ^ 63 - 1)) }
        requires least_word { Contains thresholds.now (pos (2 ^ 63)) }
        requires most { Contains thresholds.now (pos (2 ^ 64 - 1)) }
        ensures { IsRounded thresholds.now self.now result }
    {
        let mut rounded = *self;
        rounded.raise_to(thresholds);
        rounded
    }

    /// Raises this state to the least one all of whose bounds are thresholds; Bottom stays Bottom. It isn't normed.
    ///
    /// The thresholds are in order, and have 0 and the bounds that words keep.
    pub fn raise_to(&mut self, thresholds: &[i128])
        requires sorted { AreSorted thresholds.now }
        requires zero { Contains thresholds.now (pos 0) }
        requires greatest_word { Contains thresholds.now (pos (2 ^ 63 - 1)) }
        requires least_word { Contains thresholds.now (pos (2 ^ 63)) }
        requires most { Contains thresholds.now (pos (2 ^ 64 - 1)) }
        ensures { IsRounded thresholds.now self.old self.new }
    {
        if self.bottom {
            return;
        }
        round_bounds(&mut self.bounds, self.vars as usize, thresholds);
    }
}

/// Raises each bound to a threshold.
fn round_bounds(bounds: &mut [i128; CELLS], vars: usize, thresholds: &[i128])
    requires few { vars ≤ 17 }
    requires reach { AreInReach bounds.old }
    requires outside { AreZeroOutside vars bounds.old }
    requires sorted { AreSorted thresholds.now }
    requires most { Contains thresholds.now (pos (2 ^ 64 - 1)) }
    ensures { IsTableBy (λ i j t. IsLeastFrom thresholds.now (bound_at bounds.old i j) t) vars bounds.new }
{
    for place in 0..18 * (vars + 1) {
        let threshold = rounded_at(bounds, vars, place / 18, place % 18, thresholds);
        bounds[place] = threshold;
    }
}

/// The bound on `i - j` raised to a threshold; 0 where `j` is past the last variable.
fn rounded_at(bounds: &[i128; CELLS], vars: usize, i: usize, j: usize, thresholds: &[i128]) -> i128
    requires few { vars ≤ 17 }
    requires i { i ≤ vars }
    requires j { j ≤ 17 }
    requires reach { AreInReach bounds.now }
    requires sorted { AreSorted thresholds.now }
    requires most { Contains thresholds.now (pos (2 ^ 64 - 1)) }
    ensures inside { j ≤ vars → IsLeastFrom thresholds.now (bound_at bounds.now i j) result }
    ensures outside { vars < j → result ≡ pos 0 }
    ensures reach { IsInReach result }
{
    if j > vars {
        return 0;
    }
    least_from(bounds[18 * i + j], thresholds)
}

/// The least threshold that is at least the bound.
fn least_from(bound: i128, thresholds: &[i128]) -> i128
    requires reach { IsInReach bound }
    requires sorted { AreSorted thresholds.now }
    requires most { Contains thresholds.now (pos (2 ^ 64 - 1)) }
    ensures least { IsLeastFrom thresholds.now bound result }
    ensures reach { IsInReach result }
{
    let place = thresholds.partition_point(|threshold| *threshold < bound);
    thresholds[place]
}
