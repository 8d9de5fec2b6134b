ghost use Rattle.std.specs.Prelude.{◌≡◌, ◌⊎◌, ℕ, ◌≤◌, length};
ghost use Rattle.vmv_zone.specs.Bounds.{IsMarkedIn, ExcludesZero, IsOffZeroVariable};

use crate::paths::CELLS;

/// Marks each variable whose range excludes 0.
pub(crate) fn mark_nonzero(bounds: &[i128; CELLS], marks: &mut [bool; 18], vars: usize)
    requires vars { vars ≤ 17 }
    ensures full { length marks.new ≡ 18 }
    ensures keeps { (i : ℕ) → IsMarkedIn marks.old i → IsMarkedIn marks.new i }
    ensures marked { (i : ℕ) → 1 ≤ i → i ≤ vars → ExcludesZero bounds.now i → IsMarkedIn marks.new i }
    ensures only { (i : ℕ) → IsMarkedIn marks.new i → IsMarkedIn marks.old i ⊎ IsOffZeroVariable vars bounds.now i }
{
    for i in 1..vars + 1 {
        if bounds[18 * i] < 0 || bounds[i] < 0 {
            marks[i] = true;
        }
    }
}
