ghost use Rattle.std.specs.Prelude.{◌≡◌, ◌↔◌, ◌<◌, ℤ};
ghost use Rattle.vmv_cond.specs.Cond.{Holds};
ghost use Rattle.vmv_snapshot.specs.Procs.{outsides};
ghost use Rattle.vmv_snapshot.specs.Resolution.{tree_of};
ghost use Rattle.vmv_assumption.specs.Assumed.{names_of, cond_of};
ghost use Rattle.vmv_enough.specs.Levels.{InLevel, IsKeptTo, IsLevelled};

use vmv_assumption::Assumption;
use vmv_cond::Cond;
use vmv_snapshot::Snapshot;

/// The levels, in the order in which they are taken.
pub(crate) const LEVELS: [u32; 4] = [62, 31, 15, 7];

/// The words of a level.
fn level_cond(level: u32) -> Cond
    requires { level < 63 }
    ensures { (w : ℤ) → Holds result w ↔ InLevel level w }
{
    let size = 1i64 << level;
    Cond::of(-size, size - 1, false)
}

/// A condition met with a level, where that holds a word.
fn kept_to(level: u32, had: Cond) -> Cond
    requires { level < 63 }
    ensures { IsKeptTo level had result }
{
    let met = had.meet(level_cond(level));
    if met.is_empty() { had } else { met }
}

/// Keeps the condition of each outside name to a level, where that holds a word.
pub(crate) fn keep_to_level(base: &Snapshot, assumed: &mut Assumption, level: u32)
    requires names { names_of assumed.old ≡ outsides (tree_of base.now) }
    requires level { level < 63 }
    ensures names { names_of assumed.new ≡ names_of assumed.old }
    ensures levelled { IsLevelled base.now level (cond_of assumed.old) (cond_of assumed.new) }
{
    for name in base.outsides() {
        let cond = kept_to(level, assumed.get(name));
        assumed.set(name, cond);
    }
}
