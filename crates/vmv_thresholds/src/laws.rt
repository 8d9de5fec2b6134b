ghost use Rattle.std.specs.Prelude.{ℕ, ◌-◌, ◌^◌, ℤ, pos, List};
ghost use Rattle.std.specs.List.{Contains};
ghost use Rattle.vmv_tree.specs.declared.ends.NameEnds.{NameEnds};
ghost use Rattle.vmv_tree.specs.Tree.{Item};
ghost use Rattle.vmv_zone.specs.Round.{AreSorted};
ghost use Rattle.vmv_thresholds.specs.Thresholds.{AreThresholds};

/// Thresholds are what the rounding up of states asks for: in order, with 0 and the bounds that words keep.
pub fn states_may_be_rounded_up()
    ensures sorted { (program : List Item) (proc : ℕ) (ends : List NameEnds) (ts : List ℤ) → AreThresholds program proc ends ts → AreSorted ts }
    ensures zero { (program : List Item) (proc : ℕ) (ends : List NameEnds) (ts : List ℤ) → AreThresholds program proc ends ts → Contains ts (pos 0) }
    ensures greatest_word { (program : List Item) (proc : ℕ) (ends : List NameEnds) (ts : List ℤ) → AreThresholds program proc ends ts → Contains ts (pos (2 ^ 63 - 1)) }
    ensures least_word { (program : List Item) (proc : ℕ) (ends : List NameEnds) (ts : List ℤ) → AreThresholds program proc ends ts → Contains ts (pos (2 ^ 63)) }
    ensures most { (program : List Item) (proc : ℕ) (ends : List NameEnds) (ts : List ℤ) → AreThresholds program proc ends ts → Contains ts (pos (2 ^ 64 - 1)) }
{}
