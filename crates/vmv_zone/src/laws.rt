ghost use Rattle.std.specs.Prelude.{◌≡◌, ◌≤◌, ℕ, ℤ, List, length, FitsSigned};
ghost use Rattle.std.specs.Int.{w64};
ghost use Rattle.vmv_cond.specs.declared.cond.Cond.{Cond};
ghost use Rattle.vmv_cond.specs.Cond.{Holds, IsSubset};
ghost use Rattle.vmv_zone.specs.declared.zone.Zone.{Zone};
ghost use Rattle.vmv_zone.specs.declared.operand.ZoneOperand.{ZoneOperand};
ghost use Rattle.vmv_zone.specs.declared.operand.ZoneTest.{ZoneTest};
ghost use Rattle.vmv_zone.specs.declared.operand.ZoneValue.{ZoneValue};
ghost use Rattle.vmv_zone.specs.declared.operand.ZoneValue.TheVariants.{Within};
ghost use Rattle.vmv_zone.specs.Rel.{Meets};
ghost use Rattle.vmv_zone.specs.Zone.{vars_of, HasPoint, IsBelow, IsNormal, IsNormOf, IsJoin};
ghost use Rattle.vmv_zone.specs.Operand.{IsOperand, value_at};
ghost use Rattle.vmv_zone.specs.Step.{IsGuarded, IsAssigned, IsOperandOf};
ghost use Rattle.vmv_zone.specs.Points.{Gives, updated};
ghost use Rattle.vmv_zone.specs.Read.{IsRangeOf};
ghost use Rattle.vmv_zone.specs.Round.{IsRounded};
ghost use Rattle.vmv_zone.specs.Args.{argument_at, AreOperands, IsArgsOf};

/// The norm of a state has the state's points.
pub fn norm_keeps_points()
    ensures { (z m : Zone) (p : ℕ → ℤ) → IsNormOf z m → HasPoint z p → HasPoint m p }
{}

/// Lower states have lower norms.
pub fn norm_is_monotone()
    ensures { (a b m n : Zone) → vars_of a ≡ vars_of b → IsNormOf a m → IsNormOf b n → IsBelow a b → IsBelow m n }
{}

/// A point that meets the test is one of the state after the guard.
pub fn guard_keeps_points()
    ensures { (z g : Zone) (test : ZoneTest) (p : ℕ → ℤ) → IsOperand (vars_of z) test.left → IsOperand (vars_of z) test.right → IsGuarded z test g → HasPoint z p → Meets test.rel (value_at p test.left) (value_at p test.right) → HasPoint g p }
{}

/// Lower states have lower states after a guard.
pub fn guard_is_monotone()
    ensures { (a b g h : Zone) (test : ZoneTest) → vars_of a ≡ vars_of b → IsOperand (vars_of b) test.left → IsOperand (vars_of b) test.right → IsGuarded a test g → IsGuarded b test h → IsBelow a b → IsBelow g h }
{}

/// A point where the value is a word is, with that word for the target, one of the state after the assignment.
pub fn assign_keeps_points()
    ensures { (z r : Zone) (to : ℕ) (value : ZoneValue) (p : ℕ → ℤ) (w : ℤ) → vars_of z ≤ 16 → 1 ≤ to → to ≤ vars_of z → IsOperandOf value (vars_of z) → IsAssigned z to value r → HasPoint z p → Gives value p w → FitsSigned w64 w → HasPoint r (updated p to w) }
{}

/// Lower states have lower states after an assignment.
pub fn assign_is_monotone()
    ensures { (a b r s : Zone) (to : ℕ) (value : ZoneValue) → vars_of a ≡ vars_of b → 1 ≤ to → IsOperandOf value (vars_of b) → IsAssigned a to value r → IsAssigned b to value s → IsBelow a b → IsBelow r s }
{}

/// A point of a state is one of each state above it.
pub fn lower_states_have_fewer_points()
    ensures { (a b : Zone) (p : ℕ → ℤ) → vars_of a ≡ vars_of b → IsBelow a b → HasPoint a p → HasPoint b p }
{}

/// A normal state is below its norm, as its norm is below it.
pub fn normal_states_are_their_norms()
    ensures { (z n : Zone) → IsNormal z → IsNormOf z n → IsBelow z n }
{}

/// The state after an assignment is normal.
pub fn assign_is_normal()
    ensures { (z r : Zone) (to : ℕ) (value : ZoneValue) → 1 ≤ to → IsAssigned z to value r → IsNormal r }
{}

/// Lower states have lower joins.
pub fn join_is_monotone()
    ensures { (a b c d j k : Zone) → vars_of a ≡ vars_of c → vars_of b ≡ vars_of c → vars_of d ≡ vars_of c → IsJoin a b j → IsJoin c d k → IsBelow a c → IsBelow b d → IsBelow j k }
{}

/// Lower states have lower threshold states above them.
pub fn round_up_is_monotone()
    ensures { (thresholds : List ℤ) (a b r s : Zone) → vars_of a ≡ vars_of b → IsRounded thresholds a r → IsRounded thresholds b s → IsBelow a b → IsBelow r s }
{}

/// The arguments' values at a point are a point of the arguments' state.
pub fn copy_args_keeps_points()
    ensures { (z r : Zone) (args : List ZoneOperand) (p : ℕ → ℤ) → AreOperands (vars_of z) args → IsArgsOf z args r → HasPoint z p → ((i : ℕ) → i ≤ length args → FitsSigned w64 (value_at p (argument_at args i))) → HasPoint r (λ i. value_at p (argument_at args i)) }
{}

/// Lower states have lower states of arguments.
pub fn copy_args_is_monotone()
    ensures { (a b r s : Zone) (args : List ZoneOperand) → vars_of a ≡ vars_of b → AreOperands (vars_of b) args → IsArgsOf a args r → IsArgsOf b args s → IsBelow a b → IsBelow r s }
{}

/// The range of an operand holds its value at each point.
pub fn range_keeps_points()
    ensures { (z : Zone) (x : ZoneOperand) (c : Cond) (p : ℕ → ℤ) → IsOperand (vars_of z) x → IsRangeOf z x c → HasPoint z p → Holds c (value_at p x) }
{}

/// Lower states have narrower ranges.
pub fn range_is_monotone()
    ensures { (a b : Zone) (x : ZoneOperand) (c d : Cond) → vars_of a ≡ vars_of b → IsOperand (vars_of b) x → IsRangeOf a x c → IsRangeOf b x d → IsBelow a b → IsSubset c d }
{}

/// States over the same variables that are below one another are equal.
pub fn states_below_each_other_are_equal()
    ensures { (a b : Zone) → vars_of a ≡ vars_of b → IsBelow a b → IsBelow b a → a ≡ b }
{}

/// A state has one norm.
pub fn norm_is_unique()
    ensures { (z m n : Zone) → IsNormOf z m → IsNormOf z n → m ≡ n }
{}

/// A word of fewer words, assigned to a variable of a lower state, gives a lower state.
pub fn assign_is_monotone_in_the_words()
    ensures { (a b r s : Zone) (to : ℕ) (c d : Cond) → vars_of a ≡ vars_of b → 1 ≤ to → IsSubset c d → IsAssigned a to (Within c) r → IsAssigned b to (Within d) s → IsBelow a b → IsBelow r s }
{}

/// The state of arguments is normal.
pub fn copy_args_is_normal()
    ensures { (z r : Zone) (args : List ZoneOperand) → AreOperands (vars_of z) args → IsArgsOf z args r → IsNormal r }
{}
