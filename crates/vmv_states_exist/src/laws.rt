ghost use Rattle.std.specs.Prelude.{◌≡◌, ◌≤◌, ℕ, List, length, FitsSigned};
ghost use Rattle.std.specs.Int.{w64};
ghost use Rattle.vmv_cond.specs.declared.cond.Cond.{Cond};
ghost use Rattle.vmv_cond.specs.Cond.{IsEmpty, IsMeet};
ghost use Rattle.vmv_zone.specs.declared.zone.Zone.{Zone};
ghost use Rattle.vmv_zone.specs.declared.operand.ZoneOperand.{ZoneOperand};
ghost use Rattle.vmv_zone.specs.declared.operand.ZoneTest.{ZoneTest};
ghost use Rattle.vmv_zone.specs.declared.operand.ZoneValue.{ZoneValue};
ghost use Rattle.vmv_zone.specs.Zone.{vars_of, NotBottom, IsNormal, IsNormOf, IsFreed, IsJoin};
ghost use Rattle.vmv_zone.specs.Operand.{shift};
ghost use Rattle.vmv_zone.specs.Step.{IsGuarded, IsAssigned};
ghost use Rattle.vmv_zone.specs.Args.{argument_at, AreOperands, IsArgsOf};
ghost use Rattle.vmv_zone.specs.Read.{IsRangeOf};
ghost use Rattle.vmv_step.specs.Enter.{IsEntered};

/// No state is without a norm.
pub fn norms_exist()
    ensures { (z : Zone) → ¬ (¬ ((n : Zone) × IsNormOf z n)) }
{}

/// No guard is without a state behind it.
pub fn guards_exist()
    ensures { (z : Zone) (test : ZoneTest) → ¬ (¬ ((g : Zone) × IsGuarded z test g)) }
{}

/// No assignment is without a state behind it.
pub fn assignments_exist()
    ensures { (z : Zone) (to : ℕ) (value : ZoneValue) → vars_of z ≤ 16 → 1 ≤ to → ¬ (¬ ((r : Zone) × IsAssigned z to value r)) }
{}

/// No list of arguments whose literals are words is without a state.
pub fn argument_states_exist()
    ensures { (z : Zone) (args : List ZoneOperand) → length args ≤ 16 → AreOperands (vars_of z) args → ((i : ℕ) → i ≤ length args → FitsSigned w64 (shift (argument_at args i))) → ¬ (¬ ((r : Zone) × IsArgsOf z args r)) }
{}

/// Two states over the same variables have a join.
pub fn joins_exist()
    ensures { (a b : Zone) → vars_of a ≡ vars_of b → (j : Zone) × IsJoin a b j }
{}

/// The join of two normal states is normal.
pub fn joins_of_normal_states_are_normal()
    ensures { (a b j : Zone) → vars_of a ≡ vars_of b → IsNormal a → IsNormal b → IsJoin a b j → IsNormal j }
{}

/// A state that isn't Bottom has one in which the variable may have any word.
pub fn freed_states_exist()
    ensures { (z : Zone) (x : ℕ) → NotBottom z → (r : Zone) × IsFreed z r x }
{}

/// No operand is without a condition that holds its values.
pub fn ranges_exist()
    ensures { (z : Zone) (x : ZoneOperand) → ¬ (¬ ((c : Cond) × IsRangeOf z x c)) }
{}

/// There is a condition that holds the words of two conditions.
pub fn meets_of_conditions_exist()
    ensures { (a b : Cond) → (c : Cond) × IsMeet a b c }
{}

/// There is a condition that holds nothing.
pub fn an_empty_condition_exists()
    ensures { (c : Cond) × IsEmpty c }
{}

/// No input is without a state in which a procedure starts.
pub fn entered_states_exist()
    ensures { (input : Zone) (params declared count : ℕ) → vars_of input ≡ params → count ≤ 16 → ¬ (¬ ((r : Zone) × IsEntered input params declared count r)) }
{}
