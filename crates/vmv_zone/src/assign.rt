ghost use Rattle.std.specs.Prelude.{◌≡◌, ◌≤◌, ◌<◌, ◌+◌, ◌^◌, ◌-◌, pos, negsuc, ◌≤ℤ◌, ℕ};
ghost use Rattle.vmv_cond.specs.declared.cond.Cond.{Cond};
ghost use Rattle.vmv_zone.specs.declared.zone.Zone.{Zone};
ghost use Rattle.vmv_zone.specs.Zone.{vars_of, IsNormal};
ghost use Rattle.vmv_zone.specs.Operand.{IsOperand, IsNonzero, low, up, dif};
ghost use Rattle.vmv_zone.specs.Confine.{Confines, HasClosedBounds};
ghost use Rattle.vmv_zone.specs.Step.{Given, Computed, IsCopy, IsSum, IsDifference, IsWordOf, IsAssigned, Drops, IsOperandOf};

use crate::operand::{ZERO, ZoneOp, ZoneOperand, ZoneValue};
use crate::zone::Zone;
use vmv_cond::Cond;

impl Zone {
    /// The state after the variable `to` was given the value. The state before it is normed.
    pub fn assign(mut self, to: u8, value: ZoneValue) -> Zone
        requires few { vars_of self ≤ 16 }
        requires variable { 1 ≤ to }
        requires to { to ≤ vars_of self }
        requires value { IsOperandOf value (vars_of self) }
        ensures { IsAssigned self to value result }
    {
        self.normalize();
        self.store(to, value);
        self
    }

    /// Gives the variable `to` the value, in a normal state.
    pub fn store(&mut self, to: u8, value: ZoneValue)
        requires normal { IsNormal self.old }
        requires few { vars_of self.old ≤ 16 }
        requires variable { 1 ≤ to }
        requires to { to ≤ vars_of self.old }
        requires value { IsOperandOf value (vars_of self.old) }
        ensures { IsAssigned self.old to value self.new }
    {
        if self.bottom {
            return;
        }
        self.extend();
        let fresh = ZoneOperand::Var(self.vars);
        self.give(fresh, value);
        self.normalize_closed();
        self.drop_to(to);
    }

    /// Makes the fresh variable, of which nothing is known, equal to the value.
    fn give(&mut self, fresh: ZoneOperand, value: ZoneValue)
        requires fresh { IsOperand (vars_of self.old) fresh }
        requires normal { IsNormal self.old }
        requires value { IsOperandOf value (vars_of self.old) }
        requires closed { HasClosedBounds self.old }
        ensures { Confines (vars_of self.old) (λ n. Given value self.old n fresh) self.old self.new }
    {
        match value {
            ZoneValue::Copy(operand) => self.copy_to(fresh, operand),
            ZoneValue::Arith { op, left, right } => self.compute(fresh, op, left, right),
            ZoneValue::Within(cond) => self.hold_within(fresh, cond),
        }
    }

    /// Makes the fresh variable equal to the operand.
    fn copy_to(&mut self, fresh: ZoneOperand, operand: ZoneOperand)
        requires fresh { IsOperand (vars_of self.old) fresh }
        requires operand { IsOperand (vars_of self.old) operand }
        requires closed { HasClosedBounds self.old }
        ensures { Confines (vars_of self.old) (λ n. IsCopy self.old n fresh operand) self.old self.new }
    {
        let marked = self.nonzero(operand);
        self.span(fresh, operand, 0, 0);
        self.make_nonzero_where(fresh, marked);
    }

    /// Makes the fresh variable a word of the condition.
    fn hold_within(&mut self, fresh: ZoneOperand, cond: Cond)
        requires fresh { IsOperand (vars_of self.old) fresh }
        requires closed { HasClosedBounds self.old }
        ensures { Confines (vars_of self.old) (λ n. IsWordOf cond n fresh) self.old self.new }
    {
        self.span(fresh, ZERO, cond.lo() as i128, cond.hi() as i128);
        self.make_nonzero_where(fresh, cond.zero_out());
    }
}
