ghost use Rattle.std.specs.Prelude.{◌≡◌, ◌↔◌, ◌≤ℤ◌, pos, negsuc, IsTrue};
ghost use Rattle.vmv_zone.specs.declared.zone.Zone.{Zone};
ghost use Rattle.vmv_zone.specs.Zone.{vars_of, IsNormal, NotBottom};
ghost use Rattle.vmv_zone.specs.Operand.{IsOperand, IsZero, IsNonzero, dif};
ghost use Rattle.vmv_zone.specs.Confine.{Confines, HasClosedBounds};
ghost use Rattle.vmv_zone.specs.Step.{Tested, IsApart, IsGuarded};

use crate::operand::{ZoneOperand, ZoneTest};
use crate::rel::ZoneRel;
use crate::zone::Zone;

impl Zone {
    /// The state where the test holds. The state before it is normed.
    pub fn guard(mut self, test: ZoneTest) -> Zone
        requires left { IsOperand (vars_of self) test.left }
        requires right { IsOperand (vars_of self) test.right }
        ensures { IsGuarded self test result }
    {
        self.normalize();
        self.hold(test);
        self
    }

    /// Makes the test hold, in a normal state.
    pub fn hold(&mut self, test: ZoneTest)
        requires normal { IsNormal self.old }
        requires left { IsOperand (vars_of self.old) test.left }
        requires right { IsOperand (vars_of self.old) test.right }
        ensures { IsGuarded self.old test self.new }
    {
        self.meet(test);
        self.normalize_closed();
    }

    /// Whether the test holds at some point of a normal state, as far as the state after the guard tells.
    #[inline(never)]
    pub fn allows(&self, test: ZoneTest) -> bool
        requires normal { IsNormal self.now }
        requires left { IsOperand (vars_of self.now) test.left }
        requires right { IsOperand (vars_of self.now) test.right }
        ensures { (g : Zone) × IsGuarded self.now test g × (IsTrue result ↔ NotBottom g) }
    {
        let mut after = *self;
        after.hold(test);
        !after.bottom
    }

    /// Adds what the test adds.
    fn meet(&mut self, test: ZoneTest)
        requires left { IsOperand (vars_of self.old) test.left }
        requires right { IsOperand (vars_of self.old) test.right }
        requires closed { HasClosedBounds self.old }
        ensures { Confines (vars_of self.old) (λ n. Tested test.rel self.old n test.left test.right) self.old self.new }
    {
        match test.rel {
            ZoneRel::Equal => self.span(test.left, test.right, 0, 0),
            ZoneRel::Unequal => self.part(test.left, test.right),
            ZoneRel::Less => self.limit(test.left, test.right, -1),
            ZoneRel::AtMost => self.limit(test.left, test.right, 0),
            ZoneRel::Greater => self.limit(test.right, test.left, -1),
            ZoneRel::AtLeast => self.limit(test.right, test.left, 0),
        }
    }

    /// Makes two operands differ.
    fn part(&mut self, left: ZoneOperand, right: ZoneOperand)
        requires left { IsOperand (vars_of self.old) left }
        requires right { IsOperand (vars_of self.old) right }
        requires closed { HasClosedBounds self.old }
        ensures { Confines (vars_of self.old) (λ n. IsApart self.old n left right) self.old self.new }
    {
        let above = self.touches(left, right);
        let below = self.touches(right, left);
        self.make_less_where(left, right, above);
        self.make_less_where(right, left, below);
        self.make_nonzero_where(left, right.is_zero());
        self.make_nonzero_where(right, left.is_zero());
    }

    /// Whether the difference of the operands is at most 0, and no less.
    fn touches(&self, left: ZoneOperand, right: ZoneOperand) -> bool
        requires left { IsOperand (vars_of self.now) left }
        requires right { IsOperand (vars_of self.now) right }
        ensures { IsTrue result ↔ (dif self.now left right ≡ pos 0) }
    {
        self.difference(left, right) == 0
    }

    /// Makes the first operand less than the second, where that is wanted.
    fn make_less_where(&mut self, left: ZoneOperand, right: ZoneOperand, wanted: bool)
        requires left { IsOperand (vars_of self.old) left }
        requires right { IsOperand (vars_of self.old) right }
        requires closed { HasClosedBounds self.old }
        ensures { Confines (vars_of self.old) (λ n. IsTrue wanted → dif n left right ≤ℤ negsuc 0) self.old self.new }
    {
        if wanted {
            self.limit(left, right, -1);
        }
    }

    /// Makes the operand nonzero, where that is wanted.
    pub(crate) fn make_nonzero_where(&mut self, operand: ZoneOperand, wanted: bool)
        requires { IsOperand (vars_of self.old) operand }
        ensures { Confines (vars_of self.old) (λ n. IsTrue wanted → IsNonzero n operand) self.old self.new }
    {
        if wanted {
            self.make_nonzero(operand);
        }
    }
}

impl ZoneOperand {
    /// Whether the operand is the literal 0.
    fn is_zero(self) -> bool
        ensures { IsTrue result ↔ IsZero self }
    {
        match self {
            ZoneOperand::Lit(c) => c == 0,
            ZoneOperand::Var(_) => false,
        }
    }
}
