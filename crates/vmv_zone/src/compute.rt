ghost use Rattle.std.specs.Prelude.{◌≡◌, ◌≤◌, neg_ℤ};
ghost use Rattle.vmv_zone.specs.Zone.{vars_of, bound_of, IsNormal};
ghost use Rattle.vmv_zone.specs.Operand.{IsOperand, low, up};
ghost use Rattle.vmv_zone.specs.Confine.{Confines, HasClosedBounds};
ghost use Rattle.vmv_zone.specs.Step.{Computed, IsSum, IsDifference, IsProduct, IsQuotient, IsRemainder};

use crate::ends::{Ends, greatest_remainder, least_remainder, products, quotients};
use crate::operand::{ZERO, ZoneOp, ZoneOperand};
use crate::zone::Zone;

impl Zone {
    /// Makes the fresh variable equal to what the operation gives.
    pub(crate) fn compute(
        &mut self,
        fresh: ZoneOperand,
        op: ZoneOp,
        left: ZoneOperand,
        right: ZoneOperand,
    )
        requires fresh { IsOperand (vars_of self.old) fresh }
        requires normal { IsNormal self.old }
        requires left { IsOperand (vars_of self.old) left }
        requires right { IsOperand (vars_of self.old) right }
        requires closed { HasClosedBounds self.old }
        ensures { Confines (vars_of self.old) (λ n. Computed op self.old n fresh left right) self.old self.new }
    {
        match op {
            ZoneOp::Add => self.sum(fresh, left, right),
            ZoneOp::Sub => self.subtract(fresh, left, right),
            ZoneOp::Mul => self.multiply(fresh, left, right),
            ZoneOp::Div => self.divide(fresh, left, right),
            ZoneOp::Rem => self.reduce(fresh, left, right),
        }
    }

    /// The least and the greatest value of the operand.
    pub(crate) fn ends(&self, operand: ZoneOperand) -> Ends
        requires normal { IsNormal self.now }
        requires operand { IsOperand (vars_of self.now) operand }
        ensures lo { result.lo ≡ low self.now operand }
        ensures hi { result.hi ≡ up self.now operand }
    {
        match operand {
            ZoneOperand::Lit(c) => Ends { lo: c, hi: c },
            ZoneOperand::Var(y) => self.variable_ends(y),
        }
    }

    /// The least and the greatest value of the variable.
    fn variable_ends(&self, y: u8) -> Ends
        requires normal { IsNormal self.now }
        requires variable { 1 ≤ y }
        requires y { y ≤ vars_of self.now }
        ensures lo { result.lo ≡ neg_ℤ (bound_of self.now 0 y) }
        ensures hi { result.hi ≡ bound_of self.now y 0 }
    {
        Ends {
            lo: (-self.bound(0, y)) as i64,
            hi: self.bound(y, 0) as i64,
        }
    }

    /// Makes the fresh variable equal to the sum.
    fn sum(&mut self, fresh: ZoneOperand, left: ZoneOperand, right: ZoneOperand)
        requires fresh { IsOperand (vars_of self.old) fresh }
        requires normal { IsNormal self.old }
        requires left { IsOperand (vars_of self.old) left }
        requires right { IsOperand (vars_of self.old) right }
        requires closed { HasClosedBounds self.old }
        ensures { Confines (vars_of self.old) (λ n. IsSum self.old n fresh left right) self.old self.new }
    {
        let x = self.ends(left);
        let y = self.ends(right);
        let lo = x.lo as i128 + y.lo as i128;
        let hi = x.hi as i128 + y.hi as i128;
        self.span(fresh, ZERO, lo, hi);
        self.span(fresh, left, y.lo as i128, y.hi as i128);
        self.span(fresh, right, x.lo as i128, x.hi as i128);
    }

    /// Makes the fresh variable equal to the difference.
    fn subtract(&mut self, fresh: ZoneOperand, left: ZoneOperand, right: ZoneOperand)
        requires fresh { IsOperand (vars_of self.old) fresh }
        requires normal { IsNormal self.old }
        requires left { IsOperand (vars_of self.old) left }
        requires right { IsOperand (vars_of self.old) right }
        requires closed { HasClosedBounds self.old }
        ensures { Confines (vars_of self.old) (λ n. IsDifference self.old n fresh left right) self.old self.new }
    {
        let y = self.ends(right);
        let hi = self.difference(left, right);
        let lo = -self.difference(right, left);
        self.span(fresh, ZERO, lo, hi);
        self.span(fresh, left, -(y.hi as i128), -(y.lo as i128));
    }

    /// Makes the fresh variable equal to the product.
    fn multiply(&mut self, fresh: ZoneOperand, left: ZoneOperand, right: ZoneOperand)
        requires fresh { IsOperand (vars_of self.old) fresh }
        requires normal { IsNormal self.old }
        requires left { IsOperand (vars_of self.old) left }
        requires right { IsOperand (vars_of self.old) right }
        requires closed { HasClosedBounds self.old }
        ensures { Confines (vars_of self.old) (λ n. IsProduct self.old n fresh left right) self.old self.new }
    {
        let x = self.ends(left);
        let y = self.ends(right);
        let all = products(x, y);
        let x_marked = self.nonzero(left);
        let y_marked = self.nonzero(right);
        self.span(fresh, ZERO, all.lo, all.hi);
        self.make_nonzero_where(fresh, x_marked & y_marked);
    }

    /// Makes the fresh variable equal to the quotient, and the divisor nonzero.
    fn divide(&mut self, fresh: ZoneOperand, left: ZoneOperand, right: ZoneOperand)
        requires fresh { IsOperand (vars_of self.old) fresh }
        requires normal { IsNormal self.old }
        requires left { IsOperand (vars_of self.old) left }
        requires right { IsOperand (vars_of self.old) right }
        requires closed { HasClosedBounds self.old }
        ensures { Confines (vars_of self.old) (λ n. IsQuotient self.old n fresh left right) self.old self.new }
    {
        let x = self.ends(left);
        let y = self.ends(right);
        match quotients(x, y) {
            None => {
                let vars = self.vars;
                self.empty(vars);
            }
            Some(all) => {
                self.make_nonzero(right);
                self.span(fresh, ZERO, all.lo, all.hi);
            }
        }
    }

    /// Makes the fresh variable equal to the remainder, and the divisor nonzero.
    fn reduce(&mut self, fresh: ZoneOperand, left: ZoneOperand, right: ZoneOperand)
        requires fresh { IsOperand (vars_of self.old) fresh }
        requires normal { IsNormal self.old }
        requires left { IsOperand (vars_of self.old) left }
        requires right { IsOperand (vars_of self.old) right }
        requires closed { HasClosedBounds self.old }
        ensures { Confines (vars_of self.old) (λ n. IsRemainder self.old n fresh left right) self.old self.new }
    {
        let x = self.ends(left);
        let y = self.ends(right);
        let size = y.size();
        let lo = least_remainder(x.lo, size);
        let hi = greatest_remainder(x.hi, size);
        self.make_nonzero(right);
        self.span(fresh, ZERO, lo, hi);
    }
}
