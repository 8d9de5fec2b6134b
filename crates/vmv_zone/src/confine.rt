ghost use Rattle.std.specs.Prelude.{◌≡◌, ◌+◌, ◌-◌, ◌^◌, ◌≤◌, ◌↔◌, ℤ, pos, negsuc, ◌≤ℤ◌, IsTrue};
ghost use Rattle.vmv_zone.specs.Zone.{vars_of, NotBottom, bound_of};
ghost use Rattle.vmv_zone.specs.Operand.{dif, IsOperand, IsNonzero, IsSpan};
ghost use Rattle.vmv_zone.specs.Bounds.{IsWide};
ghost use Rattle.vmv_zone.specs.Confine.{Confines, HasClosedBounds, Extends};

use crate::operand::ZoneOperand;
use crate::tables::{close_through, extend_bounds};
use crate::zone::Zone;

impl Zone {
    /// The bound on the difference of two operands.
    pub fn difference(&self, left: ZoneOperand, right: ZoneOperand) -> i128
        requires left { IsOperand (vars_of self.now) left }
        requires right { IsOperand (vars_of self.now) right }
        ensures value { result ≡ dif self.now left right }
        ensures wide { IsWide result }
    {
        self.bound(left.thing(), right.thing()) + left.shift() as i128 - right.shift() as i128
    }

    /// Whether the operand is a marked variable or a literal other than 0.
    pub fn nonzero(&self, operand: ZoneOperand) -> bool
        requires { IsOperand (vars_of self.now) operand }
        ensures { IsTrue result ↔ IsNonzero self.now operand }
    {
        match operand {
            ZoneOperand::Lit(c) => c != 0,
            ZoneOperand::Var(y) => self.marked(y),
        }
    }

    /// Adds one variable, which may be any word.
    pub(crate) fn extend(&mut self)
        requires not_bottom { NotBottom self.old }
        requires few { vars_of self.old ≤ 16 }
        ensures confines { Confines (vars_of self.old + 1) (λ n. Unit {0}) self.old self.new }
        ensures extends { Extends self.old self.new }
    {
        self.vars += 1;
        extend_bounds(&mut self.bounds, self.vars as usize);
    }

    /// Lowers the bound on `i - j` to at most `bound`.
    pub(crate) fn lower(&mut self, i: u8, j: u8, bound: i128)
        requires i { i ≤ vars_of self.old }
        requires j { j ≤ vars_of self.old }
        requires closed { HasClosedBounds self.old }
        ensures { Confines (vars_of self.old) (λ n. bound_of n i j ≤ℤ bound) self.old self.new }
    {
        if self.bottom {
            return;
        }
        let kept = bound.max(-1 << 64);
        if kept >= self.bound(i, j) {
            return;
        }
        let vars = self.vars;
        if kept + self.bound(j, i) < 0 {
            self.empty(vars);
            return;
        }
        close_through(
            &mut self.bounds,
            vars as usize,
            i as usize,
            j as usize,
            kept,
        );
    }

    /// Lowers the difference of the operands to at most `most`.
    pub(crate) fn limit(&mut self, left: ZoneOperand, right: ZoneOperand, most: i128)
        requires left { IsOperand (vars_of self.old) left }
        requires right { IsOperand (vars_of self.old) right }
        requires most { IsWide most }
        requires closed { HasClosedBounds self.old }
        ensures { Confines (vars_of self.old) (λ n. dif n left right ≤ℤ most) self.old self.new }
    {
        let bound = most - left.shift() as i128 + right.shift() as i128;
        self.lower(left.thing(), right.thing(), bound);
    }

    /// Keeps the difference of the operands from `lo` to `hi`.
    pub(crate) fn span(&mut self, left: ZoneOperand, right: ZoneOperand, lo: i128, hi: i128)
        requires left { IsOperand (vars_of self.old) left }
        requires right { IsOperand (vars_of self.old) right }
        requires lo { IsWide lo }
        requires hi { IsWide hi }
        requires closed { HasClosedBounds self.old }
        ensures { Confines (vars_of self.old) (λ n. IsSpan n left right lo hi) self.old self.new }
    {
        self.limit(left, right, hi);
        self.limit(right, left, -lo);
    }

    /// Makes the operand nonzero: Bottom for the literal 0.
    pub(crate) fn make_nonzero(&mut self, operand: ZoneOperand)
        requires { IsOperand (vars_of self.old) operand }
        ensures { Confines (vars_of self.old) (λ n. IsNonzero n operand) self.old self.new }
    {
        if self.bottom {
            return;
        }
        match operand {
            ZoneOperand::Lit(0) => {
                let vars = self.vars;
                self.empty(vars);
            }
            ZoneOperand::Lit(_) => {}
            ZoneOperand::Var(y) => self.marks[y as usize] = true,
        }
    }
}
