ghost use Rattle.std.specs.Prelude.{◌≡◌, ◌+◌, ◌≤◌, ◌↔◌, ℕ, length, pos, get_or, FitsSigned};
ghost use Rattle.std.specs.Int.{w64};
ghost use Rattle.vmv_zone.specs.Bounds.{IsInReach, AreInReach, IsTableBy, IsMarkedIn};
ghost use Rattle.vmv_zone.specs.Lines.{RowFilled};
ghost use Rattle.vmv_zone.specs.Zone.{vars_of, NotBottom, IsNormal};
ghost use Rattle.vmv_zone.specs.Operand.{IsOperand, IsNonzero, dif, shift};
ghost use Rattle.vmv_zone.specs.Args.{argument_at, AreOperands, IsArgBound, IsArgsOf};

use crate::operand::{ZERO, ZoneOperand};
use crate::paths::CELLS;
use crate::zone::Zone;

impl Zone {
    /// The state of the arguments of a call, over one variable for each: the bounds on their differences, and the
    /// marks of those that are nonzero, in the normal state.
    pub fn copy_args(&self, args: &[ZoneOperand]) -> Zone
        requires few { length args.now ≤ 16 }
        requires operands { AreOperands (vars_of self.now) args.now }
        ensures { IsArgsOf self.now args.now result }
    {
        let mut before = *self;
        before.normalize();
        let mut passed = Zone::none(0);
        before.copy_args_to(args, &mut passed);
        passed
    }

    /// Makes the other state that of the arguments of a call, where this one is normal.
    pub fn copy_args_to(&self, args: &[ZoneOperand], into: &mut Zone)
        requires normal { IsNormal self.now }
        requires few { length args.now ≤ 16 }
        requires operands { AreOperands (vars_of self.now) args.now }
        ensures { IsArgsOf self.now args.now into.new }
    {
        into.empty(args.len() as u8);
        if self.bottom {
            return;
        }
        fill_bounds(&mut into.bounds, self, args);
        fill_marks(&mut into.marks, self, args);
        into.bottom = false;
    }
}

/// Fills in the bounds on the differences of the arguments.
fn fill_bounds(bounds: &mut [i128; CELLS], before: &Zone, args: &[ZoneOperand])
    requires zeros { (k : ℕ) → get_or bounds.old k (pos 0) ≡ pos 0 }
    requires few { length args.now ≤ 16 }
    requires normal { IsNormal before.now }
    requires not_bottom { NotBottom before.now }
    requires operands { AreOperands (vars_of before.now) args.now }
    ensures { IsTableBy (λ i j b. IsArgBound before.now args.now i j b) (length args.now) bounds.new }
{
    for i in 0..args.len() + 1 {
        fill_row(bounds, before, args, i);
    }
}

/// Fills in the bounds on the differences of the argument `i` from the others.
fn fill_row(bounds: &mut [i128; CELLS], before: &Zone, args: &[ZoneOperand], i: usize)
    requires i { i ≤ length args.now }
    requires few { length args.now ≤ 16 }
    requires reach { AreInReach bounds.old }
    requires normal { IsNormal before.now }
    requires not_bottom { NotBottom before.now }
    requires operands { AreOperands (vars_of before.now) args.now }
    ensures { RowFilled (λ j b. IsArgBound before.now args.now i j b) bounds.old bounds.new i (length args.now + 1) }
{
    for j in 0..args.len() + 1 {
        bounds[18 * i + j] = arg_bound(before, args, i, j);
    }
}

/// The bound on the difference of two arguments.
fn arg_bound(before: &Zone, args: &[ZoneOperand], i: usize, j: usize) -> i128
    requires i { i ≤ length args.now }
    requires j { j ≤ length args.now }
    requires normal { IsNormal before.now }
    requires not_bottom { NotBottom before.now }
    requires operands { AreOperands (vars_of before.now) args.now }
    ensures value { IsArgBound before.now args.now i j result }
    ensures reach { IsInReach result }
{
    before.difference_in_reach(argument(args, i), argument(args, j))
}

/// The argument that gives the variable `i` its value; the literal 0 for thing 0.
fn argument(args: &[ZoneOperand], i: usize) -> ZoneOperand
    requires { i ≤ length args.now }
    ensures { result ≡ argument_at args.now i }
{
    if i == 0 { ZERO } else { args[i - 1] }
}

/// Marks the arguments that are nonzero.
fn fill_marks(marks: &mut [bool; 18], before: &Zone, args: &[ZoneOperand])
    requires unmarked { (i : ℕ) → ¬ IsMarkedIn marks.old i }
    requires few { length args.now ≤ 16 }
    requires operands { AreOperands (vars_of before.now) args.now }
    ensures full { length marks.new ≡ 18 }
    ensures marked { (i : ℕ) → 1 ≤ i → i ≤ length args.now → IsMarkedIn marks.new i ↔ IsNonzero before.now (argument_at args.now i) }
    ensures variables { (i : ℕ) → IsMarkedIn marks.new i → (1 ≤ i) × (i ≤ length args.now) }
{
    for i in 1..args.len() + 1 {
        marks[i] = before.nonzero(argument(args, i));
    }
}

impl Zone {
    /// The bound on the difference of two operands, which lies from -2^64 to 2^64 - 1 in a normal state.
    fn difference_in_reach(&self, left: ZoneOperand, right: ZoneOperand) -> i128
        requires normal { IsNormal self.now }
        requires not_bottom { NotBottom self.now }
        requires left { IsOperand (vars_of self.now) left }
        requires right { IsOperand (vars_of self.now) right }
        ensures value { result ≡ dif self.now left right }
        ensures reach { IsInReach result }
        ensures left { FitsSigned w64 (shift left) }
        ensures right { FitsSigned w64 (shift right) }
    {
        self.bound(left.thing(), right.thing()) + left.shift() as i128 - right.shift() as i128
    }
}
