ghost use Rattle.std.specs.Prelude.{◌≡◌, ◌↔◌, ◌≤◌, ◌⊎◌, ◌^◌, ◌-◌, ℤ, pos, negsuc, ◌+ℤ◌, ◌*ℤ◌, ◌≤ℤ◌, ◌<ℤ◌, neg_ℤ, IsTrue};
ghost use Rattle.vmv_zone.specs.declared.operand.ZoneOp.TheVariants.{Add, Sub, Mul, Div, Rem};
ghost use Rattle.vmv_zone.specs.Zone.{vars_of, bound_of, NotBottom, IsNormal};
ghost use Rattle.vmv_zone.specs.Operand.{IsOperand, IsNonzero, up, low, dif};
ghost use Rattle.vmv_zone.specs.Ends.{IsEndProduct};
ghost use Rattle.vmv_step.specs.Fails.{LeavesWords, MayFail, IsLeastByMinusOne, TellsArith, TellsTest, TellsBound};

use crate::zones::negation;
use vmv_zone::{Zone, ZoneOp, ZoneOperand, ZoneTest};

/// The least and the greatest value of an operand.
#[derive(Clone, Copy)]
struct Ends {
    lo: i64,
    hi: i64,
}

fn ends_of(before: &Zone, operand: ZoneOperand) -> Ends
    requires normal { IsNormal before.now }
    requires operand { IsOperand (vars_of before.now) operand }
    ensures lo { result.lo ≡ low before.now operand }
    ensures hi { result.hi ≡ up before.now operand }
{
    match operand {
        ZoneOperand::Lit(c) => Ends { lo: c, hi: c },
        ZoneOperand::Var(y) => variable_ends(before, y),
    }
}

fn variable_ends(before: &Zone, y: u8) -> Ends
    requires normal { IsNormal before.now }
    requires variable { 1 ≤ y }
    requires y { y ≤ vars_of before.now }
    ensures lo { result.lo ≡ neg_ℤ (bound_of before.now 0 y) }
    ensures hi { result.hi ≡ bound_of before.now y 0 }
{
    Ends {
        lo: (-before.bound(0, y)) as i64,
        hi: before.bound(y, 0) as i64,
    }
}

/// Whether the range leaves the words.
fn leaves_words(lo: i128, hi: i128) -> bool
    ensures { IsTrue result ↔ LeavesWords lo hi }
{
    lo < i64::MIN as i128 || hi > i64::MAX as i128
}

/// Whether a sum of words of two ranges may be no word.
fn sum_fails(x: Ends, y: Ends) -> bool
    ensures { IsTrue result ↔ LeavesWords (x.lo +ℤ y.lo) (x.hi +ℤ y.hi) }
{
    leaves_words(x.lo as i128 + y.lo as i128, x.hi as i128 + y.hi as i128)
}

/// Whether a difference may be no word.
fn difference_fails(before: &Zone, left: ZoneOperand, right: ZoneOperand) -> bool
    requires left { IsOperand (vars_of before.now) left }
    requires right { IsOperand (vars_of before.now) right }
    ensures { IsTrue result ↔ MayFail Sub before.now left right }
{
    let above = before.difference(left, right);
    let below = before.difference(right, left);
    above > i64::MAX as i128 || below > 1 << 63
}

/// Whether the product of two words is no word.
fn one_product_fails(x: i64, y: i64) -> bool
    ensures { IsTrue result ↔ LeavesWords (x *ℤ y) (x *ℤ y) }
{
    let product = x as i128 * y as i128;
    leaves_words(product, product)
}

/// Whether a product of ends of two ranges is no word.
fn product_fails(x: Ends, y: Ends) -> bool
    ensures { IsTrue result ↔ ((q : ℤ) × IsEndProduct x.lo x.hi y.lo y.hi q × LeavesWords q q) }
{
    let low_low = one_product_fails(x.lo, y.lo);
    let low_high = one_product_fails(x.lo, y.hi);
    let high_low = one_product_fails(x.hi, y.lo);
    let high_high = one_product_fails(x.hi, y.hi);
    low_low | low_high | high_low | high_high
}

/// Whether the least word may be divided by -1.
fn least_by_minus_one(x: Ends, y: Ends) -> bool
    ensures { IsTrue result ↔ IsLeastByMinusOne x.lo y.lo y.hi }
{
    x.lo == i64::MIN && y.lo <= -1 && y.hi >= -1
}

/// Whether a division by the operand may fail: a quotient fails where the remainder does.
fn division_fails(before: &Zone, left: ZoneOperand, right: ZoneOperand) -> bool
    requires normal { IsNormal before.now }
    requires not_bottom { NotBottom before.now }
    requires left { IsOperand (vars_of before.now) left }
    requires right { IsOperand (vars_of before.now) right }
    ensures quotient { IsTrue result ↔ MayFail Div before.now left right }
    ensures remainder { IsTrue result ↔ MayFail Rem before.now left right }
{
    let edge = least_by_minus_one(ends_of(before, left), ends_of(before, right));
    !before.nonzero(right) || edge
}

/// Whether the operation may fail in the normal state.
fn may_fail(before: &Zone, op: ZoneOp, left: ZoneOperand, right: ZoneOperand) -> bool
    requires normal { IsNormal before.now }
    requires not_bottom { NotBottom before.now }
    requires left { IsOperand (vars_of before.now) left }
    requires right { IsOperand (vars_of before.now) right }
    ensures { IsTrue result ↔ MayFail op before.now left right }
{
    match op {
        ZoneOp::Add => sum_fails(ends_of(before, left), ends_of(before, right)),
        ZoneOp::Sub => difference_fails(before, left, right),
        ZoneOp::Mul => product_fails(ends_of(before, left), ends_of(before, right)),
        ZoneOp::Div => division_fails(before, left, right),
        ZoneOp::Rem => division_fails(before, left, right),
    }
}

/// Whether the operation may fail in the normal state, Bottom too.
pub(crate) fn arith_unproved(
    before: &Zone,
    op: ZoneOp,
    left: ZoneOperand,
    right: ZoneOperand,
) -> bool
    requires normal { IsNormal before.now }
    requires left { IsOperand (vars_of before.now) left }
    requires right { IsOperand (vars_of before.now) right }
    ensures { TellsArith op before.now left right result }
{
    if before.is_bottom() {
        return false;
    }
    may_fail(before, op, left, right)
}

/// Whether the test may fail in the normal state.
pub(crate) fn test_unproved(before: &Zone, test: ZoneTest) -> bool
    requires normal { IsNormal before.now }
    requires left { IsOperand (vars_of before.now) test.left }
    requires right { IsOperand (vars_of before.now) test.right }
    ensures { TellsTest test before.now result }
{
    before.allows(negation(test))
}

/// Whether the bound may be above the cap in the normal state.
pub(crate) fn bound_unproved(before: &Zone, bound: ZoneOperand, cap: i64) -> bool
    requires normal { IsNormal before.now }
    requires bound { IsOperand (vars_of before.now) bound }
    ensures { TellsBound bound cap before.now result }
{
    if before.is_bottom() {
        return false;
    }
    ends_of(before, bound).hi > cap
}
