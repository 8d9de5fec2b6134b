ghost use Rattle.std.specs.Prelude.{◌≡◌, ◌≢◌, ◌*ℤ◌, ◌-ℤ◌, ℤ, pos, int_div, unsigned_abs, max, IsNone, IfSome};
ghost use Rattle.std.specs.Int.{int_min, int_max};
ghost use Rattle.vmv_zone.specs.Bounds.{IsWide};
ghost use Rattle.vmv_zone.specs.Four.{least_of, greatest_of};
ghost use Rattle.vmv_zone.specs.Ends.{IsEndResult, IsEndProduct, IsEndQuotient, IsHull};

use crate::four::{greatest, least};

/// The least and the greatest value of an operand.
#[derive(Clone, Copy)]
pub(crate) struct Ends {
    pub(crate) lo: i64,
    pub(crate) hi: i64,
}

/// The least and the greatest of some numbers.
#[derive(Clone, Copy)]
pub(crate) struct Hull {
    pub(crate) lo: i128,
    pub(crate) hi: i128,
    pub ghost low: { IsWide lo },
    pub ghost high: { IsWide hi },
}

/// The least and the greatest product of an end of `x` by an end of `y`.
pub(crate) fn products(x: Ends, y: Ends) -> Hull
    ensures { IsHull (IsEndProduct x.lo x.hi y.lo y.hi) result.lo result.hi }
{
    let (ac, ad) = (product(x.lo, y.lo), product(x.lo, y.hi));
    let (bc, bd) = (product(x.hi, y.lo), product(x.hi, y.hi));
    hull_of(ac, ad, bc, bd)
}

/// The least and the greatest quotient of an end of `x` by an end of the negative or of the positive part of `y`;
/// `None` where `y` is 0 alone.
pub(crate) fn quotients(x: Ends, y: Ends) -> Option<Hull>
    ensures none { IsNone result → (q : ℤ) → ¬ IsEndQuotient x.lo x.hi y.lo y.hi q }
    ensures some { IfSome result (λ h. IsHull (IsEndQuotient x.lo x.hi y.lo y.hi) h.lo h.hi) }
{
    if y.lo >= 0 {
        if y.hi <= 0 {
            return None;
        }
        return Some(quotients_in(x, y.lo.max(1), y.hi));
    }
    if y.hi <= 0 {
        return Some(quotients_in(x, y.lo, y.hi.min(-1)));
    }
    let negative = quotients_in(x, y.lo, y.hi.min(-1));
    let positive = quotients_in(x, y.lo.max(1), y.hi);
    Some(joined(negative, positive))
}

/// The least and the greatest of the numbers of both.
fn joined(a: Hull, b: Hull) -> Hull
    ensures lo { result.lo ≡ int_min a.lo b.lo }
    ensures hi { result.hi ≡ int_max a.hi b.hi }
{
    Hull {
        lo: a.lo.min(b.lo),
        hi: a.hi.max(b.hi),
    }
}

/// The least and the greatest quotient of an end of `x` by `c` or `d`.
fn quotients_in(x: Ends, c: i64, d: i64) -> Hull
    requires c { c ≢ pos 0 }
    requires d { d ≢ pos 0 }
    ensures { IsHull (IsEndResult int_div x.lo x.hi c d) result.lo result.hi }
{
    let (ac, ad) = (quotient(x.lo, c), quotient(x.lo, d));
    let (bc, bd) = (quotient(x.hi, c), quotient(x.hi, d));
    hull_of(ac, ad, bc, bd)
}

/// The least and the greatest of four numbers.
fn hull_of(a: i128, b: i128, c: i128, d: i128) -> Hull
    requires a { IsWide a }
    requires b { IsWide b }
    requires c { IsWide c }
    requires d { IsWide d }
    ensures lo { result.lo ≡ least_of a b c d }
    ensures hi { result.hi ≡ greatest_of a b c d }
{
    Hull {
        lo: least(a, b, c, d),
        hi: greatest(a, b, c, d),
    }
}

/// The product of two words.
fn product(a: i64, b: i64) -> i128
    ensures value { result ≡ a *ℤ b }
    ensures wide { IsWide result }
{
    a as i128 * b as i128
}

/// The quotient of two words, rounded toward 0.
fn quotient(a: i64, b: i64) -> i128
    requires { b ≢ pos 0 }
    ensures value { result ≡ int_div a b }
    ensures wide { IsWide result }
{
    a as i128 / b as i128
}

impl Ends {
    /// The greater size of the two ends.
    pub(crate) fn size(self) -> u64
        ensures { result ≡ max (unsigned_abs self.lo) (unsigned_abs self.hi) }
    {
        self.lo.unsigned_abs().max(self.hi.unsigned_abs())
    }
}

/// The least remainder of a number that is at least `lo` by a number of at most the size.
pub(crate) fn least_remainder(lo: i64, size: u64) -> i128
    ensures value { result ≡ int_max (int_min lo (pos 0)) (pos 1 -ℤ pos size) }
    ensures wide { IsWide result }
{
    (lo as i128).min(0).max(1 - size as i128)
}

/// The greatest remainder of a number that is at most `hi` by a number of at most the size.
pub(crate) fn greatest_remainder(hi: i64, size: u64) -> i128
    ensures value { result ≡ int_min (int_max hi (pos 0)) (pos size -ℤ pos 1) }
    ensures wide { IsWide result }
{
    (hi as i128).max(0).min(size as i128 - 1)
}
