ghost use Rattle.std.specs.Prelude.{◌≡◌, ◌^◌, pos, neg_ℤ, ◌-ℤ◌, ◌≤ℤ◌};
ghost use Rattle.std.specs.Int.{int_min, int_max};
ghost use Rattle.vmv_demands.specs.declared.want.Want.{Want as Wanted};
ghost use Rattle.vmv_demands.specs.Wants.{least, greatest, nonempty, moved};
ghost use Rattle.vmv_demands.specs.Shifts.{IsOfWords, by_of, kept_from, shifted, shifted_by, shifted_twice};

use crate::want::{GREATEST, LEAST, Want, sum};

/// A value that is moved by sums with literals: from `lo` to `hi` it becomes `start` and the words behind it. Of another
/// value a sum isn't a word.
#[derive(Clone, Copy, Drop)]
pub(crate) struct Shift {
    pub(crate) lo: i64,
    pub(crate) hi: i64,
    pub(crate) start: i64,
}

/// The difference of numbers that are far from the ends of `i128`.
fn difference(a: i128, b: i128) -> i128
    requires low { neg_ℤ (pos (2 ^ 66)) ≤ℤ a }
    requires high { a ≤ℤ pos (2 ^ 66) }
    requires by_low { neg_ℤ (pos (2 ^ 65)) ≤ℤ b }
    requires by_high { b ≤ℤ pos (2 ^ 65) }
    ensures { result ≡ a -ℤ b }
{
    a - b
}

fn word(value: i128) -> i64
    requires low { least ≤ℤ value }
    requires high { value ≤ℤ greatest }
    ensures { result ≡ value }
{
    value as i64
}

impl Shift {
    /// How much less the value becomes.
    fn by(self) -> i128
        ensures value { result ≡ by_of self }
        ensures low { neg_ℤ (pos (2 ^ 64)) ≤ℤ result }
        ensures high { result ≤ℤ pos (2 ^ 64) }
    {
        difference(i128::from(self.lo), i128::from(self.start))
    }

    /// Of a word that becomes so much less, which is at most 2^63.
    pub(crate) fn less(by: i128) -> Shift
        requires low { neg_ℤ (pos (2 ^ 63)) ≤ℤ by }
        requires high { by ≤ℤ pos (2 ^ 63) }
        ensures { (want : Wanted) → IsOfWords want → shifted result want ≡ moved by want }
    {
        let lo = LEAST.max(sum(i64::MIN, by));
        let hi = GREATEST.min(sum(i64::MAX, by));
        Shift {
            lo: word(lo),
            hi: word(hi),
            start: word(difference(lo, by)),
        }
    }

    /// The values of a range that aren't shifted out.
    fn within(self, lo: i128, hi: i128) -> Option<Want>
        ensures { result ≡ nonempty (int_max lo self.lo) (int_min hi self.hi) }
    {
        let lo = lo.max(i128::from(self.lo));
        let hi = hi.min(i128::from(self.hi));
        if lo > hi {
            return None;
        }
        Some(Want::Within {
            lo: word(lo),
            hi: word(hi),
        })
    }

    /// Not this value, where it isn't shifted out.
    fn except(self, value: i128) -> Option<Want>
        ensures { result ≡ kept_from self.lo self.hi value }
    {
        if value < i128::from(self.lo) || i128::from(self.hi) < value {
            return None;
        }
        Some(Want::Except(word(value)))
    }

    /// What is wanted of a value, where this is wanted of what it becomes.
    pub(crate) fn want(self, want: Want) -> Option<Want>
        ensures { result ≡ shifted self want }
    {
        let by = self.by();
        match want {
            Want::Within { lo, hi } => self.within(sum(lo, by), sum(hi, by)),
            Want::Except(word) => self.except(sum(word, by)),
        }
    }

    /// This one behind a first one; nothing where no word goes through both.
    pub(crate) fn behind(self, first: Shift) -> Option<Shift>
        ensures { (want : Wanted) → IsOfWords want → shifted_by result want ≡ shifted_twice self first want }
    {
        let by = first.by();
        let lo = sum(self.lo, by).max(i128::from(first.lo));
        let hi = sum(self.hi, by).min(i128::from(first.hi));
        let start = difference(difference(lo, self.by()), by);
        if lo > hi {
            return None;
        }
        if start > GREATEST {
            return None;
        }
        Some(Shift {
            lo: word(lo),
            hi: word(hi),
            start: word(start),
        })
    }
}
