ghost use Rattle.std.specs.Prelude.{◌≡◌, ◌≢◌, ◌↔◌, ℤ, pos, ◌≤ℤ◌, IsTrue, IsFalse, IfSome, IsNone, unsigned_abs, neg_ℤ, ◌≤◌};
ghost use Rattle.vmv_cond.specs.Normal.{IsNormal};

/// A condition on a word: the words from `lo` to `hi`, without 0 where `zero_out`; or no word.
///
/// Each value is in normal form. The empty condition is `i64::MAX..i64::MIN` with the mark. The mark is set where
/// the range excludes 0, and no end of a marked condition is 0. So two conditions that hold the same words are equal.
#[derive(Clone, Copy, PartialEq, Eq, Debug)]
pub struct Cond {
    lo: i64,
    hi: i64,
    zero_out: bool,
    pub ghost normal: { IsNormal lo hi zero_out },
}

/// A part of the words.
#[derive(Clone, Copy, PartialEq, Eq, Debug)]
pub enum Piece {
    /// The words less than this one.
    Below(i64),
    /// The words greater than this one.
    Above(i64),
    /// The word 0.
    Zero,
}

impl Cond {
    ghost use Rattle.vmv_cond.specs.Cond.{Holds, IsEmpty, IsMeet};
    ghost use Rattle.vmv_cond.specs.Normal.{InRange};
    ghost use Rattle.vmv_cond.specs.Piece.{IsOutside, IsInside};

    /// The condition of the words from `lo` to `hi`, without 0 where `zero_out`.
    pub fn of(lo: i64, hi: i64, zero_out: bool) -> Cond
        ensures { (w : ℤ) → Holds result w ↔ InRange lo hi zero_out w }
    {
        let lo = off_zero(lo, zero_out, 1);
        let hi = off_zero(hi, zero_out, -1);
        if lo > hi {
            return Cond {
                lo: i64::MAX,
                hi: i64::MIN,
                zero_out: true,
            };
        }
        if zero_out || lo > 0 || hi < 0 {
            return Cond {
                lo,
                hi,
                zero_out: true,
            };
        }
        Cond {
            lo,
            hi,
            zero_out: false,
        }
    }

    /// The least word that the condition holds; `i64::MAX` where it is empty.
    pub fn lo(self) -> i64
        ensures { result ≡ self.lo }
    {
        self.lo
    }

    /// The greatest word that the condition holds; `i64::MIN` where it is empty.
    pub fn hi(self) -> i64
        ensures { result ≡ self.hi }
    {
        self.hi
    }

    /// Whether the condition excludes 0.
    pub fn zero_out(self) -> bool
        ensures value { result ≡ self.zero_out }
        ensures excludes { IsTrue result ↔ ¬ Holds self (pos 0) }
    {
        self.zero_out
    }

    /// Whether the condition holds no word.
    pub fn is_empty(self) -> bool
        ensures empty { IsTrue result ↔ IsEmpty self }
        ensures held { IsFalse result → Holds self self.lo }
    {
        self.lo > self.hi
    }

    /// Whether the condition holds the word.
    pub fn holds(self, value: i64) -> bool
        ensures { IsTrue result ↔ Holds self value }
    {
        self.lo <= value && value <= self.hi && (value != 0 || !self.zero_out)
    }

    /// The words that both conditions hold.
    pub fn meet(self, other: Cond) -> Cond
        ensures { IsMeet self other result }
    {
        Cond::of(
            self.lo.max(other.lo),
            self.hi.min(other.hi),
            self.zero_out | other.zero_out,
        )
    }

    /// The word nearest to 0 that the condition holds, the positive one where two are as near; `None` exactly where
    /// the condition is empty.
    pub fn nearest(self) -> Option<i64>
        ensures none { IsNone result ↔ IsEmpty self }
        ensures held { IfSome result (Holds self) }
        ensures tie { IfSome result (λ n. Holds self (neg_ℤ n) → pos 0 ≤ℤ n) }
        ensures nearest { IfSome result (λ n. (w : ℤ) → Holds self w → unsigned_abs n ≤ unsigned_abs w) }
    {
        if self.lo > self.hi {
            None
        } else if self.lo > 0 {
            Some(self.lo)
        } else if self.hi < 0 {
            Some(self.hi)
        } else if !self.zero_out {
            Some(0)
        } else if self.hi > 0 {
            Some(1)
        } else {
            Some(-1)
        }
    }

    /// The words of the condition that are outside the piece.
    pub fn cut(self, piece: Piece) -> Cond
        ensures { IsOutside self piece result }
    {
        match piece {
            Piece::Below(c) => Cond::of(self.lo.max(c), self.hi, self.zero_out),
            Piece::Above(c) => Cond::of(self.lo, self.hi.min(c), self.zero_out),
            Piece::Zero => Cond::of(self.lo, self.hi, true),
        }
    }

    /// The words of the condition that are in the piece.
    pub fn within(self, piece: Piece) -> Cond
        ensures { IsInside self piece result }
    {
        match piece {
            Piece::Below(c) => {
                if c == i64::MIN {
                    return Cond::of(i64::MAX, i64::MIN, true);
                }
                Cond::of(self.lo, self.hi.min(c - 1), self.zero_out)
            }
            Piece::Above(c) => {
                if c == i64::MAX {
                    return Cond::of(i64::MAX, i64::MIN, true);
                }
                Cond::of(self.lo.max(c + 1), self.hi, self.zero_out)
            }
            Piece::Zero => Cond::of(self.lo.max(0), self.hi.min(0), self.zero_out),
        }
    }
}

/// The next number in place of an end that is a left-out 0.
fn off_zero(end: i64, zero_out: bool, next: i64) -> i64
    ensures unmarked { IsFalse zero_out → result ≡ end }
    ensures nonzero { end ≢ pos 0 → result ≡ end }
    ensures zero { IsTrue zero_out → end ≡ pos 0 → result ≡ next }
{
    if zero_out && end == 0 { next } else { end }
}
