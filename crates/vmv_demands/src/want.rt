ghost use Rattle.std.specs.Prelude.{◌≡◌, ◌^◌, pos, neg_ℤ, ◌+ℤ◌, ◌≤ℤ◌};
ghost use Rattle.vmv_demands.specs.Wants.{words_from, needed, moved};

/// The least word.
pub(crate) const LEAST: i128 = i64::MIN as i128;
/// The greatest word.
pub(crate) const GREATEST: i128 = i64::MAX as i128;

/// What is wanted of a variable.
#[derive(Clone, Copy, Drop)]
pub(crate) enum Want {
    /// That it lies from `lo` to `hi`.
    Within { lo: i64, hi: i64 },
    /// That it isn't this word.
    Except(i64),
}

/// A condition on the answers of an outside function.
#[derive(Clone, Copy, Drop)]
pub(crate) enum Condition {
    /// They lie from `lo` to `hi`.
    Range { lo: i64, hi: i64 },
    /// They aren't 0.
    Nonzero,
}

/// The words of a range, where it has some.
fn words_from(lo: i128, hi: i128) -> Option<Want>
    ensures { result ≡ words_from lo hi }
{
    let lo = lo.max(LEAST);
    let hi = hi.min(GREATEST);
    if lo > hi {
        return None;
    }
    Some(Want::Within {
        lo: lo as i64,
        hi: hi as i64,
    })
}

/// What is wanted where a word is to lie in a range: nothing where every word does, or none.
pub(crate) fn needed(lo: i128, hi: i128) -> Option<Want>
    ensures { result ≡ needed lo hi }
{
    if lo <= LEAST && GREATEST <= hi {
        return None;
    }
    words_from(lo, hi)
}

/// The sum, which is far from the ends of `i128`.
pub(crate) fn sum(word: i64, by: i128) -> i128
    requires low { neg_ℤ (pos (2 ^ 65)) ≤ℤ by }
    requires high { by ≤ℤ pos (2 ^ 65) }
    ensures { result ≡ word +ℤ by }
{
    i128::from(word) + by
}

impl Want {
    /// What is wanted of y where this is wanted of y minus the number.
    pub(crate) fn moved(self, by: i128) -> Option<Want>
        requires low { neg_ℤ (pos (2 ^ 63)) ≤ℤ by }
        requires high { by ≤ℤ pos (2 ^ 63) }
        ensures { result ≡ moved by self }
    {
        match self {
            Want::Within { lo, hi } => words_from(sum(lo, by), sum(hi, by)),
            Want::Except(word) => {
                let other = sum(word, by);
                if other < LEAST || GREATEST < other {
                    return None;
                }
                Some(Want::Except(other as i64))
            }
        }
    }
}
