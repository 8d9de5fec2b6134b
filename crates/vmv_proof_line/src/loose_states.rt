ghost use Rattle.std.specs.Prelude.{◌≡◌, ◌↔◌, ◌<◌, ◌^◌, List, ◌∷◌, ◌++◌, length, IfSome, IfNone, IsTrue};
ghost use Rattle.std.specs.Bool.{OnTrue, OnFalse};
ghost use Rattle.vmv_witness.specs.Reading.{lacks};
ghost use Rattle.vmv_proof_words.specs.Words.{Word};
ghost use Rattle.vmv_proof_text.specs.Loose.{is_less_digit, is_less_natural, Negates, IsNegative, IsLess, SpelledBound};
ghost use Rattle.vmv_proof_line.specs.LooseWords.{ComesBefore, Follows, FollowsMark, NextBound, NextMark, spelled_triple, spelled_mark, AreTakenLoosely, NoBoundsLoosely, AreLastMarks, IsToldLooselyBy, IsStateLooselyBy, IsStateLineLoosely};

use vmv_proof_words::Words;

/// Whether the first digit that differs is the less.
fn is_less_digit(digits: &[u8], others: &[u8]) -> bool
    requires { length digits.now ≡ length others.now }
    ensures { result ≡ is_less_digit digits.now others.now }
{
    for i in 0..digits.len() {
        if digits[i] != others[i] {
            return digits[i] < others[i];
        }
    }
    false
}

/// Whether the one natural number is less than the other.
fn is_less_natural(digits: &[u8], others: &[u8]) -> bool
    ensures { result ≡ is_less_natural digits.now others.now }
{
    if digits.len() != others.len() {
        return digits.len() < others.len();
    }
    is_less_digit(digits, others)
}

/// The digits of a negative number.
fn below_zero(number: &[u8]) -> Option<&[u8]>
    ensures some { IfSome result (λ digits. Negates number.now digits.now) }
    ensures none { IfNone result (IsNegative number.now → ⊥) }
{
    match number {
        [b'-', digits @ ..] => Some(digits),
        _ => None,
    }
}

/// Whether the one number is less than the other, which are of any size.
fn is_less(number: &[u8], other: &[u8]) -> bool
    ensures { IsTrue result ↔ IsLess number.now other.now }
{
    let Some(digits) = below_zero(number) else {
        return match below_zero(other) {
            Some(_) => false,
            None => is_less_natural(number, other),
        };
    };
    match below_zero(other) {
        Some(others) => is_less_natural(others, digits),
        None => true,
    }
}

/// Whether a bound on `other_i - other_j` may stand behind one on `i - j`.
fn comes_before(i: &[u8], j: &[u8], other_i: &[u8], other_j: &[u8]) -> bool
    ensures { IsTrue result ↔ ComesBefore (i.now, j.now) (other_i.now, other_j.now) }
{
    if is_less(i, other_i) {
        return true;
    }
    i == other_i && is_less(j, other_j)
}

/// Whether a bound on `other_i - other_j` may stand behind one on `i - j`, which are empty before the first.
fn may_follow(i: &[u8], j: &[u8], other_i: &[u8], other_j: &[u8]) -> bool
    ensures { IsTrue result ↔ Follows (i.now, j.now) (other_i.now, other_j.now) }
{
    i.is_empty() || comes_before(i, j, other_i, other_j)
}

/// Takes a bound that may stand behind one on `i - j`, which are empty before the first.
fn next_bound_loosely<'a>(words: &mut Words<'a>, i: &[u8], j: &[u8]) -> Option<(&'a [u8], &'a [u8])>
    ensures some { IfSome result (λ r. (bound : Word) × NextBound (i.now, j.now) (r.0.now, r.1.now, bound) × (words.old ≡ spelled_triple (r.0.now, r.1.now, bound) ++ words.new)) }
    ensures none { IfNone result ((b : SpelledBound) (rest : List Word) → NextBound (i.now, j.now) b → words.old ≡ spelled_triple b ++ rest → ⊥) }
{
    let Some(next_i) = words.next_number() else {
        return None;
    };
    let Some(next_j) = words.next_number() else {
        return None;
    };
    let Some(_) = words.next_number() else {
        return None;
    };
    if !may_follow(i, j, next_i, next_j) {
        return None;
    }
    Some((next_i, next_j))
}

/// Takes the number of bounds and these, and tells whether they are there.
fn takes_bounds_loosely(words: &mut Words) -> bool
    requires { length words.old < 2 ^ 64 }
    ensures yes { OnTrue result (AreTakenLoosely words.old words.new) }
    ensures no { OnFalse result (NoBoundsLoosely words.old) }
{
    let Some(count) = words.next_natural() else {
        return false;
    };
    let mut i = b"".as_slice();
    let mut j = b"".as_slice();
    for _ in 0..count {
        let Some((next_i, next_j)) = next_bound_loosely(words, i, j) else {
            return false;
        };
        i = next_i;
        j = next_j;
    }
    true
}

/// Whether a mark may stand behind `last`, which is empty before the first.
fn may_follow_mark(last: &[u8], number: &[u8]) -> bool
    ensures { IsTrue result ↔ FollowsMark last.now number.now }
{
    last.is_empty() || is_less(last, number)
}

/// Takes a variable with a number past `last`, which is empty before the first.
fn next_mark_loosely<'a>(words: &mut Words<'a>, last: &[u8]) -> Option<&'a [u8]>
    ensures some { IfSome result (λ m. NextMark last.now m.now × (words.old ≡ m.now ∷ words.new)) }
    ensures none { IfNone result ((m : Word) (rest : List Word) → NextMark last.now m → words.old ≡ m ∷ rest → ⊥) }
{
    let Some(number) = words.next_number() else {
        return None;
    };
    if number == b"0".as_slice() {
        return None;
    }
    if !may_follow_mark(last, number) {
        return None;
    }
    Some(number)
}

/// Whether the words are the number of marks and these.
fn are_last_marks(words: &mut Words) -> bool
    requires { length words.old < 2 ^ 64 }
    ensures { IsTrue result ↔ AreLastMarks words.old }
{
    let Some(count) = words.next_natural() else {
        return false;
    };
    let mut last = b"".as_slice();
    for _ in 0..count {
        let Some(number) = next_mark_loosely(words, last) else {
            return false;
        };
        last = number;
    }
    words.is_done()
}

/// Whether a state could stand behind `vars`.
fn is_told_loosely(words: &mut Words) -> bool
    requires { length words.old < 2 ^ 64 }
    ensures { IsTrue result ↔ IsToldLooselyBy words.old }
{
    let Some(_) = words.next_number() else {
        return false;
    };
    if !words.takes(b"bounds") {
        return false;
    }
    if !takes_bounds_loosely(words) {
        return false;
    }
    if !words.takes(b"nonzero") {
        return false;
    }
    are_last_marks(words)
}

/// Whether the words would tell a state, were their numbers of another size.
fn is_loose_state(words: &mut Words) -> bool
    requires { length words.old < 2 ^ 64 }
    ensures { IsTrue result ↔ IsStateLooselyBy words.old }
{
    let Some(word) = words.next_word() else {
        return false;
    };
    if word == b"bottom".as_slice() {
        return words.is_last_number();
    }
    if word == b"vars".as_slice() {
        return is_told_loosely(words);
    }
    false
}

/// Whether the line would tell a state behind this word, were its numbers of another size.
pub(crate) fn is_state_loosely(line: &[u8], word: &[u8]) -> bool
    requires { IsTrue (lacks 32 word.now) }
    ensures { IsTrue result ↔ IsStateLineLoosely word.now line.now }
{
    // A line that tells more bounds or marks than 64 bits count would be longer than any.
    let length = line.len();
    prove!(length <= usize::MAX);
    let Some(mut words) = Words::behind(line, word) else {
        return false;
    };
    is_loose_state(&mut words)
}
