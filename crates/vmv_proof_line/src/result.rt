ghost use Rattle.std.specs.Prelude.{◌≡◌, ◌↔◌, ◌∷◌, [], codes, IfSome, IfNone, IsTrue};
ghost use Rattle.vmv_witness.specs.Reading.{lacks};
ghost use Rattle.vmv_proof_words.specs.Words.{Word};
ghost use Rattle.vmv_proof_words.specs.Taking.{Tells};
ghost use Rattle.vmv_proof_text.specs.Parts.{result_part};
ghost use Rattle.vmv_proof_text.specs.Lines.{IsLine, IsRange};
ghost use Rattle.vmv_proof_text.specs.Loose.{IsNegative, AreAround};
ghost use Rattle.vmv_proof_line.specs.Reading.{ReadsLine};
ghost use Rattle.vmv_proof_line.specs.Reaches.{range_word, IsRangeWord, IsRangeLoosely, TellsCond, IsResultLoosely};

use crate::fault::{LineFault, fault_of};
use crate::halves::split_at_first;
use vmv_cert::Reach;
use vmv_cond::Cond;
use vmv_proof_words::{Words, end_of, is_number};

/// What stands before and behind the first `..`.
fn split_range(word: &[u8]) -> Option<(&[u8], &[u8])>
    ensures some { IfSome result (λ ends. IsTrue (lacks 46 ends.0.now) × (word.now ≡ range_word ends.0.now ends.1.now)) }
    ensures none { IfNone result ((lo hi : Word) → IsTrue (lacks 46 lo) → word.now ≡ range_word lo hi → ⊥) }
{
    let Some((lo, rest)) = split_at_first(word, b'.') else {
        return None;
    };
    match rest.strip_prefix(b".") {
        Some(hi) => Some((lo, hi)),
        None => None,
    }
}

/// The range that the word tells.
fn told_range(word: &[u8]) -> Option<(i64, i64)>
    ensures { Tells IsRangeWord word.now result }
{
    let Some((low, high)) = split_range(word) else {
        return None;
    };
    let Some(lo) = end_of(low) else {
        return None;
    };
    let Some(hi) = end_of(high) else {
        return None;
    };
    if lo > hi {
        return None;
    }
    Some((lo, hi))
}

/// The two ends that the word would tell, were they of another size.
fn spelled_range(word: &[u8]) -> Option<(&[u8], &[u8])>
    ensures some { IfSome result (λ ends. IsRangeLoosely (ends.0.now, ends.1.now) word.now) }
    ensures none { IfNone result ((r : Word × Word) → IsRangeLoosely r word.now → ⊥) }
{
    let Some((low, high)) = split_range(word) else {
        return None;
    };
    if !is_number(low) {
        return None;
    }
    if !is_number(high) {
        return None;
    }
    Some((low, high))
}

/// Whether the words tell that 0 is left out, and no other word stands there.
fn is_not_zero(words: &mut Words) -> bool
    ensures { IsTrue result ↔ (words.old ≡ codes "not" ∷ codes "0" ∷ []) }
{
    if !words.takes(b"not") {
        return false;
    }
    if !words.takes(b"0") {
        return false;
    }
    words.is_done()
}

/// The condition of this range that the words behind it tell.
fn told_cond(words: &mut Words, lo: i64, hi: i64) -> Option<Cond>
    requires { IsRange (lo, hi) }
    ensures { TellsCond (lo, hi) words.old result }
{
    if words.is_done() {
        return Some(Cond::of(lo, hi, false));
    }
    if lo >= 0 {
        return None;
    }
    if hi <= 0 {
        return None;
    }
    if !is_not_zero(words) {
        return None;
    }
    Some(Cond::of(lo, hi, true))
}

fn is_negative(number: &[u8]) -> bool
    ensures { IsTrue result ↔ IsNegative number.now }
{
    match number.strip_prefix(b"-") {
        Some(_) => true,
        None => false,
    }
}

/// Whether 0 stands between these numbers.
fn are_around(low: &[u8], high: &[u8]) -> bool
    ensures { IsTrue result ↔ AreAround low.now high.now }
{
    if !is_negative(low) {
        return false;
    }
    if is_negative(high) {
        return false;
    }
    high != b"0".as_slice()
}

/// What a procedure may return, as the line tells.
fn told_result(line: &[u8]) -> Option<Reach>
    ensures { Tells (λ reach. IsLine (result_part reach)) line.now result }
{
    let Some(mut words) = Words::behind(line, b"result") else {
        return None;
    };
    let Some(word) = words.next_word() else {
        return None;
    };
    if word == b"bottom".as_slice() {
        if !words.is_done() {
            return None;
        }
        return Some(Reach::Bottom);
    }
    let Some((lo, hi)) = told_range(word) else {
        return None;
    };
    match told_cond(&mut words, lo, hi) {
        Some(cond) => Some(Reach::Value(cond)),
        None => None,
    }
}

/// Whether the line would tell a result, were its numbers of another size.
fn is_result_loosely(line: &[u8]) -> bool
    ensures { IsTrue result ↔ IsResultLoosely line.now }
{
    let Some(mut words) = Words::behind(line, b"result") else {
        return false;
    };
    let Some(word) = words.next_word() else {
        return false;
    };
    if word == b"bottom".as_slice() {
        return words.is_done();
    }
    let Some((low, high)) = spelled_range(word) else {
        return false;
    };
    if words.is_done() {
        return true;
    }
    if !are_around(low, high) {
        return false;
    }
    is_not_zero(&mut words)
}

/// Reads what a procedure may return.
pub fn read_result(line: &[u8]) -> Result<Reach, LineFault>
    ensures { ReadsLine result_part line.now result }
{
    match told_result(line) {
        Some(reach) => Ok(reach),
        None => Err(fault_of(is_result_loosely(line))),
    }
}
