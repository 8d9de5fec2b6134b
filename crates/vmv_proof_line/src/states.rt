ghost use Rattle.std.specs.Prelude.{◌≡◌, ◌≤◌, ℕ, IsTrue};
ghost use Rattle.std.specs.Bool.{OnTrue, OnFalse};
ghost use Rattle.vmv_zone.specs.Bounds.{top_bound};
ghost use Rattle.vmv_zone.specs.Zone.{vars_of, IsTop, NotBottom, IsMarked};
ghost use Rattle.vmv_witness.specs.Reading.{lacks};
ghost use Rattle.vmv_proof_words.specs.Taking.{Takes, TakesLast, Tells};
ghost use Rattle.vmv_proof_text.specs.Lines.{IsStateLine};
ghost use Rattle.vmv_proof_text.specs.Parts.{input_part, keep_part};
ghost use Rattle.vmv_proof_line.specs.Reading.{ReadsLine};
ghost use Rattle.vmv_proof_line.specs.StateWords.{IsThingWord, IsUnderTop, IsBottomWord, TakesBound, TakesMark, AreTaken, NoBounds, LastMarks, NoMarks, TellsTold, TellsState};

use crate::fault::{LineFault, fault_of};
use crate::loose_states::is_state_loosely;
use vmv_proof_words::Words;
use vmv_zone::Zone;

/// Takes the number of a thing: a variable's, or 0.
fn next_thing(words: &mut Words, vars: u8) -> Option<u8>
    ensures { Takes (IsThingWord vars) words.old words.new result }
{
    let Some(number) = words.next_natural() else {
        return None;
    };
    if number > vars as u64 {
        return None;
    }
    Some(number as u8)
}

/// The bound on `i - j` that all words keep.
fn top_of(i: u8, j: u8) -> i128
    ensures { result ≡ top_bound i j }
{
    if i == j {
        0
    } else if j == 0 {
        i64::MAX as i128
    } else if i == 0 {
        1 << 63
    } else {
        u64::MAX as i128
    }
}

/// Takes a bound on `i - j` that is at most top's.
fn next_under_top(words: &mut Words, i: u8, j: u8) -> Option<i128>
    ensures { Takes (IsUnderTop i j) words.old words.new result }
{
    let Some(bound) = words.next_bound() else {
        return None;
    };
    if bound > top_of(i, j) {
        return None;
    }
    Some(bound)
}

/// Takes a bound, which stands behind that of the place `last`.
fn next_bound(words: &mut Words, vars: u8, last: u16) -> Option<(u8, u8, i128)>
    ensures { TakesBound vars last words.old words.new result }
{
    let Some(i) = next_thing(words, vars) else {
        return None;
    };
    let Some(j) = next_thing(words, vars) else {
        return None;
    };
    if i == j {
        return None;
    }
    if 32 * i as u16 + j as u16 <= last {
        return None;
    }
    let Some(bound) = next_under_top(words, i, j) else {
        return None;
    };
    Some((i, j, bound))
}

/// Takes the number of bounds and these, and puts them into the state of all words.
fn takes_bounds(words: &mut Words, zone: &mut Zone) -> bool
    requires few { vars_of zone.old ≤ 16 }
    requires top { IsTop zone.old }
    ensures yes { OnTrue result (AreTaken words.old words.new zone.old zone.new) }
    ensures no { OnFalse result (NoBounds (vars_of zone.old) words.old) }
{
    let Some(count) = words.next_natural() else {
        return false;
    };
    let mut last = 0u16;
    for _ in 0..count {
        let Some((i, j, bound)) = next_bound(words, zone.vars(), last) else {
            return false;
        };
        zone.set_bound(i, j, bound);
        last = 32 * i as u16 + j as u16;
    }
    true
}

/// Takes a variable with a number past `last`.
fn next_mark(words: &mut Words, vars: u8, last: u8) -> Option<u8>
    ensures { TakesMark vars last words.old words.new result }
{
    let Some(i) = next_thing(words, vars) else {
        return None;
    };
    if i <= last {
        return None;
    }
    Some(i)
}

/// Takes the number of marks and these, and puts them into a state that has none.
fn takes_last_marks(words: &mut Words, zone: &mut Zone) -> bool
    requires few { vars_of zone.old ≤ 16 }
    requires not_bottom { NotBottom zone.old }
    requires unmarked { (i : ℕ) → ¬ IsMarked zone.old i }
    ensures yes { OnTrue result (LastMarks words.old zone.old zone.new) }
    ensures no { OnFalse result (NoMarks (vars_of zone.old) words.old) }
{
    let Some(count) = words.next_natural() else {
        return false;
    };
    let mut last = 0u8;
    for _ in 0..count {
        let Some(i) = next_mark(words, zone.vars(), last) else {
            return false;
        };
        zone.set_mark(i);
        last = i;
    }
    words.is_done()
}

/// The state that stands behind `vars`.
fn told_vars(words: &mut Words) -> Option<Zone>
    ensures { TellsTold words.old result }
{
    let Some(vars) = next_thing(words, 16) else {
        return None;
    };
    if !words.takes(b"bounds") {
        return None;
    }
    let mut zone = Zone::top(vars);
    if !takes_bounds(words, &mut zone) {
        return None;
    }
    if !words.takes(b"nonzero") {
        return None;
    }
    if !takes_last_marks(words, &mut zone) {
        return None;
    }
    Some(zone)
}

/// The state with no point that stands behind `bottom`.
fn told_bottom(words: &mut Words) -> Option<Zone>
    ensures { TakesLast IsBottomWord words.old result }
{
    let Some(vars) = words.last_count() else {
        return None;
    };
    if vars > 16 {
        return None;
    }
    Some(Zone::bottom(vars as u8))
}

/// The state that the words tell.
fn state_of(words: &mut Words) -> Option<Zone>
    ensures { TellsState words.old result }
{
    let Some(word) = words.next_word() else {
        return None;
    };
    if word == b"bottom".as_slice() {
        return told_bottom(words);
    }
    if word == b"vars".as_slice() {
        return told_vars(words);
    }
    None
}

/// The state that the line tells behind this word.
fn told_state(line: &[u8], word: &[u8]) -> Option<Zone>
    requires { IsTrue (lacks 32 word.now) }
    ensures { Tells (IsStateLine word.now) line.now result }
{
    let Some(mut words) = Words::behind(line, word) else {
        return None;
    };
    state_of(&mut words)
}

/// Reads the input of a row.
pub fn read_input(line: &[u8]) -> Result<Zone, LineFault>
    ensures { ReadsLine input_part line.now result }
{
    match told_state(line, b"input") {
        Some(state) => Ok(state),
        None => Err(fault_of(is_state_loosely(line, b"input"))),
    }
}

/// Reads what a row keeps at a loop.
pub fn read_keep(line: &[u8]) -> Result<Zone, LineFault>
    ensures { ReadsLine keep_part line.now result }
{
    match told_state(line, b"keep") {
        Some(state) => Ok(state),
        None => Err(fault_of(is_state_loosely(line, b"keep"))),
    }
}
