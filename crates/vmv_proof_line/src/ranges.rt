ghost use Rattle.std.specs.Prelude.{◌↔◌, IsTrue};
ghost use Rattle.vmv_proof_words.specs.Taking.{Tells};
ghost use Rattle.vmv_proof_text.specs.Parts.{box_part};
ghost use Rattle.vmv_proof_text.specs.Lines.{IsLine};
ghost use Rattle.vmv_proof_line.specs.Reading.{ReadsLine};
ghost use Rattle.vmv_proof_line.specs.Shapes.{IsBoxLoosely, TakesRange, TakesRangeLoosely};

use crate::fault::{LineFault, fault_of};
use vmv_proof_words::Words;
use vmv_snapshot::ParamBox;

/// Takes the two ends of a range.
fn next_range(words: &mut Words) -> Option<(i64, i64)>
    ensures { TakesRange words.old words.new result }
{
    let Some(lo) = words.next_end() else {
        return None;
    };
    let Some(hi) = words.next_end() else {
        return None;
    };
    if lo > hi {
        return None;
    }
    Some((lo, hi))
}

/// Takes two numbers of any size, and tells whether they are there.
fn takes_range_loosely(words: &mut Words) -> bool
    ensures { TakesRangeLoosely words.old words.new result }
{
    let Some(_) = words.next_number() else {
        return false;
    };
    match words.next_number() {
        Some(_) => true,
        None => false,
    }
}

/// The box that the line tells.
fn told_box(line: &[u8]) -> Option<ParamBox>
    ensures { Tells (λ ranges. IsLine (box_part ranges)) line.now result }
{
    let Some(mut words) = Words::behind(line, b"box") else {
        return None;
    };
    let mut ranges = ParamBox::new();
    while !words.is_done() {
        if ranges.ranges().len() >= 16 {
            return None;
        }
        let Some((lo, hi)) = next_range(&mut words) else {
            return None;
        };
        ranges.push(lo, hi);
    }
    Some(ranges)
}

/// Whether the line would tell a box, were its numbers of another size.
fn is_box_loosely(line: &[u8]) -> bool
    ensures { IsTrue result ↔ IsBoxLoosely line.now }
{
    let Some(mut words) = Words::behind(line, b"box") else {
        return false;
    };
    let mut count = 0u8;
    while !words.is_done() {
        if count >= 16 {
            return false;
        }
        if !takes_range_loosely(&mut words) {
            return false;
        }
        count += 1;
    }
    true
}

/// Reads the box of an exclusion.
pub fn read_box(line: &[u8]) -> Result<ParamBox, LineFault>
    ensures { ReadsLine (λ ranges. box_part ranges) line.now result }
{
    match told_box(line) {
        Some(ranges) => Ok(ranges),
        None => Err(fault_of(is_box_loosely(line))),
    }
}
