use crate::code::put_code;
use crate::faults::put_place;
use crate::texts::snapshot_of;
use std::alloc::Global;
use vmv_cases::{Sheet, number, numbers, word};
use vmv_snapshot::{ParamBox, ProcId};
use vmv_text::{MOST_BYTES, mention_place};

/// A box of ranges, whose ends stand one behind the other.
fn box_of(ends: &[i64], sheet: &mut Sheet) -> ParamBox {
    let mut ranges = ParamBox::new();
    for pair in ends.chunks(2) {
        match pair {
            [lo, hi] if ranges.ranges().len() < 16 => ranges.push(*lo, *hi),
            _ => sheet.refuse(),
        }
    }
    ranges
}

/// `? box LO HI ..`: the ranges of a box that these were pushed to.
pub fn boxed(alloc: Global, words: &[u8], sheet: &mut Sheet) {
    let ends = numbers(alloc, words, sheet);
    let ranges = box_of(ends.as_slice(), sheet);
    sheet.put(b"box");
    for (lo, hi) in ranges.ranges() {
        sheet.put(b" ");
        sheet.show(lo);
        sheet.put(b"..");
        sheet.show(hi);
    }
    sheet.line(b"");
}

/// `? place NUMBER`: the place of a name of a text by its number, or `none`.
pub fn place(text: &[u8], words: &[u8], sheet: &mut Sheet) {
    let Some(Ok(mention)) = number(word(words, 0)).map(|number| u32::try_from(number)) else {
        sheet.refuse();
        return;
    };
    if text.len() > MOST_BYTES {
        sheet.refuse();
        return;
    }
    match mention_place(text, mention) {
        Some((line, column)) => {
            put_place(line, column, sheet);
            sheet.line(b"");
        }
        None => sheet.line(b"none"),
    }
}

/// `? code NUMBER`: the resolved statements of a procedure by its number.
pub fn code_of(alloc: Global, text: &[u8], words: &[u8], sheet: &mut Sheet) {
    let Some(snapshot) = snapshot_of(alloc, text, sheet) else {
        return;
    };
    let Some(Ok(number)) = number(word(words, 0)).map(|number| u16::try_from(number)) else {
        sheet.refuse();
        return;
    };
    if number < snapshot.proc_count() {
        put_code(snapshot.code(ProcId(number)), sheet);
    } else {
        sheet.refuse();
    }
}
