//! Judges in memory, and the texts that they judge.

use std::alloc::Global;
use std::str;
use vmv_cases::{Case, Sheet, number, tail, word};
use vmv_keeper::{Inspected, MemoryJudge};

/// The text that a word names in a case, or the word itself where no text there has that name.
pub fn text_of<'a>(case: &'a Case, word: &'a [u8]) -> &'a [u8] {
    let named = case.text(word);
    if named.is_empty() { word } else { named }
}

/// Says of a text alone what `fine TEXT` or `vacuous TEXT` says.
fn tell_of_text(
    judge: &mut MemoryJudge,
    alloc: Global,
    bytes: &[u8],
    said: Inspected,
    sheet: &mut Sheet,
) {
    let Ok(text) = str::from_utf8(bytes) else {
        sheet.refuse();
        return;
    };
    if judge.inspects(alloc, text, said).is_err() {
        sheet.fall_short();
    }
}

/// The verdict that a word writes.
fn verdict(word: &[u8]) -> Option<u8> {
    u8::try_from(number(word)?).ok()
}

/// Says of two texts what `judged BASE REVISION VERDICT JSON` says.
fn tell_of_texts(
    judge: &mut MemoryJudge,
    alloc: Global,
    case: &Case,
    line: &[u8],
    sheet: &mut Sheet,
) {
    let base = str::from_utf8(text_of(case, word(line, 1)));
    let revision = str::from_utf8(text_of(case, word(line, 2)));
    let json = str::from_utf8(tail(line, 4));
    let (Ok(base), Ok(revision), Ok(json)) = (base, revision, json) else {
        sheet.refuse();
        return;
    };
    let Some(verdict) = verdict(word(line, 3)) else {
        sheet.refuse();
        return;
    };
    if judge.judges(alloc, base, revision, verdict, json).is_err() {
        sheet.fall_short();
    }
}

fn tell(judge: &mut MemoryJudge, alloc: Global, case: &Case, line: &[u8], sheet: &mut Sheet) {
    let what = word(line, 0);
    let text = text_of(case, word(line, 1));
    if what == b"fine".as_slice() {
        tell_of_text(judge, alloc, text, Inspected::Fine, sheet);
    } else if what == b"vacuous".as_slice() {
        tell_of_text(judge, alloc, text, Inspected::Vacuous, sheet);
    } else if what == b"judged".as_slice() {
        tell_of_texts(judge, alloc, case, line, sheet);
    } else {
        sheet.refuse();
    }
}

/// A judge in memory who is told what the lines of the text `judge` say.
pub fn judge(alloc: Global, case: &Case, sheet: &mut Sheet) -> MemoryJudge {
    let mut judge = MemoryJudge::new(alloc);
    for line in case.text(b"judge").split(|byte| *byte == b'\n') {
        if !line.is_empty() {
            tell(&mut judge, alloc, case, line, sheet);
        }
    }
    judge
}
