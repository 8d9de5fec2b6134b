use std::alloc::Global;
use std::str;
use vmv_cases::{Case, Sheet, number, tail, word};
use vmv_keeper::{Inspected, MemoryJudge};

/// Says of a text alone what `fine TEXT` or `vacuous TEXT` says.
fn tell_of_text(
    judge: &mut MemoryJudge,
    alloc: Global,
    line: &[u8],
    said: Inspected,
    sheet: &mut Sheet,
) {
    let Ok(text) = str::from_utf8(word(line, 1)) else {
        sheet.refuse();
        return;
    };
    if judge.inspects(alloc, text, said).is_err() {
        sheet.fall_short();
    }
}

/// Says of two texts what `judged BASE REVISION VERDICT REPORT` says.
fn tell_of_texts(judge: &mut MemoryJudge, alloc: Global, line: &[u8], sheet: &mut Sheet) {
    let base = str::from_utf8(word(line, 1));
    let revision = str::from_utf8(word(line, 2));
    let json = str::from_utf8(tail(line, 4));
    let verdict = number(word(line, 3)).and_then(|verdict| u8::try_from(verdict).ok());
    let (Ok(base), Ok(revision), Ok(json), Some(verdict)) = (base, revision, json, verdict) else {
        sheet.refuse();
        return;
    };
    if judge.judges(alloc, base, revision, verdict, json).is_err() {
        sheet.fall_short();
    }
}

/// A judge in memory who is told what the lines of the text `judge` say.
pub(crate) fn judge(alloc: Global, case: &Case, sheet: &mut Sheet) -> MemoryJudge {
    let mut judge = MemoryJudge::new(alloc);
    for line in case.text(b"judge").split(|byte| *byte == b'\n') {
        let what = word(line, 0);
        if what == b"fine".as_slice() {
            tell_of_text(&mut judge, alloc, line, Inspected::Fine, sheet);
        } else if what == b"vacuous".as_slice() {
            tell_of_text(&mut judge, alloc, line, Inspected::Vacuous, sheet);
        } else if what == b"judged".as_slice() {
            tell_of_texts(&mut judge, alloc, line, sheet);
        } else if !line.is_empty() {
            sheet.refuse();
        }
    }
    judge
}
