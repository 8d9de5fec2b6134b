use crate::show::{show_command, show_refusal};
use std::alloc::Global;
use vmv_cases::{Case, Sheet, number, tail, word};
use vmv_head::Head;
use vmv_routes::command_of;

/// The target of an ask: its second word, or the text `target` in place of `-`.
fn target_of<'a>(case: &'a Case, ask: &'a [u8]) -> &'a [u8] {
    let target = word(ask, 1);
    if target == b"-".as_slice() {
        case.text(b"target")
    } else {
        target
    }
}

/// How many lines a word tells.
fn count_of(word: &[u8]) -> Option<usize> {
    usize::try_from(number(word)?).ok()
}

/// Answers `METHOD TARGET COUNT MEMBER`, a request with the text `body` as its body.
pub(crate) fn answer(alloc: Global, case: &Case, ask: &[u8], sheet: &mut Sheet) {
    let Some(count) = count_of(word(ask, 2)) else {
        sheet.refuse();
        return;
    };
    let body = case.text(b"body");
    let head = Head {
        method: word(ask, 0),
        target: target_of(case, ask),
        members: count,
        member: tail(ask, 3),
        body_len: body.len(),
    };
    match command_of(alloc, &head, body) {
        Ok(Ok(command)) => show_command(&command, sheet),
        Ok(Err(refusal)) => show_refusal(refusal, sheet),
        Err(_) => sheet.fall_short(),
    }
}
