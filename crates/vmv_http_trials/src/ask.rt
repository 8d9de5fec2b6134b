use crate::each::{put_cuts, put_each};
use crate::links::put_whole;
use crate::requests::with_returns;
use crate::sessions::{put_gated, put_session};
use std::alloc::Global;
use vmv_cases::{Case, Sheet, number, tail, word};
use vmv_keeper::Judge;

/// How many bytes a link reads or writes in a call: the ask's last word, or more than any request has.
fn most(ask: &[u8]) -> usize {
    let told = number(word(ask, 2)).and_then(|most| usize::try_from(most).ok());
    told.unwrap_or(1_000_000)
}

/// Answers an ask about a request that a text writes, whose bytes are these.
fn about(alloc: Global, case: &Case, ask: &[u8], request: &[u8], sheet: &mut Sheet) {
    let what = word(ask, 0);
    if what == b"answer".as_slice() || what == b"raw".as_slice() {
        put_whole(alloc, case, request, most(ask), sheet);
    } else if what == b"each".as_slice() {
        put_each(alloc, case, request, most(ask), sheet);
    } else if what == b"cuts".as_slice() {
        put_cuts(alloc, case, request, sheet);
    } else {
        sheet.refuse();
    }
}

pub(crate) fn answer<J: Judge>(
    gate: &J,
    alloc: Global,
    case: &Case,
    ask: &[u8],
    sheet: &mut Sheet,
) {
    let what = word(ask, 0);
    if what == b"session".as_slice() {
        put_session(alloc, case, tail(ask, 1), sheet);
    } else if what == b"gate".as_slice() {
        put_gated(gate, alloc, case, tail(ask, 1), sheet);
    } else if what == b"raw".as_slice() {
        about(alloc, case, ask, case.text(word(ask, 1)), sheet);
    } else {
        let mut request = Sheet::new(alloc);
        with_returns(case.text(word(ask, 1)), &mut request);
        about(alloc, case, ask, request.bytes(), sheet);
    }
}
