use crate::judge::judge;
use crate::links::{desk, serve};
use crate::requests::put_request;
use crate::show::body;
use std::alloc::Global;
use vmv_cases::{Case, Sheet, number};
use vmv_desk::Desk;
use vmv_http::Served;
use vmv_keeper::{Judge, MemoryKeeper};

/// The numbers that a line writes.
fn calls(alloc: Global, line: &[u8], sheet: &mut Sheet) -> Vec<u64> {
    let mut calls = Vec::new(alloc);
    for word in line.split(|byte| *byte == b' ') {
        match number(word).and_then(|call| u64::try_from(call).ok()) {
            Some(call) => {
                if calls.push(call).is_err() {
                    sheet.fall_short();
                }
            }
            None if word.is_empty() => {}
            None => sheet.refuse(),
        }
    }
    calls
}

/// Writes the status and the body of the answer to a line's request.
fn put_turn<J: Judge>(
    alloc: Global,
    desk: &mut Desk<MemoryKeeper>,
    judge: &J,
    line: &[u8],
    sheet: &mut Sheet,
) {
    let mut request = Sheet::new(alloc);
    put_request(line, &mut request);
    let calls = Vec::new(alloc);
    match serve(alloc, desk, judge, request.bytes(), 1_000_000, calls, sheet) {
        Some((Served::Answered { status }, link)) => {
            sheet.show(&status);
            sheet.put(b" ");
            sheet.line(body(link.bytes()));
        }
        _ => sheet.refuse(),
    }
}

/// Writes the answers to the requests of the text `requests`, over a store whose calls with these numbers fail.
fn put_turns<J: Judge>(alloc: Global, case: &Case, judge: &J, line: &[u8], sheet: &mut Sheet) {
    let failing = calls(alloc, line, sheet);
    let Some(mut desk) = desk(alloc, failing, sheet) else {
        return;
    };
    for line in case.text(b"requests").split(|byte| *byte == b'\n') {
        if !line.is_empty() {
            put_turn(alloc, &mut desk, judge, line, sheet);
        }
    }
}

/// `? session CALL ..`: the answers by the judge whom the case tells what to say.
pub(crate) fn put_session(alloc: Global, case: &Case, line: &[u8], sheet: &mut Sheet) {
    let judge = judge(alloc, case, sheet);
    put_turns(alloc, case, &judge, line, sheet);
}

/// `? gate CALL ..`: the answers by the gate.
pub(crate) fn put_gated<J: Judge>(
    gate: &J,
    alloc: Global,
    case: &Case,
    line: &[u8],
    sheet: &mut Sheet,
) {
    put_turns(alloc, case, gate, line, sheet);
}
