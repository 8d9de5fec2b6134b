//! Looks at what a store holds.

use crate::acts::put_act;
use crate::replies::put_reply;
use crate::rows::{put_bench, put_fault, put_project, put_replies};
use crate::words::{label, size};
use std::alloc::Global;
use vmv_cases::{Sheet, word};
use vmv_keeper::{Keeper, Kept, Label};

/// Writes a text that a store holds.
fn put_text<K: Keeper>(
    keeper: &mut K,
    alloc: Global,
    owner: &Label,
    name: &Label,
    number: u32,
    sheet: &mut Sheet,
) {
    match keeper.text(alloc, owner, name, number) {
        Ok(Some(text)) => sheet.line(text.bytes()),
        Ok(None) => sheet.line(b"none"),
        Err(fault) => put_fault(fault, sheet),
    }
}

/// Writes a submission that waits.
fn put_submission<K: Keeper>(
    keeper: &mut K,
    alloc: Global,
    owner: &Label,
    name: &Label,
    number: u32,
    sheet: &mut Sheet,
) {
    match keeper.submission(alloc, owner, name, number) {
        Ok(Some(submitted)) => {
            sheet.put(submitted.by.bytes());
            sheet.put(b" ");
            sheet.line(submitted.text.bytes());
        }
        Ok(None) => sheet.line(b"none"),
        Err(fault) => put_fault(fault, sheet),
    }
}

/// Writes a copy of an act that was done and of its reply.
fn put_kept(alloc: Global, kept: &Kept, sheet: &mut Sheet) {
    match kept.copy(alloc) {
        Ok(copy) => {
            put_act(&copy.act, sheet);
            sheet.put(b" = ");
            put_reply(&copy.reply, sheet);
        }
        Err(_) => sheet.fall_short(),
    }
}

/// Writes what was done under an id.
fn put_done<K: Keeper>(
    keeper: &mut K,
    alloc: Global,
    caller: &Label,
    id: &Label,
    sheet: &mut Sheet,
) {
    match keeper.reply_of(alloc, caller, id) {
        Ok(Some(kept)) => put_kept(alloc, &kept, sheet),
        Ok(None) => sheet.line(b"none"),
        Err(fault) => put_fault(fault, sheet),
    }
}

/// Writes each project, with what waits.
fn put_benches<K: Keeper>(keeper: &mut K, alloc: Global, sheet: &mut Sheet) {
    match keeper.projects(alloc) {
        Ok(benches) => {
            for bench in benches.as_slice() {
                put_bench(bench, sheet);
            }
        }
        Err(fault) => put_fault(fault, sheet),
    }
}

/// Answers a line about two labels, and a number behind them. Answers whether it is one.
fn look_at<K: Keeper>(keeper: &mut K, alloc: Global, line: &[u8], sheet: &mut Sheet) -> bool {
    let (Some(first), Some(second)) = (label(line, 1), label(line, 2)) else {
        return false;
    };
    let what = word(line, 0);
    if what == b"load".as_slice() {
        put_project(keeper, alloc, &first, &second, sheet);
        return true;
    }
    if what == b"reply_of".as_slice() {
        put_done(keeper, alloc, &first, &second, sheet);
        return true;
    }
    let Some(number) = size(word(line, 3)) else {
        return false;
    };
    if what == b"text".as_slice() {
        put_text(keeper, alloc, &first, &second, number, sheet);
    } else if what == b"submission".as_slice() {
        put_submission(keeper, alloc, &first, &second, number, sheet);
    } else {
        return false;
    }
    true
}

/// Answers what a line asks of any store.
pub fn look<K: Keeper>(keeper: &mut K, alloc: Global, line: &[u8], sheet: &mut Sheet) {
    let what = word(line, 0);
    if what == b"projects".as_slice() {
        put_benches(keeper, alloc, sheet);
    } else if what == b"faults".as_slice() {
        sheet.put(b"faults ");
        sheet.show(&keeper.faults());
        sheet.line(b"");
    } else if what == b"replies".as_slice() {
        match label(line, 1) {
            Some(caller) => put_replies(keeper, alloc, &caller, sheet),
            None => sheet.refuse(),
        }
    } else if !look_at(keeper, alloc, line, sheet) {
        sheet.refuse();
    }
}
