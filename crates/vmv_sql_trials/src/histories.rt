//! Histories of commands over two stores, of which the replies are the same.

use crate::store::empty;
use sqlite::MemStore;
use std::alloc::Global;
use vmv_cases::{Case, Sheet, numbers, tail};
use vmv_desk::{Desk, StartFault};
use vmv_desk_texts::{command, judge, label, put_fault, put_reply, put_rows};
use vmv_keeper::{Keeper, Label, MemoryJudge, MemoryKeeper};
use vmv_sql::SqlKeeper;

/// What the commands of a history are read and judged by.
#[derive(Drop)]
pub struct Setting<'c> {
    pub alloc: Global,
    pub case: &'c Case,
    pub judge: MemoryJudge,
}

/// The setting of a case, whose text `judge` tells the judge what he says.
pub fn setting_of<'c>(alloc: Global, case: &'c Case, sheet: &mut Sheet) -> Setting<'c> {
    let judge = judge(alloc, case, sheet);
    Setting { alloc, case, judge }
}

/// Starts a desk over a store.
pub fn start<K: Keeper + Drop>(alloc: Global, keeper: K, sheet: &mut Sheet) -> Option<Desk<K>> {
    match Desk::start(alloc, keeper) {
        Ok(desk) => Some(desk),
        Err((StartFault::Failed, _keeper)) => {
            sheet.line(b"the start failed");
            None
        }
        Err((StartFault::Memory, _keeper)) => {
            sheet.fall_short();
            None
        }
    }
}

/// The reply to the command of a line, as it is written.
fn told<K: Keeper>(setting: &Setting, desk: &mut Desk<K>, line: &[u8], sheet: &mut Sheet) -> Sheet {
    let mut told = Sheet::new(setting.alloc);
    match command(setting.alloc, setting.case, line, sheet) {
        Some(command) => put_reply(
            &desk.handle(setting.alloc, &command, &setting.judge),
            &mut told,
        ),
        None => sheet.refuse(),
    }
    if told.is_short() {
        sheet.fall_short();
    }
    told
}

/// Does what a line says: `restart` closes the desk and starts another over its store; else the reply to its command is
/// put behind the others.
fn turn<K: Keeper + Drop>(
    setting: &Setting,
    desk: Desk<K>,
    line: &[u8],
    replies: &mut Vec<Sheet>,
    sheet: &mut Sheet,
) -> Option<Desk<K>> {
    if line == b"restart".as_slice() {
        return start(setting.alloc, desk.close(), sheet);
    }
    let mut desk = desk;
    if !line.is_empty() && replies.push(told(setting, &mut desk, line, sheet)).is_err() {
        sheet.fall_short();
    }
    Some(desk)
}

/// What a history leaves: a store, and each reply.
#[derive(Drop)]
struct Lived<K> {
    keeper: K,
    replies: Vec<Sheet>,
}

/// Does the commands of the text `history` over a store.
fn live<K: Keeper + Drop>(setting: &Setting, keeper: K, sheet: &mut Sheet) -> Option<Lived<K>> {
    let mut replies = Vec::new(setting.alloc);
    let mut desk = start(setting.alloc, keeper, sheet)?;
    for line in setting.case.text(b"history").split(|byte| *byte == b'\n') {
        desk = turn(setting, desk, line, &mut replies, sheet)?;
    }
    Some(Lived {
        keeper: desk.close(),
        replies,
    })
}

/// A store over SQL in memory, with its tables made.
fn made(alloc: Global, sheet: &mut Sheet) -> Option<SqlKeeper<MemStore>> {
    let mut store = empty(alloc)?;
    match store.ready(alloc) {
        Ok(()) => Some(store),
        Err(fault) => {
            put_fault(fault, sheet);
            None
        }
    }
}

/// Writes whether two lists of replies are the same, or the first that isn't.
fn put_compared(sql: &[Sheet], memory: &[Sheet], sheet: &mut Sheet) {
    let mut count = 0u32;
    for (one, other) in sql.iter().zip(memory.iter()) {
        count = count.saturating_add(1);
        if one.bytes() != other.bytes() {
            sheet.put(b"reply ");
            sheet.show(&count);
            sheet.line(b" differs");
            return;
        }
    }
    sheet.show(&count);
    sheet.line(if sql.len() == memory.len() {
        b" replies, the same"
    } else {
        b" replies, and more over one of the stores"
    });
}

/// Writes the replies of these numbers, from 1.
fn put_picked(replies: &[Sheet], numbers: &[i64], sheet: &mut Sheet) {
    for number in numbers {
        let place = usize::try_from(number.saturating_sub(1)).ok();
        match place.and_then(|place| replies.get(place)) {
            Some(reply) => {
                sheet.show(number);
                sheet.put(b" ");
                sheet.put(reply.bytes());
            }
            None => sheet.refuse(),
        }
    }
}

/// The rows of a store, as they are written, with how many replies it keeps for a caller.
pub fn rows_of<K: Keeper>(keeper: &mut K, alloc: Global, caller: &Label) -> Sheet {
    let mut rows = Sheet::new(alloc);
    put_rows(keeper, alloc, caller, &mut rows);
    rows
}

/// Writes the rows of a store over SQL, where a store in memory has the same.
fn put_same_rows(
    sql: &mut SqlKeeper<MemStore>,
    memory: &mut MemoryKeeper,
    alloc: Global,
    caller: &Label,
    sheet: &mut Sheet,
) {
    let rows = rows_of(sql, alloc, caller);
    if rows.is_short() {
        sheet.fall_short();
    }
    if rows.bytes() == rows_of(memory, alloc, caller).bytes() {
        sheet.put(rows.bytes());
    } else {
        sheet.line(b"the rows differ");
    }
}

/// `? both CALLER NUMBER ..`: whether a history has the same replies over a store over SQL and over one in memory, the
/// replies of these numbers, and the rows that it leaves in both.
pub fn both(alloc: Global, case: &Case, ask: &[u8], sheet: &mut Sheet) {
    let setting = setting_of(alloc, case, sheet);
    let Some(store) = made(alloc, sheet) else {
        sheet.refuse();
        return;
    };
    let memory = MemoryKeeper::new(alloc, Vec::new(alloc));
    let sql = live(&setting, store, sheet);
    let memory = live(&setting, memory, sheet);
    let (Some(mut sql), Some(mut memory), Some(caller)) = (sql, memory, label(ask, 1)) else {
        sheet.refuse();
        return;
    };
    put_compared(sql.replies.as_slice(), memory.replies.as_slice(), sheet);
    let picked = numbers(alloc, tail(ask, 2), sheet);
    put_picked(sql.replies.as_slice(), picked.as_slice(), sheet);
    put_same_rows(&mut sql.keeper, &mut memory.keeper, alloc, &caller, sheet);
}
