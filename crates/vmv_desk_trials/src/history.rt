use crate::keeper::NotingKeeper;
use crate::repeats::{Setting, put_turn, repeat};
use std::alloc::Global;
use vmv_cases::{Case, Sheet, number, tail, word};
use vmv_desk::{Desk, StartFault};
use vmv_desk_texts::{command, judge, label, put_reply, put_rows, size};
use vmv_keeper::{Command, Judge, MemoryKeeper};

/// The number of a call.
fn call(word: &[u8]) -> Option<u64> {
    u64::try_from(number(word)?).ok()
}

/// The numbers of the calls that are to fail, as a line writes them.
pub fn failing(alloc: Global, line: &[u8], sheet: &mut Sheet) -> Vec<u64> {
    let mut failing = Vec::new(alloc);
    for word in line.split(|byte| *byte == b' ') {
        match call(word) {
            Some(call) => {
                if failing.push(call).is_err() {
                    sheet.fall_short();
                }
            }
            None if word.is_empty() => {}
            None => sheet.refuse(),
        }
    }
    failing
}

/// Starts a desk over a store, which may fail once.
fn start(alloc: Global, keeper: NotingKeeper, sheet: &mut Sheet) -> Option<Desk<NotingKeeper>> {
    match Desk::start(alloc, keeper) {
        Ok(desk) => Some(desk),
        Err((StartFault::Failed, keeper)) => {
            sheet.line(b"the start failed");
            Desk::start(alloc, keeper).ok()
        }
        Err((StartFault::Memory, _keeper)) => {
            sheet.fall_short();
            None
        }
    }
}

/// `restart REPLIES NEXT`: closes a desk and starts another over its store, which notes its calls anew, and from then on
/// says that at least so many replies are kept and that a next submission has at least this number.
fn restart(
    alloc: Global,
    desk: Desk<NotingKeeper>,
    line: &[u8],
    sheet: &mut Sheet,
) -> Option<Desk<NotingKeeper>> {
    let NotingKeeper { keeper, .. } = desk.close();
    let (Some(replies), Some(next)) = (size(word(line, 1)), size(word(line, 2))) else {
        sheet.refuse();
        return None;
    };
    let log = Sheet::new(alloc);
    start(
        alloc,
        NotingKeeper {
            keeper,
            replies,
            next,
            log,
        },
        sheet,
    )
}

/// Does what a line of a history says.
fn step(
    setting: &Setting,
    desk: Desk<NotingKeeper>,
    line: &[u8],
    sheet: &mut Sheet,
) -> Option<Desk<NotingKeeper>> {
    let what = word(line, 0);
    if what == b"restart".as_slice() {
        return restart(setting.alloc, desk, line, sheet);
    }
    let mut desk = desk;
    if what == b"repeat".as_slice() {
        repeat(setting, &mut desk, line, sheet);
    } else if !line.is_empty() {
        put_turn(setting, &mut desk, line, sheet);
    }
    Some(desk)
}

/// A desk over a store without rows that fails at these calls.
fn begin(alloc: Global, calls: &[u8], sheet: &mut Sheet) -> Option<Desk<NotingKeeper>> {
    let keeper = NotingKeeper {
        keeper: MemoryKeeper::new(alloc, failing(alloc, calls, sheet)),
        replies: 0,
        next: 0,
        log: Sheet::new(alloc),
    };
    start(alloc, keeper, sheet)
}

/// Writes the replies to a history on a desk over a store that fails at these calls. Answers the store.
fn run(alloc: Global, case: &Case, calls: &[u8], sheet: &mut Sheet) -> Option<NotingKeeper> {
    let judge = judge(alloc, case, sheet);
    let setting = Setting { alloc, case, judge };
    let mut desk = begin(alloc, calls, sheet)?;
    for line in case.text(b"history").split(|byte| *byte == b'\n') {
        desk = step(&setting, desk, line, sheet)?;
    }
    Some(desk.close())
}

/// `? replies CALL ..`: the replies to a history.
pub fn replies(alloc: Global, case: &Case, ask: &[u8], sheet: &mut Sheet) {
    if run(alloc, case, tail(ask, 1), sheet).is_none() {
        sheet.refuse();
    }
}

/// `? calls CALL ..`: the replies to a history, and the calls of the store since the last start.
pub fn calls(alloc: Global, case: &Case, ask: &[u8], sheet: &mut Sheet) {
    match run(alloc, case, tail(ask, 1), sheet) {
        Some(store) => sheet.put(store.log.bytes()),
        None => sheet.refuse(),
    }
}

/// `? rows CALLER CALL ..`: the replies to a history, and the rows that it leaves.
pub fn rows(alloc: Global, case: &Case, ask: &[u8], sheet: &mut Sheet) {
    let Some(caller) = label(ask, 1) else {
        sheet.refuse();
        return;
    };
    match run(alloc, case, tail(ask, 2), sheet) {
        Some(store) => {
            let NotingKeeper { mut keeper, .. } = store;
            put_rows(&mut keeper, alloc, &caller, sheet);
        }
        None => sheet.refuse(),
    }
}

/// The commands of a history.
fn commands(alloc: Global, case: &Case, sheet: &mut Sheet) -> Vec<Command> {
    let mut commands = Vec::new(alloc);
    for line in case.text(b"history").split(|byte| *byte == b'\n') {
        if line.is_empty() {
            continue;
        }
        match command(alloc, case, line, sheet) {
            Some(command) => {
                if commands.push(command).is_err() {
                    sheet.fall_short();
                }
            }
            None => sheet.refuse(),
        }
    }
    commands
}

/// Writes the replies to a history whose commands are handled as one list, by any judge.
fn put_list<J: Judge>(alloc: Global, case: &Case, judge: &J, sheet: &mut Sheet) {
    let commands = commands(alloc, case, sheet);
    let Some(mut desk) = begin(alloc, b"", sheet) else {
        sheet.refuse();
        return;
    };
    match desk.handle_all(alloc, commands.as_slice(), judge) {
        Ok(replies) => {
            for reply in replies.as_slice() {
                put_reply(reply, sheet);
            }
        }
        Err(_) => sheet.fall_short(),
    }
}

/// `? list`: the replies to a history whose commands are handled as one list.
pub fn list(alloc: Global, case: &Case, sheet: &mut Sheet) {
    let judge = judge(alloc, case, sheet);
    put_list(alloc, case, &judge, sheet);
}

/// `? gate`: the same by the gate.
pub fn gated<J: Judge>(gate: &J, alloc: Global, case: &Case, sheet: &mut Sheet) {
    put_list(alloc, case, gate, sheet);
}
