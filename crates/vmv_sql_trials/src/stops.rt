//! Stores in files in memory, of which one is stopped after so many of its calls.

use crate::histories::{Setting, rows_of, setting_of, start};
use sqlite::{Connection, FileStore, Files, Options};
use sqlite_disk::{Crash, Fuse, Memory};
use std::alloc::Global;
use vmv_cases::{Case, Sheet};
use vmv_desk::Desk;
use vmv_desk_texts::{command, label};
use vmv_keeper::{Keeper, Label, MemoryKeeper, Reply};
use vmv_sql::SqlKeeper;

/// A file in memory that is stopped after so many calls.
type Fused = Fuse<Memory>;

/// A store over two such files, the database and its log.
type FusedKeeper = SqlKeeper<FileStore<Fused>>;

/// Which of the two files is stopped.
#[derive(Clone, Copy)]
enum Stopped {
    Log,
    Database,
}

/// Two empty files, of which one is stopped after so many calls.
fn files(alloc: Global, stopped: Stopped, calls: u64) -> Files<Fused> {
    let (log, db) = match stopped {
        Stopped::Log => (calls, u64::MAX),
        Stopped::Database => (u64::MAX, calls),
    };
    Files {
        log: Fuse::new(Memory::new(alloc), log),
        db: Fuse::new(Memory::new(alloc), db),
    }
}

/// The files as a stop of the machine leaves them. They are used again without a stop.
fn crashed(mut files: Files<Fused>) -> Files<Fused> {
    files.log.crash();
    files.db.crash();
    files
}

/// The store over the files, not made ready yet; or the files that can't be opened.
fn adopted(alloc: Global, files: Files<Fused>) -> Result<FusedKeeper, Files<Fused>> {
    if !files.may_be_used() {
        return Err(files);
    }
    match Connection::open_files(alloc, files, Options::new(1)) {
        Ok(connection) => Ok(SqlKeeper::adopt(connection)),
        Err((_, left)) => Err(left.into_files()),
    }
}

/// The files of a store, as they are.
fn files_of(store: FusedKeeper) -> Files<Fused> {
    store.into_connection().into_store().close()
}

/// The store over the files, made ready; or the files.
fn opened(alloc: Global, files: Files<Fused>) -> Result<FusedKeeper, Files<Fused>> {
    let mut store = adopted(alloc, files)?;
    match store.ready(alloc) {
        Ok(()) => Ok(store),
        Err(_) => Err(files_of(store)),
    }
}

/// Whether a reply is that to an act that was done.
fn is_done(reply: &Reply) -> bool {
    matches!(
        reply,
        Reply::Opened { .. }
            | Reply::Members { .. }
            | Reply::Submitted { .. }
            | Reply::Withdrawn { .. }
            | Reply::Accepted { .. }
            | Reply::Waived { .. }
    )
}

/// Does the command of a line. Answers whether it was done.
fn does<K: Keeper>(setting: &Setting, desk: &mut Desk<K>, line: &[u8], sheet: &mut Sheet) -> bool {
    match command(setting.alloc, setting.case, line, sheet) {
        Some(command) => is_done(&desk.handle(setting.alloc, &command, &setting.judge)),
        None => false,
    }
}

/// Does the first commands of the text `history`, at most so many, up to the first that isn't done. Answers how many were.
fn do_first<K: Keeper>(
    setting: &Setting,
    desk: &mut Desk<K>,
    most: usize,
    sheet: &mut Sheet,
) -> usize {
    let mut done = 0usize;
    for line in setting.case.text(b"history").split(|byte| *byte == b'\n') {
        if done == most || line.is_empty() || !does(setting, desk, line, sheet) {
            return done;
        }
        done = done.saturating_add(1);
    }
    done
}

/// The rows that the first commands leave in a store in memory, as they are written; nothing where they aren't all done.
fn rows_behind(
    setting: &Setting,
    caller: &Label,
    count: usize,
    sheet: &mut Sheet,
) -> Option<Sheet> {
    let keeper = MemoryKeeper::new(setting.alloc, Vec::new(setting.alloc));
    let mut desk = start(setting.alloc, keeper, sheet)?;
    if do_first(setting, &mut desk, count, sheet) != count {
        return None;
    }
    let mut keeper = desk.close();
    Some(rows_of(&mut keeper, setting.alloc, caller))
}

/// The rows behind none of the commands of the text `history`, behind one, and so on.
fn rows_behind_each(setting: &Setting, caller: &Label, sheet: &mut Sheet) -> Vec<Sheet> {
    let mut behind = Vec::new(setting.alloc);
    for count in 0..100usize {
        match rows_behind(setting, caller, count, sheet) {
            Some(rows) => {
                if behind.push(rows).is_err() {
                    sheet.fall_short();
                }
            }
            None => return behind,
        }
    }
    behind
}

/// Does the commands over a store. Answers how many were done, and the files.
fn live(setting: &Setting, store: FusedKeeper, sheet: &mut Sheet) -> (usize, Files<Fused>) {
    match Desk::start(setting.alloc, store) {
        Ok(mut desk) => {
            let done = do_first(setting, &mut desk, usize::MAX, sheet);
            (done, files_of(desk.close()))
        }
        Err((_, store)) => (0, files_of(store)),
    }
}

/// Does the commands over these files, up to their stop. Answers how many were done, and the files.
fn run(setting: &Setting, files: Files<Fused>, sheet: &mut Sheet) -> (usize, Files<Fused>) {
    match opened(setting.alloc, files) {
        Ok(store) => live(setting, store, sheet),
        Err(files) => (0, files),
    }
}

/// Whether the files, opened again, have the rows behind so many commands, or those behind one more.
fn is_found(
    setting: &Setting,
    files: Files<Fused>,
    caller: &Label,
    behind: &[Sheet],
    done: usize,
) -> bool {
    let Ok(mut store) = opened(setting.alloc, files) else {
        return false;
    };
    let found = rows_of(&mut store, setting.alloc, caller);
    let is_at = |place: usize| match behind.get(place) {
        Some(rows) => rows.bytes() == found.bytes(),
        None => false,
    };
    is_at(done) || is_at(done.saturating_add(1))
}

/// Does the commands over files of which one is stopped after so many calls. Answers how many were done, and whether these
/// are found, or these and the one behind them.
fn stop(
    setting: &Setting,
    caller: &Label,
    behind: &[Sheet],
    stopped: Stopped,
    calls: u64,
    sheet: &mut Sheet,
) -> (usize, bool) {
    let files = files(setting.alloc, stopped, calls);
    let (done, files) = run(setting, files, sheet);
    let is_found = is_found(setting, crashed(files), caller, behind, done);
    (done, is_found)
}

/// Stops a file after 0, 1, 2, .. calls until all commands are done. Writes behind how many commands it was stopped, and
/// where other rows were found.
fn put_stops(
    setting: &Setting,
    caller: &Label,
    behind: &[Sheet],
    stopped: Stopped,
    sheet: &mut Sheet,
) {
    let mut last = None;
    for calls in 0..10_000u64 {
        let (done, is_found) = stop(setting, caller, behind, stopped, calls, sheet);
        if !is_found {
            sheet.put(b" otherwise at call ");
            sheet.show(&calls);
        }
        if done.saturating_add(1) >= behind.len() {
            sheet.line(b"; all done");
            return;
        }
        if last != Some(done) {
            sheet.put(b" ");
            sheet.show(&done);
            last = Some(done);
        }
    }
    sheet.line(b"; never all done");
}

/// `? stops CALLER`: the commands of the text `history` over a store in files, of which the log and then the database is
/// stopped after 0, 1, 2, .. of its calls, until none is stopped. After each stop the files are opened again.
pub fn stops(alloc: Global, case: &Case, ask: &[u8], sheet: &mut Sheet) {
    let Some(caller) = label(ask, 1) else {
        sheet.refuse();
        return;
    };
    let setting = setting_of(alloc, case, sheet);
    let behind = rows_behind_each(&setting, &caller, sheet);
    sheet.put(b"log stopped behind");
    put_stops(&setting, &caller, behind.as_slice(), Stopped::Log, sheet);
    sheet.put(b"database stopped behind");
    put_stops(
        &setting,
        &caller,
        behind.as_slice(),
        Stopped::Database,
        sheet,
    );
}
