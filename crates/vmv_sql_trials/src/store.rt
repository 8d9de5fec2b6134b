//! What lines do with a store over SQL.

use sqlite::{Alter, Connection, MemStore};
use std::alloc::Global;
use std::str;
use vmv_cases::{Case, Sheet, tail, word};
use vmv_desk_texts::{change, is_change, label, look, put_fault, put_number};
use vmv_keeper::{Held, KeepFault, Keeper, Label};
use vmv_sql::SqlKeeper;

/// A store in memory in which nothing was made.
pub fn empty(alloc: Global) -> Option<SqlKeeper<MemStore>> {
    match Connection::open_in_memory(alloc) {
        Ok(connection) => Some(SqlKeeper::adopt(connection)),
        Err(_) => None,
    }
}

/// Runs the statements of a line, which don't end in a transaction, on a store's connection.
fn run_sql<S: Alter + Drop>(
    store: SqlKeeper<S>,
    line: &[u8],
    sheet: &mut Sheet,
) -> Option<SqlKeeper<S>> {
    let mut connection = store.into_connection();
    let Ok(text) = str::from_utf8(tail(line, 1)) else {
        return None;
    };
    if connection.execute_batch(text).is_err() {
        sheet.line(b"refused");
    }
    if connection.is_autocommit() {
        Some(SqlKeeper::adopt(connection))
    } else {
        None
    }
}

/// Writes what an answer without a value says.
fn put_done(answer: Result<(), KeepFault>, done: &[u8], sheet: &mut Sheet) {
    match answer {
        Ok(()) => sheet.line(done),
        Err(fault) => put_fault(fault, sheet),
    }
}

/// Makes the change of a line.
fn commit<S: Alter>(
    store: &mut SqlKeeper<S>,
    alloc: Global,
    case: &Case,
    line: &[u8],
    sheet: &mut Sheet,
) {
    match change(alloc, case, line, sheet) {
        Some(change) => put_done(store.commit(alloc, &change), b"made", sheet),
        None => sheet.refuse(),
    }
}

/// Writes how much a project has.
fn put_counts(held: &Held, sheet: &mut Sheet) {
    sheet.put(b"members ");
    sheet.show(&held.members.len());
    sheet.put(b" versions ");
    sheet.show(&held.versions.len());
    put_number(b" next", held.next, sheet);
}

/// Writes how much the project of an owner and a name has.
fn count_of<K: Keeper>(
    store: &mut K,
    alloc: Global,
    owner: &Label,
    name: &Label,
    sheet: &mut Sheet,
) {
    match store.load(alloc, owner, name) {
        Ok(Some(held)) => put_counts(&held, sheet),
        Ok(None) => sheet.line(b"none"),
        Err(fault) => put_fault(fault, sheet),
    }
}

/// Answers a line `count OWNER PROJECT`.
fn count<K: Keeper>(store: &mut K, alloc: Global, line: &[u8], sheet: &mut Sheet) {
    match (label(line, 1), label(line, 2)) {
        (Some(owner), Some(name)) => count_of(store, alloc, &owner, &name, sheet),
        _ => sheet.refuse(),
    }
}

/// Does what a line says.
pub fn step<S: Alter + Drop>(
    store: SqlKeeper<S>,
    alloc: Global,
    case: &Case,
    line: &[u8],
    sheet: &mut Sheet,
) -> Option<SqlKeeper<S>> {
    let what = word(line, 0);
    if what == b"sql".as_slice() {
        return run_sql(store, line, sheet);
    }
    let mut store = store;
    if what == b"ready".as_slice() {
        put_done(store.ready(alloc), b"ready", sheet);
    } else if what == b"count".as_slice() {
        count(&mut store, alloc, line, sheet);
    } else if is_change(line) {
        commit(&mut store, alloc, case, line, sheet);
    } else if !line.is_empty() {
        look(&mut store, alloc, line, sheet);
    }
    Some(store)
}

fn run_store(alloc: Global, case: &Case, sheet: &mut Sheet) -> Option<SqlKeeper<MemStore>> {
    let mut store = empty(alloc)?;
    for line in case.text(b"store").split(|byte| *byte == b'\n') {
        store = step(store, alloc, case, line, sheet)?;
    }
    Some(store)
}

/// `? sql_store`: what the lines of the text `store` answer, over a store over SQL in memory.
pub fn in_memory(alloc: Global, case: &Case, sheet: &mut Sheet) {
    if run_store(alloc, case, sheet).is_none() {
        sheet.refuse();
    }
}
