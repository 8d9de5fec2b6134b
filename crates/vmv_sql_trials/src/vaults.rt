//! Stores over files, as the vault over files gives them.

use crate::store::step;
use sqlite::Connection;
use std::alloc::Global;
use std::rt::HostRuntime;
use std::{fs, str};
use vmv_cases::{Case, Sheet, word};
use vmv_sql_vault::{FileKeeper, SqlVault};
use vmv_vault::{Vault, VaultFault};

/// Removes the file of this name and the log beside it, where they are there.
fn remove(rt: &HostRuntime, alloc: Global, name: &str, sheet: &mut Sheet) {
    let _ = fs::remove_file(rt, name);
    match format!(in alloc; "{name}-wal") {
        Ok(log) => {
            let _ = fs::remove_file(rt, log.as_str());
        }
        Err(_) => sheet.fall_short(),
    }
}

/// Makes the file by these statements. Answers whether it is made.
fn is_made(rt: &HostRuntime, name: &str, statements: &str) -> bool {
    let Ok(mut connection) = Connection::open(rt, name) else {
        return false;
    };
    let is_run = connection.execute_batch(statements).is_ok();
    connection.close().is_ok() && is_run
}

/// A file of the machine, and the case that asks of it.
#[derive(Drop)]
struct Place<'c> {
    alloc: Global,
    case: &'c Case,
    name: &'c str,
}

/// Makes the file by the statements of the text `made`, where there are some.
fn make(rt: &HostRuntime, place: &Place, sheet: &mut Sheet) {
    match str::from_utf8(place.case.text(b"made")) {
        Ok(statements) if !statements.is_empty() => {
            if !is_made(rt, place.name, statements) {
                sheet.line(b"not made");
            }
        }
        Ok(_) => {}
        Err(_) => sheet.refuse(),
    }
}

/// The store over the file. A fault is written.
fn given(vault: &mut SqlVault<'_>, place: &Place, sheet: &mut Sheet) -> Option<FileKeeper> {
    match vault.keeper(place.alloc, place.name) {
        Ok(store) => Some(store),
        Err(VaultFault::Failed) => {
            sheet.line(b"failed");
            None
        }
        Err(VaultFault::Memory) => {
            sheet.fall_short();
            None
        }
    }
}

/// Does what a line says: `again` gives the store back and takes it from the vault again.
fn turn(
    vault: &mut SqlVault<'_>,
    store: FileKeeper,
    place: &Place,
    line: &[u8],
    sheet: &mut Sheet,
) -> Option<FileKeeper> {
    if line == b"again".as_slice() {
        vault.give_back(store);
        given(vault, place, sheet)
    } else {
        step(store, place.alloc, place.case, line, sheet)
    }
}

/// Does what the lines of the text `store` say. Answers the store that is left, where the vault gave it each time.
fn run(vault: &mut SqlVault<'_>, place: &Place, sheet: &mut Sheet) -> Option<FileKeeper> {
    let mut store = given(vault, place, sheet)?;
    for line in place.case.text(b"store").split(|byte| *byte == b'\n') {
        store = turn(vault, store, place, line, sheet)?;
    }
    Some(store)
}

/// Does it over the files of the machine, and writes how many faults their vault has counted.
fn run_over_files(rt: &HostRuntime, place: &Place, sheet: &mut Sheet) {
    let mut vault = SqlVault::new(rt);
    if let Some(store) = run(&mut vault, place, sheet) {
        vault.give_back(store);
    }
    sheet.put(b"faults of the vault ");
    sheet.show(&vault.faults());
    sheet.line(b"");
}

/// `? vault NAME keep`: what the lines of the text `store` answer, over the store that the vault over files gives under
/// this name. The file is left where the third word is there.
pub fn vault(rt: &HostRuntime, alloc: Global, case: &Case, ask: &[u8], sheet: &mut Sheet) {
    let Ok(name) = str::from_utf8(word(ask, 1)) else {
        sheet.refuse();
        return;
    };
    let place = Place { alloc, case, name };
    remove(rt, alloc, name, sheet);
    make(rt, &place, sheet);
    run_over_files(rt, &place, sheet);
    if word(ask, 2) != b"keep".as_slice() {
        remove(rt, alloc, name, sheet);
    }
}
