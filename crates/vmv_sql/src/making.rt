//! The tables of a store: made in an empty one, and taken over from one of mark 1.

ghost use Rattle.std.specs.Prelude.{◌≡◌, false};

use crate::cells::{label_at, number_at};
use crate::committing::add_judged;
use crate::faults::cause;
use crate::held::old_rows_of;
use crate::sql;
use crate::statements::{all_rows, first_row, name, rows_inside, run_all};
use sqlite::types::ValueRef;
use sqlite::{Alter, Connection, Row, Transaction};
use std::alloc::Global;
use vmv_desk_rules::migrate;
use vmv_keeper::{KeepFault, Label, VersionRow};

// What a store is found to be.
enum Mark {
    Empty,
    One,
    Two,
}

// The mark that the rows have, of which there is one.
fn mark_of(rows: &[Row]) -> Result<Mark, KeepFault> {
    let [row] = rows else {
        return Err(KeepFault::Failed);
    };
    match number_at(row, 0)? {
        1 => Ok(Mark::One),
        2 => Ok(Mark::Two),
        _ => Err(KeepFault::Failed),
    }
}

fn read_mark<S: Alter>(connection: &mut Connection<S>) -> Result<Mark, KeepFault>
    requires { connection.old.in_transaction ≡ false }
    ensures { connection.new.in_transaction ≡ false }
{
    match first_row(connection, sql::OBJECTS, &[])? {
        Some(row) if number_at(&row, 0)? == 0 => Ok(Mark::Empty),
        Some(_) => mark_of(all_rows(connection, sql::MARKS, &[])?.as_slice()),
        None => Err(KeepFault::Failed),
    }
}

fn make<S: Alter>(connection: &mut Connection<S>) -> Result<(), KeepFault>
    requires { connection.old.in_transaction ≡ false }
    ensures { connection.new.in_transaction ≡ false }
{
    let mut transaction = connection.transaction();
    run_all(&mut transaction, sql::MAKE)?;
    match transaction.commit() {
        Ok(()) => Ok(()),
        Err(error) => Err(cause(error)),
    }
}

// Keeps what each accepted version of a project was judged against.
fn keep_judged<S: Alter>(
    transaction: &mut Transaction<'_, S>,
    owner: &Label,
    project: &Label,
    versions: &[VersionRow],
) -> Result<(), KeepFault>
    ensures { transaction.new.conn.ghost_name ≡ transaction.old.conn.ghost_name }
{
    for version in versions {
        if version.kind == 2 {
            add_judged(transaction, owner, project, version.number, version.against)?;
        }
    }
    Ok(())
}

fn migrate_project<S: Alter>(
    transaction: &mut Transaction<'_, S>,
    alloc: Global,
    owner: &Label,
    project: &Label,
) -> Result<(), KeepFault>
    ensures { transaction.new.conn.ghost_name ≡ transaction.old.conn.ghost_name }
{
    let values = [name(owner), name(project)];
    let rows = rows_inside(transaction, sql::OLD_VERSIONS, &values)?;
    let old = old_rows_of(alloc, rows.as_slice())?;
    let versions = migrate(alloc, &old)?;
    keep_judged(transaction, owner, project, versions.as_slice())
}

fn migrate_projects<S: Alter>(
    transaction: &mut Transaction<'_, S>,
    alloc: Global,
) -> Result<(), KeepFault>
    ensures { transaction.new.conn.ghost_name ≡ transaction.old.conn.ghost_name }
{
    let rows = rows_inside(transaction, sql::PROJECTS, &[])?;
    for row in &rows {
        let owner = label_at(row, 0)?;
        let project = label_at(row, 1)?;
        migrate_project(transaction, alloc, &owner, &project)?;
    }
    Ok(())
}

// Takes a store of mark 1 over, all of it or nothing.
fn migrate_all<S: Alter>(connection: &mut Connection<S>, alloc: Global) -> Result<(), KeepFault>
    requires { connection.old.in_transaction ≡ false }
    ensures { connection.new.in_transaction ≡ false }
{
    let mut transaction = connection.transaction();
    run_all(&mut transaction, sql::MAKE_JUDGED)?;
    migrate_projects(&mut transaction, alloc)?;
    match transaction.commit() {
        Ok(()) => Ok(()),
        Err(error) => Err(cause(error)),
    }
}

/// Makes the tables in an empty store, and takes one of mark 1 over. A store of another mark is a fault.
pub(crate) fn ready<S: Alter>(
    connection: &mut Connection<S>,
    alloc: Global,
) -> Result<(), KeepFault>
    requires { connection.old.in_transaction ≡ false }
    ensures { connection.new.in_transaction ≡ false }
{
    match read_mark(connection)? {
        Mark::Empty => make(connection),
        Mark::One => migrate_all(connection, alloc),
        Mark::Two => Ok(()),
    }
}
