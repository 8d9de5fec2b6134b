//! Statements, each run outside a transaction or in one.

ghost use Rattle.std.specs.Prelude.{◌≡◌, false};

use crate::faults::cause;
use sqlite::types::ValueRef;
use sqlite::{Alter, Connection, Error, Row, Transaction};
use vmv_keeper::{KeepFault, Label};

/// All rows of an answer.
pub(crate) fn all_rows<S: Alter>(
    connection: &mut Connection<S>,
    text: &str,
    values: &[ValueRef<'_>],
) -> Result<Vec<Row>, KeepFault>
    requires { connection.old.in_transaction ≡ false }
    ensures { connection.new.in_transaction ≡ false }
{
    match connection.query_all(text, values) {
        Ok(rows) => Ok(rows),
        Err(error) => Err(cause(error)),
    }
}

/// The first row of an answer, where it has one.
pub(crate) fn first_row<S: Alter>(
    connection: &mut Connection<S>,
    text: &str,
    values: &[ValueRef<'_>],
) -> Result<Option<Row>, KeepFault>
    requires { connection.old.in_transaction ≡ false }
    ensures { connection.new.in_transaction ≡ false }
{
    match connection.query_row(text, values) {
        Ok(row) => Ok(Some(row)),
        Err(Error::QueryReturnedNoRows) => Ok(None),
        Err(error) => Err(cause(error)),
    }
}

/// All rows of an answer, in a transaction.
pub(crate) fn rows_inside<S: Alter>(
    transaction: &mut Transaction<'_, S>,
    text: &str,
    values: &[ValueRef<'_>],
) -> Result<Vec<Row>, KeepFault>
    ensures { transaction.new.conn.ghost_name ≡ transaction.old.conn.ghost_name }
{
    match transaction.query_all(text, values) {
        Ok(rows) => Ok(rows),
        Err(error) => Err(cause(error)),
    }
}

/// Runs a statement in a transaction, and answers how many rows it changed.
pub(crate) fn change<S: Alter>(
    transaction: &mut Transaction<'_, S>,
    text: &str,
    values: &[ValueRef<'_>],
) -> Result<usize, KeepFault>
    ensures { transaction.new.conn.ghost_name ≡ transaction.old.conn.ghost_name }
{
    match transaction.execute(text, values) {
        Ok(count) => Ok(count),
        Err(error) => Err(cause(error)),
    }
}

/// Runs a statement in a transaction that is to change one row. It is a fault where it changes none or more.
pub(crate) fn change_one<S: Alter>(
    transaction: &mut Transaction<'_, S>,
    text: &str,
    values: &[ValueRef<'_>],
) -> Result<(), KeepFault>
    ensures { transaction.new.conn.ghost_name ≡ transaction.old.conn.ghost_name }
{
    let count = change(transaction, text, values)?;
    if count == 1 {
        Ok(())
    } else {
        Err(KeepFault::Failed)
    }
}

/// Runs some statements in a transaction, which stand in one text.
pub(crate) fn run_all<S: Alter>(
    transaction: &mut Transaction<'_, S>,
    texts: &str,
) -> Result<(), KeepFault>
    ensures { transaction.new.conn.ghost_name ≡ transaction.old.conn.ghost_name }
{
    match transaction.execute_batch(texts) {
        Ok(()) => Ok(()),
        Err(error) => Err(cause(error)),
    }
}

/// A label as a value.
pub(crate) fn name<'a>(label: &'a Label) -> ValueRef<'a> {
    ValueRef::Text(label.bytes())
}

/// A number as a value.
pub(crate) fn number<'a>(number: u32) -> ValueRef<'a> {
    ValueRef::Int(i64::from(number))
}
