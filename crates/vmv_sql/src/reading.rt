//! What the store answers of its rows.

ghost use Rattle.std.specs.Prelude.{◌≡◌, ◌≤◌, false, IfOk, IfSome, IsUtf8};
ghost use Rattle.vmv_keeper.specs.Formed.{IsHeld, IsDone};

use crate::cells::{bytes_at, label_at, number_within, text_at};
use crate::held::{members_of, versions_of};
use crate::sql;
use crate::statements::{all_rows, first_row, name, number};
use sqlite::types::ValueRef;
use sqlite::{Alter, Connection, Row};
use std::alloc::Global;
use vmv_edge::Text;
use vmv_keeper::{Held, KeepFault, Kept, Label, Submitted};
use vmv_records::read_kept;

/// The project of this owner and name, where there is one.
pub(crate) fn load<'a, S: Alter>(
    connection: &mut Connection<S>,
    alloc: Global,
    owner: &'a Label,
    project: &'a Label,
) -> Result<Option<Held>, KeepFault>
    requires { connection.old.in_transaction ≡ false }
    ensures mode { connection.new.in_transaction ≡ false }
    ensures formed { IfOk result (λ found. IfSome found (IsHeld owner.now)) }
{
    let values: [ValueRef<'a>; 2] = [name(owner), name(project)];
    let Some(row) = first_row(connection, sql::NEXT, &values)? else {
        return Ok(None);
    };
    let next = number_within(&row, 0, 1, 1_000_001)?;
    let rows = all_rows(connection, sql::MEMBERS, &values)?;
    let members = members_of(alloc, rows.as_slice(), owner)?;
    let rows = all_rows(connection, sql::VERSIONS, &values)?;
    let versions = versions_of(alloc, rows.as_slice())?;
    Ok(Some(Held {
        members,
        versions,
        next,
    }))
}

// The row of a version or of a submission of this number, by the statement. A row under a number that none can have,
// 0 or one above the most, is a fault.
fn numbered_row<'a, S: Alter>(
    connection: &mut Connection<S>,
    statement: &str,
    owner: &'a Label,
    project: &'a Label,
    at: u32,
    most: u32,
) -> Result<Option<Row>, KeepFault>
    requires { connection.old.in_transaction ≡ false }
    ensures { connection.new.in_transaction ≡ false }
{
    let values: [ValueRef<'a>; 3] = [name(owner), name(project), number(at)];
    match first_row(connection, statement, &values)? {
        Some(_) if at < 1 || most < at => Err(KeepFault::Failed),
        found => Ok(found),
    }
}

/// The text of a version, where there is one.
pub(crate) fn text<S: Alter>(
    connection: &mut Connection<S>,
    alloc: Global,
    owner: &Label,
    project: &Label,
    version: u32,
) -> Result<Option<Text>, KeepFault>
    requires { connection.old.in_transaction ≡ false }
    ensures mode { connection.new.in_transaction ≡ false }
    ensures formed { IfOk result (λ found. IfSome found IsUtf8) }
{
    match numbered_row(connection, sql::TEXT, owner, project, version, 1024)? {
        Some(row) => Ok(Some(text_at(alloc, &row, 0)?)),
        None => Ok(None),
    }
}

fn submitted_of(alloc: Global, row: &Row) -> Result<Submitted, KeepFault>
    ensures { IfOk result (λ submitted. IsUtf8 submitted.text) }
{
    Ok(Submitted {
        by: label_at(row, 0)?,
        text: text_at(alloc, row, 1)?,
    })
}

/// A submission, where it waits.
pub(crate) fn submission<S: Alter>(
    connection: &mut Connection<S>,
    alloc: Global,
    owner: &Label,
    project: &Label,
    at: u32,
) -> Result<Option<Submitted>, KeepFault>
    requires { connection.old.in_transaction ≡ false }
    ensures mode { connection.new.in_transaction ≡ false }
    ensures formed { IfOk result (λ found. IfSome found (λ submitted. IsUtf8 submitted.text)) }
{
    match numbered_row(connection, sql::SUBMISSION, owner, project, at, 1_000_000)? {
        Some(row) => Ok(Some(submitted_of(alloc, &row)?)),
        None => Ok(None),
    }
}

fn kept_of(alloc: Global, row: &Row) -> Result<Kept, KeepFault>
    ensures { IfOk result (λ kept. IsDone kept.act kept.reply) }
{
    let act = bytes_at(row, 0)?;
    let answer = bytes_at(row, 1)?;
    match read_kept(alloc, act, answer)? {
        Some(kept) => Ok(kept),
        None => Err(KeepFault::Failed),
    }
}

/// What was done under a caller's id, where something was.
pub(crate) fn reply_of<'a, S: Alter>(
    connection: &mut Connection<S>,
    alloc: Global,
    caller: &'a Label,
    id: &'a Label,
) -> Result<Option<Kept>, KeepFault>
    requires { connection.old.in_transaction ≡ false }
    ensures mode { connection.new.in_transaction ≡ false }
    ensures formed { IfOk result (λ found. IfSome found (λ kept. IsDone kept.act kept.reply)) }
{
    let values: [ValueRef<'a>; 2] = [name(caller), name(id)];
    match first_row(connection, sql::KEPT, &values)? {
        Some(row) => Ok(Some(kept_of(alloc, &row)?)),
        None => Ok(None),
    }
}

/// How many replies are kept for a caller: at most 100,000.
pub(crate) fn replies<S: Alter>(
    connection: &mut Connection<S>,
    caller: &Label,
) -> Result<u32, KeepFault>
    requires { connection.old.in_transaction ≡ false }
    ensures mode { connection.new.in_transaction ≡ false }
    ensures formed { IfOk result (λ count. count ≤ 100000) }
{
    match first_row(connection, sql::REPLIES, &[name(caller)])? {
        Some(row) => number_within(&row, 0, 0, 100_000),
        None => Err(KeepFault::Failed),
    }
}
