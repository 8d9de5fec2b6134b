//! A change, all of it in one transaction.

ghost use Rattle.std.specs.Prelude.{◌≡◌, false};

use crate::cells::number_within;
use crate::faults::cause;
use crate::sql;
use crate::statements::{change, change_one, name, number, rows_inside};
use sqlite::types::ValueRef;
use sqlite::{Alter, Connection, Transaction};
use std::alloc::Global;
use vmv_edge::Text;
use vmv_keeper::{Act, Change, KeepFault, Label};
use vmv_records::{write_act, write_reply};

fn open_project<'a, S: Alter>(
    transaction: &mut Transaction<'_, S>,
    caller: &'a Label,
    project: &'a Label,
    text: &'a Text,
) -> Result<(), KeepFault>
    ensures { transaction.new.conn.ghost_name ≡ transaction.old.conn.ghost_name }
{
    let values: [ValueRef<'a>; 3] = [name(caller), name(project), ValueRef::Blob(text.bytes())];
    change_one(transaction, sql::ADD_PROJECT, &values[..2])?;
    change_one(transaction, sql::ADD_OWNER, &values[..2])?;
    change_one(transaction, sql::ADD_FIRST, &values)
}

fn add_member<'a, S: Alter>(
    transaction: &mut Transaction<'_, S>,
    owner: &'a Label,
    project: &'a Label,
    member: &'a Label,
) -> Result<(), KeepFault>
    ensures { transaction.new.conn.ghost_name ≡ transaction.old.conn.ghost_name }
{
    let values: [ValueRef<'a>; 3] = [name(owner), name(project), name(member)];
    let _ = change(transaction, sql::ADD_MEMBER, &values)?;
    Ok(())
}

fn submit<'a, S: Alter>(
    transaction: &mut Transaction<'_, S>,
    caller: &'a Label,
    owner: &'a Label,
    project: &'a Label,
    text: &'a Text,
) -> Result<(), KeepFault>
    ensures { transaction.new.conn.ghost_name ≡ transaction.old.conn.ghost_name }
{
    let values: [ValueRef<'a>; 4] = [
        name(owner),
        name(project),
        name(caller),
        ValueRef::Blob(text.bytes()),
    ];
    change_one(transaction, sql::ADD_SUBMISSION, &values)?;
    change_one(transaction, sql::COUNT_SUBMISSION, &values[..2])
}

fn withdraw<'a, S: Alter>(
    transaction: &mut Transaction<'_, S>,
    owner: &'a Label,
    project: &'a Label,
    submission: u32,
) -> Result<(), KeepFault>
    ensures { transaction.new.conn.ghost_name ≡ transaction.old.conn.ghost_name }
{
    let values: [ValueRef<'a>; 3] = [name(owner), name(project), number(submission)];
    change_one(transaction, sql::DROP_SUBMISSION, &values)
}

// The number of a project's next version.
fn next_version<'a, S: Alter>(
    transaction: &mut Transaction<'_, S>,
    owner: &'a Label,
    project: &'a Label,
) -> Result<u32, KeepFault>
    ensures { transaction.new.conn.ghost_name ≡ transaction.old.conn.ghost_name }
{
    let values: [ValueRef<'a>; 2] = [name(owner), name(project)];
    let rows = rows_inside(transaction, sql::LAST_VERSION, &values)?;
    match rows.as_slice() {
        [row] => Ok(number_within(row, 0, 1, 1023)? + 1),
        _ => Err(KeepFault::Failed),
    }
}

// Makes a version of a submission, which then waits no more, and answers its number.
fn add_version<'a, S: Alter>(
    transaction: &mut Transaction<'_, S>,
    kind: u32,
    caller: &'a Label,
    owner: &'a Label,
    project: &'a Label,
    submission: u32,
) -> Result<u32, KeepFault>
    ensures { transaction.new.conn.ghost_name ≡ transaction.old.conn.ghost_name }
{
    let version = next_version(transaction, owner, project)?;
    let values: [ValueRef<'a>; 6] = [
        name(owner),
        name(project),
        number(submission),
        number(version),
        number(kind),
        name(caller),
    ];
    change_one(transaction, sql::ADD_VERSION, &values)?;
    change_one(transaction, sql::DROP_SUBMISSION, &values[..3])?;
    Ok(version)
}

// Keeps what an accepted version was judged against.
pub(crate) fn add_judged<'a, S: Alter>(
    transaction: &mut Transaction<'_, S>,
    owner: &'a Label,
    project: &'a Label,
    version: u32,
    against: u32,
) -> Result<(), KeepFault>
    ensures { transaction.new.conn.ghost_name ≡ transaction.old.conn.ghost_name }
{
    let values: [ValueRef<'a>; 4] = [name(owner), name(project), number(version), number(against)];
    change_one(transaction, sql::ADD_JUDGED, &values)
}

// Makes the rows of an act.
fn act_rows<S: Alter>(
    transaction: &mut Transaction<'_, S>,
    caller: &Label,
    act: &Act,
    against: u32,
) -> Result<(), KeepFault>
    ensures { transaction.new.conn.ghost_name ≡ transaction.old.conn.ghost_name }
{
    match act {
        Act::OpenProject { name, text } => open_project(transaction, caller, name, text),
        Act::AddMember {
            owner,
            project,
            member,
        } => add_member(transaction, owner, project, member),
        Act::Submit {
            owner,
            project,
            text,
        } => submit(transaction, caller, owner, project, text),
        Act::Withdraw {
            owner,
            project,
            submission,
        } => withdraw(transaction, owner, project, *submission),
        Act::Accept {
            owner,
            project,
            submission,
        } => {
            let version = add_version(transaction, 2, caller, owner, project, *submission)?;
            add_judged(transaction, owner, project, version, against)
        }
        Act::Waive {
            owner,
            project,
            submission,
        } => {
            let _ = add_version(transaction, 3, caller, owner, project, *submission)?;
            Ok(())
        }
    }
}

// Keeps an act and its reply under the caller's id.
fn keep<'a, S: Alter>(
    transaction: &mut Transaction<'_, S>,
    caller: &'a Label,
    id: &'a Label,
    act: &'a [u8],
    answer: &'a [u8],
) -> Result<(), KeepFault>
    ensures { transaction.new.conn.ghost_name ≡ transaction.old.conn.ghost_name }
{
    let values: [ValueRef<'a>; 4] = [
        name(caller),
        name(id),
        ValueRef::Blob(act),
        ValueRef::Blob(answer),
    ];
    change_one(transaction, sql::ADD_REPLY, &values)
}

/// Makes a change and keeps its reply, all of it or nothing. A change whose reply isn't that of an act that was done
/// is a fault.
pub(crate) fn commit<S: Alter>(
    connection: &mut Connection<S>,
    alloc: Global,
    asked: &Change,
) -> Result<(), KeepFault>
    requires { connection.old.in_transaction ≡ false }
    ensures { connection.new.in_transaction ≡ false }
{
    let Some(answer) = write_reply(&asked.reply) else {
        return Err(KeepFault::Failed);
    };
    let act = write_act(alloc, &asked.act)?;
    let mut transaction = connection.transaction();
    act_rows(&mut transaction, &asked.caller, &asked.act, asked.against)?;
    keep(
        &mut transaction,
        &asked.caller,
        &asked.id,
        act.as_slice(),
        &answer,
    )?;
    match transaction.commit() {
        Ok(()) => Ok(()),
        Err(error) => Err(cause(error)),
    }
}
