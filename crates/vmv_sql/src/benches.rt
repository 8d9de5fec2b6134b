//! Projects with the numbers that wait in them.

ghost use Rattle.std.specs.Prelude.{◌≡◌, ◌↔◌, ◌≤◌, ◌+◌, false, length, IfOk, IfSome, IsTrue};
ghost use Rattle.std.specs.declared.cmp.Ordering.TheVariants.{Less};
ghost use Rattle.vmv_keeper.specs.Formed.{AreBenches, IsBench, Rises};
ghost use Rattle.vmv_sql.specs.Order.{key_cmp};

use crate::cells::{label_at, number_within};
use crate::sql;
use crate::statements::{all_rows, name};
use sqlite::types::ValueRef;
use sqlite::{Alter, Connection, Row};
use std::alloc::Global;
use std::cmp::Ordering;
use vmv_keeper::{Bench, Benches, KeepFault, Label, Numbers};

// A project by its owner and its name.
#[derive(Clone, Copy, Drop)]
struct Key {
    owner: Label,
    name: Label,
}

// Whether a project stands before another.
fn is_before(key: &Key, other: &Key) -> bool
    ensures { IsTrue result ↔ (key_cmp (key.now.owner, key.now.name) (other.now.owner, other.now.name) ≡ Less) }
{
    match key.owner.bytes().cmp(other.owner.bytes()) {
        Ordering::Less => true,
        Ordering::Equal => matches!(key.name.bytes().cmp(other.name.bytes()), Ordering::Less),
        Ordering::Greater => false,
    }
}

// The numbers that the rows have: at most 32, which rise from 1 on and are at most 1,000,000.
fn waiting_of(alloc: Global, rows: &[Row]) -> Result<Numbers, KeepFault>
    ensures few { IfOk result (λ numbers. length numbers ≤ 32) }
    ensures rising { IfOk result (Rises 1) }
{
    if 32 < rows.len() {
        return Err(KeepFault::Failed);
    }
    let mut numbers = Numbers::new(alloc);
    let mut last = 0;
    for row in rows {
        let number = number_within(row, 0, 1, 1_000_000)?;
        if number <= last {
            return Err(KeepFault::Failed);
        }
        numbers.push(number)?;
        last = number;
    }
    Ok(numbers)
}

// The project with the numbers that wait in it.
fn bench_of<S: Alter>(
    connection: &mut Connection<S>,
    alloc: Global,
    key: &Key,
) -> Result<Bench, KeepFault>
    requires { connection.old.in_transaction ≡ false }
    ensures mode { connection.new.in_transaction ≡ false }
    ensures formed { IfOk result IsBench }
    ensures named { IfOk result (λ bench. (bench.owner ≡ key.now.owner) × (bench.name ≡ key.now.name)) }
{
    let values = [name(&key.owner), name(&key.name)];
    let rows = all_rows(connection, sql::WAITING, &values)?;
    Ok(Bench {
        owner: key.owner,
        name: key.name,
        pending: waiting_of(alloc, rows.as_slice())?,
    })
}

fn key_of(row: &Row) -> Result<Key, KeepFault> {
    Ok(Key {
        owner: label_at(row, 0)?,
        name: label_at(row, 1)?,
    })
}

// The project of a row, which stands behind the last one.
fn next_key(row: &Row, last: &Option<Key>) -> Result<Key, KeepFault>
    ensures { IfOk result (λ key. IfSome last.now (λ before. key_cmp (before.owner, before.name) (key.owner, key.name) ≡ Less)) }
{
    let key = key_of(row)?;
    if let Some(last) = last {
        if !is_before(last, &key) {
            return Err(KeepFault::Failed);
        }
    }
    Ok(key)
}

/// Each project, with the numbers that wait in it.
pub(crate) fn benches<S: Alter>(
    connection: &mut Connection<S>,
    alloc: Global,
) -> Result<Benches, KeepFault>
    requires { connection.old.in_transaction ≡ false }
    ensures mode { connection.new.in_transaction ≡ false }
    ensures formed { IfOk result AreBenches }
{
    let rows = all_rows(connection, sql::PROJECTS, &[])?;
    let mut benches = Benches::new(alloc);
    let mut last = None;
    for row in &rows {
        let key = next_key(row, &last)?;
        benches.push(bench_of(connection, alloc, &key)?)?;
        last = Some(key);
    }
    Ok(benches)
}
