ghost use Rattle.std.specs.Prelude.{◌≡◌, ◌<◌, ◌≤◌, ◌+◌, ◌++◌, ◌∷◌, ℕ, ◌↔◌, [], Some, length, slice_get, IsTrue, OnOk, IfOk};
ghost use Rattle.std.specs.List.{Contains};
ghost use Rattle.vmv_snapshot.specs.Resolution.{procs_of};
ghost use Rattle.vmv_zone.specs.Zone.{vars_of, NotBottom};
ghost use Rattle.vmv_cert.specs.declared.row.Row.{Row};
ghost use Rattle.vmv_forward.specs.Least.{IsRowFor};
ghost use Rattle.vmv_forward.specs.Path.{Path};
ghost use Rattle.vmv_forward.specs.Rows.{IsReached, IsRowOf, Lays};
ghost use Rattle.vmv_forward.specs.Rounds.{quest_of, AreKept, HasInput};

use crate::instance::Instance;
use crate::rounds::{Search, input_of};
use crate::row::row_of;
use std::alloc::{AllocError, Global};
use vmv_cert::Row;
use vmv_snapshot::{ProcId, Snapshot};
use vmv_zone::Zone;

/// Whether the two are one state.
fn is_same(one: &Zone, other: &Zone) -> bool
    requires { vars_of one.now ≡ vars_of other.now }
    ensures { IsTrue result ↔ (one.now ≡ other.now) }
{
    one.below(other) && other.below(one)
}

/// Whether the row is one of the procedure with this input.
fn is_row_for(snapshot: &Snapshot, proc: ProcId, input: &Zone, row: &Row) -> bool
    requires { proc.0 < length (procs_of snapshot.now) }
    ensures { IsTrue result ↔ IsRowFor snapshot.now proc.0 input.now row.now }
{
    if row.proc.bytes() != snapshot.proc_name(proc).bytes() {
        return false;
    }
    row.input.vars() == input.vars() && is_same(&row.input, input)
}

/// Whether a row of the procedure with this input stands among the rows.
fn stands(snapshot: &Snapshot, proc: ProcId, input: &Zone, rows: &[Row]) -> bool
    requires { proc.0 < length (procs_of snapshot.now) }
    ensures { IsTrue result ↔ ((row : Row) × Contains rows.now row × IsRowFor snapshot.now proc.0 input.now row) }
{
    for row in rows {
        if is_row_for(snapshot, proc, input, row) {
            return true;
        }
    }
    false
}

/// Adds the row of an instance that is reached.
#[inline(never)]
fn add_row(
    alloc: Global,
    search: &Search<'_>,
    instances: &[Instance],
    number: usize,
    rows: &mut Vec<Row>,
) -> Result<(), AllocError>
    requires from { 1 ≤ number }
    requires to { number < length instances.now }
    requires kept { AreKept (quest_of search.now) instances.now }
    requires reached { IsReached instances.now number }
    ensures { OnOk result ((row : Row) × IsRowOf search.now.snapshot.now instances.now number row × (rows.new.items ≡ rows.old.items ++ row ∷ [])) }
{
    rows.push(row_of(alloc, search, instances, number)?)?;
    Ok(())
}

/// Adds the row of an instance that is reached, unless one of its procedure and input stands there, and behind it those of
/// the instances that it calls.
fn lay(
    alloc: Global,
    search: &Search<'_>,
    instances: &[Instance],
    number: usize,
    rows: &mut Vec<Row>,
) -> Result<(), AllocError>
    requires from { 1 ≤ number }
    requires to { number < length instances.now }
    requires kept { AreKept (quest_of search.now) instances.now }
    requires reached { IsReached instances.now number }
    ensures { OnOk result ((path : Path) (input : Zone) → slice_get instances.now number ≡ Some path → HasInput instances.now path input → (depth : ℕ) → length instances.now ≤ number + depth → Lays depth search.now.snapshot.now instances.now number input rows.old.items rows.new.items) }
{
    let instance = &instances[number];
    let input = input_of(search, instances, number);
    if stands(search.snapshot, instance.proc, input, rows.as_slice()) {
        return Ok(());
    }
    add_row(alloc, search, instances, number, rows)?;
    for (c, callee) in instance.callees.iter().enumerate() {
        if !instance.input(c).is_bottom() {
            lay(alloc, search, instances, *callee, rows)?;
        }
    }
    Ok(())
}

/// The rows of the entry and of what it calls, each once for each procedure and input.
pub(crate) fn rows_in_order(
    alloc: Global,
    search: &Search<'_>,
    instances: &[Instance],
) -> Result<Vec<Row>, AllocError>
    requires kept { AreKept (quest_of search.now) instances.now }
    requires reached { NotBottom search.now.input.now }
    ensures { IfOk result (λ rows. Lays (length instances.now) search.now.snapshot.now instances.now 1 search.now.input.now [] rows.items) }
{
    let mut rows = Vec::new(alloc);
    lay(alloc, search, instances, 1, &mut rows)?;
    Ok(rows)
}
