ghost use Rattle.std.specs.Prelude.{◌≡◌, ◌↔◌, ◌<◌, IsTrue, length};
ghost use Rattle.vmv_tree.specs.View.{stmt_of, block_of, item_of};
ghost use Rattle.vmv_snapshot.specs.Reaches.{Calls, BlockCalls, ItemCalls};
ghost use Rattle.vmv_snapshot.specs.Resolution.{tree_of, procs_of};
ghost use Rattle.vmv_cert.specs.Thresholds.{ReachesOutside};
ghost use Rattle.vmv_thresholds.specs.Collect.{CallsFrom};

use crate::place::place_of;
use vmv_snapshot::{ProcId, Snapshot};
use vmv_tree::{Item, Name, Stmt};
use vmv_valid::is_among;

/// Whether the two are one name.
fn is_name(one: &Name, other: &Name) -> bool
    ensures { IsTrue result ↔ (one.now ≡ other.now) }
{
    one.bytes() == other.bytes()
}

/// Whether some call in a statement is of this name.
#[cycle(calls)]
#[tactic(auto, using(vmv_tree::specs::View::views))]
fn stmt_calls(stmt: &Stmt, name: &Name) -> bool
    ensures { IsTrue result ↔ Calls (stmt_of stmt.now) name.now }
{
    match stmt {
        Stmt::Set { .. } => false,
        Stmt::Arith { .. } => false,
        Stmt::Call { callee, .. } => is_name(callee, name),
        Stmt::Assert { .. } => false,
        Stmt::If { first, second, .. } => {
            block_calls(first.as_slice(), name) || block_calls(second.as_slice(), name)
        }
        Stmt::Repeat { body, .. } => block_calls(body.as_slice(), name),
    }
}

#[cycle(calls)]
fn block_calls(block: &[Stmt], name: &Name) -> bool
    ensures { IsTrue result ↔ BlockCalls (block_of block.now) name.now }
{
    for stmt in block {
        if stmt_calls(stmt, name) {
            return true;
        }
    }
    false
}

fn item_calls(item: &Item, name: &Name) -> bool
    ensures { IsTrue result ↔ ItemCalls (item_of item.now) name.now }
{
    match item {
        Item::Outside { .. } => false,
        Item::Helper { body, .. } => block_calls(body.block.as_slice(), name),
        Item::Entry { body, .. } => block_calls(body.block.as_slice(), name),
    }
}

/// Whether the second procedure, which the first reaches, calls the name.
fn calls_from(snapshot: &Snapshot, from: ProcId, proc: ProcId, name: &Name) -> bool
    requires from { from.0 < length (procs_of snapshot.now) }
    requires proc { proc.0 < length (procs_of snapshot.now) }
    ensures { IsTrue result ↔ CallsFrom (tree_of snapshot.now) from.0 name.now proc.0 }
{
    if !snapshot.reaches(from, proc) {
        return false;
    }
    let items = snapshot.program().items.as_slice();
    item_calls(&items[place_of(items, proc.0)], name)
}

/// Whether the name is an outside one that the procedure, or one that it reaches, calls.
pub(crate) fn reaches_outside(snapshot: &Snapshot, from: ProcId, name: &Name) -> bool
    requires { from.0 < length (procs_of snapshot.now) }
    ensures { IsTrue result ↔ ReachesOutside (tree_of snapshot.now) from.0 name.now }
{
    if !is_among(snapshot.outsides(), name) {
        return false;
    }
    for n in 0..snapshot.proc_count() {
        if calls_from(snapshot, from, ProcId(n), name) {
            return true;
        }
    }
    false
}
