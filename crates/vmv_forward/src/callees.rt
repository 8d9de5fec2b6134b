ghost use Rattle.std.specs.Prelude.{◌≡◌, ◌++◌, OnOk, IfOk};
ghost use Rattle.vmv_snapshot.specs.View.{stmt_of, block_of};
ghost use Rattle.vmv_pass.specs.Callees.{callees, block_callees};

use std::alloc::{AllocError, Global};
use vmv_snapshot::{CodeStmt, ProcId};

/// Adds the helpers that a statement calls, each call counted, in text order.
#[cycle(callees)]
#[tactic(auto, using(vmv_snapshot::specs::View::views))]
fn add_callees(stmt: &CodeStmt, list: &mut Vec<ProcId>) -> Result<(), AllocError>
    ensures { OnOk result (list.new.items ≡ list.old.items ++ callees (stmt_of stmt.now)) }
{
    match stmt {
        CodeStmt::Plain(_) => Ok(()),
        CodeStmt::Help { callee, .. } => {
            list.push(*callee)?;
            Ok(())
        }
        CodeStmt::If { first, second, .. } => {
            add_block_callees(first.as_slice(), list)?;
            add_block_callees(second.as_slice(), list)
        }
        CodeStmt::Repeat(repeat) => add_block_callees(repeat.body.as_slice(), list),
    }
}

#[cycle(callees)]
fn add_block_callees(block: &[CodeStmt], list: &mut Vec<ProcId>) -> Result<(), AllocError>
    ensures { OnOk result (list.new.items ≡ list.old.items ++ block_callees (block_of block.now)) }
{
    for stmt in block {
        add_callees(stmt, list)?;
    }
    Ok(())
}

/// The helpers that the statements call, each call counted, in text order.
pub(crate) fn callees_of(alloc: Global, block: &[CodeStmt]) -> Result<Vec<ProcId>, AllocError>
    ensures { IfOk result (λ list. list.items ≡ block_callees (block_of block.now)) }
{
    let mut list = Vec::new(alloc);
    add_block_callees(block, &mut list)?;
    Ok(list)
}
