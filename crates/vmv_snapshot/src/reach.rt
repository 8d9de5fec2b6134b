ghost use Rattle.std.specs.Prelude.{◌≡◌, ◌↔◌, ℕ, ◌≤◌, length, IfOk};
ghost use Rattle.vmv_snapshot.specs.View.{stmt_of, block_of};
ghost use Rattle.vmv_snapshot.specs.Rows.{IsIn, Helps, BlockHelps, IsReached, AreRows};

use crate::code::CodeStmt;
use crate::tables::Proc;
use std::alloc::{AllocError, Global};

/// The numbers of some procedures, as bits.
pub(crate) type ProcSet = u128;

/// What is reached through the calls in a statement, by the rows of those that may be called.
#[cycle(reach)]
#[tactic(auto, using(crate::specs::View::views))]
fn stmt_reach(rows: &[ProcSet], stmt: &CodeStmt) -> ProcSet
    ensures { (n : ℕ) → IsIn result n ↔ IsReached rows.now (Helps (stmt_of stmt.now)) n }
{
    match stmt {
        CodeStmt::Plain(_) => 0,
        CodeStmt::Help { callee, .. } => match rows.get(callee.0 as usize) {
            Some(row) => *row,
            None => 0,
        },
        CodeStmt::If { first, second, .. } => {
            block_reach(rows, first.as_slice()) | block_reach(rows, second.as_slice())
        }
        CodeStmt::Repeat(repeat) => block_reach(rows, repeat.body.as_slice()),
    }
}

#[cycle(reach)]
fn block_reach(rows: &[ProcSet], block: &[CodeStmt]) -> ProcSet
    ensures { (n : ℕ) → IsIn result n ↔ IsReached rows.now (BlockHelps (block_of block.now)) n }
{
    let mut all = 0;
    for stmt in block {
        all |= stmt_reach(rows, stmt);
    }
    all
}

/// What each procedure reaches, by their numbers.
pub(crate) fn reach_rows(alloc: Global, procs: &[Proc]) -> Result<Vec<ProcSet>, AllocError>
    requires { length procs.now ≤ 128 }
    ensures { IfOk result (λ rows. AreRows procs.now rows.items) }
{
    let mut rows = Vec::new(alloc);
    for (i, proc) in procs.iter().enumerate() {
        let itself = 1 << i;
        let callees = block_reach(rows.as_slice(), proc.code.block.as_slice());
        rows.push(itself | callees)?;
    }
    Ok(rows)
}
