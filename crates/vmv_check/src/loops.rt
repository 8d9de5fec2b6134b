ghost use Rattle.std.specs.Prelude.{◌≡◌, ◌≤◌};
ghost use Rattle.vmv_snapshot.specs.View.{stmt_of, block_of};
ghost use Rattle.vmv_cert.specs.Sizes.{statements, block_statements, loops, block_loops};

use vmv_snapshot::CodeStmt;

/// How many loops the statement has, those inside others counted.
#[cycle(count)]
#[tactic(auto, using(vmv_snapshot::specs::View::views))]
fn loops(stmt: &CodeStmt) -> usize
    requires { statements (stmt_of stmt.now) ≤ 2000 }
    ensures { result ≡ loops (stmt_of stmt.now) }
{
    match stmt {
        CodeStmt::Plain(_) => 0,
        CodeStmt::Help { .. } => 0,
        CodeStmt::If { first, second, .. } => {
            block_loops(first.as_slice()) + block_loops(second.as_slice())
        }
        CodeStmt::Repeat(repeat) => 1 + block_loops(repeat.body.as_slice()),
    }
}

/// How many loops the statements have, those inside others counted.
#[cycle(count)]
pub fn block_loops(block: &[CodeStmt]) -> usize
    requires { block_statements (block_of block.now) ≤ 2000 }
    ensures { result ≡ block_loops (block_of block.now) }
{
    let mut count = 0;
    for stmt in block {
        count += loops(stmt);
    }
    count
}
