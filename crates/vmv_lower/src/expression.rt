ghost use Rattle.std.specs.Prelude.{◌≡◌, IfOk};
ghost use Rattle.vmv_tree.specs.Tree.{[], ◌⨾◌};
ghost use Rattle.vmv_tree.specs.View.{stmt_of, block_of};
ghost use Rattle.vmv_surface.specs.Surface.{Expr};
ghost use Rattle.vmv_surface.specs.Lower.{assigned};
ghost use Rattle.vmv_lower.specs.Steps.{steps_of, AreSteps};
ghost use Rattle.vmv_lower.specs.Lowered.{IsLowered, simple};

use crate::machine::Machine;
use crate::step::Step;
use std::alloc::{AllocError, Global};
use vmv_tree::{Block, Name, Operand, Stmt};

/// An expression that was lowered.
#[derive(Debug, Drop)]
pub struct LoweredExpr {
    /// The statements that compute it.
    pub block: Block,
    /// Itself, or the temporary that it gives.
    pub operand: Operand,
    /// The depth behind it.
    pub depth: u64,
}

/// The expression of these steps, lowered at this depth. An error says that memory ran out.
pub fn lowered(alloc: Global, depth: u64, steps: &[Step]) -> Result<LoweredExpr, AllocError>
    requires { AreSteps steps.now }
    ensures { IfOk result (λ lowered. (e : Expr) → steps.now ≡ steps_of e → IsLowered depth e lowered) }
{
    let mut machine = Machine::new(alloc, depth);
    machine.run(alloc, steps)?;
    let Machine {
        block,
        depth,
        mut held,
    } = machine;
    match held.pop() {
        Some(last) => Ok(LoweredExpr {
            block,
            operand: last.operand,
            depth,
        }),
        None => unreachable!(),
    }
}

/// The block of one statement.
fn one(alloc: Global, stmt: Stmt) -> Result<Block, AllocError>
    ensures { IfOk result (λ block. block_of block ≡ stmt_of stmt ⨾ []) }
{
    let mut block = Block::new(alloc);
    block.push(stmt)?;
    Ok(block)
}

/// The statements that give the expression of these steps to a name. An error says that memory ran out.
pub fn assigned(alloc: Global, to: Name, steps: &[Step]) -> Result<Block, AllocError>
    requires { AreSteps steps.now }
    ensures { IfOk result (λ block. (e : Expr) → steps.now ≡ steps_of e → block_of block ≡ assigned to e) }
{
    let Some((last, front)) = steps.split_last() else {
        unreachable!();
    };
    if let Some(from) = simple(*last) {
        return one(alloc, Stmt::Set { to, from });
    }
    let mut machine = Machine::new(alloc, 0);
    machine.run(alloc, front)?;
    machine.step(alloc, Some(to), *last)?;
    Ok(machine.block)
}

/// The operand that a step is by itself.
fn simple(step: Step) -> Option<Operand>
    ensures { result ≡ simple step }
{
    match step {
        Step::Lit(word) => Some(Operand::Lit(word)),
        Step::Var(name) => Some(Operand::Var(name)),
        _ => None,
    }
}
