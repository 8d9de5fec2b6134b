ghost use Rattle.std.specs.Prelude.{◌≡◌, ℕ, ◌+◌, IfOk};
ghost use Rattle.vmv_tree.specs.Tree.{Stmt as tree_stmt, Block as tree_block, choose, repeat, [], ◌⨾◌};
ghost use Rattle.vmv_tree.specs.View.{block_of};
ghost use Rattle.vmv_text.specs.Reading.{before};
ghost use Rattle.vmv_text.specs.Sizes.{HasSizes, HasStmtSizes, IsBlockPart, IsStmtPart};

use crate::sizes::{Sizes, block_sizes, stmt_sizes};
use std::alloc::AllocError;
use vmv_tree::{Block, Name, Operand, Stmt, Test};

/// A block as it was read. Where its blocks stand too deep in one another for a tree, it is its sizes.
#[derive(Debug, Drop)]
pub(crate) enum BlockPart {
    Tree(Block),
    Deep(Sizes),
}

/// A statement as it was read, likewise.
#[derive(Debug, Drop)]
pub(crate) enum StmtPart {
    Tree(Stmt),
    Deep(Sizes),
}

impl BlockPart {
    fn sizes(&self) -> Sizes
        ensures { (least : ℕ) (x : tree_block) → IsBlockPart least self.now x → HasSizes result x }
    {
        match self {
            BlockPart::Tree(block) => block_sizes(block.as_slice()),
            BlockPart::Deep(sizes) => *sizes,
        }
    }

    /// The block with this statement behind it.
    pub(crate) fn with(self, stmt: StmtPart) -> Result<BlockPart, AllocError>
        ensures { IfOk result (λ all. (least : ℕ) (x : tree_block) (s : tree_stmt) → IsBlockPart least self x → IsStmtPart least stmt s → IsBlockPart least all (before x (s ⨾ []))) }
    {
        match self {
            BlockPart::Tree(mut block) => match stmt {
                StmtPart::Tree(stmt) => {
                    block.push(stmt)?;
                    Ok(BlockPart::Tree(block))
                }
                StmtPart::Deep(sizes) => Ok(BlockPart::Deep(block_sizes(block.as_slice()).beside(
                    &sizes,
                ))),
            },
            BlockPart::Deep(sizes) => Ok(BlockPart::Deep(sizes.beside(&stmt.sizes()))),
        }
    }
}

impl StmtPart {
    fn sizes(&self) -> Sizes
        ensures { (least : ℕ) (x : tree_stmt) → IsStmtPart least self.now x → HasStmtSizes result x }
    {
        match self {
            StmtPart::Tree(stmt) => stmt_sizes(stmt),
            StmtPart::Deep(sizes) => *sizes,
        }
    }
}

/// An `if` with these parts.
pub(crate) fn chosen(test: Test, first: BlockPart, second: BlockPart) -> StmtPart
    ensures { (least : ℕ) (x y : tree_block) → IsBlockPart least first x → IsBlockPart least second y → IsStmtPart (least + 1) result (choose test x y) }
{
    match first {
        BlockPart::Tree(first) => match second {
            BlockPart::Tree(second) => StmtPart::Tree(Stmt::If {
                test,
                first,
                second,
            }),
            BlockPart::Deep(sizes) => {
                StmtPart::Deep(block_sizes(first.as_slice()).beside(&sizes).choosing())
            }
        },
        BlockPart::Deep(sizes) => StmtPart::Deep(sizes.beside(&second.sizes()).choosing()),
    }
}

/// A loop with this index, bound and cap, and this body.
pub(crate) fn repeated(turns: (Name, (Operand, i64)), body: BlockPart) -> StmtPart
    ensures { (least : ℕ) (x : tree_block) → IsBlockPart least body x → IsStmtPart (least + 1) result (repeat turns.0 turns.1.0 turns.1.1 x) }
{
    let (index, (bound, cap)) = turns;
    match body {
        BlockPart::Tree(body) => StmtPart::Tree(Stmt::Repeat {
            index,
            bound,
            cap,
            body,
        }),
        BlockPart::Deep(sizes) => StmtPart::Deep(sizes.repeating()),
    }
}
