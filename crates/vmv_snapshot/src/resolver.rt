ghost use Rattle.std.specs.Prelude.{◌≡◌, ◌↔◌, ℕ, ◌+◌, ◌≤◌, Some, IsTrue, IfOk, OnOk};
ghost use Rattle.std.specs.List.{All, Contains};
ghost use Rattle.vmv_tree.specs.View.{stmt_of, block_of};
ghost use Rattle.vmv_tree.specs.Tree as tree;
ghost use Rattle.vmv_tree.specs.Run.{sites, block_sites};
ghost use Rattle.vmv_snapshot.specs.View.{stmt_of as code_stmt_of, block_of as code_block_of};
ghost use Rattle.vmv_snapshot.specs.Resolves.{IsSlot, IsHelper, ResolvesOperand, ResolvesTest, ResolvesArgs, Resolves, ResolvesAll};
ghost use Rattle.vmv_snapshot.specs.Resolvable.{IsNamed, IsKnown, IsKnownTest, IsCallee, IsResolvable, AreResolvable};

use crate::code::{
    CodeArgs, CodeBlock, CodeOperand, CodeRepeat, CodeStmt, CodeTest, ProcId, Simple, Slot,
};
use crate::slots::slot_of;
use crate::tables::Tables;
use std::alloc::{AllocError, Global};
use std::marker::Model;
use vmv_tree::{Name, Operand, Stmt, Test};

/// Resolves what stands in one procedure. A contract sees it as what the names in the procedure mean.
#[derive(Drop)]
pub(crate) struct Resolver<'a> {
    pub(crate) tables: &'a Tables,
    pub(crate) slots: &'a [Option<Name>],
}

impl<'a> Model for Resolver<'a> {
    ghost use Rattle.std.specs.Prelude.{◌≤◌, length};
    ghost use Rattle.vmv_snapshot.specs.Resolves.{Scope};
    ghost use Rattle.vmv_snapshot.specs.Tables.{scope_in, AreNumbered};

    ghost Value = { Scope };

    ghost view = { λ r. scope_in r.tables.now r.slots.now };

    ghost invariant = { λ r. (length r.slots.now ≤ 17) × AreNumbered r.tables.now };
}

impl Resolver<'_> {
    fn slot(&self, name: &Name) -> Slot
        requires { IsNamed self.now name.now }
        ensures slot { IsSlot self.now name.now result }
        ensures few { result.0 ≤ 16 }
    {
        slot_of(self.slots, name)
    }

    /// The number of a helper.
    fn helper(&self, callee: &Name) -> ProcId
        requires { Contains self.now.helpers (Some callee.now) }
        ensures { IsHelper self.now callee.now result }
    {
        match self.tables.names.get_index_of(callee) {
            Some(number) => ProcId(number as u16),
            None => unreachable!(),
        }
    }

    pub(crate) fn operand(&self, operand: &Operand) -> CodeOperand
        requires { IsKnown self.now operand.now }
        ensures { ResolvesOperand self.now operand.now result }
    {
        match operand {
            Operand::Lit(word) => CodeOperand::Lit(*word),
            Operand::Var(name) => CodeOperand::Var(self.slot(name)),
        }
    }

    fn test(&self, test: &Test) -> CodeTest
        requires { IsKnownTest self.now test.now }
        ensures { ResolvesTest self.now test.now result }
    {
        CodeTest {
            left: self.operand(&test.left),
            rel: test.rel,
            right: self.operand(&test.right),
        }
    }

    fn args(&self, alloc: Global, args: &[Operand]) -> Result<CodeArgs, AllocError>
        requires { All (IsKnown self.now) args.now }
        ensures { IfOk result (λ codes. ResolvesArgs self.now args.now codes) }
    {
        let mut codes = CodeArgs::new(alloc);
        for arg in args {
            codes.push(self.operand(arg))?;
        }
        Ok(codes)
    }

    fn is_outside(&self, callee: &Name) -> bool
        ensures { IsTrue result ↔ Contains self.now.outsides callee.now }
    {
        self.tables.outsides.contains(callee)
    }

    /// A call, of an outside name or of a helper.
    #[tactic(auto, unfolding(crate::specs::Resolves::Resolves), using(crate::specs::View::views))]
    fn call(
        &self,
        alloc: Global,
        to: &Name,
        callee: &Name,
        args: &[Operand],
    ) -> Result<CodeStmt, AllocError>
        requires to { IsNamed self.now to.now }
        requires callee { IsCallee self.now callee.now }
        requires args { All (IsKnown self.now) args.now }
        ensures { IfOk result (λ code. (k : ℕ) → Resolves self.now k (tree.call to.now callee.now args.now) (code_stmt_of code)) }
    {
        let to = self.slot(to);
        let args = self.args(alloc, args)?;
        if self.is_outside(callee) {
            return Ok(CodeStmt::Plain(Simple::Ask {
                to,
                callee: *callee,
                args,
            }));
        }
        let callee = self.helper(callee);
        Ok(CodeStmt::Help { to, callee, args })
    }

    /// Resolves a statement; `count` counts the sites of the procedure so far.
    #[cycle(resolve)]
    #[tactic(auto, unfolding(crate::specs::Resolves::Resolves, crate::specs::Resolvable::IsResolvable), using(crate::specs::View::views, vmv_tree::specs::View::views))]
    fn stmt(&self, alloc: Global, count: &mut u32, stmt: &Stmt) -> Result<CodeStmt, AllocError>
        requires known { IsResolvable self.now (stmt_of stmt.now) }
        requires few { count.old + sites (stmt_of stmt.now) ≤ 2000 }
        ensures resolved { IfOk result (λ code. Resolves self.now count.old (stmt_of stmt.now) (code_stmt_of code)) }
        ensures counted { OnOk result (count.new ≡ count.old + sites (stmt_of stmt.now)) }
    {
        match stmt {
            Stmt::Set { to, from } => Ok(CodeStmt::Plain(Simple::Set {
                to: self.slot(to),
                from: self.operand(from),
            })),
            Stmt::Arith {
                to,
                op,
                left,
                right,
            } => {
                *count += 1;
                Ok(CodeStmt::Plain(Simple::Arith {
                    to: self.slot(to),
                    op: *op,
                    left: self.operand(left),
                    right: self.operand(right),
                    site: *count,
                }))
            }
            Stmt::Call { to, callee, args } => self.call(alloc, to, callee, args.as_slice()),
            Stmt::Assert { test } => {
                *count += 1;
                Ok(CodeStmt::Plain(Simple::Assert {
                    test: self.test(test),
                    site: *count,
                }))
            }
            Stmt::If {
                test,
                first,
                second,
            } => {
                let test = self.test(test);
                let first = self.block(alloc, count, first.as_slice())?;
                let second = self.block(alloc, count, second.as_slice())?;
                Ok(CodeStmt::If {
                    test,
                    first,
                    second,
                })
            }
            Stmt::Repeat {
                index,
                bound,
                cap,
                body,
            } => {
                let index = self.slot(index);
                let bound = self.operand(bound);
                *count += 1;
                let site = *count;
                let body = self.block(alloc, count, body.as_slice())?;
                Ok(CodeStmt::Repeat(CodeRepeat {
                    index,
                    slot: Slot(index.0 + 1),
                    bound,
                    cap: *cap,
                    site,
                    body,
                }))
            }
        }
    }

    /// Resolves statements in a row.
    #[cycle(resolve)]
    pub(crate) fn block(
        &self,
        alloc: Global,
        count: &mut u32,
        block: &[Stmt],
    ) -> Result<CodeBlock, AllocError>
        requires known { AreResolvable self.now (block_of block.now) }
        requires few { count.old + block_sites (block_of block.now) ≤ 2000 }
        ensures resolved { IfOk result (λ codes. ResolvesAll self.now count.old (block_of block.now) (code_block_of codes)) }
        ensures counted { OnOk result (count.new ≡ count.old + block_sites (block_of block.now)) }
    {
        let mut codes = CodeBlock::new(alloc);
        for stmt in block {
            codes.push(self.stmt(alloc, count, stmt)?)?;
        }
        Ok(codes)
    }
}
