ghost use Rattle.std.specs.Prelude.{◌≡◌, ℕ};
ghost use Rattle.vmv_tree.specs.View.{stmt_of};
ghost use Rattle.vmv_text.specs.declared.token.Token.TheVariants.{Named, AssertWord};
ghost use Rattle.vmv_text.specs.Reading.{Reads, ReadsAs, ReadsWith, Any, IsTail, assigned, IsValue, IsNamedValue, IsCall, IsBehind};
ghost use Rattle.vmv_text.specs.Sizes.{IsStmtPart};

use crate::cursor::Cursor;
use crate::fault::Fault;
use crate::operand::name_of;
use crate::part::StmtPart;
use crate::symbol::Symbol;
use std::alloc::Global;
use vmv_tree::{Name, Op, Operand, Stmt};

/// The assignment of its first operand and what is behind it.
#[tactic(auto, using(vmv_tree::specs::View::views))]
fn assigned(to: Name, left: Operand, tail: Option<(Op, Operand)>) -> Stmt
    ensures { stmt_of result ≡ assigned to left tail }
{
    match tail {
        None => Stmt::Set { to, from: left },
        Some((op, right)) => Stmt::Arith {
            to,
            op,
            left,
            right,
        },
    }
}

impl Cursor<'_> {
    /// What an assignment has behind its first operand.
    fn tail(&mut self) -> Result<Option<(Op, Operand)>, Fault>
        ensures { Reads IsTail result self.old self.new }
    {
        if self.takes(Symbol::Semicolon) {
            return Ok(None);
        }
        let op = self.op()?;
        let right = self.operand()?;
        self.expect(Symbol::Semicolon)?;
        Ok(Some((op, right)))
    }

    /// The arguments of a call, and its end.
    fn call(&mut self, alloc: Global, to: Name, callee: Name) -> Result<Stmt, Fault>
        ensures { ReadsAs stmt_of (IsCall to callee) Any result self.old self.new }
    {
        let args = self.operands(alloc)?;
        self.expect(Symbol::Semicolon)?;
        Ok(Stmt::Call { to, callee, args })
    }

    /// What an assignment has behind a name that stands first.
    fn named_value(&mut self, alloc: Global, to: Name, name: Name) -> Result<Stmt, Fault>
        ensures { ReadsAs stmt_of (IsNamedValue to name) Any result self.old self.new }
    {
        if self.takes(Symbol::OpenParen) {
            return self.call(alloc, to, name);
        }
        let tail = self.tail()?;
        Ok(assigned(to, Operand::Var(name), tail))
    }

    /// What an assignment has behind `=`.
    fn value(&mut self, alloc: Global, to: Name) -> Result<Stmt, Fault>
        ensures { ReadsAs stmt_of (IsValue to) Any result self.old self.new }
    {
        if let Some(name) = name_of(self.peek()) {
            self.skip();
            return self.named_value(alloc, to, name);
        }
        let word = self.lit()?;
        let tail = self.tail()?;
        Ok(assigned(to, Operand::Lit(word), tail))
    }

    /// What an assignment has behind the assigned name.
    pub(crate) fn assignment(&mut self, alloc: Global, to: Name) -> Result<Stmt, Fault>
        ensures { ReadsAs stmt_of (IsBehind (Named to)) Any result self.old self.new }
    {
        self.expect(Symbol::Equals)?;
        self.value(alloc, to)
    }

    /// What an assert has behind its word.
    pub(crate) fn assertion(&mut self) -> Result<Stmt, Fault>
        ensures { ReadsAs stmt_of (IsBehind AssertWord) Any result self.old self.new }
    {
        let test = self.test()?;
        self.expect(Symbol::Semicolon)?;
        Ok(Stmt::Assert { test })
    }

    /// What an assignment has behind the assigned name, with its tree.
    pub(crate) fn set_part(&mut self, alloc: Global, to: Name) -> Result<StmtPart, Fault>
        ensures { (least : ℕ) → ReadsWith (IsStmtPart least) (IsBehind (Named to)) Any result self.old self.new }
    {
        let stmt = self.assignment(alloc, to)?;
        Ok(StmtPart::Tree(stmt))
    }

    /// What an assert has behind its word, with its tree.
    pub(crate) fn assert_part(&mut self) -> Result<StmtPart, Fault>
        ensures { (least : ℕ) → ReadsWith (IsStmtPart least) (IsBehind AssertWord) Any result self.old self.new }
    {
        let stmt = self.assertion()?;
        Ok(StmtPart::Tree(stmt))
    }
}
