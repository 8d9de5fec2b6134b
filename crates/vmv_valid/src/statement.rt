ghost use Rattle.std.specs.Prelude.{◌≡◌, ◌+◌, ◌*◌, ◌++◌, ◌∷◌, ◌<◌, ◌≤◌, ◌^◌, length, IfOk, OnOk};
ghost use Rattle.vmv_tree.specs.View.{stmt_of, block_of};
ghost use Rattle.vmv_tree.specs.Limits.{indexes_of, block_indexes, statements, block_statements};
ghost use Rattle.vmv_valid.specs.Walks.{Answers, is_visible, walk_operand, walk_target, walk_test, walk_args, walk_callee, walk_stmt, walk_block};

use crate::callee::{Callee, declares, takes};
use crate::names::is_among;
use crate::stop::{Stop, found};
use std::alloc::{AllocError, Global};
use vmv_tree::{Defect, Name, Operand, Stmt, Test};

/// What a place in a body sees.
#[derive(Clone, Copy, Drop)]
pub(crate) struct Sight<'a> {
    /// The items above that may be called, the nearest first.
    pub callees: &'a [Callee],
    /// The parameters and variables.
    pub names: &'a [Name],
    /// The indexes of the loops around it, the innermost first.
    pub indexes: &'a [Name],
}

impl Sight<'_> {
    fn sees(&self, name: &Name) -> bool
        ensures { result ≡ is_visible self.now.names.now self.now.indexes.now name.now }
    {
        is_among(self.indexes, name) || is_among(self.names, name)
    }

    /// Walks over an operand, whose mention has this number. Answers the number of the next mention.
    pub fn operand(&self, at: u32, operand: &Operand) -> Result<u32, Stop>
        requires { at + 1 < 2 ^ 32 }
        ensures walked { result ≡ walk_operand self.now.names.now self.now.indexes.now at operand.now }
        ensures next { IfOk result (λ next. next ≤ at + 1) }
    {
        match operand {
            Operand::Lit(_) => Ok(at),
            Operand::Var(name) => {
                if self.sees(name) {
                    Ok(at + 1)
                } else {
                    Err(found(at, Defect::UnknownName))
                }
            }
        }
    }

    /// Walks over an assigned name.
    fn target(&self, at: u32, to: &Name) -> Result<u32, Stop>
        requires { at + 1 < 2 ^ 32 }
        ensures walked { result ≡ walk_target self.now.names.now self.now.indexes.now at to.now }
        ensures next { IfOk result (λ next. next ≤ at + 1) }
    {
        if !self.sees(to) {
            return Err(found(at, Defect::UnknownName));
        }
        if is_among(self.indexes, to) {
            return Err(found(at, Defect::IndexAssigned));
        }
        Ok(at + 1)
    }

    fn test(&self, at: u32, test: &Test) -> Result<u32, Stop>
        requires { at + 2 < 2 ^ 32 }
        ensures walked { Answers (walk_test self.now.names.now self.now.indexes.now at test.now) result }
        ensures next { IfOk result (λ next. next ≤ at + 2) }
    {
        let at = self.operand(at, &test.left)?;
        self.operand(at, &test.right)
    }

    fn args(&self, at: u32, args: &[Operand]) -> Result<u32, Stop>
        requires { at + length args.now + 1 < 2 ^ 32 }
        ensures walked { Answers (walk_args self.now.names.now self.now.indexes.now at args.now) result }
        ensures next { IfOk result (λ next. next ≤ at + length args.now) }
    {
        let mut next = at;
        for arg in args {
            next = self.operand(next, arg)?;
        }
        Ok(next)
    }

    /// Walks over the name of a callee that is given so many arguments.
    fn callee(&self, at: u32, callee: &Name, count: usize) -> Result<u32, Stop>
        requires { at + 1 < 2 ^ 32 }
        ensures walked { result ≡ walk_callee self.now.callees.now at callee.now count }
        ensures next { IfOk result (λ next. (next ≤ at + 1) × (count ≤ 255)) }
    {
        if !declares(self.callees, callee) {
            return Err(found(at, Defect::UnknownName));
        }
        if !takes(self.callees, callee, count) {
            return Err(found(at, Defect::ArityWrong));
        }
        Ok(at + 1)
    }
}

/// Walks over a statement, its first mention having this number. The names that the body has declared so far grow by the
/// indexes in it.
#[cycle(walk)]
#[tactic(auto, using(crate::proofs::Walking::walking))]
pub(crate) fn walk_stmt(
    alloc: Global,
    sight: &Sight<'_>,
    declared: &mut Vec<Name>,
    at: u32,
    stmt: &Stmt,
) -> Result<u32, Stop>
    requires { at + 300 * statements (stmt_of stmt.now) < 2 ^ 32 }
    ensures walked { Answers (walk_stmt sight.now.callees.now sight.now.names.now sight.now.indexes.now declared.old.items at (stmt_of stmt.now)) result }
    ensures declared { OnOk result (declared.new.items ≡ declared.old.items ++ indexes_of (stmt_of stmt.now)) }
    ensures next { IfOk result (λ next. next ≤ at + 300 * statements (stmt_of stmt.now)) }
{
    match stmt {
        Stmt::Set { to, from } => {
            let at = sight.target(at, to)?;
            sight.operand(at, from)
        }
        Stmt::Arith {
            to,
            left,
            right,
            ..
        } => {
            let at = sight.target(at, to)?;
            let at = sight.operand(at, left)?;
            sight.operand(at, right)
        }
        Stmt::Call { to, callee, args } => {
            let at = sight.target(at, to)?;
            let at = sight.callee(at, callee, args.len())?;
            sight.args(at, args.as_slice())
        }
        Stmt::Assert { test } => sight.test(at, test),
        Stmt::If {
            test,
            first,
            second,
        } => {
            let at = sight.test(at, test)?;
            let at = walk_block(alloc, sight, declared, at, first.as_slice())?;
            walk_block(alloc, sight, declared, at, second.as_slice())
        }
        Stmt::Repeat {
            index,
            bound,
            body,
            ..
        } => {
            if is_among(declared.as_slice(), index) {
                return Err(found(at, Defect::Repeated));
            }
            let at = sight.operand(at + 1, bound)?;
            declared.push(*index)?;
            let indexes = with_first(alloc, index, sight.indexes)?;
            let inside = Sight {
                callees: sight.callees,
                names: sight.names,
                indexes: indexes.as_slice(),
            };
            walk_block(alloc, &inside, declared, at, body.as_slice())
        }
    }
}

/// Walks over statements in a row.
#[cycle(walk)]
#[tactic(auto, using(crate::proofs::Walking::walking))]
pub(crate) fn walk_block(
    alloc: Global,
    sight: &Sight<'_>,
    declared: &mut Vec<Name>,
    at: u32,
    block: &[Stmt],
) -> Result<u32, Stop>
    requires { at + 300 * block_statements (block_of block.now) < 2 ^ 32 }
    ensures walked { Answers (walk_block sight.now.callees.now sight.now.names.now sight.now.indexes.now declared.old.items at (block_of block.now)) result }
    ensures declared { OnOk result (declared.new.items ≡ declared.old.items ++ block_indexes (block_of block.now)) }
    ensures next { IfOk result (λ next. next ≤ at + 300 * block_statements (block_of block.now)) }
{
    let mut next = at;
    for stmt in block {
        next = walk_stmt(alloc, sight, declared, next, stmt)?;
    }
    Ok(next)
}

/// A name in front of others.
fn with_first(alloc: Global, name: &Name, names: &[Name]) -> Result<Vec<Name>, AllocError>
    ensures { IfOk result (λ all. all.items ≡ name.now ∷ names.now) }
{
    let mut all = Vec::new(alloc);
    all.push(*name)?;
    all.extend_from_slice(names)?;
    Ok(all)
}
