ghost use Rattle.std.specs.Prelude.{◌≡◌, ◌≤◌, OnOk};
ghost use Rattle.vmv_tree.specs.View.{stmt_of, block_of, item_of};
ghost use Rattle.vmv_tree.specs.Run.{turns_of};
ghost use Rattle.vmv_valid.specs.Measures.{nothing, simple, calling, beside, choosing, repeating, measured, measured_all, called_helper, add_called, IsSmall};

use crate::callee::{Brought, Callee, brought_by, called_outside, capped_product, capped_sum};
use std::alloc::AllocError;
use vmv_tree::{Item, Name, Stmt};

/// What the limits measure of some statements, each number at most `CAP`.
#[derive(Clone, Copy, Debug, Drop)]
pub(crate) struct Measures {
    /// Loops.
    pub loops: u64,
    /// Statements, nested ones counted.
    pub statements: u64,
    /// How deep blocks stand in one another.
    pub nesting: u64,
    /// The depth of the deepest helper that is called.
    pub deepest: u64,
    /// The call paths.
    pub paths: u64,
    /// The unrolled steps.
    pub steps: u64,
    /// The unrolled outside calls.
    pub asks: u64,
}

fn nothing() -> Measures
    ensures { result ≡ nothing }
{
    Measures {
        loops: 0,
        statements: 0,
        nesting: 0,
        deepest: 0,
        paths: 0,
        steps: 0,
        asks: 0,
    }
}

/// A statement that has no other in it and calls nothing.
fn simple() -> Measures
    ensures { result ≡ simple }
{
    Measures {
        loops: 0,
        statements: 1,
        nesting: 0,
        deepest: 0,
        paths: 0,
        steps: 1,
        asks: 0,
    }
}

/// A call that brings so much.
fn calling(brought: Brought) -> Measures
    ensures { result ≡ calling brought }
{
    Measures {
        loops: 0,
        statements: 1,
        nesting: 0,
        deepest: brought.depth,
        paths: brought.paths,
        steps: capped_sum(1, brought.steps),
        asks: brought.asks,
    }
}

impl Measures {
    /// Both, one after the other.
    fn beside(&self, other: &Measures) -> Measures
        ensures { result ≡ beside self.now other.now }
    {
        Measures {
            loops: capped_sum(self.loops, other.loops),
            statements: capped_sum(self.statements, other.statements),
            nesting: self.nesting.max(other.nesting),
            deepest: self.deepest.max(other.deepest),
            paths: capped_sum(self.paths, other.paths),
            steps: capped_sum(self.steps, other.steps),
            asks: capped_sum(self.asks, other.asks),
        }
    }

    /// An `if` with these two parts together.
    fn choosing(&self) -> Measures
        ensures { result ≡ choosing self.now }
    {
        Measures {
            loops: self.loops,
            statements: capped_sum(1, self.statements),
            nesting: capped_sum(1, self.nesting),
            deepest: self.deepest,
            paths: self.paths,
            steps: capped_sum(1, self.steps),
            asks: self.asks,
        }
    }

    /// A loop with this body, of so many turns.
    fn repeating(&self, turns: u64) -> Measures
        ensures { result ≡ repeating turns self.now }
    {
        Measures {
            loops: capped_sum(1, self.loops),
            statements: capped_sum(1, self.statements),
            nesting: capped_sum(1, self.nesting),
            deepest: self.deepest,
            paths: self.paths,
            steps: capped_sum(1, capped_product(turns, capped_sum(1, self.steps))),
            asks: capped_product(turns, self.asks),
        }
    }
}

/// How many turns a loop with this cap makes at most.
pub(crate) fn turns_of(cap: i64) -> u64
    ensures { result ≡ turns_of cap }
{
    if cap < 0 { 0 } else { cap as u64 }
}

/// What a statement measures, over what may be called.
#[cycle(measure)]
#[tactic(auto, using(vmv_tree::specs::View::views))]
fn measured(callees: &[Callee], stmt: &Stmt) -> Measures
    ensures { result ≡ measured callees.now (stmt_of stmt.now) }
{
    match stmt {
        Stmt::Set { .. } | Stmt::Arith { .. } | Stmt::Assert { .. } => simple(),
        Stmt::Call { callee, .. } => calling(brought_by(callees, callee)),
        Stmt::If { first, second, .. } => {
            let first = measured_all(callees, first.as_slice());
            let second = measured_all(callees, second.as_slice());
            first.beside(&second).choosing()
        }
        Stmt::Repeat { cap, body, .. } => {
            measured_all(callees, body.as_slice()).repeating(turns_of(*cap))
        }
    }
}

/// What statements in a row measure.
#[cycle(measure)]
#[tactic(auto, using(vmv_tree::specs::View::views))]
pub(crate) fn measured_all(callees: &[Callee], block: &[Stmt]) -> Measures
    ensures { result ≡ measured_all callees.now (block_of block.now) }
{
    let mut all = nothing();
    for stmt in block {
        all = all.beside(&measured(callees, stmt));
    }
    all
}

/// A helper of these measures, with so many parameters, as those below it see it.
fn called_helper(name: &Name, count: usize, measures: &Measures) -> Callee
    requires { count ≤ 255 }
    ensures { result ≡ called_helper name.now count measures.now }
{
    Callee {
        name: *name,
        arity: Some(count as u8),
        brought: Brought {
            depth: capped_sum(1, measures.deepest),
            paths: capped_sum(1, measures.paths),
            steps: capped_sum(measures.steps, 1),
            asks: measures.asks,
        },
    }
}

/// Adds what the items below this one may call.
pub(crate) fn add_called(callees: &mut Vec<Callee>, item: &Item) -> Result<(), AllocError>
    requires { IsSmall (item_of item.now) }
    ensures { OnOk result (callees.new.items ≡ add_called (item_of item.now) callees.old.items) }
{
    let callee = match item {
        Item::Outside { name, arity } => called_outside(name, *arity),
        Item::Helper { name, params, body } => {
            let measures = measured_all(callees.as_slice(), body.block.as_slice());
            called_helper(name, params.len(), &measures)
        }
        Item::Entry { .. } => return Ok(()),
    };
    callees.insert(0, callee)?;
    Ok(())
}
