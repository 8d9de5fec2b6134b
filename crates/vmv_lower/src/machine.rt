ghost use Rattle.std.specs.Prelude.{◌≡◌, ◌+◌, Some, IsSome, OnOk, IfOk, reverse};
ghost use Rattle.vmv_tree.specs.View.{stmt_of};
ghost use Rattle.vmv_lower.specs.Machine.{operands_of, first_depth, target};

use crate::names::temporary;
use crate::step::Step;
use std::alloc::{AllocError, Global};
use vmv_tree::{Args, Block, Name, Op, Operand, Stmt};

/// An operand that is held, and the depth at which it was lowered.
#[derive(Clone, Copy, Debug, Drop)]
pub(crate) struct Held {
    pub operand: Operand,
    pub depth: u64,
}

/// The statements so far, the depth behind them, and what is held, the last one last.
#[derive(Debug, Drop)]
pub(crate) struct Machine {
    pub block: Block,
    pub depth: u64,
    pub held: Vec<Held>,
}

/// The operands of what is held, in order.
fn operands_of(alloc: Global, held: &[Held]) -> Result<Args, AllocError>
    ensures { IfOk result (λ args. args ≡ operands_of held.now) }
{
    let mut args = Args::new(alloc);
    for one in held {
        args.push(one.operand)?;
    }
    Ok(args)
}

/// The depth before these, or this one where there are none.
fn first_depth(depth: u64, held: &[Held]) -> u64
    ensures { result ≡ first_depth depth held.now }
{
    match held {
        [] => depth,
        [first, ..] => first.depth,
    }
}

/// The number behind this depth. No memory holds so many temporaries that there is none.
fn next(depth: u64) -> Result<u64, AllocError>
    ensures { IfOk result (λ next. next ≡ depth + 1) }
{
    match depth.checked_add(1) {
        Some(next) => Ok(next),
        None => Err(AllocError),
    }
}

/// The name that a statement sets.
fn target(alloc: Global, to: Option<Name>, depth: u64) -> Result<Name, AllocError>
    ensures { IfOk result (λ name. name ≡ target to depth) }
{
    match to {
        Some(name) => Ok(name),
        None => {
            let number = next(depth)?;
            temporary(alloc, number)
        }
    }
}

impl Machine {
    ghost use Rattle.vmv_lower.specs.Machine.{state_of, starting, holding, produced, operated, negated, asked, stepped, run};

    pub(crate) fn new(alloc: Global, depth: u64) -> Machine
        ensures { state_of result ≡ starting depth }
    {
        Machine {
            block: Block::new(alloc),
            depth,
            held: Vec::new(alloc),
        }
    }

    /// Holds an operand.
    fn hold(&mut self, operand: Operand) -> Result<(), AllocError>
        ensures { OnOk result (state_of self.new ≡ holding operand (state_of self.old)) }
    {
        let depth = self.depth;
        self.held.push(Held { operand, depth })?;
        Ok(())
    }

    /// Adds a statement that sets the temporary behind this depth, and holds that.
    fn produce(&mut self, alloc: Global, stmt: Stmt, depth: u64) -> Result<(), AllocError>
        ensures { OnOk result (state_of self.new ≡ produced (stmt_of stmt) depth (reverse self.old.held.items) (state_of self.old)) }
    {
        let number = next(depth)?;
        self.block.push(stmt)?;
        self.depth = number;
        let name = temporary(alloc, number)?;
        self.held.push(Held {
            operand: Operand::Var(name),
            depth,
        })?;
        Ok(())
    }

    /// An operation on the last two.
    fn operate(&mut self, alloc: Global, to: Option<Name>, op: Op) -> Result<(), AllocError>
        requires { IsSome (operated to op (state_of self.old) (reverse self.old.held.items)) }
        ensures { OnOk result (Some (state_of self.new) ≡ operated to op (state_of self.old) (reverse self.old.held.items)) }
    {
        let Some(right) = self.held.pop() else {
            unreachable!();
        };
        let Some(left) = self.held.pop() else {
            unreachable!();
        };
        let to = target(alloc, to, left.depth)?;
        let stmt = Stmt::Arith {
            to,
            op,
            left: left.operand,
            right: right.operand,
        };
        self.produce(alloc, stmt, left.depth)
    }

    /// The last one, subtracted from 0.
    fn negate(&mut self, alloc: Global, to: Option<Name>) -> Result<(), AllocError>
        requires { IsSome (negated to (state_of self.old) (reverse self.old.held.items)) }
        ensures { OnOk result (Some (state_of self.new) ≡ negated to (state_of self.old) (reverse self.old.held.items)) }
    {
        let Some(inner) = self.held.pop() else {
            unreachable!();
        };
        let to = target(alloc, to, inner.depth)?;
        let stmt = Stmt::Arith {
            to,
            op: Op::Sub,
            left: Operand::Lit(0),
            right: inner.operand,
        };
        self.produce(alloc, stmt, inner.depth)
    }

    /// A call with the last ones, so many.
    fn ask(
        &mut self,
        alloc: Global,
        to: Option<Name>,
        callee: Name,
        count: usize,
    ) -> Result<(), AllocError>
        requires { IsSome (asked to callee count (state_of self.old)) }
        ensures { OnOk result (Some (state_of self.new) ≡ asked to callee count (state_of self.old)) }
    {
        let at = self.held.len() - count;
        let given = &self.held.as_slice()[at..];
        let depth = first_depth(self.depth, given);
        let args = operands_of(alloc, given)?;
        self.held.truncate(at);
        let to = target(alloc, to, depth)?;
        self.produce(alloc, Stmt::Call { to, callee, args }, depth)
    }

    /// Takes a step, whose statement sets this name, or a temporary.
    pub(crate) fn step(
        &mut self,
        alloc: Global,
        to: Option<Name>,
        step: Step,
    ) -> Result<(), AllocError>
        requires { IsSome (stepped to step (state_of self.old)) }
        ensures { OnOk result (Some (state_of self.new) ≡ stepped to step (state_of self.old)) }
    {
        match step {
            Step::Lit(word) => self.hold(Operand::Lit(word)),
            Step::Var(name) => self.hold(Operand::Var(name)),
            Step::Operate(op) => self.operate(alloc, to, op),
            Step::Negate => self.negate(alloc, to),
            Step::Ask { callee, count } => self.ask(alloc, to, callee, count),
        }
    }

    /// Takes steps one after the other.
    pub(crate) fn run(&mut self, alloc: Global, steps: &[Step]) -> Result<(), AllocError>
        requires { IsSome (run steps.now (state_of self.old)) }
        ensures { OnOk result (Some (state_of self.new) ≡ run steps.now (state_of self.old)) }
    {
        for step in steps {
            self.step(alloc, None, *step)?;
        }
        Ok(())
    }
}
