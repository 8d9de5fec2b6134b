ghost use Rattle.std.specs.Prelude.{◌≡◌, ◌≤◌, ◌==◌, ◌<◌, ◌^◌, pos, neg_ℤ, ◌≤ℤ◌, Some, length, slice_get, OnOk, if◌then◌else◌};
ghost use Rattle.vmv_snapshot.specs.declared.code.Slot.{Slot as Variable};
ghost use Rattle.vmv_snapshot.specs.View.{stmt_of};
ghost use Rattle.vmv_snapshot.specs.Code.{plain};
ghost use Rattle.vmv_snapshot.specs.Resolution.{procs_of};
ghost use Rattle.vmv_demands.specs.declared.lead.Lead.{Lead as Led};
ghost use Rattle.vmv_demands.specs.Wants.{moved};
ghost use Rattle.vmv_demands.specs.Back.{on_slot, on_operand, on_argument, argument, out_of_call, over_arith, Results, over, results};
ghost use Rattle.vmv_demands.specs.Shifts.{shifted};
ghost use Rattle.vmv_demands.specs.Sources.{led_to, LeadsAs, held, StandFor, AreSummaries};

use crate::lead::Lead;
use crate::lost::lose;
use crate::shift::Shift;
use crate::slots::{Sources, held, put};
use crate::source::Source;
use crate::summary::Summary;
use crate::want::Want;
use std::alloc::AllocError;
use vmv_snapshot::{CodeOperand, CodeStmt, ProcId, Simple, Slot, Snapshot};
use vmv_tree::Op;

/// Where a condition leads back from behind the statements.
pub(crate) fn lead_before(sources: &[Source], lead: Lead) -> Lead
    ensures { (before : Led → Led) → StandFor before sources.now → result ≡ before lead }
{
    match lead {
        Lead::Nowhere => lead,
        Lead::Asked(..) => lead,
        Lead::At(slot, want) => held(sources, slot).lead(want),
    }
}

/// What an operand holds.
pub(crate) fn operand(sources: &[Source], operand: CodeOperand) -> Source
    ensures { (before : Led → Led) → StandFor before sources.now → LeadsAs result (λ want. before (on_operand operand (Some want))) }
{
    match operand {
        CodeOperand::Var(slot) => held(sources, slot),
        CodeOperand::Lit(_) => Source::Unknown,
    }
}

/// What a variable less the number holds, which is at most 2^63.
fn less(sources: &[Source], slot: Slot, by: i128) -> Source
    requires low { neg_ℤ (pos (2 ^ 63)) ≤ℤ by }
    requires high { by ≤ℤ pos (2 ^ 63) }
    ensures { (before : Led → Led) → StandFor before sources.now → LeadsAs result (λ want. before (on_slot slot (moved by want))) }
{
    held(sources, slot).moved(Shift::less(by))
}

fn negated(word: i64) -> i128
    ensures { result ≡ neg_ℤ word }
{
    -i128::from(word)
}

/// What `left op right` holds.
fn computed(sources: &[Source], op: Op, left: CodeOperand, right: CodeOperand) -> Source
    ensures { (before : Led → Led) → StandFor before sources.now → LeadsAs result (λ want. before (over_arith op left right want)) }
{
    match op {
        Op::Add => match left {
            CodeOperand::Var(slot) => match right {
                CodeOperand::Lit(word) => less(sources, slot, negated(word)),
                CodeOperand::Var(_) => Source::Unknown,
            },
            CodeOperand::Lit(word) => match right {
                CodeOperand::Var(slot) => less(sources, slot, negated(word)),
                CodeOperand::Lit(_) => Source::Unknown,
            },
        },
        Op::Sub => match left {
            CodeOperand::Var(slot) => match right {
                CodeOperand::Lit(word) => less(sources, slot, i128::from(word)),
                CodeOperand::Var(_) => Source::Unknown,
            },
            CodeOperand::Lit(_) => Source::Unknown,
        },
        Op::Mul | Op::Div | Op::Rem => Source::Unknown,
    }
}

/// The argument that is given for a parameter; another variable of the helper has none.
fn argument(args: &[CodeOperand], slot: Slot) -> Option<CodeOperand>
    ensures { result ≡ argument args.now slot.0 }
{
    if slot.0 == 0 {
        return None;
    }
    args.get(slot.0 as usize - 1).copied()
}

/// From the start of a helper to before a call of it with these arguments.
pub(crate) fn out_of_call(args: &[CodeOperand], lead: Lead) -> Lead
    ensures { result ≡ out_of_call args.now lead }
{
    match lead {
        Lead::Nowhere => lead,
        Lead::Asked(..) => lead,
        Lead::At(slot, want) => match argument(args, slot) {
            Some(operand) => Lead::on_operand(operand, Some(want)),
            None => Lead::Nowhere,
        },
    }
}

/// What the argument holds that is given for a parameter.
fn given(sources: &[Source], args: &[CodeOperand], slot: Slot) -> Source
    ensures { (before : Led → Led) → StandFor before sources.now → LeadsAs result (λ want. before (on_argument (argument args.now slot.0) want)) }
{
    match argument(args, slot) {
        Some(arg) => operand(sources, arg),
        None => Source::Unknown,
    }
}

/// What a call returns, where the helper returns what this variable holds at its start, moved.
fn given_moved(sources: &[Source], args: &[CodeOperand], slot: Slot, shift: Shift) -> Source
    ensures { (before : Led → Led) → StandFor before sources.now → LeadsAs result (λ want. before (out_of_call args.now (on_slot slot (shifted shift want)))) }
{
    given(sources, args, slot).moved(shift)
}

/// What a call with these arguments returns, where the helper returns this in terms of its start.
fn returned(sources: &[Source], args: &[CodeOperand], inside: &Source) -> Source
    ensures { (before : Led → Led) → StandFor before sources.now → LeadsAs result (λ want. before (out_of_call args.now (led_to inside.now want))) }
{
    match inside {
        Source::Unknown => Source::Unknown,
        Source::Start(slot) => given(sources, args, *slot),
        Source::Answer(name) => Source::Answer(*name),
        Source::StartMoved(slot, shift) => given_moved(sources, args, *slot, *shift),
        Source::AnswerMoved(name, shift) => Source::AnswerMoved(*name, *shift),
    }
}

/// What a helper returns that a procedure calls, which is before it.
fn result_of(snapshot: &Snapshot, rows: &[Summary], proc: ProcId, callee: ProcId) -> Source
    requires { AreSummaries snapshot.now.codes proc.0 rows.now }
    ensures { LeadsAs result (results snapshot.now.codes proc.0 callee.0) }
{
    if callee.0 >= proc.0 {
        return Source::Unknown;
    }
    rows[callee.0 as usize].result
}

/// Goes on over a simple statement.
fn step_simple(sources: &mut Sources, simple: &Simple) -> Result<(), AllocError>
    ensures { OnOk result ((results : Results) (before : Led → Led) → StandFor before sources.old → StandFor (λ lead. before (over results (plain simple.now) lead)) sources.new) }
{
    match simple {
        Simple::Set { to, from } => {
            let source = operand(sources.as_slice(), *from);
            put(sources, *to, &source)
        }
        Simple::Arith {
            to,
            op,
            left,
            right,
            ..
        } => {
            let source = computed(sources.as_slice(), *op, *left, *right);
            put(sources, *to, &source)
        }
        Simple::Ask { to, callee, .. } => {
            let source = Source::Answer(*callee);
            put(sources, *to, &source)
        }
        Simple::Assert { .. } => Ok(()),
    }
}

/// Goes on over a statement of the procedure of this number. `rows` has the procedures before it.
pub(crate) fn step(
    sources: &mut Sources,
    snapshot: &Snapshot,
    rows: &[Summary],
    proc: ProcId,
    stmt: &CodeStmt,
) -> Result<(), AllocError>
    requires { AreSummaries snapshot.now.codes proc.0 rows.now }
    ensures { OnOk result ((before : Led → Led) → StandFor before sources.old → StandFor (λ lead. before (over (results snapshot.now.codes proc.0) (stmt_of stmt.now) lead)) sources.new) }
{
    match stmt {
        CodeStmt::Plain(simple) => step_simple(sources, simple),
        CodeStmt::Help { to, callee, args } => {
            let inside = result_of(snapshot, rows, proc, *callee);
            let source = returned(sources.as_slice(), args.as_slice(), &inside);
            put(sources, *to, &source)
        }
        CodeStmt::If { .. } => lose(sources, stmt),
        CodeStmt::Repeat(_) => lose(sources, stmt),
    }
}
