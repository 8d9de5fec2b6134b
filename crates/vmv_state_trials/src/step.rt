ghost use Rattle.std.specs.Prelude.{◌↔◌, IsTrue};
ghost use Rattle.vmv_zone.specs.Zone.{vars_of};
ghost use Rattle.vmv_step.specs.Zones.{IsInside};

use crate::assumption::{change, program_of, whole_of};
use crate::words::{first_line, put_words_of, variable};
use std::alloc::Global;
use vmv_assumption::Assumption;
use vmv_cases::{Case, Sheet, number, tail, word};
use vmv_snapshot::{CodeArgs, CodeOperand, CodeTest, ProcId, Simple, Slot, Snapshot};
use vmv_state_texts::read_state;
use vmv_step::{Stepped, branch, enter, pass, step};
use vmv_tree::{Name, Op, Rel};
use vmv_zone::Zone;

/// An operand of a statement: a variable, or a word in digits.
fn code_operand(word: &[u8]) -> Option<CodeOperand> {
    match variable(word) {
        Some(number) => Some(CodeOperand::Var(Slot(number))),
        None => Some(CodeOperand::Lit(number(word)?)),
    }
}

fn code_op(word: &[u8]) -> Option<Op> {
    match word {
        b"+" => Some(Op::Add),
        b"-" => Some(Op::Sub),
        b"*" => Some(Op::Mul),
        b"/" => Some(Op::Div),
        b"%" => Some(Op::Rem),
        _ => None,
    }
}

fn code_rel(word: &[u8]) -> Option<Rel> {
    match word {
        b"==" => Some(Rel::Equal),
        b"!=" => Some(Rel::Unequal),
        b"<" => Some(Rel::Less),
        b"<=" => Some(Rel::AtMost),
        b">" => Some(Rel::Greater),
        b">=" => Some(Rel::AtLeast),
        _ => None,
    }
}

/// A test that words write.
fn code_test(words: &[u8]) -> Option<CodeTest> {
    Some(CodeTest {
        left: code_operand(word(words, 0))?,
        rel: code_rel(word(words, 1))?,
        right: code_operand(word(words, 2))?,
    })
}

/// Whether an operand is a word or one of a state's variables.
fn inside(zone: &Zone, operand: CodeOperand) -> bool
    ensures { IsTrue result ↔ IsInside (vars_of zone.now) operand }
{
    match operand {
        CodeOperand::Lit(_) => true,
        CodeOperand::Var(slot) => 1 <= slot.0 && slot.0 <= zone.vars(),
    }
}

/// The step of `to = left op right`.
fn computed(
    zone: Zone,
    assumed: &Assumption,
    to: u8,
    left: CodeOperand,
    op: Op,
    right: CodeOperand,
) -> Option<Stepped> {
    if to == 0 || to > zone.vars() || zone.vars() > 16 {
        return None;
    }
    if !inside(&zone, left) {
        return None;
    }
    if !inside(&zone, right) {
        return None;
    }
    let stmt = Simple::Arith {
        to: Slot(to),
        op,
        left,
        right,
        site: 1,
    };
    Some(step(&stmt, assumed, zone))
}

/// The step of `to = from`.
fn copied(zone: Zone, assumed: &Assumption, to: u8, from: CodeOperand) -> Option<Stepped> {
    if to == 0 || to > zone.vars() || zone.vars() > 16 {
        return None;
    }
    if !inside(&zone, from) {
        return None;
    }
    let stmt = Simple::Set { to: Slot(to), from };
    Some(step(&stmt, assumed, zone))
}

/// The step of `to = callee()`.
fn asked(alloc: Global, zone: Zone, assumed: &Assumption, to: u8, callee: Name) -> Option<Stepped> {
    if to == 0 || to > zone.vars() || zone.vars() > 16 {
        return None;
    }
    let stmt = Simple::Ask {
        to: Slot(to),
        callee,
        args: CodeArgs::new(alloc),
    };
    Some(step(&stmt, assumed, zone))
}

/// The step of an assert.
fn asserted(zone: Zone, assumed: &Assumption, test: CodeTest) -> Option<Stepped> {
    if zone.vars() > 16 || !inside(&zone, test.left) {
        return None;
    }
    if !inside(&zone, test.right) {
        return None;
    }
    Some(step(&Simple::Assert { test, site: 1 }, assumed, zone))
}

/// The step that words write: `assert TEST`, or a variable that is given an operand, a name's answer, or what an operation gives.
fn stepped(alloc: Global, zone: Zone, assumed: &Assumption, words: &[u8]) -> Option<Stepped> {
    if word(words, 0) == b"assert".as_slice() {
        return asserted(zone, assumed, code_test(tail(words, 1))?);
    }
    let to = variable(word(words, 0))?;
    let from = word(words, 2);
    if word(words, 1) == b"asks".as_slice() {
        return asked(alloc, zone, assumed, to, Name::read(from)?);
    }
    let left = code_operand(from)?;
    if tail(words, 3).is_empty() {
        return copied(zone, assumed, to, left);
    }
    let op = code_op(word(words, 3))?;
    computed(zone, assumed, to, left, op, code_operand(word(words, 4))?)
}

/// Writes whether a step's site is proved to pass, and the words of a variable behind it.
fn put_step(stepped: &Stepped, of: u8, sheet: &mut Sheet) {
    put_proved(stepped.unproved, sheet);
    put_words_of(&stepped.zone, of, sheet);
    sheet.line(b"");
}

/// Writes whether a site is proved to pass.
pub fn put_proved(unproved: bool, sheet: &mut Sheet) {
    if unproved {
        sheet.put(b"unproved");
    } else {
        sheet.put(b"proved");
    }
}

/// Assumes what the lines of the text `assumed` of a case set.
fn assumed_of(alloc: Global, case: &Case, sheet: &mut Sheet) -> Option<Assumption> {
    let mut assumed = whole_of(alloc, case, sheet)?;
    for line in case.text(b"assumed").split(|byte| *byte == b'\n') {
        if !line.is_empty() && change(&mut assumed, line).is_none() {
            sheet.refuse();
        }
    }
    Some(assumed)
}

/// `? step VAR STATEMENT`: whether the site of a statement is proved to pass from the state of the text `state`, and the words of a
/// variable behind it.
pub fn step_of(alloc: Global, case: &Case, rest: &[u8], sheet: &mut Sheet) {
    let Some(assumed) = assumed_of(alloc, case, sheet) else {
        return;
    };
    let state = first_line(case.text(b"state"));
    let (Some(zone), Some(of)) = (read_state(state), variable(word(rest, 0))) else {
        sheet.refuse();
        return;
    };
    match stepped(alloc, zone, &assumed, tail(rest, 1)) {
        Some(stepped) => put_step(&stepped, of, sheet),
        None => sheet.refuse(),
    }
}

/// The states of both parts of an `if`.
fn branched(zone: Zone, test: CodeTest) -> Option<(Zone, Zone)> {
    if !inside(&zone, test.left) {
        return None;
    }
    if !inside(&zone, test.right) {
        return None;
    }
    Some(branch(&test, zone))
}

/// `? branch TEST`: the words of v1 in both parts of an `if`, from the state of the last text.
pub fn branches(text: &[u8], rest: &[u8], sheet: &mut Sheet) {
    let (Some(zone), Some(test)) = (read_state(text), code_test(rest)) else {
        sheet.refuse();
        return;
    };
    let Some((first, second)) = branched(zone, test) else {
        sheet.refuse();
        return;
    };
    sheet.put(b"first");
    put_words_of(&first, 1, sheet);
    sheet.put(b"\nsecond");
    put_words_of(&second, 1, sheet);
    sheet.line(b"");
}

/// Writes the words of each variable.
fn put_all(zone: &Zone, sheet: &mut Sheet) {
    sheet.put(b"vars ");
    sheet.show(&zone.vars());
    for of in 1..=zone.vars() {
        put_words_of(zone, of, sheet);
    }
    sheet.line(b"");
}

/// The state in which the first procedure of a program starts.
fn started(snapshot: &Snapshot, input: &Zone) -> Option<Zone> {
    if snapshot.proc_count() == 0 {
        return None;
    }
    if snapshot.params(ProcId(0)).len() != input.vars() as usize {
        return None;
    }
    Some(enter(snapshot, ProcId(0), input))
}

/// `? enter`: the words of each variable where the first procedure of the text `program` starts with the state of the last text.
pub fn entered(alloc: Global, case: &Case, sheet: &mut Sheet) {
    let Some(snapshot) = program_of(alloc, case, sheet) else {
        return;
    };
    let Some(input) = read_state(first_line(case.text(b""))) else {
        sheet.refuse();
        return;
    };
    match started(&snapshot, &input) {
        Some(zone) => put_all(&zone, sheet),
        None => sheet.refuse(),
    }
}

/// The state of two arguments.
fn two_args(zone: &Zone, first: CodeOperand, second: CodeOperand) -> Option<Zone> {
    if !inside(zone, first) {
        return None;
    }
    if !inside(zone, second) {
        return None;
    }
    Some(pass(&[first, second], zone))
}

/// The state of the two arguments that words write, in the state of a text.
fn passed_in(text: &[u8], words: &[u8]) -> Option<Zone> {
    let zone = read_state(text)?;
    let first = code_operand(word(words, 0))?;
    two_args(&zone, first, code_operand(word(words, 1))?)
}

/// `? pass OPERAND OPERAND`: the words of each parameter of a procedure that is called with two arguments in the state of the last text.
pub fn passed(text: &[u8], rest: &[u8], sheet: &mut Sheet) {
    match passed_in(text, rest) {
        Some(zone) => put_all(&zone, sheet),
        None => sheet.refuse(),
    }
}
