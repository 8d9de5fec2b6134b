use crate::tree::{put_number, put_op, put_rel};
use vmv_cases::Sheet;
use vmv_snapshot::{Code, CodeOperand, CodeRepeat, CodeStmt, CodeTest, ProcId, Simple, Slot};
use vmv_tree::{Name, Op};

/// Writes a blank and the number of a slot, as `v1`.
fn put_slot(slot: Slot, sheet: &mut Sheet) {
    sheet.put(b" v");
    sheet.show(&slot.0);
}

fn put_site(site: u32, sheet: &mut Sheet) {
    sheet.put(b" site ");
    sheet.show(&site);
}

fn put_operand(operand: CodeOperand, sheet: &mut Sheet) {
    match operand {
        CodeOperand::Lit(word) => put_number(word, sheet),
        CodeOperand::Var(slot) => put_slot(slot, sheet),
    }
}

fn put_args(args: &[CodeOperand], sheet: &mut Sheet) {
    for arg in args {
        put_operand(*arg, sheet);
    }
}

fn put_test(test: CodeTest, sheet: &mut Sheet) {
    put_operand(test.left, sheet);
    put_rel(test.rel, sheet);
    put_operand(test.right, sheet);
}

fn put_arith(to: Slot, op: Op, left: CodeOperand, right: CodeOperand, sheet: &mut Sheet) {
    sheet.put(b"arith");
    put_slot(to, sheet);
    put_operand(left, sheet);
    put_op(op, sheet);
    put_operand(right, sheet);
}

fn put_ask(to: Slot, callee: &Name, args: &[CodeOperand], sheet: &mut Sheet) {
    sheet.put(b"ask");
    put_slot(to, sheet);
    sheet.put(b" ");
    sheet.put(callee.bytes());
    put_args(args, sheet);
}

fn put_simple(simple: &Simple, sheet: &mut Sheet) {
    match simple {
        Simple::Set { to, from } => {
            sheet.put(b"set");
            put_slot(*to, sheet);
            put_operand(*from, sheet);
        }
        Simple::Arith {
            to,
            op,
            left,
            right,
            site,
        } => {
            put_arith(*to, *op, *left, *right, sheet);
            put_site(*site, sheet);
        }
        Simple::Ask { to, callee, args } => put_ask(*to, callee, args.as_slice(), sheet),
        Simple::Assert { test, site } => {
            sheet.put(b"assert");
            put_test(*test, sheet);
            put_site(*site, sheet);
        }
    }
}

fn put_help(to: Slot, callee: ProcId, args: &[CodeOperand], sheet: &mut Sheet) {
    sheet.put(b"help");
    put_slot(to, sheet);
    sheet.put(b" procedure ");
    sheet.show(&callee.0);
    put_args(args, sheet);
}

fn put_repeat(repeat: &CodeRepeat, sheet: &mut Sheet) {
    sheet.put(b"repeat");
    put_slot(repeat.index, sheet);
    put_slot(repeat.slot, sheet);
    put_operand(repeat.bound, sheet);
    put_number(repeat.cap, sheet);
    put_site(repeat.site, sheet);
}

/// Writes a line for a resolved statement, without the statements in it.
fn put_statement(statement: &CodeStmt, sheet: &mut Sheet) {
    match statement {
        CodeStmt::Plain(simple) => put_simple(simple, sheet),
        CodeStmt::Help { to, callee, args } => put_help(*to, *callee, args.as_slice(), sheet),
        CodeStmt::If { test, .. } => {
            sheet.put(b"if");
            put_test(*test, sheet);
        }
        CodeStmt::Repeat(repeat) => put_repeat(repeat, sheet),
    }
    sheet.line(b"");
}

/// Writes a resolved procedure, without the statements that stand in others.
pub fn put_code(code: &Code, sheet: &mut Sheet) {
    for statement in code.block.as_slice() {
        put_statement(statement, sheet);
    }
    sheet.put(b"return");
    put_operand(code.result, sheet);
    sheet.line(b"");
}
