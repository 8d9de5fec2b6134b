use crate::texts::program_of;
use std::alloc::Global;
use vmv_cases::Sheet;
use vmv_tree::{Body, Item, Name, Op, Operand, Rel, Stmt, Test};

/// Writes a blank and a name.
fn put_name(name: &Name, sheet: &mut Sheet) {
    sheet.put(b" ");
    sheet.put(name.bytes());
}

/// Writes a blank and a number.
pub fn put_number(number: i64, sheet: &mut Sheet) {
    sheet.put(b" ");
    sheet.show(&number);
}

fn put_operand(operand: Operand, sheet: &mut Sheet) {
    match operand {
        Operand::Lit(word) => put_number(word, sheet),
        Operand::Var(name) => put_name(&name, sheet),
    }
}

pub fn put_rel(rel: Rel, sheet: &mut Sheet) {
    match rel {
        Rel::Equal => sheet.put(b" equal"),
        Rel::Unequal => sheet.put(b" unequal"),
        Rel::Less => sheet.put(b" less"),
        Rel::AtMost => sheet.put(b" at most"),
        Rel::Greater => sheet.put(b" greater"),
        Rel::AtLeast => sheet.put(b" at least"),
    }
}

pub fn put_op(op: Op, sheet: &mut Sheet) {
    match op {
        Op::Add => sheet.put(b" plus"),
        Op::Sub => sheet.put(b" minus"),
        Op::Mul => sheet.put(b" times"),
        Op::Div => sheet.put(b" divided by"),
        Op::Rem => sheet.put(b" remainder by"),
    }
}

fn put_test(test: Test, sheet: &mut Sheet) {
    put_operand(test.left, sheet);
    put_rel(test.rel, sheet);
    put_operand(test.right, sheet);
}

fn put_arith(to: &Name, op: Op, left: Operand, right: Operand, sheet: &mut Sheet) {
    sheet.put(b"arith");
    put_name(to, sheet);
    put_operand(left, sheet);
    put_op(op, sheet);
    put_operand(right, sheet);
}

fn put_set(to: &Name, from: Operand, sheet: &mut Sheet) {
    sheet.put(b"set");
    put_name(to, sheet);
    put_operand(from, sheet);
}

fn put_call(to: &Name, callee: &Name, args: &[Operand], sheet: &mut Sheet) {
    sheet.put(b"call");
    put_name(to, sheet);
    put_name(callee, sheet);
    for arg in args {
        put_operand(*arg, sheet);
    }
}

fn put_repeat(index: &Name, bound: Operand, cap: i64, sheet: &mut Sheet) {
    sheet.put(b"repeat");
    put_name(index, sheet);
    put_operand(bound, sheet);
    put_number(cap, sheet);
}

/// Writes a line for a statement, without the statements in it.
fn put_statement(statement: &Stmt, sheet: &mut Sheet) {
    match statement {
        Stmt::Set { to, from } => put_set(to, *from, sheet),
        Stmt::Arith {
            to,
            op,
            left,
            right,
        } => put_arith(to, *op, *left, *right, sheet),
        Stmt::Call { to, callee, args } => put_call(to, callee, args.as_slice(), sheet),
        Stmt::Assert { test } => {
            sheet.put(b"assert");
            put_test(*test, sheet);
        }
        Stmt::If { test, .. } => {
            sheet.put(b"if");
            put_test(*test, sheet);
        }
        Stmt::Repeat {
            index,
            bound,
            cap,
            ..
        } => put_repeat(index, *bound, *cap, sheet),
    }
    sheet.line(b"");
}

fn put_body(body: &Body, sheet: &mut Sheet) {
    sheet.put(b"var");
    for name in body.vars.as_slice() {
        put_name(name, sheet);
    }
    sheet.line(b"");
    for statement in body.block.as_slice() {
        put_statement(statement, sheet);
    }
    sheet.put(b"return");
    put_operand(body.result, sheet);
    sheet.line(b"");
}

fn put_item(item: &Item, sheet: &mut Sheet) {
    match item {
        Item::Outside { name, arity } => {
            sheet.put(b"outside");
            put_name(name, sheet);
            put_number(*arity, sheet);
            sheet.line(b"");
        }
        Item::Helper { name, params, body } => {
            sheet.put(b"helper");
            put_name(name, sheet);
            for param in params.as_slice() {
                put_name(param, sheet);
            }
            sheet.line(b"");
            put_body(body, sheet);
        }
        Item::Entry { name, params, body } => {
            sheet.put(b"entry");
            put_name(name, sheet);
            for param in params.as_slice() {
                put_name(&param.name, sheet);
                put_number(param.lo, sheet);
                put_number(param.hi, sheet);
            }
            sheet.line(b"");
            put_body(body, sheet);
        }
    }
}

/// `? tree`: the tree of the program of a text, without the statements that stand in others.
pub fn tree(alloc: Global, text: &[u8], sheet: &mut Sheet) {
    let Some(program) = program_of(alloc, text, sheet) else {
        return;
    };
    for item in program.items.as_slice() {
        put_item(item, sheet);
    }
}
