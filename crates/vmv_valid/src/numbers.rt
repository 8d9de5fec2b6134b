ghost use Rattle.std.specs.Prelude.{◌≡◌, ◌+◌, ◌≤◌, ◌++◌, ◌∷◌, min, map, reverse, length, IfOk, OnOk};
ghost use Rattle.vmv_tree.specs.View.{stmt_of, block_of, body_of, item_of, items_of};
ghost use Rattle.vmv_tree.specs.Limits.{operand_numbers, args_numbers, block_numbers, body_numbers, range_ends, entry_numbers, distinct};
ghost use Rattle.vmv_valid.specs.Names.{is_among};
ghost use Rattle.vmv_valid.specs.Same.{HaveSame};
ghost use Rattle.vmv_valid.specs.Numbers.{no_numbers, own_numbers, called, block_called, without, numbers_after, called_after, reached_by, changes};

use crate::callee::CAP;
use crate::names::is_among;
use std::alloc::{AllocError, Global};
use vmv_tree::{Body, Item, Name, Operand, Param, Stmt};

fn add_operand(numbers: &mut Vec<i64>, operand: &Operand) -> Result<(), AllocError>
    ensures { OnOk result (numbers.new.items ≡ numbers.old.items ++ operand_numbers operand.now) }
{
    if let Operand::Lit(number) = operand {
        numbers.push(*number)?;
    }
    Ok(())
}

fn add_operands(numbers: &mut Vec<i64>, operands: &[Operand]) -> Result<(), AllocError>
    ensures { OnOk result (numbers.new.items ≡ numbers.old.items ++ args_numbers operands.now) }
{
    for operand in operands {
        add_operand(numbers, operand)?;
    }
    Ok(())
}

/// Adds the numbers of a statement, and the names that it calls.
#[cycle(gather)]
#[tactic(auto, using(crate::proofs::Walking::walking))]
fn add_stmt(numbers: &mut Vec<i64>, names: &mut Vec<Name>, stmt: &Stmt) -> Result<(), AllocError>
    ensures numbers { OnOk result (numbers.new.items ≡ numbers.old.items ++ own_numbers (stmt_of stmt.now)) }
    ensures names { OnOk result (names.new.items ≡ names.old.items ++ called (stmt_of stmt.now)) }
{
    match stmt {
        Stmt::Set { from, .. } => add_operand(numbers, from),
        Stmt::Arith { left, right, .. } => {
            add_operand(numbers, left)?;
            add_operand(numbers, right)
        }
        Stmt::Call { callee, args, .. } => {
            names.push(*callee)?;
            add_operands(numbers, args.as_slice())
        }
        Stmt::Assert { test } => {
            add_operand(numbers, &test.left)?;
            add_operand(numbers, &test.right)
        }
        Stmt::If {
            test,
            first,
            second,
        } => {
            add_operand(numbers, &test.left)?;
            add_operand(numbers, &test.right)?;
            add_block(numbers, names, first.as_slice())?;
            add_block(numbers, names, second.as_slice())
        }
        Stmt::Repeat {
            bound,
            cap,
            body,
            ..
        } => {
            add_operand(numbers, bound)?;
            numbers.push(*cap)?;
            add_block(numbers, names, body.as_slice())
        }
    }
}

/// Adds those of statements in a row.
#[cycle(gather)]
#[tactic(auto, using(crate::proofs::Walking::walking))]
fn add_block(
    numbers: &mut Vec<i64>,
    names: &mut Vec<Name>,
    block: &[Stmt],
) -> Result<(), AllocError>
    ensures numbers { OnOk result (numbers.new.items ≡ numbers.old.items ++ block_numbers no_numbers (block_of block.now)) }
    ensures names { OnOk result (names.new.items ≡ names.old.items ++ block_called (block_of block.now)) }
{
    for stmt in block {
        add_stmt(numbers, names, stmt)?;
    }
    Ok(())
}

/// Adds the numbers of a body, and the names that it calls.
#[tactic(auto, using(crate::proofs::Walking::walking))]
fn add_body(numbers: &mut Vec<i64>, names: &mut Vec<Name>, body: &Body) -> Result<(), AllocError>
    ensures numbers { OnOk result (numbers.new.items ≡ numbers.old.items ++ body_numbers no_numbers (body_of body.now)) }
    ensures names { OnOk result (names.new.items ≡ names.old.items ++ block_called (block_of body.now.block)) }
{
    add_block(numbers, names, body.block.as_slice())?;
    add_operand(numbers, &body.result)
}

/// Takes a name out of these. Says whether it was among them.
fn take_name(names: &mut Vec<Name>, name: &Name) -> bool
    ensures taken { result ≡ is_among names.old.items name.now }
    ensures left { names.new.items ≡ without name.now names.old.items }
{
    let taken = is_among(names.as_slice(), name);
    names.retain(|other| name.bytes() != other.bytes());
    taken
}

/// Looks up the names at an item. Where it is a helper that is called, its numbers and the names that it calls are added.
#[tactic(auto, using(crate::proofs::Walking::walking))]
fn visit(numbers: &mut Vec<i64>, names: &mut Vec<Name>, item: &Item) -> Result<(), AllocError>
    ensures numbers { OnOk result (numbers.new.items ≡ numbers_after (item_of item.now) numbers.old.items names.old.items) }
    ensures names { OnOk result (names.new.items ≡ called_after (item_of item.now) names.old.items) }
{
    match item {
        Item::Outside { name, .. } => {
            let _ = take_name(names, name);
            Ok(())
        }
        Item::Helper { name, body, .. } => {
            if take_name(names, name) {
                add_body(numbers, names, body)
            } else {
                Ok(())
            }
        }
        Item::Entry { .. } => Ok(()),
    }
}

fn range_ends(alloc: Global, params: &[Param]) -> Result<Vec<i64>, AllocError>
    ensures { IfOk result (λ ends. ends.items ≡ range_ends params.now) }
{
    let mut ends = Vec::new(alloc);
    for param in params {
        ends.push(param.lo)?;
        ends.push(param.hi)?;
    }
    Ok(ends)
}

/// The numbers of an entry and of the helpers that it reaches among the items above it, each helper once.
#[tactic(auto, using(crate::proofs::Walking::walking))]
fn gathered_numbers(
    alloc: Global,
    above: &[Item],
    params: &[Param],
    body: &Body,
) -> Result<Vec<i64>, AllocError>
    ensures { IfOk result (λ numbers. numbers.items ≡ reached_by (reverse (items_of above.now)) params.now (body_of body.now)) }
{
    let mut numbers = range_ends(alloc, params)?;
    let mut names = Vec::new(alloc);
    add_body(&mut numbers, &mut names, body)?;
    let mut left = above.len();
    while left > 0 {
        left -= 1;
        visit(&mut numbers, &mut names, &above[left])?;
    }
    Ok(numbers)
}

/// The literals, caps and range ends of an entry and of the helpers that it reaches among the items above it. A number may
/// stand there more than once. It fails for want of memory alone.
pub fn reached_numbers(
    alloc: Global,
    above: &[Item],
    params: &[Param],
    body: &Body,
) -> Result<Vec<i64>, AllocError>
    ensures { IfOk result (λ numbers. HaveSame numbers.items (entry_numbers (reverse (items_of above.now)) params.now (body_of body.now))) }
{
    gathered_numbers(alloc, above, params, body)
}

/// How many of these differ from the one before, the first of them from this.
fn changes(before: i64, numbers: &[i64]) -> usize
    ensures value { result ≡ changes before numbers.now }
    ensures few { result ≤ length numbers.now }
{
    let mut count = 0;
    let mut last = before;
    for number in numbers {
        if last != *number {
            count += 1;
        }
        last = *number;
    }
    count
}

/// How many different numbers an entry has with the helpers that it reaches among the items above it, at most `CAP`.
pub(crate) fn distinct_numbers(
    alloc: Global,
    above: &[Item],
    params: &[Param],
    body: &Body,
) -> Result<u64, AllocError>
    ensures { IfOk result (λ count. count ≡ min (distinct (entry_numbers (reverse (items_of above.now)) params.now (body_of body.now))) 1000000000) }
{
    let mut numbers = gathered_numbers(alloc, above, params, body)?;
    Ok((distinct(numbers.as_mut_slice()) as u64).min(CAP))
}

/// How many different numbers there are. It puts them in order.
fn distinct(numbers: &mut [i64]) -> usize
    ensures { result ≡ distinct numbers.old }
{
    numbers.sort_unstable();
    if numbers.is_empty() {
        return 0;
    }
    1 + changes(numbers[0], numbers)
}
