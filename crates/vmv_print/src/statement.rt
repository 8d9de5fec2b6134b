ghost use Rattle.std.specs.Prelude.{◌≡◌, ◌++◌, OnOk, IfOk, codes, All};
ghost use Rattle.std.specs.Fmt.{signed_decimal};
ghost use Rattle.vmv_tree.specs.View.{stmt_of, block_of};
ghost use Rattle.vmv_print.specs.Canonical.{operand_text, op_text, spaced, test_text, listed, deeper, line, else_line, stmt_text, block_text};
ghost use Rattle.vmv_print.specs.Written.{HasCountsBlock, HasCountsStmt, IsName, IsWrittenBlock, IsWrittenOperand, IsWrittenStmt, IsWrittenTest};

use crate::lists::push_args;
use crate::operand::{push_name, push_number, push_operand, push_test, spaced_op};
use std::alloc::{AllocError, Global};
use vmv_tree::{Name, Op, Operand, Stmt, Test};

/// What a line begins with that is a level further in.
pub(crate) fn deeper(alloc: Global, indent: &[u8]) -> Result<Vec<u8>, AllocError>
    ensures { IfOk result (λ more. more.items ≡ deeper indent.now) }
{
    let mut more = Vec::from_slice(alloc, indent)?;
    more.extend_from_slice(b"  ")?;
    Ok(more)
}

/// Begins the line of an assignment.
fn push_target(out: &mut Vec<u8>, indent: &[u8], to: &Name) -> Result<(), AllocError>
    ensures text { OnOk result (out.new.items ≡ out.old.items ++ indent.now ++ to.now ++ codes " = ") }
    ensures written { OnOk result (IsName to.now) }
{
    out.extend_from_slice(indent)?;
    push_name(out, to)?;
    out.extend_from_slice(b" = ")
}

/// Writes `to = from;`.
fn push_set(
    alloc: Global,
    out: &mut Vec<u8>,
    indent: &[u8],
    to: &Name,
    from: &Operand,
) -> Result<(), AllocError>
    ensures text { OnOk result (out.new.items ≡ out.old.items ++ line indent.now (to.now ++ codes " = " ++ operand_text from.now ++ codes ";")) }
    ensures written { OnOk result (IsName to.now × IsWrittenOperand from.now) }
{
    push_target(out, indent, to)?;
    push_operand(alloc, out, from)?;
    out.extend_from_slice(b";\n")
}

/// Writes `left op right`.
fn push_operation(
    alloc: Global,
    out: &mut Vec<u8>,
    op: Op,
    left: &Operand,
    right: &Operand,
) -> Result<(), AllocError>
    ensures text { OnOk result (out.new.items ≡ out.old.items ++ operand_text left.now ++ spaced (op_text op) ++ operand_text right.now) }
    ensures written { OnOk result (IsWrittenOperand left.now × IsWrittenOperand right.now) }
{
    push_operand(alloc, out, left)?;
    out.extend_from_slice(spaced_op(op))?;
    push_operand(alloc, out, right)
}

/// Writes `to = left op right;`.
#[tactic(auto, using(crate::proofs::Pushing::pushing))]
fn push_arith(
    alloc: Global,
    out: &mut Vec<u8>,
    indent: &[u8],
    to: &Name,
    op: Op,
    left: &Operand,
    right: &Operand,
) -> Result<(), AllocError>
    ensures text { OnOk result (out.new.items ≡ out.old.items ++ line indent.now (to.now ++ codes " = " ++ operand_text left.now ++ spaced (op_text op) ++ operand_text right.now ++ codes ";")) }
    ensures written { OnOk result (IsName to.now × IsWrittenOperand left.now × IsWrittenOperand right.now) }
{
    push_target(out, indent, to)?;
    push_operation(alloc, out, op, left, right)?;
    out.extend_from_slice(b";\n")
}

/// Writes `to = callee(args);`.
#[tactic(auto, using(crate::proofs::Pushing::pushing))]
fn push_call(
    alloc: Global,
    out: &mut Vec<u8>,
    indent: &[u8],
    to: &Name,
    callee: &Name,
    args: &[Operand],
) -> Result<(), AllocError>
    ensures text { OnOk result (out.new.items ≡ out.old.items ++ line indent.now (to.now ++ codes " = " ++ callee.now ++ codes "(" ++ listed operand_text args.now ++ codes ");")) }
    ensures written { OnOk result (IsName to.now × IsName callee.now × All IsWrittenOperand args.now) }
{
    push_target(out, indent, to)?;
    push_name(out, callee)?;
    out.extend_from_slice(b"(")?;
    push_args(alloc, out, args)?;
    out.extend_from_slice(b");\n")
}

/// Writes `assert test;`.
fn push_assert(
    alloc: Global,
    out: &mut Vec<u8>,
    indent: &[u8],
    test: &Test,
) -> Result<(), AllocError>
    ensures text { OnOk result (out.new.items ≡ out.old.items ++ line indent.now (codes "assert " ++ test_text test.now ++ codes ";")) }
    ensures written { OnOk result (IsWrittenTest test.now) }
{
    out.extend_from_slice(indent)?;
    out.extend_from_slice(b"assert ")?;
    push_test(alloc, out, test)?;
    out.extend_from_slice(b";\n")
}

/// Writes the line that opens an `if`.
fn push_if(alloc: Global, out: &mut Vec<u8>, indent: &[u8], test: &Test) -> Result<(), AllocError>
    ensures text { OnOk result (out.new.items ≡ out.old.items ++ line indent.now (codes "if " ++ test_text test.now ++ codes " {")) }
    ensures written { OnOk result (IsWrittenTest test.now) }
{
    out.extend_from_slice(indent)?;
    out.extend_from_slice(b"if ")?;
    push_test(alloc, out, test)?;
    out.extend_from_slice(b" {\n")
}

/// Writes the line between the parts of an `if`, unless the second is empty.
#[tactic(auto, using(crate::proofs::Pushing::else_shown))]
fn push_else(out: &mut Vec<u8>, indent: &[u8], second: &[Stmt]) -> Result<(), AllocError>
    ensures { OnOk result (out.new.items ≡ out.old.items ++ else_line indent.now (block_of second.now)) }
{
    if second.is_empty() {
        return Ok(());
    }
    out.extend_from_slice(indent)?;
    out.extend_from_slice(b"} else {\n")
}

/// Writes `index to bound`.
fn push_range(
    alloc: Global,
    out: &mut Vec<u8>,
    index: &Name,
    bound: &Operand,
) -> Result<(), AllocError>
    ensures text { OnOk result (out.new.items ≡ out.old.items ++ (index.now ++ codes " to " ++ operand_text bound.now)) }
    ensures written { OnOk result (IsName index.now × IsWrittenOperand bound.now) }
{
    push_name(out, index)?;
    out.extend_from_slice(b" to ")?;
    push_operand(alloc, out, bound)
}

/// Writes ` cap cap {` and the end of the line.
fn push_cap(alloc: Global, out: &mut Vec<u8>, cap: i64) -> Result<(), AllocError>
    ensures { OnOk result (out.new.items ≡ out.old.items ++ (codes " cap " ++ signed_decimal cap ++ codes " {\n")) }
{
    out.extend_from_slice(b" cap ")?;
    push_number(alloc, out, cap)?;
    out.extend_from_slice(b" {\n")
}

/// Writes the line that opens a loop.
fn push_repeat(
    alloc: Global,
    out: &mut Vec<u8>,
    indent: &[u8],
    index: &Name,
    bound: &Operand,
    cap: i64,
) -> Result<(), AllocError>
    ensures text { OnOk result (out.new.items ≡ out.old.items ++ line indent.now (codes "repeat " ++ index.now ++ codes " to " ++ operand_text bound.now ++ codes " cap " ++ signed_decimal cap ++ codes " {")) }
    ensures written { OnOk result (IsName index.now × IsWrittenOperand bound.now) }
{
    out.extend_from_slice(indent)?;
    out.extend_from_slice(b"repeat ")?;
    push_range(alloc, out, index, bound)?;
    push_cap(alloc, out, cap)
}

/// Writes the line that closes a block.
pub(crate) fn push_close(out: &mut Vec<u8>, indent: &[u8]) -> Result<(), AllocError>
    ensures { OnOk result (out.new.items ≡ out.old.items ++ line indent.now (codes "}")) }
{
    out.extend_from_slice(indent)?;
    out.extend_from_slice(b"}\n")
}

/// Writes a statement whose lines begin so.
#[cycle(push)]
#[tactic(auto, using(crate::proofs::Pushing::pushing))]
pub(crate) fn push_stmt(
    alloc: Global,
    out: &mut Vec<u8>,
    indent: &[u8],
    stmt: &Stmt,
) -> Result<(), AllocError>
    ensures text { OnOk result (out.new.items ≡ out.old.items ++ stmt_text indent.now (stmt_of stmt.now)) }
    ensures written { OnOk result (HasCountsStmt (stmt_of stmt.now) → IsWrittenStmt (stmt_of stmt.now)) }
{
    match stmt {
        Stmt::Set { to, from } => push_set(alloc, out, indent, to, from),
        Stmt::Arith {
            to,
            op,
            left,
            right,
        } => push_arith(alloc, out, indent, to, *op, left, right),
        Stmt::Call { to, callee, args } => {
            push_call(alloc, out, indent, to, callee, args.as_slice())
        }
        Stmt::Assert { test } => push_assert(alloc, out, indent, test),
        Stmt::If {
            test,
            first,
            second,
        } => {
            let inner = deeper(alloc, indent)?;
            push_if(alloc, out, indent, test)?;
            push_block(alloc, out, &inner, first.as_slice())?;
            push_else(out, indent, second.as_slice())?;
            push_block(alloc, out, &inner, second.as_slice())?;
            push_close(out, indent)
        }
        Stmt::Repeat {
            index,
            bound,
            cap,
            body,
        } => {
            let inner = deeper(alloc, indent)?;
            push_repeat(alloc, out, indent, index, bound, *cap)?;
            push_block(alloc, out, &inner, body.as_slice())?;
            push_close(out, indent)
        }
    }
}

/// Writes statements whose lines begin so.
#[cycle(push)]
#[tactic(auto, using(crate::proofs::Pushing::pushing))]
pub(crate) fn push_block(
    alloc: Global,
    out: &mut Vec<u8>,
    indent: &[u8],
    block: &[Stmt],
) -> Result<(), AllocError>
    ensures text { OnOk result (out.new.items ≡ out.old.items ++ block_text indent.now (block_of block.now)) }
    ensures written { OnOk result (HasCountsBlock (block_of block.now) → IsWrittenBlock (block_of block.now)) }
{
    for stmt in block {
        push_stmt(alloc, out, indent, stmt)?;
    }
    Ok(())
}
