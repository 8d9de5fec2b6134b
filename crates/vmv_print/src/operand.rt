ghost use Rattle.std.specs.Prelude.{◌≡◌, ◌++◌, OnOk};
ghost use Rattle.std.specs.Fmt.{signed_decimal};
ghost use Rattle.vmv_print.specs.Canonical.{operand_text, op_text, rel_text, spaced, test_text};
ghost use Rattle.vmv_print.specs.Written.{IsName, IsWrittenOperand, IsWrittenTest};

use std::alloc::{AllocError, Global};
use vmv_tree::{Name, Op, Operand, Rel, Test};

/// Writes a number in decimal digits, behind a minus sign where it is negative.
pub(crate) fn push_number(alloc: Global, out: &mut Vec<u8>, number: i64) -> Result<(), AllocError>
    ensures { OnOk result (out.new.items ≡ out.old.items ++ signed_decimal number) }
{
    let text = format!(in alloc; "{number}")?;
    out.extend_from_slice(text.as_bytes())
}

pub(crate) fn push_name(out: &mut Vec<u8>, name: &Name) -> Result<(), AllocError>
    ensures text { OnOk result (out.new.items ≡ out.old.items ++ name.now) }
    ensures written { OnOk result (IsName name.now) }
{
    out.extend_from_slice(name.bytes())
}

pub(crate) fn push_operand(
    alloc: Global,
    out: &mut Vec<u8>,
    operand: &Operand,
) -> Result<(), AllocError>
    ensures text { OnOk result (out.new.items ≡ out.old.items ++ operand_text operand.now) }
    ensures written { OnOk result (IsWrittenOperand operand.now) }
{
    match operand {
        Operand::Lit(number) => push_number(alloc, out, *number),
        Operand::Var(name) => push_name(out, name),
    }
}

/// An operation with a space on each side.
pub(crate) fn spaced_op(op: Op) -> &'static [u8]
    ensures { result.now ≡ spaced (op_text op) }
{
    match op {
        Op::Add => b" + ",
        Op::Sub => b" - ",
        Op::Mul => b" * ",
        Op::Div => b" / ",
        Op::Rem => b" % ",
    }
}

/// A comparison with a space on each side.
fn spaced_rel(rel: Rel) -> &'static [u8]
    ensures { result.now ≡ spaced (rel_text rel) }
{
    match rel {
        Rel::Equal => b" == ",
        Rel::Unequal => b" != ",
        Rel::Less => b" < ",
        Rel::AtMost => b" <= ",
        Rel::Greater => b" > ",
        Rel::AtLeast => b" >= ",
    }
}

pub(crate) fn push_test(alloc: Global, out: &mut Vec<u8>, test: &Test) -> Result<(), AllocError>
    ensures text { OnOk result (out.new.items ≡ out.old.items ++ test_text test.now) }
    ensures written { OnOk result (IsWrittenTest test.now) }
{
    push_operand(alloc, out, &test.left)?;
    out.extend_from_slice(spaced_rel(test.rel))?;
    push_operand(alloc, out, &test.right)
}
