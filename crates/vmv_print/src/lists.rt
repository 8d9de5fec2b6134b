ghost use Rattle.std.specs.Prelude.{◌≡◌, ◌++◌, OnOk, codes, All};
ghost use Rattle.vmv_print.specs.Canonical.{operand_text, param_text, after_commas, listed, names_text};
ghost use Rattle.vmv_print.specs.Written.{IsName, IsWrittenOperand, IsWrittenParam};

use crate::operand::{push_name, push_number, push_operand};
use std::alloc::{AllocError, Global};
use vmv_tree::{Name, Operand, Param};

fn push_comma(out: &mut Vec<u8>) -> Result<(), AllocError>
    ensures { OnOk result (out.new.items ≡ out.old.items ++ codes ", ") }
{
    out.extend_from_slice(b", ")
}

fn push_more_names(out: &mut Vec<u8>, names: &[Name]) -> Result<(), AllocError>
    ensures text { OnOk result (out.new.items ≡ out.old.items ++ after_commas (λ x. x) names.now) }
    ensures written { OnOk result (All IsName names.now) }
{
    for name in names {
        push_comma(out)?;
        push_name(out, name)?;
    }
    Ok(())
}

/// Writes names with a comma and a space between each two.
pub(crate) fn push_names(out: &mut Vec<u8>, names: &[Name]) -> Result<(), AllocError>
    ensures text { OnOk result (out.new.items ≡ out.old.items ++ names_text names.now) }
    ensures written { OnOk result (All IsName names.now) }
{
    match names {
        [] => Ok(()),
        [first, more @ ..] => {
            push_name(out, first)?;
            push_more_names(out, more)
        }
    }
}

fn push_more_args(alloc: Global, out: &mut Vec<u8>, args: &[Operand]) -> Result<(), AllocError>
    ensures text { OnOk result (out.new.items ≡ out.old.items ++ after_commas operand_text args.now) }
    ensures written { OnOk result (All IsWrittenOperand args.now) }
{
    for arg in args {
        push_comma(out)?;
        push_operand(alloc, out, arg)?;
    }
    Ok(())
}

/// Writes arguments with a comma and a space between each two.
pub(crate) fn push_args(
    alloc: Global,
    out: &mut Vec<u8>,
    args: &[Operand],
) -> Result<(), AllocError>
    ensures text { OnOk result (out.new.items ≡ out.old.items ++ listed operand_text args.now) }
    ensures written { OnOk result (All IsWrittenOperand args.now) }
{
    match args {
        [] => Ok(()),
        [first, more @ ..] => {
            push_operand(alloc, out, first)?;
            push_more_args(alloc, out, more)
        }
    }
}

/// Writes a parameter with its range.
fn push_param(alloc: Global, out: &mut Vec<u8>, param: &Param) -> Result<(), AllocError>
    ensures text { OnOk result (out.new.items ≡ out.old.items ++ param_text param.now) }
    ensures written { OnOk result (IsWrittenParam param.now) }
{
    push_name(out, &param.name)?;
    out.extend_from_slice(b": ")?;
    push_number(alloc, out, param.lo)?;
    out.extend_from_slice(b"..")?;
    push_number(alloc, out, param.hi)
}

fn push_more_params(alloc: Global, out: &mut Vec<u8>, params: &[Param]) -> Result<(), AllocError>
    ensures text { OnOk result (out.new.items ≡ out.old.items ++ after_commas param_text params.now) }
    ensures written { OnOk result (All IsWrittenParam params.now) }
{
    for param in params {
        push_comma(out)?;
        push_param(alloc, out, param)?;
    }
    Ok(())
}

/// Writes the parameters of an entry with a comma and a space between each two.
pub(crate) fn push_params(
    alloc: Global,
    out: &mut Vec<u8>,
    params: &[Param],
) -> Result<(), AllocError>
    ensures text { OnOk result (out.new.items ≡ out.old.items ++ listed param_text params.now) }
    ensures written { OnOk result (All IsWrittenParam params.now) }
{
    match params {
        [] => Ok(()),
        [first, more @ ..] => {
            push_param(alloc, out, first)?;
            push_more_params(alloc, out, more)
        }
    }
}
