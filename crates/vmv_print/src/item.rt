ghost use Rattle.std.specs.Prelude.{◌≡◌, ◌++◌, OnOk, codes, All};
ghost use Rattle.std.specs.Fmt.{signed_decimal};
ghost use Rattle.vmv_tree.specs.View.{body_of, item_of, items_of};
ghost use Rattle.vmv_print.specs.Canonical.{operand_text, names_text, outermost, deeper, line, vars_text, body_text, item_text, canonical};
ghost use Rattle.vmv_print.specs.Written.{HasCounts, HasCountsBlock, HasCountsItem, IsName, IsWritten, IsWrittenBody, IsWrittenItem, IsWrittenOperand};

use crate::lists::{push_names, push_params};
use crate::operand::{push_name, push_number, push_operand};
use crate::statement::{deeper, push_block, push_close};
use std::alloc::{AllocError, Global};
use vmv_tree::{Body, Item, Name, Operand};

/// Writes the declaration of the variables, unless there are none.
fn push_vars(out: &mut Vec<u8>, vars: &[Name]) -> Result<(), AllocError>
    ensures text { OnOk result (out.new.items ≡ out.old.items ++ vars_text vars.now) }
    ensures written { OnOk result (All IsName vars.now) }
{
    match vars {
        [] => Ok(()),
        [_, ..] => {
            out.extend_from_slice(b"  var ")?;
            push_names(out, vars)?;
            out.extend_from_slice(b";\n")
        }
    }
}

/// Writes `return result;`.
fn push_return(alloc: Global, out: &mut Vec<u8>, output: &Operand) -> Result<(), AllocError>
    ensures text { OnOk result (out.new.items ≡ out.old.items ++ line (deeper outermost) (codes "return " ++ operand_text output.now ++ codes ";")) }
    ensures written { OnOk result (IsWrittenOperand output.now) }
{
    out.extend_from_slice(b"  return ")?;
    push_operand(alloc, out, output)?;
    out.extend_from_slice(b";\n")
}

/// Writes what a procedure has behind its first line.
fn push_body(alloc: Global, out: &mut Vec<u8>, body: &Body) -> Result<(), AllocError>
    ensures text { OnOk result (out.new.items ≡ out.old.items ++ body_text (body_of body.now)) }
    ensures written { OnOk result (HasCountsBlock (body_of body.now).block → IsWrittenBody (body_of body.now)) }
{
    let indent = deeper(alloc, b"")?;
    push_vars(out, body.vars.as_slice())?;
    push_block(alloc, out, &indent, body.block.as_slice())?;
    push_return(alloc, out, &body.result)?;
    push_close(out, b"")
}

/// Writes `outside name(arity);`.
fn push_outside(alloc: Global, out: &mut Vec<u8>, name: &Name, arity: i64) -> Result<(), AllocError>
    ensures text { OnOk result (out.new.items ≡ out.old.items ++ line outermost (codes "outside " ++ name.now ++ codes "(" ++ signed_decimal arity ++ codes ");")) }
    ensures written { OnOk result (IsName name.now) }
{
    out.extend_from_slice(b"outside ")?;
    push_name(out, name)?;
    out.extend_from_slice(b"(")?;
    push_number(alloc, out, arity)?;
    out.extend_from_slice(b");\n")
}

fn push_item(alloc: Global, out: &mut Vec<u8>, item: &Item) -> Result<(), AllocError>
    ensures text { OnOk result (out.new.items ≡ out.old.items ++ item_text (item_of item.now)) }
    ensures written { OnOk result (HasCountsItem (item_of item.now) → IsWrittenItem (item_of item.now)) }
{
    match item {
        Item::Outside { name, arity } => push_outside(alloc, out, name, *arity),
        Item::Helper { name, params, body } => {
            out.extend_from_slice(b"helper ")?;
            push_name(out, name)?;
            out.extend_from_slice(b"(")?;
            push_names(out, params.as_slice())?;
            out.extend_from_slice(b") {\n")?;
            push_body(alloc, out, body)
        }
        Item::Entry { name, params, body } => {
            out.extend_from_slice(b"entry ")?;
            push_name(out, name)?;
            out.extend_from_slice(b"(")?;
            push_params(alloc, out, params.as_slice())?;
            out.extend_from_slice(b") {\n")?;
            push_body(alloc, out, body)
        }
    }
}

/// Writes items, which follow one another without blank lines.
pub(crate) fn push_items(alloc: Global, out: &mut Vec<u8>, items: &[Item]) -> Result<(), AllocError>
    ensures text { OnOk result (out.new.items ≡ out.old.items ++ canonical (items_of items.now)) }
    ensures written { OnOk result (HasCounts (items_of items.now) → IsWritten (items_of items.now)) }
{
    for item in items {
        push_item(alloc, out, item)?;
    }
    Ok(())
}
