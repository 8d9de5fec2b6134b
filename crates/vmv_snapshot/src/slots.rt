ghost use Rattle.std.specs.Prelude.{◌≡◌, ◌≤◌, ◌↔◌, ◌++◌, ◌∷◌, [], map, length, slice_get, Some, None, IsTrue, IfOk, OnOk};
ghost use Rattle.std.specs.List.{Contains};
ghost use Rattle.vmv_tree.specs.Limits.{indexes_of, block_indexes};
ghost use Rattle.vmv_tree.specs.View.{stmt_of, block_of, body_of};
ghost use Rattle.vmv_snapshot.specs.Resolves.{loop_names, slot_names};

use crate::code::Slot;
use std::alloc::{AllocError, Global};
use vmv_tree::{Body, Name, Stmt};

fn is_named(slot: &Option<Name>, name: &Name) -> bool
    ensures { IsTrue result ↔ (slot.now ≡ Some name.now) }
{
    match slot {
        Some(other) => other.bytes() == name.bytes(),
        None => false,
    }
}

/// The slot of this name.
pub(crate) fn slot_of(slots: &[Option<Name>], name: &Name) -> Slot
    requires few { length slots.now ≤ 17 }
    requires there { Contains slots.now (Some name.now) }
    ensures { slice_get slots.now result.0 ≡ Some (Some name.now) }
{
    for (i, slot) in slots.iter().enumerate() {
        if is_named(slot, name) {
            return Slot(i as u8);
        }
    }
    unreachable!()
}

fn push_names(slots: &mut Vec<Option<Name>>, names: &[Name]) -> Result<(), AllocError>
    ensures { OnOk result (slots.new.items ≡ slots.old.items ++ map (λ name. Some name) names.now) }
{
    for name in names {
        slots.push(Some(*name))?;
    }
    Ok(())
}

#[cycle(loops)]
fn push_loops(slots: &mut Vec<Option<Name>>, stmt: &Stmt) -> Result<(), AllocError>
    ensures { OnOk result (slots.new.items ≡ slots.old.items ++ loop_names (indexes_of (stmt_of stmt.now))) }
{
    match stmt {
        Stmt::If { first, second, .. } => {
            push_block_loops(slots, first.as_slice())?;
            push_block_loops(slots, second.as_slice())?;
            Ok(())
        }
        Stmt::Repeat { index, body, .. } => {
            slots.push(Some(*index))?;
            slots.push(None)?;
            push_block_loops(slots, body.as_slice())?;
            Ok(())
        }
        Stmt::Set { .. } | Stmt::Arith { .. } | Stmt::Call { .. } | Stmt::Assert { .. } => Ok(()),
    }
}

#[cycle(loops)]
fn push_block_loops(slots: &mut Vec<Option<Name>>, block: &[Stmt]) -> Result<(), AllocError>
    ensures { OnOk result (slots.new.items ≡ slots.old.items ++ loop_names (block_indexes (block_of block.now))) }
{
    for stmt in block {
        push_loops(slots, stmt)?;
    }
    Ok(())
}

/// The names of a procedure's slots, from slot 0 on.
pub(crate) fn slot_names(
    alloc: Global,
    params: &[Name],
    body: &Body,
) -> Result<Vec<Option<Name>>, AllocError>
    ensures { IfOk result (λ slots. slots.items ≡ slot_names params.now (body_of body.now)) }
{
    let mut slots = Vec::new(alloc);
    slots.push(None)?;
    push_names(&mut slots, params)?;
    push_names(&mut slots, body.vars.as_slice())?;
    push_block_loops(&mut slots, body.block.as_slice())?;
    Ok(slots)
}
