ghost use Rattle.std.specs.Prelude.{◌≡◌, ℕ, nat_lt, nat_le, ◌==◌, not, ◌&&◌};
ghost use Rattle.vmv_snapshot.specs.View.{stmt_of, block_of};
ghost use Rattle.vmv_back.specs.Assigned.{simple_assigns, assigns, block_assigns};
ghost use Rattle.vmv_back.specs.Facts.{slots_of};
ghost use Rattle.vmv_back.specs.Boxes.{is_fixed};

use vmv_snapshot::{CodeStmt, Simple, Slot};

/// A set of slots.
pub(crate) type Slots = [bool; 256];

/// The slots from 1 to the number of parameters.
fn parameters(count: u8) -> Slots
    ensures { (x : ℕ) → slots_of result x ≡ (nat_lt 0 x && nat_le x count) }
{
    let mut slots = [false; 256];
    for slot in 0..count {
        slots[slot as usize + 1] = true;
    }
    slots
}

fn take_out(slots: &mut Slots, slot: Slot)
    ensures { (x : ℕ) → slots_of slots.new x ≡ (slots_of slots.old x && not (slot.0 == x)) }
{
    slots[slot.0 as usize] = false;
}

fn take_out_simple(slots: &mut Slots, simple: &Simple)
    ensures { (x : ℕ) → slots_of slots.new x ≡ (slots_of slots.old x && not (simple_assigns x simple.now)) }
{
    match simple {
        Simple::Set { to, .. } | Simple::Arith { to, .. } | Simple::Ask { to, .. } => take_out(
            slots, *to,
        ),
        Simple::Assert { .. } => (),
    }
}

/// Takes out the slots that a statement assigns.
#[cycle(assigned)]
fn take_out_assigned(slots: &mut Slots, stmt: &CodeStmt)
    ensures { (x : ℕ) → slots_of slots.new x ≡ (slots_of slots.old x && not (assigns x (stmt_of stmt.now))) }
{
    match stmt {
        CodeStmt::Plain(simple) => take_out_simple(slots, simple),
        CodeStmt::Help { to, .. } => take_out(slots, *to),
        CodeStmt::If { first, second, .. } => {
            take_out_block(slots, first.as_slice());
            take_out_block(slots, second.as_slice());
        }
        CodeStmt::Repeat(repeat) => {
            take_out(slots, repeat.index);
            take_out_block(slots, repeat.body.as_slice());
        }
    }
}

#[cycle(assigned)]
fn take_out_block(slots: &mut Slots, block: &[CodeStmt])
    ensures { (x : ℕ) → slots_of slots.new x ≡ (slots_of slots.old x && not (block_assigns x (block_of block.now))) }
{
    for stmt in block {
        take_out_assigned(slots, stmt);
    }
}

/// The parameters that the block never assigns.
pub(crate) fn fixed(params: u8, block: &[CodeStmt]) -> Slots
    ensures { (x : ℕ) → slots_of result x ≡ is_fixed params (block_of block.now) x }
{
    let mut slots = parameters(params);
    take_out_block(&mut slots, block);
    slots
}
