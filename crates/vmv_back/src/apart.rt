ghost use Rattle.std.specs.Prelude.{◌≡◌, ◌≤◌, [], ◌∷◌, Some, true, length, map, slice_get, IsTrue, IfOk, OnOk};
ghost use Rattle.std.specs.List.{list_any};
ghost use Rattle.vmv_snapshot.specs.View.{stmt_of, block_of};
ghost use Rattle.vmv_snapshot.specs.Procs.{is_entry};
ghost use Rattle.vmv_snapshot.specs.Resolution.{procs_of};
ghost use Rattle.vmv_back.specs.Facts.{slots_of, negation, narrowed};
ghost use Rattle.vmv_back.specs.Boxes.{over_cap, simple_boxes, boxes_in, boxes_inside, is_nonempty, same_box, AreBoxes};
ghost use Rattle.vmv_back.specs.Kept.{keep, with_boxes};

use crate::fact::{Fact, fact_of};
use crate::fixed::{Slots, fixed};
use crate::full::full_box;
use std::alloc::{AllocError, Global};
use vmv_snapshot::{CodeOperand, CodeRepeat, CodeStmt, ParamBox, ProcId, Simple, Snapshot};
use vmv_tree::Rel;

/// Boxes of an entry, the one of its whole ranges first.
pub type Boxes = sqlite_items::Items<ParamBox>;

fn is_there(boxes: &[ParamBox], found: &ParamBox) -> bool
    ensures { result ≡ list_any (λ b. same_box b found.now) boxes.now }
{
    boxes.iter().any(|b| b.ranges() == found.ranges())
}

/// Keeps a box, unless it is there or 16 are.
fn keep(boxes: &mut Boxes, found: ParamBox) -> Result<(), AllocError>
    ensures { OnOk result (boxes.new ≡ keep 16 same_box boxes.old found) }
{
    if boxes.len() >= 16 || is_there(boxes.as_slice(), &found) {
        return Ok(());
    }
    boxes.push(found)?;
    Ok(())
}

/// Keeps the part of a box where the fact holds.
fn keep_part(boxes: &mut Boxes, fact: Fact, within: &ParamBox) -> Result<(), AllocError>
    requires few { length within.now ≤ 16 }
    requires nonempty { IsTrue (is_nonempty within.now) }
    ensures { OnOk result (boxes.new ≡ with_boxes boxes.old (narrowed fact within.now ∷ [])) }
{
    if let Some(part) = fact.narrowed(within) {
        keep(boxes, part)?;
    }
    Ok(())
}

fn keep_simple(
    boxes: &mut Boxes,
    slots: &Slots,
    within: &ParamBox,
    simple: &Simple,
) -> Result<(), AllocError>
    requires few { length within.now ≤ 16 }
    requires nonempty { IsTrue (is_nonempty within.now) }
    ensures { OnOk result (boxes.new ≡ with_boxes boxes.old (simple_boxes (slots_of slots.now) within.now simple.now)) }
{
    let Simple::Assert { test, .. } = simple else {
        return Ok(());
    };
    if let Some(fact) = fact_of(slots, *test) {
        keep_part(boxes, fact.negation(), within)?;
    }
    Ok(())
}

fn keep_over_cap(
    boxes: &mut Boxes,
    slots: &Slots,
    within: &ParamBox,
    repeat: &CodeRepeat,
) -> Result<(), AllocError>
    requires few { length within.now ≤ 16 }
    requires nonempty { IsTrue (is_nonempty within.now) }
    ensures { OnOk result (boxes.new ≡ with_boxes boxes.old (over_cap (slots_of slots.now) repeat.now.bound repeat.now.cap within.now)) }
{
    let CodeOperand::Var(slot) = repeat.bound else {
        return Ok(());
    };
    if !slots[slot.0 as usize] {
        return Ok(());
    }
    let fact = Fact {
        slot,
        rel: Rel::Greater,
        word: repeat.cap,
    };
    keep_part(boxes, fact, within)?;
    Ok(())
}

/// Keeps the boxes at the tests in a statement.
#[cycle(walk)]
fn keep_in(
    boxes: &mut Boxes,
    slots: &Slots,
    within: &ParamBox,
    stmt: &CodeStmt,
) -> Result<(), AllocError>
    requires few { length within.now ≤ 16 }
    requires nonempty { IsTrue (is_nonempty within.now) }
    ensures { OnOk result (boxes.new ≡ with_boxes boxes.old (boxes_in (slots_of slots.now) within.now (stmt_of stmt.now))) }
{
    match stmt {
        CodeStmt::Plain(simple) => {
            keep_simple(boxes, slots, within, simple)?;
            Ok(())
        }
        CodeStmt::Help { .. } => Ok(()),
        CodeStmt::If {
            test,
            first,
            second,
        } => match fact_of(slots, *test) {
            Some(fact) => {
                let negation = fact.negation();
                keep_part(boxes, fact, within)?;
                keep_part(boxes, negation, within)?;
                keep_in_part(boxes, slots, fact, within, first.as_slice())?;
                keep_in_part(boxes, slots, negation, within, second.as_slice())?;
                Ok(())
            }
            None => {
                keep_inside(boxes, slots, within, first.as_slice())?;
                keep_inside(boxes, slots, within, second.as_slice())?;
                Ok(())
            }
        },
        CodeStmt::Repeat(repeat) => {
            keep_over_cap(boxes, slots, within, repeat)?;
            keep_inside(boxes, slots, within, repeat.body.as_slice())?;
            Ok(())
        }
    }
}

/// Keeps the boxes at the tests in the part of an `if` that is done where the fact holds.
#[cycle(walk)]
fn keep_in_part(
    boxes: &mut Boxes,
    slots: &Slots,
    fact: Fact,
    within: &ParamBox,
    part: &[CodeStmt],
) -> Result<(), AllocError>
    requires few { length within.now ≤ 16 }
    requires nonempty { IsTrue (is_nonempty within.now) }
    ensures { OnOk result (boxes.new ≡ with_boxes boxes.old (boxes_inside (slots_of slots.now) (narrowed fact within.now) (block_of part.now))) }
{
    if let Some(narrower) = fact.narrowed(within) {
        keep_inside(boxes, slots, &narrower, part)?;
    }
    Ok(())
}

#[cycle(walk)]
fn keep_inside(
    boxes: &mut Boxes,
    slots: &Slots,
    within: &ParamBox,
    block: &[CodeStmt],
) -> Result<(), AllocError>
    requires few { length within.now ≤ 16 }
    requires nonempty { IsTrue (is_nonempty within.now) }
    ensures { OnOk result (boxes.new ≡ with_boxes boxes.old (boxes_inside (slots_of slots.now) within.now (block_of block.now))) }
{
    for stmt in block {
        keep_in(boxes, slots, within, stmt)?;
    }
    Ok(())
}

/// The boxes of an entry: that of its whole ranges, then in text order the parts of the ranges that its tests of
/// never-assigned parameters against literals tell apart; at most 16 different ones. It fails for want of memory alone.
pub fn boxes(alloc: Global, snapshot: &Snapshot, entry: ProcId) -> Result<Boxes, AllocError>
    requires { slice_get (map is_entry (procs_of snapshot.now)) entry.0 ≡ Some true }
    ensures { IfOk result (AreBoxes snapshot.now entry.0) }
{
    let _ = snapshot.program();
    let params = snapshot.params(entry);
    let code = snapshot.code(entry);
    let full = full_box(params.as_slice());
    let slots = fixed(params.len() as u8, code.block.as_slice());
    let mut boxes = Boxes::new(alloc);
    keep(&mut boxes, full)?;
    keep_inside(&mut boxes, &slots, &full, code.block.as_slice())?;
    Ok(boxes)
}
