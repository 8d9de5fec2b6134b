ghost use Rattle.std.specs.Prelude.{◌≡◌, ◌≤◌};
ghost use Rattle.vmv_zone.specs.Zone.{vars_of, NotBottom, IsNormal};
ghost use Rattle.vmv_step.specs.Zones.{IsVariable, IsInside};
ghost use Rattle.vmv_step.specs.Steps.{stepped};
ghost use Rattle.vmv_step.specs.Loops.{IsHead, IsTurn, IsAgain, IsLeft, IsForgotten, at_most};

use crate::fails::bound_unproved;
use crate::stepped::Stepped;
use crate::zones::zone_operand;
use vmv_snapshot::{CodeRepeat, Slot};
use vmv_zone::{Zone, ZoneOp, ZoneOperand, ZoneRel, ZoneTest, ZoneValue};

/// The head of a loop: the bound is at most the cap, the bound's slot has a copy of it, and the index is 0.
///
/// The index, its bound's slot, and the bound where it is a slot, are variables of the state. The state needn't be
/// normal. This holds of all calls on loops.
pub fn head(repeat: &CodeRepeat, zone: Zone) -> Stepped
    requires few { vars_of zone ≤ 16 }
    requires index { IsVariable (vars_of zone) repeat.now.index }
    requires slot { IsVariable (vars_of zone) repeat.now.slot }
    requires bound { IsInside (vars_of zone) repeat.now.bound }
    ensures { IsHead repeat.now.index repeat.now.slot repeat.now.bound repeat.now.cap zone result }
{
    let mut after = zone;
    after.normalize();
    let unproved = head_in_place(repeat, &mut after);
    Stepped {
        zone: after,
        unproved,
    }
}

/// The head of a loop, from a normal state, in place. Answers whether the bound isn't proved to be at most the cap.
pub fn head_in_place(repeat: &CodeRepeat, zone: &mut Zone) -> bool
    requires normal { IsNormal zone.old }
    requires few { vars_of zone.old ≤ 16 }
    requires index { IsVariable (vars_of zone.old) repeat.now.index }
    requires slot { IsVariable (vars_of zone.old) repeat.now.slot }
    requires bound { IsInside (vars_of zone.old) repeat.now.bound }
    ensures head { IsHead repeat.now.index repeat.now.slot repeat.now.bound repeat.now.cap zone.old (stepped zone.new result) }
    ensures normal { IsNormal zone.new }
    ensures vars { vars_of zone.new ≡ vars_of zone.old }
{
    let bound = zone_operand(repeat.bound);
    let unproved = bound_unproved(zone, bound, repeat.cap);
    zone.hold(at_most(bound, ZoneOperand::Lit(repeat.cap)));
    zone.store(repeat.slot.0, ZoneValue::Copy(bound));
    zone.store(repeat.index.0, ZoneValue::Copy(ZoneOperand::Lit(0)));
    unproved
}

/// The state in which a turn's body starts: the index is less than the bound.
pub fn turn(repeat: &CodeRepeat, zone: Zone) -> Zone
    requires index { IsVariable (vars_of zone) repeat.now.index }
    requires slot { IsVariable (vars_of zone) repeat.now.slot }
    ensures { IsTurn repeat.now.index repeat.now.slot zone result }
{
    let mut after = zone;
    after.normalize();
    turn_in_place(repeat, &mut after);
    after
}

/// The state in which a turn's body starts, from a normal state, in place.
pub fn turn_in_place(repeat: &CodeRepeat, zone: &mut Zone)
    requires normal { IsNormal zone.old }
    requires index { IsVariable (vars_of zone.old) repeat.now.index }
    requires slot { IsVariable (vars_of zone.old) repeat.now.slot }
    ensures turn { IsTurn repeat.now.index repeat.now.slot zone.old zone.new }
    ensures normal { IsNormal zone.new }
    ensures vars { vars_of zone.new ≡ vars_of zone.old }
{
    let index = ZoneOperand::Var(repeat.index.0);
    let slot = ZoneOperand::Var(repeat.slot.0);
    zone.hold(ZoneTest {
        left: index,
        rel: ZoneRel::Less,
        right: slot,
    });
}

/// The state behind a turn's body: the index is 1 more.
pub fn again(repeat: &CodeRepeat, zone: Zone) -> Zone
    requires few { vars_of zone ≤ 16 }
    requires index { IsVariable (vars_of zone) repeat.now.index }
    ensures { IsAgain repeat.now.index zone result }
{
    let mut after = zone;
    after.normalize();
    again_in_place(repeat, &mut after);
    after
}

/// The state behind a turn's body, from a normal state, in place.
pub fn again_in_place(repeat: &CodeRepeat, zone: &mut Zone)
    requires normal { IsNormal zone.old }
    requires few { vars_of zone.old ≤ 16 }
    requires index { IsVariable (vars_of zone.old) repeat.now.index }
    ensures again { IsAgain repeat.now.index zone.old zone.new }
    ensures normal { IsNormal zone.new }
    ensures vars { vars_of zone.new ≡ vars_of zone.old }
{
    let index = repeat.index.0;
    zone.store(
        index,
        ZoneValue::Arith {
            op: ZoneOp::Add,
            left: ZoneOperand::Var(index),
            right: ZoneOperand::Lit(1),
        },
    );
}

/// The state behind the loop: the bound was at most the index, and both slots may have any word.
pub fn leave(repeat: &CodeRepeat, zone: Zone) -> Zone
    requires index { IsVariable (vars_of zone) repeat.now.index }
    requires slot { IsVariable (vars_of zone) repeat.now.slot }
    ensures { IsLeft repeat.now.index repeat.now.slot zone result }
{
    let mut after = zone;
    after.normalize();
    leave_in_place(repeat, &mut after);
    after
}

/// The state behind the loop, from a normal state, in place.
pub fn leave_in_place(repeat: &CodeRepeat, zone: &mut Zone)
    requires normal { IsNormal zone.old }
    requires index { IsVariable (vars_of zone.old) repeat.now.index }
    requires slot { IsVariable (vars_of zone.old) repeat.now.slot }
    ensures left { IsLeft repeat.now.index repeat.now.slot zone.old zone.new }
    ensures normal { IsNormal zone.new }
    ensures vars { vars_of zone.new ≡ vars_of zone.old }
{
    let index = ZoneOperand::Var(repeat.index.0);
    let slot = ZoneOperand::Var(repeat.slot.0);
    zone.hold(at_most(slot, index));
    if zone.is_bottom() {
        return;
    }
    forget(repeat.index, repeat.slot, zone);
}

/// The norm of the state with any words in both slots.
fn forget(index: Slot, slot: Slot, zone: &mut Zone)
    requires not_bottom { NotBottom zone.old }
    requires index { IsVariable (vars_of zone.old) index }
    requires slot { IsVariable (vars_of zone.old) slot }
    ensures forgotten { IsForgotten index slot zone.old zone.new }
    ensures vars { vars_of zone.new ≡ vars_of zone.old }
{
    zone.forget(index.0);
    zone.forget(slot.0);
    zone.normalize();
}

/// The test that the one operand is at most the other.
fn at_most(left: ZoneOperand, right: ZoneOperand) -> ZoneTest
    ensures { result ≡ at_most left right }
{
    ZoneTest {
        left,
        rel: ZoneRel::AtMost,
        right,
    }
}
