ghost use Rattle.vmv_zone.specs.Zone.{vars_of};
ghost use Rattle.vmv_zone.specs.Step.{IsOperandOf};

use crate::words::{op, operand, variable};
use crate::zone::{known, put_found};
use std::alloc::Global;
use vmv_cases::{Sheet, tail, word};
use vmv_cond::Cond;
use vmv_state_texts::{read_cond, read_state};
use vmv_zone::{Zone, ZoneOp, ZoneOperand, ZoneValue};

fn assigned(zone: Zone, to: u8, value: ZoneValue) -> Option<Zone>
    requires { IsOperandOf value (vars_of zone) }
{
    if to == 0 || to > zone.vars() || zone.vars() > 16 {
        return None;
    }
    Some(zone.assign(to, value))
}

/// The state after a variable was given an operand.
fn copied(zone: Zone, to: u8, from: ZoneOperand) -> Option<Zone> {
    if !known(&zone, from) {
        return None;
    }
    assigned(zone, to, ZoneValue::Copy(from))
}

/// The state after a variable was given what an operation on two operands gives.
fn computed(zone: Zone, to: u8, left: ZoneOperand, op: ZoneOp, right: ZoneOperand) -> Option<Zone> {
    if !known(&zone, left) {
        return None;
    }
    if !known(&zone, right) {
        return None;
    }
    assigned(zone, to, ZoneValue::Arith { op, left, right })
}

/// The state after a variable was given a word of a condition.
pub fn within(zone: Zone, to: u8, cond: Cond) -> Option<Zone> {
    assigned(zone, to, ZoneValue::Within(cond))
}

/// The state after a variable was given what words write: `within COND`, an operand, or two operands with an operation between.
fn given(zone: Zone, to: u8, words: &[u8]) -> Option<Zone> {
    if word(words, 0) == b"within".as_slice() {
        return within(zone, to, read_cond(tail(words, 1))?);
    }
    let left = operand(word(words, 0))?;
    if tail(words, 1).is_empty() {
        return copied(zone, to, left);
    }
    let right = operand(word(words, 2))?;
    computed(zone, to, left, op(word(words, 1))?, right)
}

/// `? assign VAR VALUE`: the state of the last text after a variable was given a value.
pub fn assign(alloc: Global, text: &[u8], rest: &[u8], sheet: &mut Sheet) {
    let (Some(zone), Some(to)) = (read_state(text), variable(word(rest, 0))) else {
        sheet.refuse();
        return;
    };
    put_found(alloc, given(zone, to, tail(rest, 1)), sheet);
}
