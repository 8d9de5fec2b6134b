ghost use Rattle.std.specs.Prelude.{◌≡◌, ◌≤◌};
ghost use Rattle.vmv_zone.specs.Zone.{vars_of, IsNormal};
ghost use Rattle.vmv_assumption.specs.Assumed.{cond_of};
ghost use Rattle.vmv_zone.specs.declared.operand.ZoneValue.TheVariants.{Copy, Arith, Within};
ghost use Rattle.vmv_zone.specs.Step.{IsAssigned, IsGuarded};
ghost use Rattle.vmv_step.specs.Fails.{TellsArith, TellsTest};
ghost use Rattle.vmv_step.specs.Zones.{zone_operand, zone_op, zone_test, IsVariable, IsInside, IsTestInside};
ghost use Rattle.vmv_step.specs.Steps.{IsSimpleInside, IsStepped, IsBranched, stepped};

use crate::fails::{arith_unproved, test_unproved};
use crate::stepped::Stepped;
use crate::zones::{negation, zone_op, zone_operand, zone_test};
use vmv_assumption::Assumption;
use vmv_snapshot::{CodeOperand, CodeTest, Simple, Slot};
use vmv_tree::{Name, Op};
use vmv_zone::{Zone, ZoneValue};

/// The step of a copy, an arithmetic statement, an assert or a call of an outside name.
///
/// Every slot that the statement gives or reads is a variable of the state. The state needn't be normal.
pub fn step(stmt: &Simple, assumed: &Assumption, zone: Zone) -> Stepped
    requires few { vars_of zone ≤ 16 }
    requires inside { IsSimpleInside (vars_of zone) stmt.now }
    ensures { IsStepped stmt.now (cond_of assumed.now) zone result }
{
    let mut after = zone;
    after.normalize();
    let unproved = step_in_place(stmt, assumed, &mut after);
    Stepped {
        zone: after,
        unproved,
    }
}

/// The step from a normal state, in place. Answers whether the statement's site isn't proved to pass.
pub fn step_in_place(stmt: &Simple, assumed: &Assumption, zone: &mut Zone) -> bool
    requires normal { IsNormal zone.old }
    requires few { vars_of zone.old ≤ 16 }
    requires inside { IsSimpleInside (vars_of zone.old) stmt.now }
    ensures stepped { IsStepped stmt.now (cond_of assumed.now) zone.old (stepped zone.new result) }
    ensures normal { IsNormal zone.new }
    ensures vars { vars_of zone.new ≡ vars_of zone.old }
{
    match stmt {
        Simple::Set { to, from } => {
            set(*to, *from, zone);
            false
        }
        Simple::Arith {
            to,
            op,
            left,
            right,
            ..
        } => compute(*to, *op, *left, *right, zone),
        Simple::Ask { to, callee, .. } => {
            ask(*to, callee, assumed, zone);
            false
        }
        Simple::Assert { test, .. } => assert_holds(*test, zone),
    }
}

/// The step of a copy.
fn set(to: Slot, from: CodeOperand, zone: &mut Zone)
    requires normal { IsNormal zone.old }
    requires few { vars_of zone.old ≤ 16 }
    requires to { IsVariable (vars_of zone.old) to }
    requires from { IsInside (vars_of zone.old) from }
    ensures { IsAssigned zone.old to.0 (Copy (zone_operand from)) zone.new }
{
    zone.store(to.0, ZoneValue::Copy(zone_operand(from)));
}

/// The step of an arithmetic statement. Answers whether it may fail.
fn compute(to: Slot, op: Op, left: CodeOperand, right: CodeOperand, zone: &mut Zone) -> bool
    requires normal { IsNormal zone.old }
    requires few { vars_of zone.old ≤ 16 }
    requires to { IsVariable (vars_of zone.old) to }
    requires left { IsInside (vars_of zone.old) left }
    requires right { IsInside (vars_of zone.old) right }
    ensures zone { IsAssigned zone.old to.0 (Arith (zone_op op) (zone_operand left) (zone_operand right)) zone.new }
    ensures unproved { TellsArith (zone_op op) zone.old (zone_operand left) (zone_operand right) result }
{
    let op = zone_op(op);
    let left = zone_operand(left);
    let right = zone_operand(right);
    let unproved = arith_unproved(zone, op, left, right);
    zone.store(to.0, ZoneValue::Arith { op, left, right });
    unproved
}

/// The step of a call of an outside name.
fn ask(to: Slot, callee: &Name, assumed: &Assumption, zone: &mut Zone)
    requires normal { IsNormal zone.old }
    requires few { vars_of zone.old ≤ 16 }
    requires to { IsVariable (vars_of zone.old) to }
    ensures { IsAssigned zone.old to.0 (Within (cond_of assumed.now callee.now)) zone.new }
{
    zone.store(to.0, ZoneValue::Within(assumed.get(callee)));
}

/// The step of an assert. Answers whether it may fail.
fn assert_holds(test: CodeTest, zone: &mut Zone) -> bool
    requires normal { IsNormal zone.old }
    requires inside { IsTestInside (vars_of zone.old) test }
    ensures zone { IsGuarded zone.old (zone_test test) zone.new }
    ensures unproved { TellsTest (zone_test test) zone.old result }
{
    let test = zone_test(test);
    let unproved = test_unproved(zone, test);
    zone.hold(test);
    unproved
}

/// The states in which the two parts of an `if` start: the first where the test holds, the second where it doesn't.
///
/// Every slot that the test reads is a variable of the state. The state needn't be normal.
pub fn branch(test: &CodeTest, zone: Zone) -> (Zone, Zone)
    requires { IsTestInside (vars_of zone) test.now }
    ensures { IsBranched test.now zone result.0 result.1 }
{
    let mut first = zone;
    first.normalize();
    let mut second = first;
    branch_in_place(test, &mut first, &mut second);
    (first, second)
}

/// Makes the states in which the two parts of an `if` start, from a normal state: the first in place of that, and the other
/// one in place of a second that is the same.
pub fn branch_in_place(test: &CodeTest, zone: &mut Zone, other: &mut Zone)
    requires normal { IsNormal zone.old }
    requires same { other.old ≡ zone.old }
    requires inside { IsTestInside (vars_of zone.old) test.now }
    ensures branched { IsBranched test.now zone.old zone.new other.new }
    ensures normal { IsNormal zone.new }
    ensures normal_other { IsNormal other.new }
    ensures vars { vars_of zone.new ≡ vars_of zone.old }
    ensures vars_other { vars_of other.new ≡ vars_of zone.old }
{
    let test = zone_test(*test);
    zone.hold(test);
    other.hold(negation(test));
}
