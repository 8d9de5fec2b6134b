ghost use Rattle.std.specs.Prelude.{◌≡◌};
ghost use Rattle.vmv_step.specs.Zones.{zone_operand, zone_op, zone_rel, zone_test, negated_rel, negation};

use vmv_snapshot::{CodeOperand, CodeTest};
use vmv_tree::{Op, Rel};
use vmv_zone::{ZoneOp, ZoneOperand, ZoneRel, ZoneTest};

/// The operand with a slot as the variable of its number.
pub(crate) fn zone_operand(operand: CodeOperand) -> ZoneOperand
    ensures { result ≡ zone_operand operand }
{
    match operand {
        CodeOperand::Lit(word) => ZoneOperand::Lit(word),
        CodeOperand::Var(slot) => ZoneOperand::Var(slot.0),
    }
}

pub(crate) fn zone_op(op: Op) -> ZoneOp
    ensures { result ≡ zone_op op }
{
    match op {
        Op::Add => ZoneOp::Add,
        Op::Sub => ZoneOp::Sub,
        Op::Mul => ZoneOp::Mul,
        Op::Div => ZoneOp::Div,
        Op::Rem => ZoneOp::Rem,
    }
}

fn zone_rel(rel: Rel) -> ZoneRel
    ensures { result ≡ zone_rel rel }
{
    match rel {
        Rel::Equal => ZoneRel::Equal,
        Rel::Unequal => ZoneRel::Unequal,
        Rel::Less => ZoneRel::Less,
        Rel::AtMost => ZoneRel::AtMost,
        Rel::Greater => ZoneRel::Greater,
        Rel::AtLeast => ZoneRel::AtLeast,
    }
}

pub(crate) fn zone_test(test: CodeTest) -> ZoneTest
    ensures { result ≡ zone_test test }
{
    ZoneTest {
        left: zone_operand(test.left),
        rel: zone_rel(test.rel),
        right: zone_operand(test.right),
    }
}

/// The relation of the pairs that this one leaves out.
fn negated_rel(rel: ZoneRel) -> ZoneRel
    ensures { result ≡ negated_rel rel }
{
    match rel {
        ZoneRel::Equal => ZoneRel::Unequal,
        ZoneRel::Unequal => ZoneRel::Equal,
        ZoneRel::Less => ZoneRel::AtLeast,
        ZoneRel::AtMost => ZoneRel::Greater,
        ZoneRel::Greater => ZoneRel::AtMost,
        ZoneRel::AtLeast => ZoneRel::Less,
    }
}

/// The test that holds exactly where this one doesn't.
pub(crate) fn negation(test: ZoneTest) -> ZoneTest
    ensures { result ≡ negation test }
{
    ZoneTest {
        left: test.left,
        rel: negated_rel(test.rel),
        right: test.right,
    }
}
