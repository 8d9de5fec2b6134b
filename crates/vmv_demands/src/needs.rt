ghost use Rattle.std.specs.Prelude.{◌≡◌, ◌≢◌, pos, int_div};
ghost use Rattle.vmv_back.specs.Facts.{mirrored};
ghost use Rattle.vmv_demands.specs.Wants.{least, greatest};
ghost use Rattle.vmv_demands.specs.Needs.{rel_needs, test_needs, factor_needs, dividend_needs, left_needs, right_needs, divisor_needs, arith_needs, bound_needs};

use crate::lead::Lead;
use crate::want::{GREATEST, LEAST, Want, needed};
use vmv_snapshot::{CodeOperand, CodeTest};
use vmv_tree::{Op, Rel};

fn mirrored(rel: Rel) -> Rel
    ensures { result ≡ mirrored rel }
{
    match rel {
        Rel::Equal => Rel::Equal,
        Rel::Unequal => Rel::Unequal,
        Rel::Less => Rel::Greater,
        Rel::AtMost => Rel::AtLeast,
        Rel::Greater => Rel::Less,
        Rel::AtLeast => Rel::AtMost,
    }
}

/// Of x in `x rel word`.
fn rel_needs(rel: Rel, word: i64) -> Option<Want>
    ensures { result ≡ rel_needs rel word }
{
    let c = i128::from(word);
    match rel {
        Rel::Equal => needed(c, c),
        Rel::Unequal => Some(Want::Except(word)),
        Rel::Less => needed(LEAST, c - 1),
        Rel::AtMost => needed(LEAST, c),
        Rel::Greater => needed(c + 1, GREATEST),
        Rel::AtLeast => needed(c, GREATEST),
    }
}

/// What an assert wants of its variable, where it compares one with a literal.
pub(crate) fn test_needs(test: CodeTest) -> Lead
    ensures { result ≡ test_needs test }
{
    match test.left {
        CodeOperand::Var(slot) => match test.right {
            CodeOperand::Lit(word) => Lead::on_slot(slot, rel_needs(test.rel, word)),
            CodeOperand::Var(_) => Lead::Nowhere,
        },
        CodeOperand::Lit(word) => match test.right {
            CodeOperand::Var(slot) => Lead::on_slot(slot, rel_needs(mirrored(test.rel), word)),
            CodeOperand::Lit(_) => Lead::Nowhere,
        },
    }
}

/// The least word divided by this one, cut off toward 0.
fn least_by(word: i64) -> i128
    requires { word ≢ pos 0 }
    ensures { result ≡ int_div least word }
{
    LEAST / i128::from(word)
}

/// The greatest word divided by this one, cut off toward 0.
fn greatest_by(word: i64) -> i128
    requires { word ≢ pos 0 }
    ensures { result ≡ int_div greatest word }
{
    GREATEST / i128::from(word)
}

/// Of x in `x * word`.
fn factor_needs(word: i64) -> Option<Want>
    ensures { result ≡ factor_needs word }
{
    if word > 0 {
        needed(least_by(word), greatest_by(word))
    } else if word < 0 {
        needed(greatest_by(word), least_by(word))
    } else {
        None
    }
}

/// Of x in `x / word` and `x % word`.
fn dividend_needs(word: i64) -> Option<Want>
    ensures { result ≡ dividend_needs word }
{
    if word == -1 {
        needed(LEAST + 1, GREATEST)
    } else {
        None
    }
}

/// Of x in `x op word`.
fn left_needs(op: Op, word: i64) -> Option<Want>
    ensures { result ≡ left_needs op word }
{
    let c = i128::from(word);
    match op {
        Op::Add => needed(LEAST - c, GREATEST - c),
        Op::Sub => needed(LEAST + c, GREATEST + c),
        Op::Mul => factor_needs(word),
        Op::Div | Op::Rem => dividend_needs(word),
    }
}

/// Of x in `word op x`.
fn right_needs(op: Op, word: i64) -> Option<Want>
    ensures { result ≡ right_needs op word }
{
    let c = i128::from(word);
    match op {
        Op::Add => needed(LEAST - c, GREATEST - c),
        Op::Sub => needed(c - GREATEST, c - LEAST),
        Op::Mul => factor_needs(word),
        Op::Div | Op::Rem => Some(Want::Except(0)),
    }
}

/// Of x in `y op x`, y being a variable.
fn divisor_needs(op: Op) -> Option<Want>
    ensures { result ≡ divisor_needs op }
{
    match op {
        Op::Div | Op::Rem => Some(Want::Except(0)),
        Op::Add | Op::Sub | Op::Mul => None,
    }
}

/// What an arithmetic statement wants of one of its variables.
pub(crate) fn arith_needs(op: Op, left: CodeOperand, right: CodeOperand) -> Lead
    ensures { result ≡ arith_needs op left right }
{
    match right {
        CodeOperand::Lit(word) => match left {
            CodeOperand::Var(slot) => Lead::on_slot(slot, left_needs(op, word)),
            CodeOperand::Lit(_) => Lead::Nowhere,
        },
        CodeOperand::Var(slot) => match left {
            CodeOperand::Lit(word) => Lead::on_slot(slot, right_needs(op, word)),
            CodeOperand::Var(_) => Lead::on_slot(slot, divisor_needs(op)),
        },
    }
}

/// What a loop wants of its bound.
pub(crate) fn bound_needs(bound: CodeOperand, cap: i64) -> Lead
    ensures { result ≡ bound_needs bound cap }
{
    Lead::on_operand(bound, needed(LEAST, i128::from(cap)))
}
