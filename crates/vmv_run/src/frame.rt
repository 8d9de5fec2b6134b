ghost use Rattle.std.specs.Prelude.{◌≡◌, length, map};
ghost use Rattle.vmv_tree.specs.Words.{result_of};
ghost use Rattle.vmv_run.specs.Walk.{word_in, holds_in, start_frame};

use vmv_snapshot::{CodeOperand, CodeTest};
use vmv_tree::{Op, Rel};

/// The words of a procedure's slots.
pub(crate) type Frame = [i64; 256];

/// What an operand reads.
pub(crate) fn value(frame: &Frame, operand: CodeOperand) -> i64
    ensures { result ≡ word_in frame.now operand }
{
    match operand {
        CodeOperand::Lit(word) => word,
        CodeOperand::Var(slot) => frame[slot.0 as usize],
    }
}

/// Whether a comparison holds.
pub(crate) fn holds(frame: &Frame, test: CodeTest) -> bool
    ensures { result ≡ holds_in frame.now test }
{
    let left = value(frame, test.left);
    let right = value(frame, test.right);
    match test.rel {
        Rel::Equal => left == right,
        Rel::Unequal => left != right,
        Rel::Less => left < right,
        Rel::AtMost => left <= right,
        Rel::Greater => left > right,
        Rel::AtLeast => left >= right,
    }
}

/// What an operation gives, and `None` where it fails.
pub(crate) fn result_of(op: Op, left: i64, right: i64) -> Option<i64>
    ensures { result ≡ result_of op left right }
{
    match op {
        Op::Add => left.checked_add(right),
        Op::Sub => left.checked_sub(right),
        Op::Mul => left.checked_mul(right),
        Op::Div => left.checked_div(right),
        Op::Rem => left.checked_rem(right),
    }
}

/// A called procedure's frame at its start: the parameters, so many, have the words of the arguments.
pub(crate) fn called_frame(frame: &Frame, params: usize, args: &[CodeOperand]) -> Frame
    ensures { result ≡ start_frame params (map (word_in frame.now) args.now) }
{
    let mut own = [0; 256];
    for i in 0..args.len().min(params.min(255)) {
        own[i + 1] = value(frame, args[i]);
    }
    own
}

/// A procedure's frame at its start: the parameters have these words.
pub(crate) fn entry_frame(words: &[i64]) -> Frame
    ensures { result ≡ start_frame (length words.now) words.now }
{
    let mut own = [0; 256];
    for i in 0..words.len().min(255) {
        own[i + 1] = words[i];
    }
    own
}
