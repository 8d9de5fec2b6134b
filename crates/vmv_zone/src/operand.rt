ghost use Rattle.std.specs.Prelude.{◌≡◌};
ghost use Rattle.vmv_zone.specs.Operand.{thing, shift};

use crate::rel::ZoneRel;
use vmv_cond::Cond;

/// An operand of a statement.
#[derive(Clone, Copy, PartialEq, Eq, Debug)]
pub enum ZoneOperand {
    /// A word.
    Lit(i64),
    /// A variable, counted from 1.
    Var(u8),
}

/// A comparison of two operands.
#[derive(Clone, Copy, PartialEq, Eq, Debug)]
pub struct ZoneTest {
    /// What stands on the left.
    pub left: ZoneOperand,
    /// How the two are compared.
    pub rel: ZoneRel,
    /// What stands on the right.
    pub right: ZoneOperand,
}

/// An operation on two words. A quotient is rounded toward 0, and a remainder has the sign of the dividend.
#[derive(Clone, Copy, PartialEq, Eq, Debug)]
pub enum ZoneOp {
    /// The sum.
    Add,
    /// The difference.
    Sub,
    /// The product.
    Mul,
    /// The quotient.
    Div,
    /// The remainder.
    Rem,
}

/// What an assignment gives its target.
#[derive(Clone, Copy, PartialEq, Eq, Debug)]
pub enum ZoneValue {
    /// The value of an operand.
    Copy(ZoneOperand),
    /// The result of an operation that gave a word.
    Arith {
        /// The operation.
        op: ZoneOp,
        /// The first operand.
        left: ZoneOperand,
        /// The second operand.
        right: ZoneOperand,
    },
    /// Some word that the condition holds.
    Within(Cond),
}

/// The literal 0.
pub(crate) const ZERO: ZoneOperand = ZoneOperand::Lit(0);

impl ZoneOperand {
    /// The thing that the operand is, up to its shift.
    pub(crate) fn thing(self) -> u8
        ensures { result ≡ thing self }
    {
        match self {
            ZoneOperand::Lit(_) => 0,
            ZoneOperand::Var(y) => y,
        }
    }

    /// How far the operand is above its thing.
    pub(crate) fn shift(self) -> i64
        ensures { result ≡ shift self }
    {
        match self {
            ZoneOperand::Lit(c) => c,
            ZoneOperand::Var(_) => 0,
        }
    }
}
