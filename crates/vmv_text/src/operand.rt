ghost use Rattle.std.specs.Prelude.{◌≡◌, ℕ, pos, MatchOption};
ghost use Rattle.vmv_tree.specs.declared.name.Name.{Name};
ghost use Rattle.vmv_tree.specs.declared.tree.Op.{Op};
ghost use Rattle.vmv_tree.specs.declared.tree.Rel.{Rel};
ghost use Rattle.vmv_text.specs.declared.token.Token.TheVariants.{Named, Number, IfWord};
ghost use Rattle.vmv_text.specs.Grammar.{IsName, IsLit, IsOperand, IsTest, op_token, rel_token};
ghost use Rattle.vmv_text.specs.Reading.{Reads, ReadsWith, Any, IsOp, IsRel, IsSmall, IsNegative, IsNoSize, IsSizeOf};
ghost use Rattle.vmv_text.specs.Pieces.{IsPieceBehind, DoesOpen};

use crate::cursor::Cursor;
use crate::fault::Fault;
use crate::flat::Opens;
use crate::symbol::Symbol;
use crate::token::Token;
use vmv_tree::{Name, Op, Operand, Rel, Test};

/// The name that a token is.
pub fn name_of(token: &Option<Token>) -> Option<Name>
    ensures { MatchOption result ((x : Name) → token.now ≡ Some (Named x) → ⊥) (λ x. token.now ≡ Some (Named x)) }
{
    match token {
        Some(Token::Named(name)) => Some(*name),
        _ => None,
    }
}

/// The number from 0 to 2^63 - 1 that a token is.
fn small_of(token: &Option<Token>) -> Option<i64>
    ensures { MatchOption result ((n : ℕ) → token.now ≡ Some (Number n) → ⊥) (λ z. (n : ℕ) × (z ≡ pos n) × (token.now ≡ Some (Number n))) }
{
    match token {
        Some(Token::Number(number)) => Some(number.word()),
        _ => None,
    }
}

/// The word that a token is behind `-`.
fn negative_of(token: &Option<Token>) -> Option<i64>
    ensures { MatchOption result (IsNoSize token.now) (λ z. IsSizeOf z token.now) }
{
    match token {
        Some(Token::Number(number)) => Some(number.negated()),
        Some(Token::Edge) => Some(i64::MIN),
        _ => None,
    }
}

/// The operation that a token stands for.
fn op_of(token: &Option<Token>) -> Option<Op>
    ensures { MatchOption result ((op : Op) → token.now ≡ Some (op_token op) → ⊥) (λ op. token.now ≡ Some (op_token op)) }
{
    match token {
        Some(Token::Plus) => Some(Op::Add),
        Some(Token::Minus) => Some(Op::Sub),
        Some(Token::Star) => Some(Op::Mul),
        Some(Token::Slash) => Some(Op::Div),
        Some(Token::Percent) => Some(Op::Rem),
        _ => None,
    }
}

/// The comparison that a token stands for.
fn rel_of(token: &Option<Token>) -> Option<Rel>
    ensures { MatchOption result ((rel : Rel) → token.now ≡ Some (rel_token rel) → ⊥) (λ rel. token.now ≡ Some (rel_token rel)) }
{
    match token {
        Some(Token::DoubleEquals) => Some(Rel::Equal),
        Some(Token::NotEquals) => Some(Rel::Unequal),
        Some(Token::LessThan) => Some(Rel::Less),
        Some(Token::LessOrEqual) => Some(Rel::AtMost),
        Some(Token::GreaterThan) => Some(Rel::Greater),
        Some(Token::GreaterOrEqual) => Some(Rel::AtLeast),
        _ => None,
    }
}

impl Cursor<'_> {
    /// A name.
    pub fn name(&mut self) -> Result<Name, Fault>
        ensures { Reads IsName result self.old self.new }
    {
        let Some(name) = name_of(self.peek()) else {
            return Err(Fault::Syntax);
        };
        self.skip();
        Ok(name)
    }

    /// A number from 0 to 2^63 - 1.
    pub fn small(&mut self) -> Result<i64, Fault>
        ensures { Reads IsSmall result self.old self.new }
    {
        let Some(word) = small_of(self.peek()) else {
            return Err(Fault::Syntax);
        };
        self.skip();
        Ok(word)
    }

    /// What a literal has behind its sign.
    fn negative(&mut self) -> Result<i64, Fault>
        ensures { Reads IsNegative result self.old self.new }
    {
        let Some(word) = negative_of(self.peek()) else {
            return Err(Fault::Syntax);
        };
        self.skip();
        Ok(word)
    }

    /// A literal, with its sign.
    pub fn lit(&mut self) -> Result<i64, Fault>
        ensures { Reads IsLit result self.old self.new }
    {
        if self.takes(Symbol::Minus) {
            self.negative()
        } else {
            self.small()
        }
    }

    pub(crate) fn operand(&mut self) -> Result<Operand, Fault>
        ensures { Reads IsOperand result self.old self.new }
    {
        if let Some(name) = name_of(self.peek()) {
            self.skip();
            return Ok(Operand::Var(name));
        }
        let word = self.lit()?;
        Ok(Operand::Lit(word))
    }

    /// An operation.
    pub fn op(&mut self) -> Result<Op, Fault>
        ensures { Reads IsOp result self.old self.new }
    {
        let Some(op) = op_of(self.peek()) else {
            return Err(Fault::Syntax);
        };
        self.skip();
        Ok(op)
    }

    /// A comparison.
    pub fn rel(&mut self) -> Result<Rel, Fault>
        ensures { Reads IsRel result self.old self.new }
    {
        let Some(rel) = rel_of(self.peek()) else {
            return Err(Fault::Syntax);
        };
        self.skip();
        Ok(rel)
    }

    pub(crate) fn test(&mut self) -> Result<Test, Fault>
        ensures { Reads IsTest result self.old self.new }
    {
        let left = self.operand()?;
        let rel = self.rel()?;
        let right = self.operand()?;
        Ok(Test { left, rel, right })
    }

    /// What an `if` has behind its word, up to its first block.
    pub(crate) fn choice_front(&mut self) -> Result<Opens, Fault>
        ensures { ReadsWith DoesOpen (IsPieceBehind IfWord) Any result self.old self.new }
    {
        if let Err(fault) = self.test() {
            return Err(fault);
        }
        self.expect(Symbol::OpenBrace)?;
        Ok(Opens::Choice)
    }
}
