ghost use Rattle.std.specs.Prelude.{◌≡◌, ◌+◌, ◌<◌, ◌≤◌, ℤ, List, [], ◌∷◌, length, MatchOption, IfOk, OnOk, OnSome};
ghost use Rattle.vmv_tree.specs.declared.tree.Op.{Op};
ghost use Rattle.vmv_text.specs.declared.token.Token.TheVariants.{Minus, Named};
ghost use Rattle.vmv_text.specs.Tokens.{Placed};
ghost use Rattle.vmv_text.specs.Grammar.{op_token};
ghost use Rattle.vmv_text.specs.Reading.{first_of};
ghost use Rattle.vmv_surface_text.specs.Grammar.{binding};
ghost use Rattle.vmv_surface_text.specs.Reading.{EndsLit, IsOther};

use sqlite_items::Items;
use std::alloc::{AllocError, Global};
use vmv_lower::{Step, Steps};
use vmv_text::{Cursor, Fault, Symbol, Token};
use vmv_tree::{Name, Op};

/// What is read next of an expression.
#[derive(Clone, Copy, PartialEq, Eq, Debug)]
pub(crate) enum Place {
    /// A literal, an atom, or an atom behind a sign.
    Operand,
    /// What stands behind one.
    Operator,
}

/// What stands in front of an operand: the operators whose left sides were read, and a sign.
#[derive(Clone, Copy, Debug)]
pub(crate) struct Waiting {
    pub sum: Option<Op>,
    pub product: Option<Op>,
    pub signed: bool,
}

/// What an open parenthesis belongs to.
#[derive(Clone, Copy, Debug)]
pub(crate) enum Bracket {
    /// Only itself.
    Group,
    /// A call, of which so many arguments were read.
    Call { callee: Name, count: usize },
}

/// An open parenthesis, with what stands in front of it.
#[derive(Clone, Copy, Debug)]
pub(crate) struct Open {
    pub waiting: Waiting,
    pub bracket: Bracket,
}

/// An expression in the reading: the steps so far, what waits in the innermost parentheses, and those that are open, the
/// innermost last.
#[derive(Drop)]
pub(crate) struct Reader {
    pub steps: Steps,
    pub waiting: Waiting,
    pub opened: Items<Open>,
}

/// The sum that a token stands for.
fn sum_of(token: &Option<Token>) -> Option<Op>
    ensures { MatchOption result ((op : Op) → binding op ≡ 0 → token.now ≡ Some (op_token op) → ⊥) (λ op. (binding op ≡ 0) × (token.now ≡ Some (op_token op))) }
{
    match token {
        Some(Token::Plus) => Some(Op::Add),
        Some(Token::Minus) => Some(Op::Sub),
        _ => None,
    }
}

/// The product that a token stands for.
fn product_of(token: &Option<Token>) -> Option<Op>
    ensures { MatchOption result ((op : Op) → binding op ≡ 1 → token.now ≡ Some (op_token op) → ⊥) (λ op. (binding op ≡ 1) × (token.now ≡ Some (op_token op))) }
{
    match token {
        Some(Token::Star) => Some(Op::Mul),
        Some(Token::Slash) => Some(Op::Div),
        Some(Token::Percent) => Some(Op::Rem),
        _ => None,
    }
}

/// The literal that a token ends, with a sign in front of it or without.
fn literal_of(token: Token, signed: bool) -> Option<i64>
    ensures { MatchOption result ((z : ℤ) → EndsLit signed token z → ⊥) (λ z. EndsLit signed token z) }
{
    match token {
        Token::Number(number) => Some(if signed {
            number.negated()
        } else {
            number.word()
        }),
        Token::Edge if signed => Some(i64::MIN),
        _ => None,
    }
}

/// One more. No memory holds so many arguments that there is none.
fn one_more(count: usize) -> Result<usize, AllocError>
    ensures { IfOk result (λ more. more ≡ count + 1) }
{
    match count.checked_add(1) {
        Some(more) => Ok(more),
        None => Err(AllocError),
    }
}

impl Waiting {
    ghost use Rattle.std.specs.Prelude.{None, false};

    /// Nothing stands in front.
    fn none() -> Waiting
        ensures { result ≡ record { sum = None; product = None; signed = false } }
    {
        Waiting {
            sum: None,
            product: None,
            signed: false,
        }
    }
}

impl Reader {
    ghost use Rattle.vmv_surface_text.specs.Opening.{At, Asked, Ended, EndedIn, GoesOn, GoesOnOrEnds, without_sign, without_product, without_sum, with_step, entered};

    pub(crate) fn new(alloc: Global) -> Reader
        ensures { (start : List Placed) → At Place.Operand start result start }
    {
        Reader {
            steps: Steps::new(alloc),
            waiting: Waiting::none(),
            opened: Items::new(alloc),
        }
    }

    /// Ends the sign that waits.
    fn end_sign(&mut self) -> Result<(), AllocError>
        ensures { OnOk result (self.new ≡ without_sign self.old) }
    {
        if self.waiting.signed {
            self.steps.push(Step::Negate)?;
            self.waiting.signed = false;
        }
        Ok(())
    }

    /// Ends the product that waits.
    fn end_product(&mut self) -> Result<(), AllocError>
        ensures { OnOk result (self.new ≡ without_product self.old) }
    {
        if let Some(op) = self.waiting.product {
            self.steps.push(Step::Operate(op))?;
            self.waiting.product = None;
        }
        Ok(())
    }

    /// Ends the sum that waits.
    fn end_sum(&mut self) -> Result<(), AllocError>
        ensures { OnOk result (self.new ≡ without_sum self.old) }
    {
        if let Some(op) = self.waiting.sum {
            self.steps.push(Step::Operate(op))?;
            self.waiting.sum = None;
        }
        Ok(())
    }

    /// Takes the last step of an atom.
    fn atom(&mut self, step: Step) -> Result<(), AllocError>
        ensures { OnOk result (self.new ≡ without_sign (with_step step self.old)) }
    {
        self.steps.push(step)?;
        self.end_sign()
    }

    /// Opens a parenthesis.
    fn enter(&mut self, bracket: Bracket) -> Result<(), AllocError>
        ensures { OnOk result (self.new ≡ entered bracket self.old) }
    {
        self.opened.push(Open {
            waiting: self.waiting,
            bracket,
        })?;
        self.waiting = Waiting::none();
        Ok(())
    }

    /// What is read where an operand is asked for: a sign, an opening parenthesis with a callee or without, or an operand.
    pub(crate) fn operand(&mut self, cursor: &mut Cursor<'_>) -> Result<Place, Fault>
        ensures reads { (start : List Placed) → At Place.Operand start self.old cursor.old → GoesOn result start self.new cursor.new }
        ensures shorter { OnOk result (length cursor.new < length cursor.old) }
    {
        let Some(first) = *cursor.peek() else {
            return Err(Fault::Syntax);
        };
        match first {
            Token::Named(name) => {
                cursor.skip();
                self.named(cursor, name)
            }
            Token::OpenParen => {
                cursor.skip();
                self.enter(Bracket::Group)?;
                Ok(Place::Operand)
            }
            Token::Minus => self.sign(cursor),
            _ => self.literal(cursor, first),
        }
    }

    /// A sign, unless one waits.
    fn sign(&mut self, cursor: &mut Cursor<'_>) -> Result<Place, Fault>
        requires { first_of cursor.old ≡ Some Minus }
        ensures reads { (start : List Placed) → At Place.Operand start self.old cursor.old → GoesOn result start self.new cursor.new }
        ensures shorter { OnOk result (length cursor.new < length cursor.old) }
    {
        if self.waiting.signed {
            return Err(Fault::Syntax);
        }
        cursor.skip();
        self.waiting.signed = true;
        Ok(Place::Operand)
    }

    /// A literal, from behind its sign on.
    fn literal(&mut self, cursor: &mut Cursor<'_>, first: Token) -> Result<Place, Fault>
        requires { IsOther cursor.old first }
        ensures reads { (start : List Placed) → At Place.Operand start self.old cursor.old → GoesOn result start self.new cursor.new }
        ensures shorter { OnOk result (length cursor.new < length cursor.old) }
    {
        let Some(word) = literal_of(first, self.waiting.signed) else {
            return Err(Fault::Syntax);
        };
        cursor.skip();
        self.steps.push(Step::Lit(word))?;
        self.waiting.signed = false;
        Ok(Place::Operator)
    }

    /// What an atom has behind its name, up to its first argument.
    fn named(&mut self, cursor: &mut Cursor<'_>, name: Name) -> Result<Place, Fault>
        ensures reads { (start : List Placed) → Asked (Named name ∷ []) start self.old cursor.old → GoesOn result start self.new cursor.new }
        ensures within { OnOk result (length cursor.new ≤ length cursor.old) }
    {
        if !cursor.takes(Symbol::OpenParen) {
            self.atom(Step::Var(name))?;
            return Ok(Place::Operator);
        }
        let callee = name;
        if cursor.takes(Symbol::CloseParen) {
            self.atom(Step::Ask { callee, count: 0 })?;
            return Ok(Place::Operator);
        }
        self.enter(Bracket::Call { callee, count: 0 })?;
        Ok(Place::Operand)
    }

    /// What is read behind an operand: an operator, a comma, or a closing parenthesis. The end of the expression takes
    /// nothing.
    pub(crate) fn operator(&mut self, cursor: &mut Cursor<'_>) -> Result<Option<Place>, Fault>
        ensures reads { (start : List Placed) → At Place.Operator start self.old cursor.old → GoesOnOrEnds result start self.new cursor.new }
        ensures shorter { IfOk result (λ place. OnSome place (length cursor.new < length cursor.old)) }
    {
        if let Some(op) = product_of(cursor.peek()) {
            cursor.skip();
            self.end_product()?;
            self.waiting.product = Some(op);
            return Ok(Some(Place::Operand));
        }
        self.end_product()?;
        if let Some(op) = sum_of(cursor.peek()) {
            cursor.skip();
            self.end_sum()?;
            self.waiting.sum = Some(op);
            return Ok(Some(Place::Operand));
        }
        self.end_sum()?;
        self.close(cursor)
    }

    /// What is read behind an expression: a comma or a closing parenthesis, where one is open.
    fn close(&mut self, cursor: &mut Cursor<'_>) -> Result<Option<Place>, Fault>
        ensures reads { (start : List Placed) → Ended start self.old cursor.old → GoesOnOrEnds result start self.new cursor.new }
        ensures shorter { IfOk result (λ place. OnSome place (length cursor.new < length cursor.old)) }
    {
        let Some(open) = self.opened.pop() else {
            return Ok(None);
        };
        self.waiting = open.waiting;
        let place = self.close_in(cursor, open.bracket)?;
        Ok(Some(place))
    }

    /// What is read behind an expression in a parenthesis that is no longer held as open.
    fn close_in(&mut self, cursor: &mut Cursor<'_>, bracket: Bracket) -> Result<Place, Fault>
        ensures reads { (start : List Placed) → EndedIn bracket start self.old cursor.old → GoesOn result start self.new cursor.new }
        ensures shorter { OnOk result (length cursor.new < length cursor.old) }
    {
        match bracket {
            Bracket::Group => self.end_group(cursor),
            Bracket::Call { callee, count } => self.argument(cursor, callee, count),
        }
    }

    /// The closing parenthesis of a group.
    fn end_group(&mut self, cursor: &mut Cursor<'_>) -> Result<Place, Fault>
        ensures reads { (start : List Placed) → EndedIn Bracket.Group start self.old cursor.old → GoesOn result start self.new cursor.new }
        ensures shorter { OnOk result (length cursor.new < length cursor.old) }
    {
        if !cursor.takes(Symbol::CloseParen) {
            return Err(Fault::Syntax);
        }
        self.end_sign()?;
        Ok(Place::Operator)
    }

    /// What is read behind an argument, before which so many of its call were read.
    fn argument(
        &mut self,
        cursor: &mut Cursor<'_>,
        callee: Name,
        before: usize,
    ) -> Result<Place, Fault>
        ensures reads { (start : List Placed) → EndedIn (Bracket.Call callee before) start self.old cursor.old → GoesOn result start self.new cursor.new }
        ensures shorter { OnOk result (length cursor.new < length cursor.old) }
    {
        let count = one_more(before)?;
        if cursor.takes(Symbol::Comma) {
            self.enter(Bracket::Call { callee, count })?;
            return Ok(Place::Operand);
        }
        if !cursor.takes(Symbol::CloseParen) {
            return Err(Fault::Syntax);
        }
        self.atom(Step::Ask { callee, count })?;
        Ok(Place::Operator)
    }
}
