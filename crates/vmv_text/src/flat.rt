ghost use Rattle.std.specs.Prelude.{◌≡◌, ℕ, ◌+◌, ◌<◌, ◌≤◌, length, OnOk, IfOk};
ghost use Rattle.vmv_text.specs.declared.token.Token.TheVariants.{Named, AssertWord, RepeatWord, CloseBrace};
ghost use Rattle.vmv_text.specs.Reading.{ReadsWith, Any, StmtsTo};
ghost use Rattle.vmv_text.specs.Pieces.{IsPiece, IsPieceBehind, DoesOpen, opened, loops_with, nesting_with, TakesElse, GoesBehind};
ghost use Rattle.vmv_text.specs.Sizes.{AreSizes, HasSizes};

use crate::cursor::Cursor;
use crate::fault::Fault;
use crate::sizes::Sizes;
use crate::symbol::Symbol;
use crate::token::Token;
use std::alloc::{AllocError, Global};
use vmv_tree::Name;

/// What a statement has opened, up to its first block.
#[derive(Clone, Copy, PartialEq, Eq, Debug, Drop)]
pub(crate) enum Opens {
    Nothing,
    Choice,
    Loop,
}

/// A block that is open: the first one of an `if`, behind which an `else` may stand, or another.
#[derive(Clone, Copy, PartialEq, Eq, Debug, Drop)]
pub(crate) enum OpenBlock {
    First,
    Other,
}

/// The sizes with one more statement, which opens this, over the blocks that are open.
fn counted(blocks: &mut Vec<OpenBlock>, sizes: &Sizes, opens: Opens) -> Result<Sizes, AllocError>
    ensures blocks { IfOk result (λ all. blocks.new.items ≡ opened opens blocks.old.items) }
    ensures sizes { IfOk result (λ all. (l s n : ℕ) → AreSizes sizes.now l s n → AreSizes all (loops_with opens l) (1 + s) (nesting_with opens (length blocks.old.items + 1) n)) }
{
    match opens {
        Opens::Nothing => Ok(sizes.with_simple()),
        Opens::Choice => {
            blocks.push(OpenBlock::First)?;
            Ok(sizes.with_choice(blocks.len() as u64))
        }
        Opens::Loop => {
            blocks.push(OpenBlock::Other)?;
            Ok(sizes.with_loop(blocks.len() as u64))
        }
    }
}

impl Cursor<'_> {
    /// What an assignment has behind the assigned name, without its tree.
    fn flat_assignment(&mut self, alloc: Global, to: Name) -> Result<Opens, Fault>
        ensures { ReadsWith DoesOpen (IsPieceBehind (Named to)) Any result self.old self.new }
    {
        let _stmt = self.assignment(alloc, to)?;
        Ok(Opens::Nothing)
    }

    /// What an assert has behind its word, without its tree.
    fn flat_assertion(&mut self) -> Result<Opens, Fault>
        ensures { ReadsWith DoesOpen (IsPieceBehind AssertWord) Any result self.old self.new }
    {
        let _stmt = self.assertion()?;
        Ok(Opens::Nothing)
    }

    /// What a loop has behind its word, up to its body.
    fn loop_front(&mut self) -> Result<Opens, Fault>
        ensures { ReadsWith DoesOpen (IsPieceBehind RepeatWord) Any result self.old self.new }
    {
        let _turns = self.turns()?;
        self.expect(Symbol::OpenBrace)?;
        Ok(Opens::Loop)
    }

    /// A statement that has no block, or one up to its first block.
    fn piece(&mut self, alloc: Global) -> Result<Opens, Fault>
        ensures reads { ReadsWith DoesOpen IsPiece Any result self.old self.new }
        ensures shorter { OnOk result (length self.new < length self.old) }
    {
        let Some(first) = *self.peek() else {
            return Err(Fault::Syntax);
        };
        match first {
            Token::Named(to) => {
                self.skip();
                self.flat_assignment(alloc, to)
            }
            Token::AssertWord => {
                self.skip();
                self.flat_assertion()
            }
            Token::IfWord => {
                self.skip();
                self.choice_front()
            }
            Token::RepeatWord => {
                self.skip();
                self.loop_front()
            }
            _ => Err(Fault::Syntax),
        }
    }

    /// Takes `else` and the brace behind it, if it stands there.
    fn takes_else(&mut self) -> Result<bool, Fault>
        ensures takes { TakesElse result self.old self.new }
        ensures within { OnOk result (length self.new ≤ length self.old) }
    {
        if !self.takes(Symbol::ElseWord) {
            return Ok(false);
        }
        if !self.takes(Symbol::OpenBrace) {
            return Err(Fault::Syntax);
        }
        Ok(true)
    }

    /// Goes on behind a block that has ended.
    fn go_behind(&mut self, blocks: &mut Vec<OpenBlock>, closed: OpenBlock) -> Result<(), Fault>
        ensures goes { GoesBehind closed result blocks.old.items blocks.new.items self.old self.new }
        ensures within { OnOk result (length self.new ≤ length self.old) }
    {
        if closed == OpenBlock::Other {
            return Ok(());
        }
        if self.takes_else()? {
            blocks.push(OpenBlock::Other)?;
        }
        Ok(())
    }

    /// The statements of a block and its end, without their tree. They may stand in one another as deep as they do: the
    /// blocks that are open are in a list.
    pub(crate) fn flat(&mut self, alloc: Global) -> Result<Sizes, Fault>
        ensures reads { ReadsWith HasSizes (StmtsTo CloseBrace) Any result self.old self.new }
        ensures within { OnOk result (length self.new ≤ length self.old) }
    {
        let mut blocks = Vec::new(alloc);
        let mut sizes = Sizes::none();
        loop {
            if self.takes(Symbol::CloseBrace) {
                match blocks.pop() {
                    Some(closed) => self.go_behind(&mut blocks, closed)?,
                    None => return Ok(sizes),
                }
            } else {
                let opens = self.piece(alloc)?;
                sizes = counted(&mut blocks, &sizes, opens)?;
            }
        }
    }
}
