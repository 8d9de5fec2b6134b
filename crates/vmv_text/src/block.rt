ghost use Rattle.std.specs.Prelude.{◌≡◌, ◌+◌, ◌⊎◌, ◌<◌, ◌≤◌, length, OnOk};
ghost use Rattle.vmv_text.specs.declared.token.Token.TheVariants.{IfWord, RepeatWord, CloseBrace, ReturnWord};
ghost use Rattle.vmv_text.specs.Grammar.{IsStmt};
ghost use Rattle.vmv_text.specs.Symbols.{as_token};
ghost use Rattle.vmv_text.specs.Reading.{Reads, ReadsWith, Any, NoElse, IsTurns, IsBehind, StmtsTo, IsBlock, IsElse};
ghost use Rattle.vmv_text.specs.Sizes.{IsBlockPart, IsStmtPart};

use crate::cursor::Cursor;
use crate::fault::Fault;
use crate::part::{BlockPart, StmtPart, chosen, repeated};
use crate::symbol::Symbol;
use crate::token::Token;
use std::alloc::Global;
use vmv_tree::{Block, Name, Operand};

impl Cursor<'_> {
    /// A block, in which so many more may stand in one another for a tree of it, itself counted.
    #[cycle(statements)]
    fn block(&mut self, alloc: Global, room: u8) -> Result<BlockPart, Fault>
        ensures { ReadsWith (IsBlockPart room) IsBlock Any result self.old self.new }
    {
        self.expect(Symbol::OpenBrace)?;
        if room == 0 {
            let sizes = self.flat(alloc)?;
            return Ok(BlockPart::Deep(sizes));
        }
        self.statements(alloc, Symbol::CloseBrace, room - 1)
    }

    /// The part behind `else`, which may be absent.
    #[cycle(statements)]
    fn else_part(&mut self, alloc: Global, room: u8) -> Result<BlockPart, Fault>
        ensures { ReadsWith (IsBlockPart room) IsElse NoElse result self.old self.new }
    {
        if self.takes(Symbol::ElseWord) {
            return self.block(alloc, room);
        }
        Ok(BlockPart::Tree(Block::new(alloc)))
    }

    /// What an `if` has behind its word.
    #[cycle(statements)]
    fn choice(&mut self, alloc: Global, room: u8) -> Result<StmtPart, Fault>
        ensures { ReadsWith (IsStmtPart (room + 1)) (IsBehind IfWord) NoElse result self.old self.new }
    {
        let test = self.test()?;
        let first = self.block(alloc, room)?;
        let second = self.else_part(alloc, room)?;
        Ok(chosen(test, first, second))
    }

    /// What a loop has behind its word, up to its body: its index, its bound and its cap.
    pub(crate) fn turns(&mut self) -> Result<(Name, (Operand, i64)), Fault>
        ensures { Reads IsTurns result self.old self.new }
    {
        let index = self.name()?;
        self.expect(Symbol::ToWord)?;
        let bound = self.operand()?;
        self.expect(Symbol::CapWord)?;
        let cap = self.small()?;
        Ok((index, (bound, cap)))
    }

    /// What a `repeat` has behind its word.
    #[cycle(statements)]
    fn repetition(&mut self, alloc: Global, room: u8) -> Result<StmtPart, Fault>
        ensures { ReadsWith (IsStmtPart (room + 1)) (IsBehind RepeatWord) Any result self.old self.new }
    {
        let turns = self.turns()?;
        let body = self.block(alloc, room)?;
        Ok(repeated(turns, body))
    }

    #[cycle(statements)]
    fn statement(&mut self, alloc: Global, room: u8) -> Result<StmtPart, Fault>
        ensures reads { ReadsWith (IsStmtPart (room + 1)) IsStmt NoElse result self.old self.new }
        ensures shorter { OnOk result (length self.new < length self.old) }
    {
        let Some(first) = *self.peek() else {
            return Err(Fault::Syntax);
        };
        match first {
            Token::Named(to) => {
                self.skip();
                self.set_part(alloc, to)
            }
            Token::AssertWord => {
                self.skip();
                self.assert_part()
            }
            Token::IfWord => {
                self.skip();
                self.choice(alloc, room)
            }
            Token::RepeatWord => {
                self.skip();
                self.repetition(alloc, room)
            }
            _ => Err(Fault::Syntax),
        }
    }

    /// Statements, and the token behind them. So many blocks may stand in one another in them for a tree.
    #[cycle(statements)]
    pub(crate) fn statements(
        &mut self,
        alloc: Global,
        last: Symbol,
        room: u8,
    ) -> Result<BlockPart, Fault>
        requires { (as_token last ≡ CloseBrace) ⊎ (as_token last ≡ ReturnWord) }
        ensures { ReadsWith (IsBlockPart (room + 1)) (StmtsTo (as_token last)) Any result self.old self.new }
    {
        let mut block = BlockPart::Tree(Block::new(alloc));
        loop {
            if self.takes(last) {
                return Ok(block);
            }
            let stmt = self.statement(alloc, room)?;
            block = block.with(stmt)?;
        }
    }
}
