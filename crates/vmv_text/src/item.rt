ghost use Rattle.std.specs.Prelude.{◌≡◌, ◌<◌, List, ◌++◌, length, OnOk};
ghost use Rattle.vmv_tree.specs.View.{item_of};
ghost use Rattle.vmv_tree.specs.Tree.{Item as tree_item};
ghost use Rattle.vmv_tree.specs.Deep.{HasCounts};
ghost use Rattle.vmv_text.specs.declared.token.Token.TheVariants.{OutsideWord, HelperWord, EntryWord};
ghost use Rattle.vmv_text.specs.Grammar.{IsVars, IsBody, IsItem};
ghost use Rattle.vmv_text.specs.Reading.{ReadsAs, ReadsWith, ReadsProgram, Any, NoVar, IsItemBehind};
ghost use Rattle.vmv_text.specs.Parts.{IsBodyPart, IsItemPart, IsParsed};

use crate::cursor::Cursor;
use crate::fault::Fault;
use crate::item_part::{BodyPart, ItemPart, Parsed, entry_part, helper_part, no_items, with_item};
use crate::symbol::Symbol;
use crate::token::Token;
use std::alloc::Global;
use vmv_tree::{DeepProgram, Item, ItemCounts, Items, Names, Program};

/// How deep blocks may stand in one another in a procedure.
const MOST_NESTED: u8 = 8;

impl Cursor<'_> {
    /// The variables that a body declares.
    pub fn vars(&mut self, alloc: Global) -> Result<Names, Fault>
        ensures { ReadsAs (λ xs. xs) IsVars NoVar result self.old self.new }
    {
        if self.takes(Symbol::VarWord) {
            return self.names_to(alloc, Symbol::Semicolon);
        }
        Ok(Names::new(alloc))
    }

    fn body(&mut self, alloc: Global) -> Result<BodyPart, Fault>
        ensures { ReadsWith IsBodyPart IsBody Any result self.old self.new }
    {
        self.expect(Symbol::OpenBrace)?;
        let vars = self.vars(alloc)?;
        let block = self.statements(alloc, Symbol::ReturnWord, MOST_NESTED)?;
        let output = self.operand()?;
        self.expect(Symbol::Semicolon)?;
        self.expect(Symbol::CloseBrace)?;
        Ok(BodyPart {
            vars,
            block,
            result: output,
        })
    }

    /// What an outside function has behind its word.
    pub fn outside(&mut self) -> Result<Item, Fault>
        ensures { ReadsAs item_of (IsItemBehind OutsideWord) Any result self.old self.new }
    {
        let name = self.name()?;
        self.expect(Symbol::OpenParen)?;
        let arity = self.small()?;
        self.expect(Symbol::CloseParen)?;
        self.expect(Symbol::Semicolon)?;
        Ok(Item::Outside { name, arity })
    }

    /// The same as it was read.
    fn outside_part(&mut self) -> Result<ItemPart, Fault>
        ensures { ReadsWith IsItemPart (IsItemBehind OutsideWord) Any result self.old self.new }
    {
        let item = self.outside()?;
        Ok(ItemPart::Tree(item))
    }

    /// What a helper has behind its word.
    fn helper(&mut self, alloc: Global) -> Result<ItemPart, Fault>
        ensures { ReadsWith IsItemPart (IsItemBehind HelperWord) Any result self.old self.new }
    {
        let name = self.name()?;
        self.expect(Symbol::OpenParen)?;
        let params = self.names(alloc)?;
        let body = self.body(alloc)?;
        Ok(helper_part(name, params, body))
    }

    /// What an entry has behind its word.
    fn entry(&mut self, alloc: Global) -> Result<ItemPart, Fault>
        ensures { ReadsWith IsItemPart (IsItemBehind EntryWord) Any result self.old self.new }
    {
        let name = self.name()?;
        self.expect(Symbol::OpenParen)?;
        let params = self.params(alloc)?;
        let body = self.body(alloc)?;
        Ok(entry_part(name, params, body))
    }

    fn item(&mut self, alloc: Global) -> Result<ItemPart, Fault>
        ensures reads { ReadsWith IsItemPart IsItem Any result self.old self.new }
        ensures shorter { OnOk result (length self.new < length self.old) }
    {
        let Some(word) = *self.peek() else {
            return Err(Fault::Syntax);
        };
        match word {
            Token::OutsideWord => {
                self.skip();
                self.outside_part()
            }
            Token::HelperWord => {
                self.skip();
                self.helper(alloc)
            }
            Token::EntryWord => {
                self.skip();
                self.entry(alloc)
            }
            _ => Err(Fault::Syntax),
        }
    }

    /// The items that are left, counted behind those that were.
    fn items_below(&mut self, alloc: Global, counts: ItemCounts) -> Result<ItemCounts, Fault>
        ensures { ReadsProgram (λ all items. (above : List tree_item) → HasCounts counts above → HasCounts all (above ++ items)) result self.old self.new }
    {
        let mut all = counts;
        loop {
            if self.peek().is_none() {
                return Ok(all);
            }
            let item = self.item(alloc)?;
            all = with_item(&all, &item);
        }
    }

    /// All items of a text. Behind the first that has no tree they are only counted.
    pub(crate) fn items(&mut self, alloc: Global) -> Result<Parsed, Fault>
        ensures { ReadsProgram IsParsed result self.old self.new }
    {
        let mut counts = no_items();
        let mut items = Items::new(alloc);
        loop {
            if self.peek().is_none() {
                return Ok(Parsed::Whole(Program { items }));
            }
            let part = self.item(alloc)?;
            counts = with_item(&counts, &part);
            match part {
                ItemPart::Tree(item) => items.push(item)?,
                ItemPart::Deep(deep) => {
                    let counts = self.items_below(alloc, counts)?;
                    return Ok(Parsed::Deep(DeepProgram {
                        above: items,
                        deep,
                        counts,
                    }));
                }
            }
        }
    }
}
