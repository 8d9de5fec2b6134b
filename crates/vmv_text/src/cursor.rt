ghost use Rattle.std.specs.Prelude.{◌≡◌, ◌≤◌, ◌<◌, length, drop, IsTrue, OnOk};
ghost use Rattle.std.specs.Bool.{OnTrue};
ghost use Rattle.vmv_text.specs.Tokens.{placed_tokens, language_tokens};
ghost use Rattle.vmv_text.specs.Faults.{left_from};
ghost use Rattle.vmv_text.specs.Symbols.{as_token};
ghost use Rattle.vmv_text.specs.Reading.{Reads, Tests, IsToken, IsFront, first_of};

use crate::fault::Fault;
use crate::language::Language;
use crate::lexer::{behind_gap, spoken, token_at};
use crate::symbol::{Symbol, is_token};
use crate::token::Token;
use std::marker::Model;

/// The next token of a text, with the text from it on and the text behind it.
#[derive(Clone, Copy, Drop)]
struct Front<'a> {
    token: Option<Token>,
    from: &'a [u8],
    behind: &'a [u8],
}

/// Reads the next token.
fn lexed(language: Language, text: &[u8]) -> Front<'_>
    ensures { IsFront language text.now result.token result.from.now result.behind.now }
{
    let from = behind_gap(text);
    if from.is_empty() {
        return Front {
            token: None,
            from,
            behind: from,
        };
    }
    let (token, len) = token_at(from);
    let (_own, behind) = from.split_at(len);
    Front {
        token: Some(spoken(language, token, from)),
        from,
        behind,
    }
}

/// What is left of a text, which is read token by token. The next token is known, so that each is read once. A contract
/// sees it as the tokens that are left, with their places.
#[derive(Drop)]
pub struct Cursor<'a> {
    language: Language,
    front: Front<'a>,
}

impl<'a> Model for Cursor<'a> {
    ghost use Rattle.std.specs.Prelude.{List};
    ghost use Rattle.vmv_text.specs.Tokens.{Placed};
    ghost use Rattle.vmv_text.specs.Reading.{front_tokens, IsEnd};

    ghost Value = { List Placed };

    ghost view = { λ c. front_tokens c.language c.front.token c.front.from.now c.front.behind.now };

    ghost invariant = { λ c. IsEnd c.front.token c.front.from.now c.front.behind.now };
}

impl<'a> Cursor<'a> {
    pub(crate) fn new(text: &'a [u8]) -> Cursor<'a>
        ensures { result ≡ placed_tokens text.now }
    {
        Cursor::in_language(Language::Core, text)
    }

    /// The tokens of a text of this language.
    pub fn in_language(language: Language, text: &'a [u8]) -> Cursor<'a>
        ensures { result ≡ language_tokens language text.now }
    {
        Cursor {
            language,
            front: lexed(language, text),
        }
    }
}

impl Cursor<'_> {
    /// The next token, which stays.
    pub fn peek(&self) -> &Option<Token>
        ensures { result.now ≡ first_of self.now }
    {
        &self.front.token
    }

    /// Leaves out the next token.
    pub fn skip(&mut self)
        ensures exact { self.new ≡ drop 1 self.old }
        ensures shorter { 0 < length self.old → length self.new < length self.old }
    {
        self.front = lexed(self.language, self.front.behind);
    }

    /// How many bytes are left from the next token on.
    pub fn left(&self) -> usize
        ensures { result ≡ length (left_from self.now) }
    {
        self.front.from.len()
    }

    /// Takes the next token, which must be this one.
    pub fn expect(&mut self, wanted: Symbol) -> Result<(), Fault>
        ensures reads { Reads (IsToken (as_token wanted)) result self.old self.new }
        ensures shorter { OnOk result (length self.new < length self.old) }
    {
        if self.takes(wanted) {
            Ok(())
        } else {
            Err(Fault::Syntax)
        }
    }

    /// Takes the next token, if it is this one.
    pub fn takes(&mut self, wanted: Symbol) -> bool
        ensures tests { Tests (as_token wanted) result self.old self.new }
        ensures shorter { OnTrue result (length self.new < length self.old) }
        ensures within { length self.new ≤ length self.old }
    {
        if is_token(self.peek(), wanted) {
            self.skip();
            true
        } else {
            false
        }
    }
}
