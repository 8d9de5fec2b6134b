ghost use Rattle.std.specs.Prelude.{◌≡◌, ◌↔◌, IsTrue};
ghost use Rattle.vmv_text.specs.Symbols.{as_token, symbol_in};

use crate::token::Token;

/// A token that the grammar asks for by itself: a keyword or a mark with one spelling.
#[derive(Clone, Copy, PartialEq, Eq, Debug)]
pub enum Symbol {
    Minus,
    Colon,
    Dots,
    Comma,
    Semicolon,
    Equals,
    OpenParen,
    CloseParen,
    OpenBrace,
    CloseBrace,
    ElseWord,
    ToWord,
    CapWord,
    VarWord,
    ReturnWord,
    AndWord,
    OrWord,
    NotWord,
    OpenBracket,
    CloseBracket,
}

/// The symbol that a token is.
fn symbol_of(token: &Token) -> Option<Symbol>
    ensures { result ≡ symbol_in token.now }
{
    match token {
        Token::Minus => Some(Symbol::Minus),
        Token::Colon => Some(Symbol::Colon),
        Token::Dots => Some(Symbol::Dots),
        Token::Comma => Some(Symbol::Comma),
        Token::Semicolon => Some(Symbol::Semicolon),
        Token::Equals => Some(Symbol::Equals),
        Token::OpenParen => Some(Symbol::OpenParen),
        Token::CloseParen => Some(Symbol::CloseParen),
        Token::OpenBrace => Some(Symbol::OpenBrace),
        Token::CloseBrace => Some(Symbol::CloseBrace),
        Token::ElseWord => Some(Symbol::ElseWord),
        Token::ToWord => Some(Symbol::ToWord),
        Token::CapWord => Some(Symbol::CapWord),
        Token::VarWord => Some(Symbol::VarWord),
        Token::ReturnWord => Some(Symbol::ReturnWord),
        Token::AndWord => Some(Symbol::AndWord),
        Token::OrWord => Some(Symbol::OrWord),
        Token::NotWord => Some(Symbol::NotWord),
        Token::OpenBracket => Some(Symbol::OpenBracket),
        Token::CloseBracket => Some(Symbol::CloseBracket),
        _ => None,
    }
}

/// Whether there is a token, and it is this one.
pub(crate) fn is_token(token: &Option<Token>, wanted: Symbol) -> bool
    ensures { IsTrue result ↔ (token.now ≡ Some (as_token wanted)) }
{
    let Some(token) = token else {
        return false;
    };
    let Some(symbol) = symbol_of(token) else {
        return false;
    };
    symbol == wanted
}
