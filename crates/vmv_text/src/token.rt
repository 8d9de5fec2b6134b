ghost use Rattle.std.specs.Prelude.{◌≡◌, ◌<◌, ◌^◌, pos, neg_ℤ};
ghost use Rattle.std.specs.Option.{SomeIff};

use std::marker::Model;
use vmv_tree::Name;

/// A number from 0 to 2^63 - 1.
#[derive(Clone, Copy, PartialEq, Eq, Debug)]
pub struct Small {
    value: u64,
}

impl Model for Small {
    ghost use Rattle.std.specs.Prelude.{ℕ, ◌<◌, ◌^◌};

    ghost Value = { ℕ };

    ghost view = { λ s. s.value };

    ghost invariant = { λ s. s.value < 2 ^ 63 };

    ghost inverse = { λ v. record { value = v } };
}

impl Small {
    pub(crate) fn new(value: u64) -> Option<Small>
        ensures { SomeIff result (value < 2 ^ 63) value }
    {
        if value < 1 << 63 {
            Some(Small { value })
        } else {
            None
        }
    }

    /// The number as a word.
    pub fn word(&self) -> i64
        ensures { result ≡ pos self.now }
    {
        self.value as i64
    }

    /// The number with the other sign.
    pub fn negated(&self) -> i64
        ensures { result ≡ neg_ℤ (pos self.now) }
    {
        -(self.value as i64)
    }
}

/// A token of a program's text.
#[derive(Clone, Copy, PartialEq, Eq, Debug)]
pub enum Token {
    Named(Name),
    Number(Small),
    Edge,
    Bad,
    OutsideWord,
    HelperWord,
    EntryWord,
    VarWord,
    ReturnWord,
    AssertWord,
    IfWord,
    ElseWord,
    RepeatWord,
    ToWord,
    CapWord,
    Dots,
    DoubleEquals,
    NotEquals,
    LessOrEqual,
    GreaterOrEqual,
    OpenParen,
    CloseParen,
    OpenBrace,
    CloseBrace,
    Comma,
    Semicolon,
    Colon,
    Equals,
    Plus,
    Minus,
    Star,
    Slash,
    Percent,
    LessThan,
    GreaterThan,
    // These five stand in texts of the surface language alone.
    AndWord,
    OrWord,
    NotWord,
    OpenBracket,
    CloseBracket,
}
