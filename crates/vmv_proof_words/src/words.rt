ghost use Rattle.std.specs.Prelude.{◌≡◌, ◌↔◌, ◌≤◌, List, ◌∷◌, [], length, take, drop, IfSome, IfNone, IsTrue};
ghost use Rattle.std.specs.Bool.{OnTrue, OnFalse};
ghost use Rattle.vmv_witness.specs.Numbers.{IsNumber};
ghost use Rattle.vmv_witness.specs.Reading.{lacks};
ghost use Rattle.vmv_proof_words.specs.Words.{Word, words_of, words_behind};
ghost use Rattle.vmv_proof_words.specs.Taking.{IsNameWord, IsNaturalWord, IsEndWord, IsBoundWord, Takes, TakesLast, IsOneNumber};

use crate::number::{bound_of, count_of, end_of, is_number, natural_of};
use std::marker::Model;
use vmv_tree::Name;

/// How many bytes stand before the first space.
fn word_length(bytes: &[u8]) -> usize
    ensures within { result ≤ length bytes.now }
    ensures words { words_of bytes.now ≡ take result bytes.now ∷ words_behind (drop result bytes.now) }
{
    for (i, b) in bytes.iter().enumerate() {
        if *b == b' ' {
            return i;
        }
    }
    bytes.len()
}

/// The words that are left of a line. A contract sees it as their list.
#[derive(Drop)]
pub struct Words<'a> {
    left: &'a [u8],
}

impl<'a> Model for Words<'a> {
    ghost use Rattle.std.specs.Prelude.{List};
    ghost use Rattle.vmv_proof_words.specs.Words.{Word, words_behind};

    ghost Value = { List Word };

    ghost view = { λ words. words_behind words.left.now };
}

impl<'a> Words<'a> {
    /// The words behind the first, and `None` exactly where this isn't the first word of the line.
    pub fn behind(line: &'a [u8], word: &[u8]) -> Option<Words<'a>>
        requires { IsTrue (lacks 32 word.now) }
        ensures some { IfSome result (λ words. words_of line.now ≡ word.now ∷ words) }
        ensures none { IfNone result ((words : List Word) → words_of line.now ≡ word.now ∷ words → ⊥) }
    {
        let Some(left) = line.strip_prefix(word) else {
            return None;
        };
        match left {
            [] => Some(Words { left }),
            [b' ', ..] => Some(Words { left }),
            _ => None,
        }
    }

    /// Takes the next word.
    pub fn next_word(&mut self) -> Option<&'a [u8]>
        ensures some { IfSome result (λ word. self.old ≡ word.now ∷ self.new) }
        ensures none { IfNone result (self.old ≡ []) }
    {
        let [_, bytes @ ..] = self.left else {
            return None;
        };
        let length = word_length(bytes);
        self.left = &bytes[length..];
        Some(&bytes[..length])
    }

    /// Whether no word is left.
    pub fn is_done(&self) -> bool
        ensures { IsTrue result ↔ (self.now ≡ []) }
    {
        self.left.is_empty()
    }

    /// Takes the next word, and tells whether it is this one.
    pub fn takes(&mut self, word: &[u8]) -> bool
        ensures yes { OnTrue result (self.old ≡ word.now ∷ self.new) }
        ensures no { OnFalse result ((words : List Word) → self.old ≡ word.now ∷ words → ⊥) }
    {
        match self.next_word() {
            Some(next) => next == word,
            None => false,
        }
    }

    /// Takes a name.
    pub fn next_name(&mut self) -> Option<Name>
        ensures { Takes IsNameWord self.old self.new result }
    {
        let Some(word) = self.next_word() else {
            return None;
        };
        Name::read(word)
    }

    /// Takes a number of 32 bits.
    pub fn next_count(&mut self) -> Option<u32>
        ensures { Takes (IsNaturalWord 32) self.old self.new result }
    {
        let Some(word) = self.next_word() else {
            return None;
        };
        count_of(word)
    }

    /// Takes a number of 64 bits.
    pub fn next_natural(&mut self) -> Option<u64>
        ensures { Takes (IsNaturalWord 64) self.old self.new result }
    {
        let Some(word) = self.next_word() else {
            return None;
        };
        natural_of(word)
    }

    /// Takes an end of a range.
    pub fn next_end(&mut self) -> Option<i64>
        ensures { Takes IsEndWord self.old self.new result }
    {
        let Some(word) = self.next_word() else {
            return None;
        };
        end_of(word)
    }

    /// Takes a whole number from -2^64 to 2^64 - 1.
    pub fn next_bound(&mut self) -> Option<i128>
        ensures { Takes IsBoundWord self.old self.new result }
    {
        let Some(word) = self.next_word() else {
            return None;
        };
        bound_of(word)
    }

    /// Takes a number of any size.
    pub fn next_number(&mut self) -> Option<&'a [u8]>
        ensures some { IfSome result (λ word. IsNumber word.now × (self.old ≡ word.now ∷ self.new)) }
        ensures none { IfNone result ((word : Word) (words : List Word) → IsNumber word → self.old ≡ word ∷ words → ⊥) }
    {
        let Some(word) = self.next_word() else {
            return None;
        };
        if !is_number(word) {
            return None;
        }
        Some(word)
    }

    /// The number of 32 bits that the last word tells, where no other is left.
    pub fn last_count(&mut self) -> Option<u32>
        ensures { TakesLast (IsNaturalWord 32) self.old result }
    {
        let Some(count) = self.next_count() else {
            return None;
        };
        if !self.is_done() {
            return None;
        }
        Some(count)
    }

    /// Whether the last word is a number of any size, and no other is left.
    pub fn is_last_number(&mut self) -> bool
        ensures { IsTrue result ↔ IsOneNumber self.old }
    {
        let Some(_) = self.next_number() else {
            return false;
        };
        self.is_done()
    }
}
