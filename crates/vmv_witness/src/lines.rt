ghost use Rattle.std.specs.Prelude.{◌≡◌, ◌↔◌, ◌+◌, ◌<◌, ◌^◌, ◌++◌, ◌∷◌, [], IfSome, IfNone, IfOk, IfErr, IsTrue};
ghost use Rattle.std.specs.Bool.{OnTrue, OnFalse};
ghost use Rattle.std.specs.Fmt.{decimal, signed_decimal};
ghost use Rattle.vmv_witness.specs.Numbers.{IsSiteNumber, IsValue};
ghost use Rattle.vmv_witness.specs.Reading.{lacks, SplitsAt, ReadsPair, NoWord, NoLine, TakesEntry, TakesSite, TakesPair, TakesEnd};

use crate::fault::{Ill, WitnessFault};
use crate::number::{site_number_of, value_of};
use std::marker::Model;
use vmv_tree::{Name, NamedSite};

/// The bytes before the first that is this one, and those behind it.
fn split_at_first(bytes: &[u8], byte: u8) -> Option<(&[u8], &[u8])>
    ensures some { IfSome result (λ parts. SplitsAt byte bytes.now parts.0.now parts.1.now) }
    ensures none { IfNone result (IsTrue (lacks byte bytes.now)) }
{
    for (i, b) in bytes.iter().enumerate() {
        if *b == byte {
            return Some((&bytes[..i], &bytes[i + 1..]));
        }
    }
    None
}

/// A name, a space and a word.
fn value_pair(bytes: &[u8]) -> Result<(Name, i64), Ill>
    ensures { ReadsPair 32 (λ p. p.0) (λ p. signed_decimal p.1) IsValue bytes.now result }
{
    let Some((name, number)) = split_at_first(bytes, b' ') else {
        return Err(Ill::Form);
    };
    let Some(name) = Name::read(name) else {
        return Err(Ill::Form);
    };
    match value_of(number) {
        Ok(value) => Ok((name, value)),
        Err(ill) => Err(ill),
    }
}

/// A name, `#` and a number.
fn site_pair(bytes: &[u8]) -> Result<NamedSite, Ill>
    ensures { ReadsPair 35 (λ s. s.proc) (λ s. decimal s.index) IsSiteNumber bytes.now result }
{
    let Some((name, number)) = split_at_first(bytes, b'#') else {
        return Err(Ill::Form);
    };
    let Some(proc) = Name::read(name) else {
        return Err(Ill::Form);
    };
    match site_number_of(number) {
        Ok(index) => Ok(NamedSite { proc, index }),
        Err(ill) => Err(ill),
    }
}

/// What is left of a text, which is read line by line.
#[derive(Drop)]
pub(crate) struct Lines<'a> {
    left: &'a [u8],
}

impl<'a> Model for Lines<'a> {
    ghost use Rattle.std.specs.Prelude.{ℕ, List};

    ghost Value = { List ℕ };

    ghost view = { λ lines. lines.left.now };
}

impl<'a> Lines<'a> {
    pub(crate) fn new(text: &'a [u8]) -> Lines<'a>
        ensures { result ≡ text.now }
    {
        Lines { left: text }
    }

    /// Takes the next line, if it begins with this word, and gives what is behind the word.
    fn take_behind(&mut self, word: &[u8]) -> Option<&'a [u8]>
        requires { IsTrue (lacks 10 word.now) }
        ensures some { IfSome result (λ bytes. SplitsAt 10 self.old (word.now ++ bytes.now) self.new) }
        ensures none { IfNone result ((self.new ≡ self.old) × NoWord word.now self.old) }
    {
        let Some((line, left)) = split_at_first(self.left, b'\n') else {
            return None;
        };
        let Some(bytes) = line.strip_prefix(word) else {
            return None;
        };
        self.left = left;
        Some(bytes)
    }

    /// Takes this line, if it stands next.
    pub(crate) fn take_line(&mut self, line: &[u8]) -> bool
        requires { IsTrue (lacks 10 line.now) }
        ensures some { OnTrue result (self.old ≡ line.now ++ 10 ∷ self.new) }
        ensures none { OnFalse result (NoLine line.now self.old) }
    {
        let Some(bytes) = self.take_behind(line) else {
            return false;
        };
        match bytes {
            [] => true,
            [_, ..] => false,
        }
    }

    /// Takes the line of an entry, which is the second.
    pub(crate) fn take_entry(&mut self) -> Result<Name, WitnessFault>
        ensures { TakesEntry self.old self.new result }
    {
        let Some(bytes) = self.take_behind(b"entry ") else {
            return Err(WitnessFault::Syntax { line: 2 });
        };
        let Some(name) = Name::read(bytes) else {
            return Err(WitnessFault::Syntax { line: 2 });
        };
        Ok(name)
    }

    /// Takes the line of a site, which is the third.
    pub(crate) fn take_site(&mut self) -> Result<NamedSite, WitnessFault>
        ensures { TakesSite self.old self.new result }
    {
        let Some(bytes) = self.take_behind(b"site ") else {
            return Err(WitnessFault::Syntax { line: 3 });
        };
        match site_pair(bytes) {
            Ok(site) => Ok(site),
            Err(ill) => Err(ill.at(3)),
        }
    }

    /// Takes a line of this word, a name and a word, if one stands next.
    pub(crate) fn take_pair(&mut self, word: &[u8]) -> Result<Option<(Name, i64)>, Ill>
        requires { IsTrue (lacks 10 word.now) }
        ensures { TakesPair word.now self.old self.new result }
    {
        let Some(bytes) = self.take_behind(word) else {
            return Ok(None);
        };
        match value_pair(bytes) {
            Ok(pair) => Ok(Some(pair)),
            Err(ill) => Err(ill),
        }
    }

    fn is_at_end(&self) -> bool
        ensures { IsTrue result ↔ (self.now ≡ []) }
    {
        self.left.is_empty()
    }

    /// Takes the last line, which is that of this number.
    pub(crate) fn take_end(&mut self, line: usize) -> Result<(), WitnessFault>
        requires { line + 1 < 2 ^ 32 }
        ensures { TakesEnd line self.old result }
    {
        if !self.take_line(b"end") {
            return Err(Ill::Form.at(line));
        }
        if self.is_at_end() {
            return Ok(());
        }
        Err(Ill::Form.at(line + 1))
    }
}
