ghost use Rattle.std.specs.Prelude.{◌≡◌, ◌<◌, ◌≤◌, length, drop, take, take_while, false, ◌++◌, Some, [], ◌∷◌, IsTrue, IsSome};
ghost use Rattle.std.specs.List.{prefix_len, list_all};
ghost use Rattle.vmv_tree.specs.Names.{is_letter, is_digit, is_name_byte, first_is_letter};
ghost use Rattle.vmv_text.specs.Tokens.{is_white, after_gap, number_of, number_token, word_token, mark_token, token_at, spelled, item_words, stmt_words, loop_words, keywords, pairs, marks, connectives, begins_as_temporary, surface_word, surface_mark, surface_token, token_in};

use crate::language::Language;
use crate::token::{Small, Token};
use vmv_tree::Name;

/// A number above it gets too large by one more digit.
const MOST_TENTH: u64 = 922_337_203_685_477_580;

fn is_letter(b: u8) -> bool
    ensures { result ≡ is_letter b }
{
    b.is_ascii_uppercase() || b.is_ascii_lowercase() || b == b'_'
}

fn is_name_byte(b: u8) -> bool
    ensures { result ≡ is_name_byte b }
{
    is_letter(b) || b.is_ascii_digit()
}

fn is_white(b: u8) -> bool
    ensures { result ≡ is_white b }
{
    b == b' ' || b == b'\t' || b == b'\r' || b == b'\n'
}

/// How many bytes stand before the next token.
fn gap_len(text: &[u8]) -> usize
    ensures within { result ≤ length text.now }
    ensures gap { drop result text.now ≡ after_gap false text.now }
{
    let mut in_comment = false;
    for i in 0..text.len() {
        if in_comment {
            in_comment = text[i] != b'\n';
        } else if !is_white(text[i]) {
            if text[i] != b'/' || i + 1 == text.len() || text[i + 1] != b'/' {
                return i;
            }
            in_comment = true;
        }
    }
    text.len()
}

/// The text from the next token on.
pub(crate) fn behind_gap(text: &[u8]) -> &[u8]
    ensures exact { result.now ≡ after_gap false text.now }
    ensures within { length result.now ≤ length text.now }
{
    let (_gap, rest) = text.split_at(gap_len(text));
    rest
}

fn word_len(text: &[u8]) -> usize
    ensures { result ≡ prefix_len is_name_byte text.now }
{
    for i in 0..text.len() {
        if !is_name_byte(text[i]) {
            return i;
        }
    }
    text.len()
}

fn digits_len(text: &[u8]) -> usize
    ensures { result ≡ prefix_len is_digit text.now }
{
    for i in 0..text.len() {
        if !text[i].is_ascii_digit() {
            return i;
        }
    }
    text.len()
}

fn item_word(word: &[u8]) -> Option<Token>
    ensures { result ≡ spelled item_words word.now }
{
    if word == b"outside".as_slice() {
        return Some(Token::OutsideWord);
    }
    if word == b"helper".as_slice() {
        return Some(Token::HelperWord);
    }
    if word == b"entry".as_slice() {
        return Some(Token::EntryWord);
    }
    if word == b"var".as_slice() {
        return Some(Token::VarWord);
    }
    None
}

fn stmt_word(word: &[u8]) -> Option<Token>
    ensures { result ≡ spelled stmt_words word.now }
{
    if word == b"return".as_slice() {
        return Some(Token::ReturnWord);
    }
    if word == b"assert".as_slice() {
        return Some(Token::AssertWord);
    }
    if word == b"if".as_slice() {
        return Some(Token::IfWord);
    }
    if word == b"else".as_slice() {
        return Some(Token::ElseWord);
    }
    None
}

fn loop_word(word: &[u8]) -> Option<Token>
    ensures { result ≡ spelled loop_words word.now }
{
    if word == b"repeat".as_slice() {
        return Some(Token::RepeatWord);
    }
    if word == b"to".as_slice() {
        return Some(Token::ToWord);
    }
    if word == b"cap".as_slice() {
        return Some(Token::CapWord);
    }
    None
}

fn keyword(word: &[u8]) -> Option<Token>
    ensures { result ≡ spelled keywords word.now }
{
    if let Some(token) = item_word(word) {
        return Some(token);
    }
    if let Some(token) = stmt_word(word) {
        return Some(token);
    }
    loop_word(word)
}

fn pair(text: &[u8]) -> Option<Token>
    ensures exact { result ≡ spelled pairs (take 2 text.now) }
    ensures within { IsSome result → 2 ≤ length text.now }
{
    if text.len() < 2 {
        return None;
    }
    match (text[0], text[1]) {
        (b'.', b'.') => Some(Token::Dots),
        (b'=', b'=') => Some(Token::DoubleEquals),
        (b'!', b'=') => Some(Token::NotEquals),
        (b'<', b'=') => Some(Token::LessOrEqual),
        (b'>', b'=') => Some(Token::GreaterOrEqual),
        _ => None,
    }
}

fn mark(b: u8) -> Option<Token>
    ensures { result ≡ spelled marks (b ∷ []) }
{
    match b {
        b'(' => Some(Token::OpenParen),
        b')' => Some(Token::CloseParen),
        b'{' => Some(Token::OpenBrace),
        b'}' => Some(Token::CloseBrace),
        b',' => Some(Token::Comma),
        b';' => Some(Token::Semicolon),
        b':' => Some(Token::Colon),
        b'=' => Some(Token::Equals),
        b'+' => Some(Token::Plus),
        b'-' => Some(Token::Minus),
        b'*' => Some(Token::Star),
        b'/' => Some(Token::Slash),
        b'%' => Some(Token::Percent),
        b'<' => Some(Token::LessThan),
        b'>' => Some(Token::GreaterThan),
        _ => None,
    }
}

/// A run of digits as a number: small, edge, or bad where it is larger.
fn number(digits: &[u8]) -> Token
    ensures { result ≡ number_token (number_of digits.now) }
{
    let mut value: u64 = 0;
    for digit in digits {
        if value > MOST_TENTH {
            return Token::Bad;
        }
        value = value * 10 + u64::from(digit.saturating_sub(b'0'));
    }
    match Small::new(value) {
        Some(small) => Token::Number(small),
        None if value == 1 << 63 => Token::Edge,
        None => Token::Bad,
    }
}

/// A keyword, or else a name of at most 64 bytes.
fn word(bytes: &[u8]) -> Token
    requires letter { IsTrue (first_is_letter bytes.now) }
    requires run { IsTrue (list_all is_name_byte bytes.now) }
    ensures { result ≡ word_token bytes.now }
{
    match keyword(bytes) {
        Some(token) => token,
        None => match Name::read(bytes) {
            Some(name) => Token::Named(name),
            None => Token::Bad,
        },
    }
}

fn symbol(text: &[u8]) -> (Token, usize)
    requires { 0 < length text.now }
    ensures exact { result ≡ mark_token text.now }
    ensures within { result.1 ≤ length text.now }
{
    if let Some(token) = pair(text) {
        return (token, 2);
    }
    match mark(text[0]) {
        Some(token) => (token, 1),
        None => (Token::Bad, 1),
    }
}

/// The longest token that the text begins with, and its length in bytes.
pub(crate) fn token_at(text: &[u8]) -> (Token, usize)
    requires { 0 < length text.now }
    ensures exact { result ≡ token_at text.now }
    ensures within { result.1 ≤ length text.now }
{
    if is_letter(text[0]) {
        let len = word_len(text);
        return (word(&text[..len]), len);
    }
    if text[0].is_ascii_digit() {
        let len = digits_len(text);
        return (number(&text[..len]), len);
    }
    symbol(text)
}

fn connective(word: &[u8]) -> Option<Token>
    ensures { result ≡ spelled connectives word.now }
{
    if word == b"and".as_slice() {
        return Some(Token::AndWord);
    }
    if word == b"or".as_slice() {
        return Some(Token::OrWord);
    }
    if word == b"not".as_slice() {
        return Some(Token::NotWord);
    }
    None
}

fn begins_as_temporary(bytes: &[u8]) -> bool
    ensures { result ≡ begins_as_temporary bytes.now }
{
    match bytes {
        [first, second, ..] => *first == b'_' && *second == b'_',
        _ => false,
    }
}

/// What a name is in a text of the surface language.
fn surface_word(name: Name) -> Token
    ensures { result ≡ surface_word name }
{
    match connective(name.bytes()) {
        Some(token) => token,
        None if begins_as_temporary(name.bytes()) => Token::Bad,
        None => Token::Named(name),
    }
}

/// What a bad byte is there.
fn surface_mark(from: &[u8]) -> Token
    ensures { result ≡ surface_mark from.now }
{
    match from {
        [b'[', ..] => Token::OpenBracket,
        [b']', ..] => Token::CloseBracket,
        _ => Token::Bad,
    }
}

fn surface_token(token: Token, from: &[u8]) -> Token
    ensures { result ≡ surface_token token from.now }
{
    match token {
        Token::Named(name) => surface_word(name),
        Token::Bad => surface_mark(from),
        other => other,
    }
}

/// What a token is in a text of this language, from whose first byte on the text is this.
pub(crate) fn spoken(language: Language, token: Token, from: &[u8]) -> Token
    ensures { result ≡ token_in language token from.now }
{
    match language {
        Language::Core => token,
        Language::Surface => surface_token(token, from),
    }
}
