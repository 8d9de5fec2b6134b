ghost use Rattle.std.specs.Prelude.{◌<◌, IfSome};

use crate::sheet::Sheet;
use crate::words::{cut, number, tail, word};

/// The value of a hexadecimal digit.
fn digit(byte: u8) -> Option<u8>
    ensures { IfSome result (λ value. value < 16) }
{
    match byte {
        b'0'..=b'9' => Some(byte - b'0'),
        b'a'..=b'f' => Some(byte - b'a' + 10),
        _ => None,
    }
}

/// The byte that two hexadecimal digits write.
fn byte(word: &[u8]) -> Option<u8> {
    match word {
        [high, low] => Some(digit(*high)? * 16 + digit(*low)?),
        _ => None,
    }
}

/// Adds the bytes that words write in hexadecimal, and no end of a line.
fn add_bytes(text: &mut Sheet, words: &[u8]) -> bool {
    for word in words.split(|byte| *byte == b' ') {
        match byte(word) {
            Some(byte) => text.put(&[byte]),
            None => return false,
        }
    }
    true
}

/// Adds a piece so many times in one line.
fn add_repeated(text: &mut Sheet, count: i64, piece: &[u8]) {
    for _ in 0..count {
        text.put(piece);
    }
    text.put(b"\n");
}

/// Adds a line so many times, with its number from 0 for each `@`.
fn add_lines(text: &mut Sheet, count: i64, line: &[u8]) {
    for number in 0..count {
        add_numbered(text, number, line);
    }
}

/// Adds a line with a number for each `@`.
fn add_numbered(text: &mut Sheet, number: i64, line: &[u8]) {
    for byte in line {
        if *byte == b'@' {
            text.show(&number);
        } else {
            text.put(&[*byte]);
        }
    }
    text.put(b"\n");
}

/// Adds what `COUNT PIECE` says behind a mark that repeats.
fn add_counted(text: &mut Sheet, mark: &[u8], rest: &[u8]) -> bool {
    let (word, piece) = cut(rest);
    let Some(count) = number(word) else {
        return false;
    };
    if mark == b"\\lines".as_slice() {
        add_lines(text, count, piece);
    } else {
        add_repeated(text, count, piece);
    }
    true
}

/// Adds what a line with a mark stands for.
fn add_marked(text: &mut Sheet, line: &[u8]) -> bool {
    let (mark, rest) = cut(line);
    if mark == b"\\end".as_slice() {
        text.join_line();
        true
    } else if mark == b"\\text".as_slice() {
        text.line(rest);
        true
    } else if mark == b"\\hex".as_slice() {
        add_bytes(text, rest)
    } else if mark == b"\\lines".as_slice() || mark == b"\\repeat".as_slice() {
        add_counted(text, mark, rest)
    } else {
        false
    }
}

/// Adds a line to a text, as it is or as its mark says. Answers whether the line can be read.
pub fn add_line(text: &mut Sheet, line: &[u8]) -> bool {
    if line.first() == Some(&b'\\') {
        add_marked(text, line)
    } else {
        text.line(line);
        true
    }
}
