//! What the words of a line write.

use vmv_cases::{number, word};
use vmv_keeper::Label;

/// The label that word number `place` of a line writes.
pub fn label(line: &[u8], place: u32) -> Option<Label> {
    Label::read(word(line, place))
}

/// A number of 32 bits.
pub fn size(word: &[u8]) -> Option<u32> {
    u32::try_from(number(word)?).ok()
}

/// What stands before and behind the first `=` of a line.
pub fn halves(line: &[u8]) -> (&[u8], &[u8]) {
    match line.iter().position(|byte| *byte == b'=') {
        Some(at) => (&line[..at], &line[at + 1..]),
        None => (line, b"".as_slice()),
    }
}
