use crate::sheet::Sheet;
use std::alloc::Global;
use std::str;

/// What stands before the first blank of a line, and what stands behind it.
pub fn cut(line: &[u8]) -> (&[u8], &[u8]) {
    match line.iter().position(|byte| *byte == b' ') {
        Some(at) => (&line[..at], &line[at + 1..]),
        None => (line, b"".as_slice()),
    }
}

/// A line from word number `place` on, where the first word has number 0; nothing where it has no such word.
pub fn tail(line: &[u8], place: u32) -> &[u8] {
    let mut rest = line;
    for _ in 0..place {
        rest = cut(rest).1;
    }
    rest
}

/// Word number `place` of a line, where the first has number 0; nothing where the line has no such word.
pub fn word(line: &[u8], place: u32) -> &[u8] {
    cut(tail(line, place)).0
}

/// The number that a word writes in decimal digits, with a sign or not.
pub fn number(word: &[u8]) -> Option<i64> {
    str::from_utf8(word).ok()?.parse::<i64>().ok()
}

/// The numbers that the words of a line write. A word that isn't a number is refused on the sheet, and left out.
pub fn numbers(alloc: Global, line: &[u8], sheet: &mut Sheet) -> Vec<i64> {
    let mut numbers = Vec::new(alloc);
    for word in line.split(|byte| *byte == b' ') {
        match number(word) {
            Some(number) => {
                if numbers.push(number).is_err() {
                    sheet.fall_short();
                }
            }
            None if word.is_empty() => {}
            None => sheet.refuse(),
        }
    }
    numbers
}
