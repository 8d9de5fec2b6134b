use std::str;

/// The number from 0 to 255 that a word writes in decimal digits.
pub fn small(word: &[u8]) -> Option<u8> {
    str::from_utf8(word).ok()?.parse::<u8>().ok()
}

/// The number that a word writes in decimal digits, with a sign or not. Bounds on differences of words take more than 64 bits.
pub fn wide(word: &[u8]) -> Option<i128> {
    str::from_utf8(word).ok()?.parse::<i128>().ok()
}
