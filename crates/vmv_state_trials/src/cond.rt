use crate::words::{put_answer, put_words};
use vmv_cases::{Sheet, number, word};
use vmv_cond::{Cond, Piece};
use vmv_state_texts::read_cond;

/// A condition, or nothing where it can't be read.
fn cond_of(words: &[u8], sheet: &mut Sheet) -> Option<Cond> {
    let cond = read_cond(words);
    if cond.is_none() {
        sheet.refuse();
    }
    cond
}

/// A piece of the words: `below W`, `above W` or `zero`.
pub fn read_piece(words: &[u8]) -> Option<Piece> {
    let first = word(words, 0);
    if first == b"zero".as_slice() {
        return Some(Piece::Zero);
    }
    let end = number(word(words, 1))?;
    if first == b"below".as_slice() {
        Some(Piece::Below(end))
    } else if first == b"above".as_slice() {
        Some(Piece::Above(end))
    } else {
        None
    }
}

/// `? words COND`: what a condition holds.
pub fn words(rest: &[u8], sheet: &mut Sheet) {
    let Some(cond) = cond_of(rest, sheet) else {
        return;
    };
    put_words(cond, sheet);
    sheet.line(b"");
}

/// `? nearest COND`: the word of a condition that is nearest to 0.
pub fn nearest(rest: &[u8], sheet: &mut Sheet) {
    let Some(cond) = cond_of(rest, sheet) else {
        return;
    };
    match cond.nearest() {
        Some(word) => sheet.show(&word),
        None => sheet.put(b"none"),
    }
    sheet.line(b"");
}

/// `? holds W`: whether the condition of the last text holds a word.
pub fn holds(text: &[u8], rest: &[u8], sheet: &mut Sheet) {
    let Some(cond) = cond_of(text, sheet) else {
        return;
    };
    match number(rest) {
        Some(word) => put_answer(cond.holds(word), sheet),
        None => sheet.refuse(),
    }
}

/// `? meet COND`: the words that the condition of the last text and another one hold.
pub fn meet(text: &[u8], rest: &[u8], sheet: &mut Sheet) {
    let (Some(cond), Some(other)) = (read_cond(text), read_cond(rest)) else {
        sheet.refuse();
        return;
    };
    put_words(cond.meet(other), sheet);
    sheet.line(b"");
}

/// `? same COND`: whether the condition of the last text is equal to another one.
pub fn same(text: &[u8], rest: &[u8], sheet: &mut Sheet) {
    let (Some(cond), Some(other)) = (read_cond(text), read_cond(rest)) else {
        sheet.refuse();
        return;
    };
    put_answer(cond == other, sheet);
}

/// `? piece PIECE`: the words of the condition of the last text outside and inside a piece.
pub fn piece(text: &[u8], rest: &[u8], sheet: &mut Sheet) {
    let (Some(cond), Some(piece)) = (read_cond(text), read_piece(rest)) else {
        sheet.refuse();
        return;
    };
    sheet.put(b"outside ");
    put_words(cond.cut(piece), sheet);
    sheet.put(b"\ninside ");
    put_words(cond.within(piece), sheet);
    sheet.line(b"");
}
