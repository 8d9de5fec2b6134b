use vmv_cases::{Sheet, number};
use vmv_cond::Cond;
use vmv_state_texts::small;
use vmv_zone::{Zone, ZoneOp, ZoneOperand, ZoneRel};

/// A text up to the end of its first line.
pub fn first_line(text: &[u8]) -> &[u8] {
    match text.iter().position(|byte| *byte == b'\n') {
        Some(at) => &text[..at],
        None => text,
    }
}

/// The number of a variable, written as `v1`.
pub fn variable(word: &[u8]) -> Option<u8> {
    match word {
        [b'v', rest @ ..] => small(rest),
        _ => None,
    }
}

/// An operand: a variable, or a word in digits.
pub fn operand(word: &[u8]) -> Option<ZoneOperand> {
    match variable(word) {
        Some(number) => Some(ZoneOperand::Var(number)),
        None => Some(ZoneOperand::Lit(number(word)?)),
    }
}

/// A test between two operands.
pub fn rel(word: &[u8]) -> Option<ZoneRel> {
    match word {
        b"==" => Some(ZoneRel::Equal),
        b"!=" => Some(ZoneRel::Unequal),
        b"<" => Some(ZoneRel::Less),
        b"<=" => Some(ZoneRel::AtMost),
        b">" => Some(ZoneRel::Greater),
        b">=" => Some(ZoneRel::AtLeast),
        _ => None,
    }
}

/// An operation between two operands.
pub fn op(word: &[u8]) -> Option<ZoneOp> {
    match word {
        b"+" => Some(ZoneOp::Add),
        b"-" => Some(ZoneOp::Sub),
        b"*" => Some(ZoneOp::Mul),
        b"/" => Some(ZoneOp::Div),
        b"%" => Some(ZoneOp::Rem),
        _ => None,
    }
}

/// Writes `yes` or `no`.
pub fn put_answer(holds: bool, sheet: &mut Sheet) {
    if holds {
        sheet.line(b"yes");
    } else {
        sheet.line(b"no");
    }
}

/// Writes the ends of a condition, whether 0 is left out, and whether it holds no word.
pub fn put_words(cond: Cond, sheet: &mut Sheet) {
    sheet.show(&cond.lo());
    sheet.put(b"..");
    sheet.show(&cond.hi());
    if cond.zero_out() {
        sheet.put(b" not 0");
    }
    if cond.is_empty() {
        sheet.put(b" empty");
    }
}

/// Writes a blank and the words of a variable.
pub fn put_words_of(zone: &Zone, variable: u8, sheet: &mut Sheet) {
    if variable == 0 || variable > zone.vars() {
        sheet.refuse();
        return;
    }
    sheet.put(b" ");
    put_words(zone.range(ZoneOperand::Var(variable)), sheet);
}
