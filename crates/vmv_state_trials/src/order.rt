use crate::words::{first_line, operand, put_answer};
use crate::zone::{known, put_found};
use std::alloc::Global;
use vmv_cases::{Case, Sheet, tail, word};
use vmv_state_texts::read_state;
use vmv_zone::{Zone, ZoneOperand};

/// The states of two texts, which are over as many variables.
fn states_of(case: &Case, names: &[u8]) -> Option<(Zone, Zone)> {
    let one = read_state(first_line(case.text(word(names, 0))))?;
    let other = read_state(first_line(case.text(word(names, 1))))?;
    Some((one, other))
}

/// `? join NAME NAME`: the least state above the states of two texts.
pub fn join(alloc: Global, case: &Case, names: &[u8], sheet: &mut Sheet) {
    let Some((one, other)) = states_of(case, names) else {
        sheet.refuse();
        return;
    };
    if one.vars() != other.vars() {
        sheet.refuse();
        return;
    }
    put_found(alloc, Some(one.join(other)), sheet);
}

/// `? below NAME NAME`: whether the state of one text is below that of another.
pub fn below(case: &Case, names: &[u8], sheet: &mut Sheet) {
    let Some((one, other)) = states_of(case, names) else {
        sheet.refuse();
        return;
    };
    if one.vars() != other.vars() {
        sheet.refuse();
        return;
    }
    put_answer(one.below(&other), sheet);
}

/// The state with each bound raised to the least of 0, 2^63 - 1, 2^63 and 2^64 - 1 that isn't below it.
fn rounded(zone: &Zone) -> Zone {
    let thresholds: [i128; 4] = [
        0,
        9223372036854775807,
        9223372036854775808,
        18446744073709551615,
    ];
    zone.round_up(&thresholds)
}

/// `? round`: the state of the last text with each bound raised to the least of 0, 2^63 - 1, 2^63 and 2^64 - 1 that isn't below it.
pub fn round(alloc: Global, text: &[u8], sheet: &mut Sheet) {
    let found = read_state(text).map(|zone| rounded(&zone));
    put_found(alloc, found, sheet);
}

/// The state of one argument.
fn one_arg(zone: Zone, arg: ZoneOperand) -> Option<Zone> {
    if !known(&zone, arg) {
        return None;
    }
    Some(zone.copy_args(&[arg]))
}

/// The state of two arguments.
fn two_args(zone: Zone, first: ZoneOperand, second: ZoneOperand) -> Option<Zone> {
    if !known(&zone, first) {
        return None;
    }
    if !known(&zone, second) {
        return None;
    }
    Some(zone.copy_args(&[first, second]))
}

/// The state of the arguments that words write.
fn args_of(zone: Zone, words: &[u8]) -> Option<Zone> {
    let first = operand(word(words, 0))?;
    if tail(words, 1).is_empty() {
        one_arg(zone, first)
    } else {
        two_args(zone, first, operand(word(words, 1))?)
    }
}

/// `? args OPERAND` or `? args OPERAND OPERAND`: the state of the arguments of a call in the state of the last text.
pub fn args(alloc: Global, text: &[u8], rest: &[u8], sheet: &mut Sheet) {
    let found = match read_state(text) {
        Some(zone) => args_of(zone, rest),
        None => None,
    };
    put_found(alloc, found, sheet);
}
