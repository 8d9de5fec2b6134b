ghost use Rattle.std.specs.Prelude.{◌↔◌, IsTrue};
ghost use Rattle.vmv_zone.specs.Zone.{vars_of};
ghost use Rattle.vmv_zone.specs.Operand.{IsOperand};

use crate::words::{operand, put_words, rel, variable};
use std::alloc::Global;
use vmv_cases::{Sheet, word};
use vmv_state_texts::{put_state, read_state};
use vmv_zone::{Zone, ZoneOperand, ZoneRel, ZoneTest};

/// Writes a state and ends the line; where there is none, the ask can't be read.
pub fn put_found(alloc: Global, found: Option<Zone>, sheet: &mut Sheet) {
    match found {
        Some(zone) => {
            put_state(alloc, &zone, sheet);
            sheet.line(b"");
        }
        None => sheet.refuse(),
    }
}

/// Whether an operand is a word or one of a state's variables.
pub fn known(zone: &Zone, operand: ZoneOperand) -> bool
    ensures { IsTrue result ↔ IsOperand (vars_of zone.now) operand }
{
    match operand {
        ZoneOperand::Lit(_) => true,
        ZoneOperand::Var(y) => 1 <= y && y <= zone.vars(),
    }
}

/// `? norm`: the norm of the state of the last text.
pub fn norm(alloc: Global, text: &[u8], sheet: &mut Sheet) {
    let found = read_state(text).map(|zone| zone.norm());
    put_found(alloc, found, sheet);
}

/// The state where a test holds.
fn guarded(zone: Zone, left: ZoneOperand, rel: ZoneRel, right: ZoneOperand) -> Option<Zone> {
    if !known(&zone, left) {
        return None;
    }
    if !known(&zone, right) {
        return None;
    }
    Some(zone.guard(ZoneTest { left, rel, right }))
}

/// The state of a text where the test that words write holds.
fn guarded_by(text: &[u8], words: &[u8]) -> Option<Zone> {
    let zone = read_state(text)?;
    let left = operand(word(words, 0))?;
    let right = operand(word(words, 2))?;
    guarded(zone, left, rel(word(words, 1))?, right)
}

/// `? guard LEFT REL RIGHT`: the state of the last text where a test holds.
pub fn guard(alloc: Global, text: &[u8], rest: &[u8], sheet: &mut Sheet) {
    put_found(alloc, guarded_by(text, rest), sheet);
}

/// The state with top's bounds on a variable.
fn freed(zone: Zone, of: u8) -> Option<Zone> {
    if zone.is_bottom() || of == 0 || of > zone.vars() {
        return None;
    }
    Some(zone.free(of))
}

/// `? free VAR`: the state of the last text with top's bounds on a variable.
pub fn free(alloc: Global, text: &[u8], rest: &[u8], sheet: &mut Sheet) {
    let (Some(zone), Some(of)) = (read_state(text), variable(rest)) else {
        sheet.refuse();
        return;
    };
    put_found(alloc, freed(zone, of), sheet);
}

/// `? range OPERAND`: the words of an operand in the state of the last text.
pub fn range(text: &[u8], rest: &[u8], sheet: &mut Sheet) {
    let (Some(zone), Some(of)) = (read_state(text), operand(rest)) else {
        sheet.refuse();
        return;
    };
    if !known(&zone, of) {
        sheet.refuse();
        return;
    }
    put_words(zone.range(of), sheet);
    sheet.line(b"");
}
