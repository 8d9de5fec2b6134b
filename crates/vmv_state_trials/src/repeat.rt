ghost use Rattle.std.specs.Prelude.{◌≡◌};

use crate::step::put_proved;
use crate::words::put_words_of;
use std::alloc::Global;
use vmv_cases::Sheet;
use vmv_snapshot::{CodeBlock, CodeOperand, CodeRepeat, Slot};
use vmv_state_texts::read_state;
use vmv_step::{again, head, leave, turn};
use vmv_zone::Zone;

const INDEX: Slot = Slot(1);

const SLOT: Slot = Slot(2);

const BOUND: Slot = Slot(3);

/// `repeat v1 to v3 cap 5 { }`, with v2 for its bound.
fn empty_loop(alloc: Global) -> CodeRepeat
    ensures index { result.index ≡ INDEX }
    ensures slot { result.slot ≡ SLOT }
    ensures bound { result.bound ≡ CodeOperand.Var BOUND }
{
    CodeRepeat {
        index: INDEX,
        slot: SLOT,
        bound: CodeOperand::Var(BOUND),
        cap: 5,
        site: 1,
        body: CodeBlock::new(alloc),
    }
}

/// The state of a text over the loop's variables.
fn state_of(text: &[u8], sheet: &mut Sheet) -> Option<Zone> {
    let zone = read_state(text);
    if zone.is_none() {
        sheet.refuse();
    }
    zone
}

/// `? head`: whether the loop's bound is proved to be within its cap, and the words of the index and of the bound's slot where the
/// loop starts from the state of the last text.
pub fn heads(alloc: Global, text: &[u8], sheet: &mut Sheet) {
    let Some(zone) = state_of(text, sheet) else {
        return;
    };
    if zone.vars() != 3 {
        sheet.refuse();
        return;
    }
    let stepped = head(&empty_loop(alloc), zone);
    put_proved(stepped.unproved, sheet);
    put_words_of(&stepped.zone, 1, sheet);
    put_words_of(&stepped.zone, 2, sheet);
    sheet.line(b"");
}

/// The states in a turn of the loop, behind it, and behind the loop.
fn turned(alloc: Global, zone: Zone) -> Option<(Zone, Zone, Zone)> {
    if zone.vars() != 3 {
        return None;
    }
    let repeat = empty_loop(alloc);
    let inside = turn(&repeat, zone);
    if inside.vars() != 3 {
        return None;
    }
    let next = again(&repeat, inside);
    Some((inside, next, leave(&repeat, zone)))
}

/// `? turn`: the words of the index in a turn of the loop from the state of the last text, the words of the index behind the turn, and
/// the words of the index and of the bound's slot behind the loop.
pub fn turns(alloc: Global, text: &[u8], sheet: &mut Sheet) {
    let Some(zone) = state_of(text, sheet) else {
        return;
    };
    let Some((inside, next, left)) = turned(alloc, zone) else {
        sheet.refuse();
        return;
    };
    sheet.put(b"turn");
    put_words_of(&inside, 1, sheet);
    sheet.put(b"\nagain");
    put_words_of(&next, 1, sheet);
    sheet.put(b"\nleave");
    put_words_of(&left, 1, sheet);
    put_words_of(&left, 2, sheet);
    sheet.line(b"");
}
