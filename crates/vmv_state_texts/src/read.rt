ghost use Rattle.std.specs.Prelude.{◌≡◌};
ghost use Rattle.vmv_zone.specs.Bounds.{top_bound};

use crate::numbers::{small, wide};
use std::str;
use vmv_cases::{tail, word};
use vmv_zone::Zone;

/// The bound on `i - j` that words keep.
pub(crate) fn top_of(i: u8, j: u8) -> i128
    ensures { result ≡ top_bound i j }
{
    if i == j {
        0
    } else if j == 0 {
        i64::MAX as i128
    } else if i == 0 {
        1 << 63
    } else {
        u64::MAX as i128
    }
}

/// A state with one more bound.
fn bounded(zone: Zone, i: u8, j: u8, bound: i128) -> Option<Zone> {
    if zone.is_bottom() || i > zone.vars() || j > zone.vars() {
        return None;
    }
    if bound < -1 << 64 || bound > top_of(i, j) {
        return None;
    }
    Some(zone.with_bound(i, j, bound))
}

/// A state with one more mark.
fn marked(zone: Zone, i: u8) -> Option<Zone> {
    if zone.is_bottom() || i == 0 || i > zone.vars() {
        return None;
    }
    Some(zone.with_mark(i))
}

/// A state with so many bounds more, which words write.
fn with_bounds(zone: Zone, count: u16, words: &[u8]) -> Option<Zone> {
    let mut zone = zone;
    let mut rest = words;
    for _ in 0..count {
        let i = small(word(rest, 0))?;
        let j = small(word(rest, 1))?;
        zone = bounded(zone, i, j, wide(word(rest, 2))?)?;
        rest = tail(rest, 3);
    }
    Some(zone)
}

/// A state with so many marks more, which words write, and nothing behind them.
fn with_marks(zone: Zone, count: u8, words: &[u8]) -> Option<Zone> {
    let mut zone = zone;
    let mut rest = words;
    for _ in 0..count {
        zone = marked(zone, small(word(rest, 0))?)?;
        rest = tail(rest, 1);
    }
    if rest.is_empty() { Some(zone) } else { None }
}

/// Top with the bounds and marks of `bounds N I J C .. nonzero M I ..`.
fn of_bounds(top: Zone, words: &[u8]) -> Option<Zone> {
    if word(words, 0) != b"bounds".as_slice() {
        return None;
    }
    let count = str::from_utf8(word(words, 1)).ok()?.parse::<u16>().ok()?;
    let zone = with_bounds(top, count, tail(words, 2))?;
    let rest = tail(words, 2 + 3 * count as u32);
    if word(rest, 0) != b"nonzero".as_slice() {
        return None;
    }
    with_marks(zone, small(word(rest, 1))?, tail(rest, 2))
}

/// The state that a line writes, as it is: it isn't normed.
pub fn read_state(line: &[u8]) -> Option<Zone> {
    let vars = small(word(line, 1))?;
    if vars > 16 {
        return None;
    }
    let first = word(line, 0);
    if first == b"vars".as_slice() {
        of_bounds(Zone::top(vars), tail(line, 2))
    } else if first == b"bottom".as_slice() && tail(line, 2).is_empty() {
        Some(Zone::bottom(vars))
    } else {
        None
    }
}
