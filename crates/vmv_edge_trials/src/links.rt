ghost use Rattle.std.specs.Prelude.{◌≡◌, length};

use crate::moves;
use std::alloc::Global;
use vmv_cases::{Case, Sheet, number, word};
use vmv_links::Links;

/// The number that a word writes.
fn place(word: &[u8]) -> Option<u32> {
    u32::try_from(number(word)?).ok()
}

/// Changes lists as `push LIST NUMBER`, `pop LIST` or `take NUMBER` says. Answers whether the line is one of these.
fn change(links: &mut Links, line: &[u8], at: u32, sheet: &mut Sheet) -> bool
    requires lists { length links.old.lists ≡ 2 }
    requires size { links.old.size ≡ 4 }
    ensures lists { length links.new.lists ≡ 2 }
    ensures size { links.new.size ≡ 4 }
{
    let what = word(line, 0);
    if what == b"push".as_slice() {
        match place(word(line, 2)) {
            Some(item) => moves::push(links, at, item, sheet),
            None => sheet.refuse(),
        }
    } else if what == b"pop".as_slice() {
        moves::pop(links, at, sheet);
    } else if what == b"take".as_slice() {
        moves::take(links, at, sheet);
    } else {
        return false;
    }
    true
}

/// Writes what `first LIST`, `next NUMBER` or `list NUMBER` asks.
fn look(links: &Links, line: &[u8], at: u32, sheet: &mut Sheet)
    requires lists { length links.now.lists ≡ 2 }
    requires size { links.now.size ≡ 4 }
{
    let what = word(line, 0);
    if what == b"first".as_slice() {
        moves::put_first(links, at, sheet);
    } else if what == b"next".as_slice() {
        moves::put_next(links, at, sheet);
    } else if what == b"list".as_slice() {
        moves::put_list(links, at, sheet);
    } else {
        sheet.refuse();
    }
}

/// Does what a line says.
fn step(links: &mut Links, line: &[u8], sheet: &mut Sheet)
    requires lists { length links.old.lists ≡ 2 }
    requires size { links.old.size ≡ 4 }
    ensures lists { length links.new.lists ≡ 2 }
    ensures size { links.new.size ≡ 4 }
{
    let Some(at) = place(word(line, 1)) else {
        sheet.refuse();
        return;
    };
    if !change(links, line, at, sheet) {
        look(links, line, at, sheet);
    }
}

/// `? links`: what the lines of the text `moves` say of two lists of numbers below 4.
pub fn links(alloc: Global, case: &Case, sheet: &mut Sheet) {
    let Ok(mut links) = Links::make(alloc, moves::NUMBERS, moves::LISTS) else {
        sheet.fall_short();
        return;
    };
    for line in case.text(b"moves").split(|byte| *byte == b'\n') {
        if !line.is_empty() {
            step(&mut links, line, sheet);
        }
    }
    links.each_in_one_list();
}
