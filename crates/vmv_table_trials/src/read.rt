use crate::write::put_table;
use sqlite_items::Items;
use std::alloc::Global;
use vmv_cases::{Sheet, cut, number, tail, word};
use vmv_cert::{NamedSite, Reach, Row, Table};
use vmv_state_texts::{read_cond, read_state};
use vmv_tree::Name;
use vmv_zone::Zone;

/// A row of the procedure of this name, of which nothing else is told.
fn begun(alloc: Global, name: &[u8]) -> Option<Row> {
    Some(Row {
        proc: Name::read(name)?,
        input: Zone::top(0),
        keeps: Items::new(alloc),
        result: Reach::Bottom,
        unproved: Items::new(alloc),
    })
}

/// Begins a row of the procedure of this name.
fn add_row(alloc: Global, table: &mut Table, name: &[u8], sheet: &mut Sheet) {
    match begun(alloc, name) {
        Some(row) => {
            if table.rows.push(row).is_err() {
                sheet.fall_short();
            }
        }
        None => sheet.refuse(),
    }
}

/// Adds a state that is kept.
fn add_keep(row: &mut Row, kept: Zone, sheet: &mut Sheet) {
    if row.keeps.push(kept).is_err() {
        sheet.fall_short();
    }
}

/// What a procedure may return.
fn read_reach(words: &[u8]) -> Option<Reach> {
    if words == b"bottom".as_slice() {
        Some(Reach::Bottom)
    } else {
        Some(Reach::Value(read_cond(words)?))
    }
}

/// The site that a word `NAME#INDEX` names.
fn read_site(word: &[u8]) -> Option<NamedSite> {
    let mut parts = word.split(|byte| *byte == b'#');
    let proc = Name::read(parts.next()?)?;
    let index = u32::try_from(number(parts.next()?)?).ok()?;
    Some(NamedSite { proc, index })
}

/// Adds the sites that words name.
fn add_sites(row: &mut Row, words: &[u8], sheet: &mut Sheet) {
    for word in words.split(|byte| *byte == b' ') {
        match read_site(word) {
            Some(site) => {
                if row.unproved.push(site).is_err() {
                    sheet.fall_short();
                }
            }
            None if word.is_empty() => {}
            None => sheet.refuse(),
        }
    }
}

/// Adds to a row what a line with a state tells.
fn add_state(row: &mut Row, mark: &[u8], words: &[u8], sheet: &mut Sheet) {
    let Some(state) = read_state(words) else {
        sheet.refuse();
        return;
    };
    if mark == b"input".as_slice() {
        row.input = state;
    } else {
        add_keep(row, state, sheet);
    }
}

/// Adds to a row what a line tells.
fn add_told(row: &mut Row, line: &[u8], sheet: &mut Sheet) {
    let (mark, words) = cut(line);
    if mark == b"input".as_slice() || mark == b"keep".as_slice() {
        add_state(row, mark, words, sheet);
    } else if mark == b"left".as_slice() {
        add_sites(row, tail(words, 1), sheet);
    } else {
        match read_reach(words) {
            Some(reach) => row.result = reach,
            None => sheet.refuse(),
        }
    }
}

/// Adds to a table what a line tells.
fn add_line(alloc: Global, table: &mut Table, line: &[u8], sheet: &mut Sheet) {
    if word(line, 0) == b"row".as_slice() {
        add_row(alloc, table, word(line, 1), sheet);
        return;
    }
    let Some(mut row) = table.rows.pop() else {
        sheet.refuse();
        return;
    };
    add_told(&mut row, line, sheet);
    if table.rows.push(row).is_err() {
        sheet.fall_short();
    }
}

/// The table of a text. A text that isn't its table's own is refused.
pub fn read_table(alloc: Global, text: &[u8], sheet: &mut Sheet) -> Table {
    let mut table = Table {
        rows: Items::new(alloc),
    };
    for line in text.split(|byte| *byte == b'\n') {
        if !line.is_empty() {
            add_line(alloc, &mut table, line, sheet);
        }
    }
    let mut again = Sheet::new(alloc);
    put_table(alloc, &table, &mut again);
    if again.is_short() {
        sheet.fall_short();
    } else if again.bytes() != text {
        sheet.refuse();
    }
    table
}
