use std::alloc::Global;
use vmv_cases::{Sheet, word};
use vmv_desk_texts::size;
use vmv_keeper::{Label, Rows};

/// `? label TEXT`: the label of these bytes, or that they are none.
pub fn label(bytes: &[u8], sheet: &mut Sheet) {
    match Label::read(bytes) {
        Some(label) => {
            sheet.put(b"label ");
            sheet.line(label.bytes());
        }
        None => sheet.line(b"no label"),
    }
}

/// Writes whether two things are the same.
pub fn put_same(is_same: bool, sheet: &mut Sheet) {
    sheet.line(if is_same {
        b"the same".as_slice()
    } else {
        b"another".as_slice()
    });
}

fn put_list(rows: &[u32], sheet: &mut Sheet) {
    sheet.put(b"rows");
    for row in rows {
        sheet.put(b" ");
        sheet.show(row);
    }
    sheet.line(b"");
}

/// Puts the number behind the rows.
fn push(rows: &mut Rows<u32>, word: &[u8], sheet: &mut Sheet) {
    match size(word) {
        Some(number) => {
            if rows.push(number).is_err() {
                sheet.fall_short();
            }
        }
        None => sheet.refuse(),
    }
}

/// Writes a list without its second row, and whether a copy was the same before that and is so behind it.
fn put_without_second(alloc: Global, rows: Rows<u32>, sheet: &mut Sheet) {
    let Ok(copy) = rows.copy(alloc) else {
        sheet.fall_short();
        return;
    };
    let mut rows = rows;
    put_same(copy == rows, sheet);
    if rows.len() > 1 {
        rows.remove(1);
    }
    put_list(rows.as_slice(), sheet);
    put_same(copy == rows, sheet);
    put_list(Rows::from_vec(copy.into_vec()).as_slice(), sheet);
}

/// `? list_of NUMBER NUMBER NUMBER`: what becomes of a list of rows and of its copy.
pub fn list_of(alloc: Global, ask: &[u8], sheet: &mut Sheet) {
    let Some(first) = size(word(ask, 1)) else {
        sheet.refuse();
        return;
    };
    let Ok(mut rows) = Rows::of(alloc, first) else {
        sheet.fall_short();
        return;
    };
    push(&mut rows, word(ask, 2), sheet);
    push(&mut rows, word(ask, 3), sheet);
    put_without_second(alloc, rows, sheet);
    put_list(Rows::<u32>::new(alloc).as_slice(), sheet);
}
