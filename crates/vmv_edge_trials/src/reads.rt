use std::alloc::Global;
use std::str;
use vmv_cases::{Case, Sheet, number, word};
use vmv_edge::{Shelf, ShelfFault};

/// The number of bytes that a word writes.
pub fn size(word: &[u8]) -> Option<usize> {
    usize::try_from(number(word)?).ok()
}

/// The numbers of the calls that are to fail, as a line writes them.
pub fn failing(alloc: Global, line: &[u8], sheet: &mut Sheet) -> Vec<u64> {
    let mut failing = Vec::new(alloc);
    for word in line.split(|byte| *byte == b' ') {
        let Some(Ok(call)) = number(word).map(|number| u64::try_from(number)) else {
            continue;
        };
        if failing.push(call).is_err() {
            sheet.fall_short();
        }
    }
    failing
}

/// Writes what a read answers: the length of the text, or why there is none.
fn put_read<F: Shelf>(shelf: &mut F, alloc: Global, line: &[u8], sheet: &mut Sheet) {
    let (Ok(name), Some(most)) = (str::from_utf8(word(line, 0)), size(word(line, 1))) else {
        sheet.refuse();
        return;
    };
    match shelf.read(alloc, name, most) {
        Ok(text) => {
            sheet.show(&text.len());
            sheet.line(b" bytes");
        }
        Err(ShelfFault::TooLong) => sheet.line(b"too long"),
        Err(ShelfFault::Failed) => sheet.line(b"failed"),
        Err(ShelfFault::Memory) => sheet.fall_short(),
    }
}

/// Writes what the reads of the text `reads` answer, a line `NAME MOST` for each, and the faults behind them.
pub fn put_reads<F: Shelf>(shelf: &mut F, alloc: Global, case: &Case, sheet: &mut Sheet) {
    for line in case.text(b"reads").split(|byte| *byte == b'\n') {
        if !line.is_empty() {
            put_read(shelf, alloc, line, sheet);
        }
    }
    sheet.put(b"faults ");
    sheet.show(&shelf.faults());
    sheet.line(b"");
}
