use vmv_cases::{Case, Sheet, cut};
use vmv_edge::{Failed, Sink, write_all};

/// Writes a piece whole and tells whether it was written.
pub fn put_written<O: Sink>(out: &mut O, piece: &[u8], sheet: &mut Sheet) {
    match write_all(out, piece) {
        Ok(()) => sheet.line(b"written"),
        Err(Failed) => sheet.line(b"failed"),
    }
}

/// Writes what one write of a piece answers.
fn put_taken<O: Sink>(out: &mut O, piece: &[u8], sheet: &mut Sheet) {
    match out.write(piece) {
        Ok(count) => {
            sheet.put(b"took ");
            sheet.show(&count);
            sheet.line(b"");
        }
        Err(Failed) => sheet.line(b"failed"),
    }
}

/// Writes what a line `all PIECE` or `write PIECE` answers.
fn put_piece<O: Sink>(out: &mut O, line: &[u8], sheet: &mut Sheet) {
    let (word, piece) = cut(line);
    if word == b"all".as_slice() {
        put_written(out, piece, sheet);
    } else if word == b"write".as_slice() {
        put_taken(out, piece, sheet);
    } else if !word.is_empty() {
        sheet.refuse();
    }
}

/// Writes what the pieces of the text `pieces` answer, and the faults behind them.
pub fn put_pieces<O: Sink>(out: &mut O, case: &Case, sheet: &mut Sheet) {
    for line in case.text(b"pieces").split(|byte| *byte == b'\n') {
        put_piece(out, line, sheet);
    }
    sheet.put(b"faults ");
    sheet.show(&out.faults());
    sheet.line(b"");
}
