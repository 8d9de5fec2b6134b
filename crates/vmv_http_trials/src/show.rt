use vmv_cases::Sheet;
use vmv_http::{LinkEnd, Served};

/// Writes how a link was served.
pub(crate) fn put_served(served: Served, sheet: &mut Sheet) {
    match served {
        Served::Answered { status } => {
            sheet.put(b"answered ");
            sheet.show(&status);
        }
        Served::CutOff {
            why: LinkEnd::Ended,
        } => sheet.put(b"ended"),
        Served::CutOff {
            why: LinkEnd::ReadFailed,
        } => sheet.put(b"read failed"),
        Served::CutOff {
            why: LinkEnd::WriteFailed,
        } => sheet.put(b"write failed"),
        Served::Memory => sheet.fall_short(),
    }
}

/// Writes bytes, with `\r` for each CR, and ends the line.
pub(crate) fn put_bytes(bytes: &[u8], sheet: &mut Sheet) {
    for byte in bytes {
        if *byte == b'\r' {
            sheet.put(b"\\r");
        } else {
            sheet.put(&[*byte]);
        }
    }
    sheet.line(b"");
}

/// Writes a number behind a word.
pub(crate) fn put_count(what: &[u8], count: usize, sheet: &mut Sheet) {
    sheet.put(b" ");
    sheet.put(what);
    sheet.put(b" ");
    sheet.show(&count);
}

/// What stands behind the first empty line of an answer.
pub(crate) fn body(answer: &[u8]) -> &[u8] {
    for at in 0..answer.len() {
        let rest = &answer[at..];
        if rest.starts_with(b"\r\n\r\n") {
            return &rest[4..];
        }
    }
    b"".as_slice()
}
