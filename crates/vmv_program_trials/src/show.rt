use std::fmt::Display;
use vmv_cases::Sheet;
use vmv_edge::{FaultlessLink, MemoryLink};

/// A link that shows what was written to it.
pub(crate) trait Written {
    /// What was written, if the link tells it.
    fn written(&self) -> Option<&[u8]>;
}

impl Written for MemoryLink {
    fn written(&self) -> Option<&[u8]> {
        Some(self.bytes())
    }
}

impl Written for FaultlessLink {
    fn written(&self) -> Option<&[u8]> {
        self.bytes()
    }
}

/// Writes a number behind a word.
pub(crate) fn put_count<T: Display>(what: &[u8], count: &T, sheet: &mut Sheet) {
    sheet.put(what);
    sheet.put(b" ");
    sheet.show(count);
}

/// Writes what the sink has taken, if it tells it; a line `\end` follows where these are some bytes that end no line.
pub(crate) fn put_printed(printed: Option<&[u8]>, sheet: &mut Sheet) {
    let Some(printed) = printed else {
        return sheet.line(b"what was printed isn't told");
    };
    sheet.put(printed);
    if !printed.is_empty() && !printed.ends_with(b"\n") {
        sheet.put(b"\n\\end\n");
    }
}

/// Writes bytes, with `\r` for each CR, and ends the line.
fn put_escaped(bytes: &[u8], sheet: &mut Sheet) {
    for byte in bytes {
        if *byte == b'\r' {
            sheet.put(b"\\r");
        } else {
            sheet.put(&[*byte]);
        }
    }
    sheet.put(b"\n");
}

/// Writes what was written to a link.
fn put_written<L: Written>(link: &L, sheet: &mut Sheet) {
    match link.written() {
        None => sheet.line(b" isn't told"),
        Some(bytes) if bytes.is_empty() => sheet.line(b" took nothing"),
        Some(bytes) => {
            sheet.put(b"\n");
            put_escaped(bytes, sheet);
        }
    }
}

/// Writes for each link, with its number from 1, what was written to it.
pub(crate) fn put_links<L: Written>(links: &[L], sheet: &mut Sheet) {
    for at in 0..links.len() {
        put_count(b"link", &(at + 1), sheet);
        put_written(&links[at], sheet);
    }
}
