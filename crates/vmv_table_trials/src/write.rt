use std::alloc::Global;
use vmv_cases::Sheet;
use vmv_cert::{NamedSite, Reach, Row, Table};
use vmv_state_texts::{put_cond, put_state};

/// Writes what a procedure may return.
fn put_result(reach: Reach, sheet: &mut Sheet) {
    sheet.put(b"result ");
    match reach {
        Reach::Bottom => sheet.put(b"bottom"),
        Reach::Value(cond) => put_cond(cond, sheet),
    }
    sheet.line(b"");
}

/// Writes the sites that aren't proved.
fn put_sites(sites: &[NamedSite], sheet: &mut Sheet) {
    sheet.put(b"left ");
    sheet.show(&sites.len());
    for site in sites {
        sheet.put(b" ");
        sheet.put(site.proc.bytes());
        sheet.put(b"#");
        sheet.show(&site.index);
    }
    sheet.line(b"");
}

/// Writes a row: its procedure and how many loops it has, its input, the state that is kept at each loop, what it may return, and
/// the sites that aren't proved.
fn put_row(alloc: Global, row: &Row, sheet: &mut Sheet) {
    sheet.put(b"row ");
    sheet.put(row.proc.bytes());
    sheet.put(b" ");
    sheet.show(&row.keeps.len());
    sheet.put(b"\ninput ");
    put_state(alloc, &row.input, sheet);
    for kept in row.keeps.as_slice() {
        sheet.put(b"\nkeep ");
        put_state(alloc, kept, sheet);
    }
    sheet.line(b"");
    put_result(row.result, sheet);
    put_sites(row.unproved.as_slice(), sheet);
}

/// Writes the rows of a table.
pub fn put_table(alloc: Global, table: &Table, sheet: &mut Sheet) {
    for row in table.rows.as_slice() {
        put_row(alloc, row, sheet);
    }
}
