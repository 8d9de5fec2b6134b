use vmv_cases::Sheet;
use vmv_source::TextFault;
use vmv_text::ReadFault;
use vmv_tree::Defect;

/// Writes `LINE:COLUMN`.
pub fn put_place(line: u32, column: u32, sheet: &mut Sheet) {
    sheet.show(&line);
    sheet.put(b":");
    sheet.show(&column);
}

/// Writes `LINE:COLUMN syntax`.
fn syntax(line: u32, column: u32, sheet: &mut Sheet) {
    put_place(line, column, sheet);
    sheet.line(b" syntax");
}

/// Writes `not UTF-8 at AT`.
fn not_utf8(at: usize, sheet: &mut Sheet) {
    sheet.put(b"not UTF-8 at ");
    sheet.show(&at);
    sheet.line(b"");
}

/// Writes `too long: FOUND bytes`.
fn too_long(found: usize, sheet: &mut Sheet) {
    sheet.put(b"too long: ");
    sheet.show(&found);
    sheet.line(b" bytes");
}

/// Writes `limit WHICH: FOUND of MOST`.
fn limit(which: u8, found: u64, most: u64, sheet: &mut Sheet) {
    sheet.put(b"limit ");
    sheet.show(&which);
    sheet.put(b": ");
    sheet.show(&found);
    sheet.put(b" of ");
    sheet.show(&most);
    sheet.line(b"");
}

pub fn put_defect(defect: Defect, sheet: &mut Sheet) {
    match defect {
        Defect::UnknownName => sheet.line(b"unknown name"),
        Defect::Repeated => sheet.line(b"repeated"),
        Defect::ArityWrong => sheet.line(b"arity wrong"),
        Defect::IndexAssigned => sheet.line(b"index assigned"),
        Defect::RangeEmpty => sheet.line(b"range empty"),
        Defect::Limit { which, found, most } => limit(which, found, most, sheet),
    }
}

pub fn put_read_fault(fault: ReadFault, sheet: &mut Sheet) {
    match fault {
        ReadFault::TooLong { found } => too_long(found, sheet),
        ReadFault::NotUtf8 { at } => not_utf8(at, sheet),
        ReadFault::Syntax { line, column } => syntax(line, column, sheet),
        ReadFault::Memory => sheet.fall_short(),
    }
}

pub fn put_text_fault(fault: TextFault, sheet: &mut Sheet) {
    match fault {
        TextFault::TooLong { found } => too_long(found, sheet),
        TextFault::NotUtf8 { at } => not_utf8(at, sheet),
        TextFault::Syntax { line, column } => syntax(line, column, sheet),
        TextFault::Memory => sheet.fall_short(),
        TextFault::Defect {
            line,
            column,
            defect,
        } => {
            put_place(line, column, sheet);
            sheet.put(b" ");
            put_defect(defect, sheet);
        }
    }
}
