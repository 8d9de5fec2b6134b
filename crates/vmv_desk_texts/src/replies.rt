//! Replies of a desk, written as words.

use vmv_cases::Sheet;
use vmv_keeper::{PendingRow, Reply, VersionRow};

/// Writes a word, a number and the end of the line.
pub fn put_number(word: &[u8], number: u32, sheet: &mut Sheet) {
    sheet.put(word);
    sheet.put(b" ");
    sheet.show(&number);
    sheet.line(b"");
}

/// Writes versions, a line for each.
pub fn put_versions(rows: &[VersionRow], sheet: &mut Sheet) {
    for row in rows {
        sheet.put(b"  version ");
        sheet.show(&row.number);
        sheet.put(b" of kind ");
        sheet.show(&row.kind);
        sheet.put(b" from ");
        sheet.show(&row.submission);
        sheet.put(b" by ");
        sheet.put(row.by.bytes());
        sheet.put(b" against ");
        sheet.show(&row.against);
        sheet.line(b"");
    }
}

fn put_pending(rows: &[PendingRow], sheet: &mut Sheet) {
    for row in rows {
        sheet.put(b" ");
        sheet.show(&row.submission);
        sheet.put(b" by ");
        sheet.put(row.by.bytes());
    }
}

fn put_report(verdict: u8, json: &[u8], against: u32, sheet: &mut Sheet) {
    sheet.put(b"report ");
    sheet.show(&verdict);
    sheet.put(b" against ");
    sheet.show(&against);
    sheet.put(b" ");
    sheet.line(json);
}

fn put_base(version: u32, text: &[u8], sheet: &mut Sheet) {
    sheet.put(b"base ");
    sheet.show(&version);
    sheet.put(b" ");
    sheet.line(text);
}

/// Writes why a text was refused, and where.
pub fn put_fault_of_text(number: u8, line: u32, column: u32, sheet: &mut Sheet) {
    sheet.put(b"text refused for ");
    sheet.show(&number);
    sheet.put(b" at ");
    sheet.show(&line);
    sheet.put(b":");
    sheet.show(&column);
    sheet.line(b"");
}

/// Writes the reply to an act that was done. Answers whether it is one.
fn put_done(reply: &Reply, sheet: &mut Sheet) -> bool {
    match reply {
        Reply::Opened { version } => put_number(b"opened", *version, sheet),
        Reply::Members { count } => put_number(b"members", *count, sheet),
        Reply::Submitted { submission } => put_number(b"submitted", *submission, sheet),
        Reply::Withdrawn { submission } => put_number(b"withdrawn", *submission, sheet),
        Reply::Accepted { version } => put_number(b"accepted", *version, sheet),
        Reply::Waived { version } => put_number(b"waived", *version, sheet),
        _ => return false,
    }
    true
}

/// Writes the reply to a question. Answers whether it is one.
fn put_told(reply: &Reply, sheet: &mut Sheet) -> bool {
    match reply {
        Reply::Report {
            verdict,
            json,
            against,
        } => put_report(*verdict, json.bytes(), *against, sheet),
        Reply::Base { version, text } => put_base(*version, text.bytes(), sheet),
        Reply::History { versions } => {
            sheet.line(b"history");
            put_versions(versions.as_slice(), sheet);
        }
        Reply::Pending { rows } => {
            sheet.put(b"pending");
            put_pending(rows.as_slice(), sheet);
            sheet.line(b"");
        }
        _ => return false,
    }
    true
}

/// Writes a refusal.
fn put_refusal(reply: &Reply, sheet: &mut Sheet) {
    match reply {
        Reply::NotFound => sheet.line(b"not found"),
        Reply::NotAllowed => sheet.line(b"not allowed"),
        Reply::Full { which } => put_number(b"full", *which as u32, sheet),
        Reply::TextRefused {
            number,
            line,
            column,
        } => put_fault_of_text(*number, *line, *column, sheet),
        Reply::NotCorrect { verdict } => put_number(b"not correct", *verdict as u32, sheet),
        Reply::IdReused => sheet.line(b"id reused"),
        Reply::AlreadyOpen => sheet.line(b"already open"),
        Reply::StoreFault => sheet.line(b"store fault"),
        Reply::VacuousText => sheet.line(b"vacuous text"),
        _ => sheet.fall_short(),
    }
}

/// Writes a reply.
pub fn put_reply(reply: &Reply, sheet: &mut Sheet) {
    if !put_done(reply, sheet) && !put_told(reply, sheet) {
        put_refusal(reply, sheet);
    }
}
