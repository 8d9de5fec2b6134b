//! Acts, written as words.

use vmv_cases::Sheet;
use vmv_keeper::{Act, Label};

fn put_named(what: &[u8], owner: &Label, project: &Label, sheet: &mut Sheet) {
    sheet.put(what);
    sheet.put(b" ");
    sheet.put(owner.bytes());
    sheet.put(b" ");
    sheet.put(project.bytes());
    sheet.put(b" ");
}

fn put_numbered(what: &[u8], owner: &Label, project: &Label, number: u32, sheet: &mut Sheet) {
    put_named(what, owner, project, sheet);
    sheet.show(&number);
}

/// Writes an act.
pub fn put_act(act: &Act, sheet: &mut Sheet) {
    match act {
        Act::OpenProject { name, text } => {
            sheet.put(b"open ");
            sheet.put(name.bytes());
            sheet.put(b" ");
            sheet.put(text.bytes());
        }
        Act::AddMember {
            owner,
            project,
            member,
        } => {
            put_named(b"add", owner, project, sheet);
            sheet.put(member.bytes());
        }
        Act::Submit {
            owner,
            project,
            text,
        } => {
            put_named(b"submit", owner, project, sheet);
            sheet.put(text.bytes());
        }
        Act::Withdraw {
            owner,
            project,
            submission,
        } => put_numbered(b"withdraw", owner, project, *submission, sheet),
        Act::Accept {
            owner,
            project,
            submission,
        } => put_numbered(b"accept", owner, project, *submission, sheet),
        Act::Waive {
            owner,
            project,
            submission,
        } => put_numbered(b"waive", owner, project, *submission, sheet),
    }
}
