use vmv_cases::Sheet;
use vmv_edge::Text;
use vmv_head::Refusal;
use vmv_keeper::{Act, Command, Label, Query};

/// Writes a word with a blank in front of it.
fn put_word(word: &[u8], sheet: &mut Sheet) {
    sheet.put(b" ");
    sheet.put(word);
}

/// Writes what is done, and the project that it is done with.
fn put_project(done: &[u8], owner: &Label, project: &Label, sheet: &mut Sheet) {
    put_word(done, sheet);
    put_word(owner.bytes(), sheet);
    put_word(project.bytes(), sheet);
}

/// Writes what is done with a submission.
fn put_submission(done: &[u8], owner: &Label, project: &Label, submission: u32, sheet: &mut Sheet) {
    put_project(done, owner, project, sheet);
    sheet.put(b" ");
    sheet.show(&submission);
}

fn put_text(text: &Text, sheet: &mut Sheet) {
    sheet.put(b" | ");
    sheet.put(text.bytes());
}

fn put_act(act: &Act, sheet: &mut Sheet) {
    match act {
        Act::OpenProject { name, text } => {
            put_word(b"open", sheet);
            put_word(name.bytes(), sheet);
            put_text(text, sheet);
        }
        Act::AddMember {
            owner,
            project,
            member,
        } => {
            put_project(b"add", owner, project, sheet);
            put_word(member.bytes(), sheet);
        }
        Act::Submit {
            owner,
            project,
            text,
        } => {
            put_project(b"submit", owner, project, sheet);
            put_text(text, sheet);
        }
        Act::Withdraw {
            owner,
            project,
            submission,
        } => put_submission(b"withdraw", owner, project, *submission, sheet),
        Act::Accept {
            owner,
            project,
            submission,
        } => put_submission(b"accept", owner, project, *submission, sheet),
        Act::Waive {
            owner,
            project,
            submission,
        } => put_submission(b"waive", owner, project, *submission, sheet),
    }
}

fn put_query(query: &Query, sheet: &mut Sheet) {
    match query {
        Query::ReportOf {
            owner,
            project,
            submission,
        } => put_submission(b"report", owner, project, *submission, sheet),
        Query::Base { owner, project } => put_project(b"base", owner, project, sheet),
        Query::History { owner, project } => put_project(b"history", owner, project, sheet),
        Query::Pending { owner, project } => put_project(b"pending", owner, project, sheet),
    }
}

/// Writes a command: its caller, its id where it has one, and what it asks for.
pub(crate) fn show_command(command: &Command, sheet: &mut Sheet) {
    match command {
        Command::Change { caller, id, act } => {
            sheet.put(caller.bytes());
            put_word(id.bytes(), sheet);
            put_act(act, sheet);
        }
        Command::Ask { caller, query } => {
            sheet.put(caller.bytes());
            put_query(query, sheet);
        }
    }
    sheet.line(b"");
}

/// Writes a refusal: its status, its cause, and the method that is allowed.
pub(crate) fn show_refusal(refusal: Refusal, sheet: &mut Sheet) {
    sheet.show(&refusal.status());
    sheet.put(b" ");
    sheet.show(&refusal.cause());
    if let Refusal::OtherMethod { allowed } = refusal {
        put_word(allowed.name().as_bytes(), sheet);
    }
    sheet.line(b"");
}
