//! Commands to a desk.

use crate::judges::text_of;
use crate::questions::{question, submission};
use crate::words::label;
use std::alloc::Global;
use vmv_cases::{Case, Sheet, word};
use vmv_edge::Text;
use vmv_keeper::{Act, Command, Label};

/// The text that a word stands for.
fn text(alloc: Global, case: &Case, word: &[u8], sheet: &mut Sheet) -> Text {
    match Text::from_slice(alloc, text_of(case, word)) {
        Ok(text) => text,
        Err(_) => {
            sheet.fall_short();
            Text::new(alloc)
        }
    }
}

/// `CALLER open NAME TEXT ID`
fn open(alloc: Global, case: &Case, line: &[u8], sheet: &mut Sheet) -> Option<Act> {
    let name = label(line, 2)?;
    let text = text(alloc, case, word(line, 3), sheet);
    Some(Act::OpenProject { name, text })
}

/// `CALLER submit OWNER PROJECT TEXT ID`
fn submit(alloc: Global, case: &Case, line: &[u8], sheet: &mut Sheet) -> Option<Act> {
    let owner = label(line, 2)?;
    let project = label(line, 3)?;
    let text = text(alloc, case, word(line, 4), sheet);
    Some(Act::Submit {
        owner,
        project,
        text,
    })
}

/// `CALLER add OWNER PROJECT MEMBER ID`
fn add(line: &[u8]) -> Option<Act> {
    let owner = label(line, 2)?;
    let project = label(line, 3)?;
    let member = label(line, 4)?;
    Some(Act::AddMember {
        owner,
        project,
        member,
    })
}

/// `CALLER WHAT OWNER PROJECT SUBMISSION ID`, where a submission is withdrawn, accepted or waived.
fn decide(line: &[u8]) -> Option<Act> {
    let owner = label(line, 2)?;
    let project = label(line, 3)?;
    let submission = submission(line)?;
    let what = word(line, 1);
    if what == b"withdraw".as_slice() {
        Some(Act::Withdraw {
            owner,
            project,
            submission,
        })
    } else if what == b"accept".as_slice() {
        Some(Act::Accept {
            owner,
            project,
            submission,
        })
    } else if what == b"waive".as_slice() {
        Some(Act::Waive {
            owner,
            project,
            submission,
        })
    } else {
        None
    }
}

/// The act of a line.
pub fn act(alloc: Global, case: &Case, line: &[u8], sheet: &mut Sheet) -> Option<Act> {
    let what = word(line, 1);
    if what == b"open".as_slice() {
        open(alloc, case, line, sheet)
    } else if what == b"submit".as_slice() {
        submit(alloc, case, line, sheet)
    } else if what == b"add".as_slice() {
        add(line)
    } else {
        decide(line)
    }
}

/// The id of an act, its last word.
pub fn id(line: &[u8]) -> Option<Label> {
    if word(line, 1) == b"open".as_slice() {
        label(line, 4)
    } else {
        label(line, 5)
    }
}

/// The command of a line.
pub fn command(alloc: Global, case: &Case, line: &[u8], sheet: &mut Sheet) -> Option<Command> {
    let caller = label(line, 0)?;
    if let Some(query) = question(line) {
        return Some(Command::Ask { caller, query });
    }
    let id = id(line)?;
    let act = act(alloc, case, line, sheet)?;
    Some(Command::Change { caller, id, act })
}
