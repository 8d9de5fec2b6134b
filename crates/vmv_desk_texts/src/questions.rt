//! Questions to a desk.

use crate::words::{label, size};
use vmv_cases::word;
use vmv_keeper::{Label, Query};

/// The number of a submission, as word 4 of a line writes it.
pub fn submission(line: &[u8]) -> Option<u32> {
    size(word(line, 4))
}

fn report(owner: Label, project: Label, line: &[u8]) -> Option<Query> {
    Some(Query::ReportOf {
        owner,
        project,
        submission: submission(line)?,
    })
}

/// The question that a line `CALLER WHAT OWNER PROJECT ..` asks.
pub fn question(line: &[u8]) -> Option<Query> {
    let owner = label(line, 2)?;
    let project = label(line, 3)?;
    let what = word(line, 1);
    if what == b"report".as_slice() {
        report(owner, project, line)
    } else if what == b"base".as_slice() {
        Some(Query::Base { owner, project })
    } else if what == b"history".as_slice() {
        Some(Query::History { owner, project })
    } else if what == b"pending".as_slice() {
        Some(Query::Pending { owner, project })
    } else {
        None
    }
}
