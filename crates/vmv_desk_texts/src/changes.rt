//! Changes that were made, each with its reply.

use crate::commands::{act, id};
use crate::words::{halves, label, size};
use std::alloc::Global;
use vmv_cases::{Case, Sheet, word};
use vmv_keeper::{Act, Change, Reply};

/// Whether a line writes a change, and not a look.
pub fn is_change(line: &[u8]) -> bool {
    line.iter().any(|byte| *byte == b'=')
}

/// The reply of this number to an act.
fn reply(act: &Act, number: u32) -> Reply {
    match act {
        Act::OpenProject { .. } => Reply::Opened { version: number },
        Act::AddMember { .. } => Reply::Members { count: number },
        Act::Submit { .. } => Reply::Submitted { submission: number },
        Act::Withdraw { .. } => Reply::Withdrawn { submission: number },
        Act::Accept { .. } => Reply::Accepted { version: number },
        Act::Waive { .. } => Reply::Waived { version: number },
    }
}

/// The change of a line: what is done, `=`, the number of its reply, and that of the version that it was judged against.
pub fn change(alloc: Global, case: &Case, line: &[u8], sheet: &mut Sheet) -> Option<Change> {
    let (done, told) = halves(line);
    let caller = label(done, 0)?;
    let id = id(done)?;
    let number = size(word(told, 1))?;
    let against = size(word(told, 2))?;
    let act = act(alloc, case, done, sheet)?;
    let reply = reply(&act, number);
    Some(Change {
        caller,
        id,
        act,
        reply,
        against,
    })
}
