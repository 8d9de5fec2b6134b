//! The causes against an act that the rows of its project show.

ghost use Rattle.std.specs.Prelude.{◌≡◌, ◌≤◌, ◌+◌, ◌∷◌, [], ◌&&◌, length, not, nat_le, nat_lt, IfSome, IsTrue, if◌then◌else◌};
ghost use Rattle.vmv_keeper.specs.Formed.{IsDone};
ghost use Rattle.vmv_desk_rules.specs.Replies.{may_refuse, refuses_adding, refuses_submitting, refuses_withdrawing, refuses_accepting, refuses_waiving};
ghost use Rattle.vmv_keeper.specs.Tables.{is_same, root_after};
ghost use Rattle.vmv_desk_rules.specs.Causes.{cause_if};
ghost use Rattle.vmv_desk.specs.AtHand.{first_cause, causes_at, has_member, is_queued, reply_at, against_at, effect_at};

use crate::queue::Queue;
use vmv_desk_rules::Effect;
use vmv_keeper::{Act, Held, Label, Reply};

/// Whether a caller is a member of a project.
pub(crate) fn is_member(held: &Held, caller: &Label) -> bool
    ensures { result ≡ has_member held.now caller.now }
{
    held.members
        .as_slice()
        .iter()
        .any(|member| *member == *caller)
}

/// The number of a project's latest root.
pub(crate) fn root_of(held: &Held) -> u32
    ensures { result ≡ root_after 0 held.now.versions }
{
    let mut root = 0;
    for row in held.versions.as_slice() {
        if row.is_root() {
            root = row.number;
        }
    }
    root
}

fn adding_cause(caller: &Label, owner: &Label, member: &Label, held: &Held) -> Option<Reply>
    ensures may { IfSome result (λ r. IsTrue (refuses_adding r)) }
    ensures cause { result ≡ first_cause (cause_if (not (is_same caller.now owner.now)) Reply.NotAllowed ∷ cause_if (not (has_member held.now member.now) && nat_le 64 (length held.now.members)) (Reply.Full 3) ∷ []) }
{
    if *caller != *owner {
        return Some(Reply::NotAllowed);
    }
    if !is_member(held, member) && held.members.len() >= 64 {
        return Some(Reply::Full { which: 3 });
    }
    None
}

fn submitting_cause(held: &Held, queue: &Queue) -> Option<Reply>
    ensures may { IfSome result (λ r. IsTrue (refuses_submitting r)) }
    ensures cause { result ≡ first_cause (cause_if (nat_le 32 (length queue.now.pending)) (Reply.Full 4) ∷ cause_if (nat_lt 1000000 held.now.next) (Reply.Full 5) ∷ []) }
{
    if queue.is_full() {
        return Some(Reply::Full { which: 4 });
    }
    if held.next > 1_000_000 {
        return Some(Reply::Full { which: 5 });
    }
    None
}

fn queued_cause(queue: &Queue, submission: u32) -> Option<Reply>
    ensures may { IfSome result (λ r. IsTrue (refuses_withdrawing r)) }
    ensures cause { result ≡ first_cause (cause_if (not (is_queued queue.now submission)) Reply.NotFound ∷ []) }
{
    if queue.holds(submission) {
        None
    } else {
        Some(Reply::NotFound)
    }
}

fn moving_cause(held: &Held, queue: &Queue, submission: u32) -> Option<Reply>
    ensures may { IfSome result (λ r. IsTrue (refuses_accepting r) × IsTrue (refuses_waiving r)) }
    ensures cause { result ≡ first_cause (cause_if (not (is_queued queue.now submission)) Reply.NotFound ∷ cause_if (nat_le 1024 (length held.now.versions)) (Reply.Full 6) ∷ []) }
{
    if !queue.holds(submission) {
        return Some(Reply::NotFound);
    }
    if held.versions.len() >= 1024 {
        return Some(Reply::Full { which: 6 });
    }
    None
}

fn waiving_cause(
    caller: &Label,
    owner: &Label,
    held: &Held,
    queue: &Queue,
    submission: u32,
) -> Option<Reply>
    ensures may { IfSome result (λ r. IsTrue (refuses_waiving r)) }
    ensures cause { result ≡ first_cause (cause_if (not (is_same caller.now owner.now)) Reply.NotAllowed ∷ cause_if (not (is_queued queue.now submission)) Reply.NotFound ∷ cause_if (nat_le 1024 (length held.now.versions)) (Reply.Full 6) ∷ []) }
{
    if *caller != *owner {
        return Some(Reply::NotAllowed);
    }
    moving_cause(held, queue, submission)
}

/// The first cause against an act that the rows of its project show.
pub(crate) fn row_cause(caller: &Label, act: &Act, held: &Held, queue: &Queue) -> Option<Reply>
    ensures may { IfSome result (λ r. IsTrue (may_refuse act.now r)) }
    ensures cause { result ≡ first_cause (causes_at caller.now act.now held.now queue.now) }
{
    match act {
        Act::OpenProject { .. } => None,
        Act::AddMember { owner, member, .. } => adding_cause(caller, owner, member, held),
        Act::Submit { .. } => submitting_cause(held, queue),
        Act::Withdraw { submission, .. } => queued_cause(queue, *submission),
        Act::Accept { submission, .. } => moving_cause(held, queue, *submission),
        Act::Waive {
            owner,
            submission,
            ..
        } => waiving_cause(caller, owner, held, queue, *submission),
    }
}

fn members_after(held: &Held, member: &Label) -> u32
    requires { length held.now.members ≤ 64 }
    ensures { result ≡ (if has_member held.now member.now then length held.now.members else length held.now.members + 1) }
{
    if is_member(held, member) {
        held.members.len() as u32
    } else {
        held.members.len() as u32 + 1
    }
}

fn reply_to(act: &Act, held: &Held) -> Reply
    requires members { length held.now.members ≤ 64 }
    requires versions { length held.now.versions ≤ 1024 }
    ensures reply { result ≡ reply_at act.now held.now }
    ensures done { IsDone act.now result }
{
    match act {
        Act::OpenProject { .. } => Reply::Opened { version: 1 },
        Act::AddMember { member, .. } => Reply::Members {
            count: members_after(held, member),
        },
        Act::Submit { .. } => Reply::Submitted {
            submission: held.next,
        },
        Act::Withdraw { submission, .. } => Reply::Withdrawn {
            submission: *submission,
        },
        Act::Accept { .. } => Reply::Accepted {
            version: held.versions.len() as u32 + 1,
        },
        Act::Waive { .. } => Reply::Waived {
            version: held.versions.len() as u32 + 1,
        },
    }
}

fn against_of(act: &Act, held: &Held) -> u32
    ensures { result ≡ against_at act.now held.now }
{
    match act {
        Act::Accept { .. } => root_of(held),
        _ => 0,
    }
}

/// What an act leaves that is done.
pub(crate) fn effect_on(act: &Act, held: &Held) -> Effect
    requires members { length held.now.members ≤ 64 }
    requires versions { length held.now.versions ≤ 1024 }
    ensures effect { result ≡ effect_at act.now held.now }
    ensures done { IsDone act.now result.reply }
{
    Effect {
        reply: reply_to(act, held),
        against: against_of(act, held),
    }
}
