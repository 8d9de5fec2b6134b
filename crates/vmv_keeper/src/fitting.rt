ghost use Rattle.std.specs.Prelude.{◌≡◌, ◌↔◌, ◌⊎◌, ◌<◌, ◌≤◌, length, count_by, IsTrue, IsSome, IsSomeAnd, IsUtf8};
ghost use Rattle.std.specs.List.{AllByRecursion};
ghost use Rattle.vmv_keeper.specs.Tables.{is_member, project_in, owned_count, waiting_as};
ghost use Rattle.vmv_keeper.specs.Formed.{IsProject, AreFormed};
ghost use Rattle.vmv_keeper.specs.Changes.{with_member, Allows, ActFits, Fits, reply_to, against_of};

use crate::act::Act;
use crate::change::Change;
use crate::changing::{is_member, root_number};
use crate::label::Label;
use crate::project::Project;
use crate::reply::Reply;
use crate::store::{change_under, count_of, project_in, waiting_of};
use std::str::from_utf8;
use vmv_edge::Text;

fn is_utf8(text: &Text) -> bool
    ensures { IsTrue result ↔ IsUtf8 text.now }
{
    from_utf8(text.bytes()).is_ok()
}

fn is_opened(reply: &Reply, number: u32) -> bool
    ensures { IsTrue result ↔ (reply.now ≡ Reply.Opened number) }
{
    matches!(reply, Reply::Opened { version } if *version == number)
}

fn is_members(reply: &Reply, number: usize) -> bool
    ensures { IsTrue result ↔ (reply.now ≡ Reply.Members number) }
{
    matches!(reply, Reply::Members { count } if *count as usize == number)
}

fn is_submitted(reply: &Reply, number: u32) -> bool
    ensures { IsTrue result ↔ (reply.now ≡ Reply.Submitted number) }
{
    matches!(reply, Reply::Submitted { submission } if *submission == number)
}

fn is_withdrawn(reply: &Reply, number: u32) -> bool
    ensures { IsTrue result ↔ (reply.now ≡ Reply.Withdrawn number) }
{
    matches!(reply, Reply::Withdrawn { submission } if *submission == number)
}

fn is_accepted(reply: &Reply, number: usize) -> bool
    ensures { IsTrue result ↔ (reply.now ≡ Reply.Accepted number) }
{
    matches!(reply, Reply::Accepted { version } if *version as usize == number)
}

fn is_waived(reply: &Reply, number: usize) -> bool
    ensures { IsTrue result ↔ (reply.now ≡ Reply.Waived number) }
{
    matches!(reply, Reply::Waived { version } if *version as usize == number)
}

fn members_after(project: &Project, member: &Label) -> usize
    requires { length project.now.members ≤ 64 }
    ensures { result ≡ length (with_member member.now project.now).members }
{
    if is_member(project, member) {
        project.members.len()
    } else {
        project.members.len() + 1
    }
}

fn has_reply(project: &Project, act: &Act, reply: &Reply) -> bool
    requires { IsProject project.now }
    ensures { IsTrue result ↔ (reply.now ≡ reply_to act.now project.now) }
{
    match act {
        Act::OpenProject { .. } => is_opened(reply, 1),
        Act::AddMember { member, .. } => is_members(reply, members_after(project, member)),
        Act::Submit { .. } => is_submitted(reply, project.next),
        Act::Withdraw { submission, .. } => is_withdrawn(reply, *submission),
        Act::Accept { .. } => is_accepted(reply, project.versions.len() + 1),
        Act::Waive { .. } => is_waived(reply, project.versions.len() + 1),
    }
}

// The number of the version that the act's submission is judged against.
fn against_of(project: &Project, act: &Act) -> u32
    ensures { result ≡ against_of act.now project.now }
{
    match act {
        Act::Accept { .. } => root_number(project),
        _ => 0,
    }
}

fn has_place(project: &Project, member: &Label) -> bool
    ensures { IsTrue result ↔ (IsTrue (is_member project.now member.now) ⊎ (length project.now.members < 64)) }
{
    is_member(project, member) || project.members.len() < 64
}

fn has_room(project: &Project, text: &Text) -> bool
    ensures { IsTrue result ↔ ((length project.now.pending < 32) × (project.now.next ≤ 1000000) × IsUtf8 text.now) }
{
    project.pending.len() < 32 && project.next <= 1_000_000 && is_utf8(text)
}

fn is_waiting(project: &Project, number: u32) -> bool
    ensures { IsTrue result ↔ IsSome (waiting_as number project.now) }
{
    waiting_of(project, number).is_some()
}

fn may_move(project: &Project, number: u32) -> bool
    ensures { IsTrue result ↔ (IsSome (waiting_as number project.now) × (length project.now.versions < 1024)) }
{
    is_waiting(project, number) && project.versions.len() < 1024
}

fn allows(project: &Project, caller: &Label, act: &Act) -> bool
    ensures { IsTrue result ↔ Allows caller.now act.now project.now }
{
    match act {
        Act::OpenProject { .. } => false,
        Act::AddMember { owner, member, .. } => caller.is_same(owner) && has_place(project, member),
        Act::Submit { text, .. } => has_room(project, text),
        Act::Withdraw { submission, .. } => is_waiting(project, *submission),
        Act::Accept { submission, .. } => may_move(project, *submission),
        Act::Waive {
            owner,
            submission,
            ..
        } => caller.is_same(owner) && may_move(project, *submission),
    }
}

fn fits_project(project: &Project, caller: &Label, act: &Act, reply: &Reply, against: u32) -> bool
    requires { IsProject project.now }
    ensures { IsTrue result ↔ (IsTrue (is_member project.now caller.now) × Allows caller.now act.now project.now × (reply.now ≡ reply_to act.now project.now) × (against ≡ against_of act.now project.now)) }
{
    is_member(project, caller)
        && allows(project, caller, act)
        && has_reply(project, act, reply)
        && against == against_of(project, act)
}

fn owned_count(projects: &[Project], owner: &Label) -> usize
    ensures { result ≡ owned_count projects.now owner.now }
{
    projects
        .iter()
        .filter(|project| project.owner == *owner)
        .count()
}

fn may_open(projects: &[Project], caller: &Label, name: &Label, text: &Text) -> bool
    ensures { IsTrue result ↔ ((project_in projects.now caller.now name.now ≡ None) × (owned_count projects.now caller.now < 64) × IsUtf8 text.now) }
{
    project_in(projects, caller, name).is_none()
        && owned_count(projects, caller) < 64
        && is_utf8(text)
}

fn fits_named(
    projects: &[Project],
    owner: &Label,
    name: &Label,
    caller: &Label,
    act: &Act,
    reply: &Reply,
    against: u32,
) -> bool
    requires { AllByRecursion IsProject projects.now }
    ensures { IsTrue result
        ↔ IsSomeAnd (project_in projects.now owner.now name.now)
        (λ p. IsTrue (is_member p caller.now) × Allows caller.now act.now p × (reply.now ≡ reply_to act.now p) × (against ≡ against_of act.now p)) }
{
    match project_in(projects, owner, name) {
        Some(project) => fits_project(project, caller, act, reply, against),
        None => false,
    }
}

fn act_fits(projects: &[Project], caller: &Label, act: &Act, reply: &Reply, against: u32) -> bool
    requires { AllByRecursion IsProject projects.now }
    ensures { IsTrue result ↔ ActFits projects.now caller.now act.now reply.now against }
{
    match act {
        Act::OpenProject { name, text } => may_open(projects, caller, name, text)
            && is_opened(reply, 1)
            && against == 0,
        Act::AddMember { owner, project, .. }
        | Act::Submit { owner, project, .. }
        | Act::Withdraw { owner, project, .. }
        | Act::Accept { owner, project, .. }
        | Act::Waive { owner, project, .. } => fits_named(
            projects, owner, project, caller, act, reply, against,
        ),
    }
}

// Whether a change fits well formed rows.
pub(crate) fn fits(projects: &[Project], replies: &[Change], change: &Change) -> bool
    requires { AllByRecursion IsProject projects.now }
    ensures { IsTrue result ↔ Fits (record { projects = projects.now; replies = replies.now }) change.now }
{
    change_under(replies, &change.caller, &change.id).is_none()
        && count_of(replies, &change.caller) < 100_000
        && act_fits(
            projects,
            &change.caller,
            &change.act,
            &change.reply,
            change.against,
        )
}
