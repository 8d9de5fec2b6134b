ghost use Rattle.std.specs.Prelude.{◌≡◌, ◌≤◌, ◌++◌, ◌∷◌, [], length, IfOk, OnOk, OnErr};
ghost use Rattle.std.specs.List.{AllByRecursion, position};
ghost use Rattle.vmv_keeper.specs.Tables.{is_member, is_named, is_submission, root_number};
ghost use Rattle.vmv_keeper.specs.Formed.{IsProject};
ghost use Rattle.vmv_keeper.specs.Changes.{opened, with_member, with_submission, without_submission, waiting_text, with_version, changed, project_after, projects_after, after};

use crate::act::Act;
use crate::change::Change;
use crate::label::Label;
use crate::project::{Project, Version, Waiting};
use crate::reply::{PendingRow, VersionRow};
use crate::rows::Rows;
use crate::store::waiting_of;
use std::alloc::{AllocError, Global};
use vmv_edge::Text;

pub(crate) fn is_member(project: &Project, caller: &Label) -> bool
    ensures { result ≡ is_member project.now caller.now }
{
    project
        .members
        .as_slice()
        .iter()
        .any(|member| *member == *caller)
}

fn opened(alloc: Global, caller: &Label, name: &Label, text: &Text) -> Result<Project, AllocError>
    ensures { IfOk result (λ project. project ≡ opened caller.now name.now text.now) }
{
    let row = VersionRow {
        number: 1,
        kind: 1,
        submission: 0,
        by: *caller,
        against: 0,
    };
    let first = Version {
        row,
        text: text.copy(alloc)?,
    };
    Ok(Project {
        owner: *caller,
        name: *name,
        members: Rows::of(alloc, *caller)?,
        versions: Rows::of(alloc, first)?,
        next: 1,
        pending: Rows::new(alloc),
    })
}

fn add_member(project: &mut Project, member: &Label) -> Result<(), AllocError>
    ensures done { OnOk result (project.new ≡ with_member member.now project.old) }
    ensures refused { OnErr result (project.new ≡ project.old) }
{
    if is_member(project, member) {
        return Ok(());
    }
    project.members.push(*member)
}

fn add_submission(
    alloc: Global,
    project: &mut Project,
    caller: &Label,
    text: &Text,
) -> Result<(), AllocError>
    requires { project.old.next ≤ 1000001 }
    ensures done { OnOk result (project.new ≡ with_submission caller.now text.now project.old) }
    ensures refused { OnErr result (project.new ≡ project.old) }
{
    let row = PendingRow {
        submission: project.next,
        by: *caller,
    };
    project.pending.push(Waiting {
        row,
        text: text.copy(alloc)?,
    })?;
    project.next += 1;
    Ok(())
}

fn waiting_place(project: &Project, number: u32) -> Option<usize>
    ensures { result ≡ position (is_submission number) project.now.pending }
{
    project
        .pending
        .as_slice()
        .iter()
        .position(|waiting| waiting.row.submission == number)
}

fn remove_submission(project: &mut Project, number: u32)
    ensures { project.new ≡ without_submission number project.old }
{
    if let Some(place) = waiting_place(project, number) {
        project.pending.remove(place);
    }
}

fn waiting_text(alloc: Global, project: &Project, number: u32) -> Result<Text, AllocError>
    ensures { IfOk result (λ text. text ≡ waiting_text number project.now) }
{
    match waiting_of(project, number) {
        Some(waiting) => waiting.text.copy(alloc),
        None => Ok(Text::new(alloc)),
    }
}

// The number of the project's latest root.
pub(crate) fn root_number(project: &Project) -> u32
    ensures { result ≡ root_number project.now }
{
    let mut root = 0;
    for version in project.versions.as_slice() {
        if version.row.is_root() {
            root = version.row.number;
        }
    }
    root
}

fn add_version(
    alloc: Global,
    project: &mut Project,
    kind: u8,
    against: u32,
    caller: &Label,
    number: u32,
) -> Result<(), AllocError>
    requires { length project.old.versions ≤ 1024 }
    ensures done { OnOk result (project.new ≡ with_version kind against caller.now number project.old) }
    ensures refused { OnErr result (project.new ≡ project.old) }
{
    let row = VersionRow {
        number: project.versions.len() as u32 + 1,
        kind,
        submission: number,
        by: *caller,
        against,
    };
    let text = waiting_text(alloc, project, number)?;
    project.versions.push(Version { row, text })?;
    remove_submission(project, number);
    Ok(())
}

// Does an act on the project that it is about.
fn act_on(alloc: Global, project: &mut Project, caller: &Label, act: &Act) -> Result<(), AllocError>
    requires { IsProject project.old }
    ensures done { OnOk result (project.new ≡ project_after caller.now act.now project.old) }
    ensures refused { OnErr result (project.new ≡ project.old) }
{
    match act {
        Act::OpenProject { .. } => Ok(()),
        Act::AddMember { member, .. } => add_member(project, member),
        Act::Submit { text, .. } => add_submission(alloc, project, caller, text),
        Act::Withdraw { submission, .. } => {
            remove_submission(project, *submission);
            Ok(())
        }
        Act::Accept { submission, .. } => {
            let against = root_number(project);
            add_version(alloc, project, 2, against, caller, *submission)
        }
        Act::Waive { submission, .. } => add_version(alloc, project, 3, 0, caller, *submission),
    }
}

fn place_of(projects: &[Project], owner: &Label, name: &Label) -> Option<usize>
    ensures { result ≡ position (is_named owner.now name.now) projects.now }
{
    projects
        .iter()
        .position(|project| project.owner == *owner && project.name == *name)
}

fn act_on_named(
    alloc: Global,
    projects: &mut Vec<Project>,
    owner: &Label,
    name: &Label,
    caller: &Label,
    act: &Act,
) -> Result<(), AllocError>
    requires { AllByRecursion IsProject projects.old.items }
    ensures done { OnOk result (projects.new.items ≡ changed (is_named owner.now name.now) (project_after caller.now act.now) projects.old.items) }
    ensures refused { OnErr result (projects.new.items ≡ projects.old.items) }
{
    match place_of(projects.as_slice(), owner, name) {
        Some(place) => act_on(alloc, &mut projects[place], caller, act),
        None => Ok(()),
    }
}

fn open_project(
    alloc: Global,
    projects: &mut Vec<Project>,
    caller: &Label,
    name: &Label,
    text: &Text,
) -> Result<(), AllocError>
    ensures done { OnOk result (projects.new.items ≡ projects.old.items ++ opened caller.now name.now text.now ∷ []) }
    ensures refused { OnErr result (projects.new.items ≡ projects.old.items) }
{
    projects.push(opened(alloc, caller, name, text)?)?;
    Ok(())
}

fn act_on_projects(
    alloc: Global,
    projects: &mut Vec<Project>,
    caller: &Label,
    act: &Act,
) -> Result<(), AllocError>
    requires { AllByRecursion IsProject projects.old.items }
    ensures done { OnOk result (projects.new.items ≡ projects_after caller.now act.now projects.old.items) }
    ensures refused { OnErr result (projects.new.items ≡ projects.old.items) }
{
    match act {
        Act::OpenProject { name, text } => open_project(alloc, projects, caller, name, text),
        Act::AddMember { owner, project, .. }
        | Act::Submit { owner, project, .. }
        | Act::Withdraw { owner, project, .. }
        | Act::Accept { owner, project, .. }
        | Act::Waive { owner, project, .. } => act_on_named(
            alloc, projects, owner, project, caller, act,
        ),
    }
}

// Makes a change, and keeps it behind those that were made: both, or nothing.
pub(crate) fn make_change(
    alloc: Global,
    projects: &mut Vec<Project>,
    replies: &mut Vec<Change>,
    change: &Change,
) -> Result<(), AllocError>
    requires { AllByRecursion IsProject projects.old.items }
    ensures projects { OnOk result (projects.new.items ≡ projects_after change.now.caller change.now.act projects.old.items) }
    ensures replies { OnOk result (replies.new.items ≡ replies.old.items ++ change.now ∷ []) }
    ensures projects_refused { OnErr result (projects.new.items ≡ projects.old.items) }
    ensures replies_refused { OnErr result (replies.new.items ≡ replies.old.items) }
{
    replies.push(change.copy(alloc)?)?;
    let done = act_on_projects(alloc, projects, &change.caller, &change.act);
    if done.is_err() {
        let _ = replies.pop();
    }
    done
}
