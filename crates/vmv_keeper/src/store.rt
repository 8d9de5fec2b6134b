ghost use Rattle.std.specs.Prelude.{◌≡◌, ◌≤◌, ◌↔◌, map, count_by, IfOk, IfSome, OnOk, OnErr, IsTrue, IsUtf8};
ghost use Rattle.vmv_keeper.specs.Tables.{no_rows, is_same, project_in, version_of, waiting_as, change_under, bench_of, held_of, benches_in, held_in, text_in, submission_in, kept_in, reply_count};
ghost use Rattle.vmv_keeper.specs.Formed.{AreBenches, IsHeld, IsDone};
ghost use Rattle.vmv_keeper.specs.Changes.{Fits, after};
ghost use Rattle.std.specs.Option.{option_copied};

use crate::change::{Change, Kept};
use crate::changing::make_change;
use crate::fitting::fits;
use crate::label::Label;
use crate::project::{Bench, Benches, Held, Project, Submitted, Version, Waiting};
use crate::reply::VersionRows;
use crate::rows::Rows;
use std::alloc::{AllocError, Global};
use std::marker::Model;
use vmv_edge::Text;

/// Rows in memory. They are well formed.
#[derive(Debug, Drop)]
pub(crate) struct Store {
    projects: Vec<Project>,
    replies: Vec<Change>,
}

impl Model for Store {
    ghost use Rattle.vmv_keeper.specs.Tables.{Tables};

    ghost Value = { Tables };

    ghost use Rattle.vmv_keeper.specs.Formed.{AreFormed};

    ghost view = { λ store. record { projects = store.projects.items; replies = store.replies.items } };

    ghost invariant = { λ store. AreFormed (record { projects = store.projects.items; replies = store.replies.items }) };
}

pub(crate) fn project_in<'a>(
    projects: &'a [Project],
    owner: &Label,
    name: &Label,
) -> Option<&'a Project>
    ensures { option_copied result ≡ project_in projects.now owner.now name.now }
{
    projects
        .iter()
        .find(|project| project.owner == *owner && project.name == *name)
}

fn version_of(project: &Project, number: u32) -> Option<&Version>
    ensures { option_copied result ≡ version_of number project.now }
{
    project
        .versions
        .as_slice()
        .iter()
        .find(|version| version.row.number == number)
}

pub(crate) fn waiting_of(project: &Project, number: u32) -> Option<&Waiting>
    ensures { option_copied result ≡ waiting_as number project.now }
{
    project
        .pending
        .as_slice()
        .iter()
        .find(|waiting| waiting.row.submission == number)
}

pub(crate) fn change_under<'a>(
    replies: &'a [Change],
    caller: &Label,
    id: &Label,
) -> Option<&'a Change>
    ensures { option_copied result ≡ change_under replies.now caller.now id.now }
{
    replies
        .iter()
        .find(|change| change.caller == *caller && change.id == *id)
}

pub(crate) fn count_of(replies: &[Change], caller: &Label) -> usize
    ensures { result ≡ count_by (λ change. is_same change.caller caller.now) replies.now }
{
    replies
        .iter()
        .filter(|change| change.caller == *caller)
        .count()
}

fn bench_of(alloc: Global, project: &Project) -> Result<Bench, AllocError>
    ensures { IfOk result (λ bench. bench ≡ bench_of project.now) }
{
    let pending: Vec<u32> = project
        .pending
        .as_slice()
        .iter()
        .map(|waiting| waiting.row.submission)
        .collect(alloc)?;
    Ok(Bench {
        owner: project.owner,
        name: project.name,
        pending: Rows::from_vec(pending),
    })
}

fn benches_of(alloc: Global, projects: &[Project]) -> Result<Benches, AllocError>
    ensures { IfOk result (λ benches. benches ≡ map bench_of projects.now) }
{
    let mut benches = Rows::new(alloc);
    for project in projects {
        benches.push(bench_of(alloc, project)?)?;
    }
    Ok(benches)
}

fn rows_of(alloc: Global, versions: &[Version]) -> Result<VersionRows, AllocError>
    ensures { IfOk result (λ rows. rows ≡ map (λ version. version.row) versions.now) }
{
    let mut rows = Rows::new(alloc);
    for version in versions {
        rows.push(version.row)?;
    }
    Ok(rows)
}

fn held_of(alloc: Global, project: &Project) -> Result<Held, AllocError>
    ensures { IfOk result (λ held. held ≡ held_of project.now) }
{
    Ok(Held {
        members: project.members.copy(alloc)?,
        versions: rows_of(alloc, project.versions.as_slice())?,
        next: project.next,
    })
}

impl Store {
    pub(crate) fn new(alloc: Global) -> Store
        ensures { result ≡ no_rows }
    {
        Store {
            projects: Vec::new(alloc),
            replies: Vec::new(alloc),
        }
    }

    pub(crate) fn benches(&self, alloc: Global) -> Result<Benches, AllocError>
        ensures told { IfOk result (λ benches. benches ≡ benches_in self.now) }
        ensures formed { IfOk result AreBenches }
    {
        benches_of(alloc, self.projects.as_slice())
    }

    pub(crate) fn load(
        &self,
        alloc: Global,
        owner: &Label,
        name: &Label,
    ) -> Result<Option<Held>, AllocError>
        ensures told { IfOk result (λ found. found ≡ held_in owner.now name.now self.now) }
        ensures formed { IfOk result (λ found. IfSome found (IsHeld owner.now)) }
    {
        match project_in(self.projects.as_slice(), owner, name) {
            Some(project) => Ok(Some(held_of(alloc, project)?)),
            None => Ok(None),
        }
    }

    pub(crate) fn text(
        &self,
        alloc: Global,
        owner: &Label,
        name: &Label,
        number: u32,
    ) -> Result<Option<Text>, AllocError>
        ensures told { IfOk result (λ found. found ≡ text_in owner.now name.now number self.now) }
        ensures formed { IfOk result (λ found. IfSome found IsUtf8) }
    {
        let Some(project) = project_in(self.projects.as_slice(), owner, name) else {
            return Ok(None);
        };
        match version_of(project, number) {
            Some(version) => Ok(Some(version.text.copy(alloc)?)),
            None => Ok(None),
        }
    }

    pub(crate) fn submission(
        &self,
        alloc: Global,
        owner: &Label,
        name: &Label,
        number: u32,
    ) -> Result<Option<Submitted>, AllocError>
        ensures told { IfOk result (λ found. found ≡ submission_in owner.now name.now number self.now) }
        ensures formed { IfOk result (λ found. IfSome found (λ submitted. IsUtf8 submitted.text)) }
    {
        let Some(project) = project_in(self.projects.as_slice(), owner, name) else {
            return Ok(None);
        };
        match waiting_of(project, number) {
            Some(waiting) => Ok(Some(Submitted {
                by: waiting.row.by,
                text: waiting.text.copy(alloc)?,
            })),
            None => Ok(None),
        }
    }

    pub(crate) fn reply_of(
        &self,
        alloc: Global,
        caller: &Label,
        id: &Label,
    ) -> Result<Option<Kept>, AllocError>
        ensures told { IfOk result (λ found. found ≡ kept_in caller.now id.now self.now) }
        ensures formed { IfOk result (λ found. IfSome found (λ kept. IsDone kept.act kept.reply)) }
    {
        match change_under(self.replies.as_slice(), caller, id) {
            Some(change) => Ok(Some(Kept {
                act: change.act.copy(alloc)?,
                reply: change.reply.copy(alloc)?,
            })),
            None => Ok(None),
        }
    }

    pub(crate) fn replies(&self, caller: &Label) -> u32
        ensures told { result ≡ reply_count self.now caller.now }
        ensures formed { result ≤ 100000 }
    {
        count_of(self.replies.as_slice(), caller) as u32
    }

    pub(crate) fn fits(&self, change: &Change) -> bool
        ensures { IsTrue result ↔ Fits self.now change.now }
    {
        fits(self.projects.as_slice(), self.replies.as_slice(), change)
    }

    pub(crate) fn commit(&mut self, alloc: Global, change: &Change) -> Result<(), AllocError>
        requires { Fits self.old change.now }
        ensures done { OnOk result (self.new ≡ after change.now self.old) }
        ensures refused { OnErr result (self.new ≡ self.old) }
    {
        make_change(alloc, &mut self.projects, &mut self.replies, change)
    }
}
