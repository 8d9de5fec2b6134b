ghost use Rattle.std.specs.Prelude.{◌≡◌};
ghost use Rattle.vmv_routes.specs.Asked.{aim_of};

use crate::path::{ProjectPath, SubmissionPath, project_in, submission_in};
use crate::route::Route;
use vmv_keeper::{Act, Label, Query};

/// An act without what the body tells of it.
#[derive(Debug, Drop)]
pub(crate) enum Draft {
    Open,
    AddMember { owner: Label, project: Label },
    Submit { owner: Label, project: Label },
    /// One of which the body tells no more.
    Whole(Act),
}

/// What a path asks for.
#[derive(Debug, Drop)]
pub(crate) enum Aim {
    Change(Draft),
    Ask(Query),
}

fn members(path: ProjectPath) -> Aim
    ensures { result ≡ Aim.Change (Draft.AddMember path.owner path.project) }
{
    Aim::Change(Draft::AddMember {
        owner: path.owner,
        project: path.project,
    })
}

fn submissions(path: ProjectPath) -> Aim
    ensures { result ≡ Aim.Change (Draft.Submit path.owner path.project) }
{
    Aim::Change(Draft::Submit {
        owner: path.owner,
        project: path.project,
    })
}

fn base(path: ProjectPath) -> Aim
    ensures { result ≡ Aim.Ask (Query.Base path.owner path.project) }
{
    Aim::Ask(Query::Base {
        owner: path.owner,
        project: path.project,
    })
}

fn history(path: ProjectPath) -> Aim
    ensures { result ≡ Aim.Ask (Query.History path.owner path.project) }
{
    Aim::Ask(Query::History {
        owner: path.owner,
        project: path.project,
    })
}

fn pending(path: ProjectPath) -> Aim
    ensures { result ≡ Aim.Ask (Query.Pending path.owner path.project) }
{
    Aim::Ask(Query::Pending {
        owner: path.owner,
        project: path.project,
    })
}

fn withdraw(path: SubmissionPath) -> Aim
    ensures { result ≡ Aim.Change (Draft.Whole (Act.Withdraw path.owner path.project path.submission)) }
{
    Aim::Change(Draft::Whole(Act::Withdraw {
        owner: path.owner,
        project: path.project,
        submission: path.submission,
    }))
}

fn accept(path: SubmissionPath) -> Aim
    ensures { result ≡ Aim.Change (Draft.Whole (Act.Accept path.owner path.project path.submission)) }
{
    Aim::Change(Draft::Whole(Act::Accept {
        owner: path.owner,
        project: path.project,
        submission: path.submission,
    }))
}

fn waive(path: SubmissionPath) -> Aim
    ensures { result ≡ Aim.Change (Draft.Whole (Act.Waive path.owner path.project path.submission)) }
{
    Aim::Change(Draft::Whole(Act::Waive {
        owner: path.owner,
        project: path.project,
        submission: path.submission,
    }))
}

fn report(path: SubmissionPath) -> Aim
    ensures { result ≡ Aim.Ask (Query.ReportOf path.owner path.project path.submission) }
{
    Aim::Ask(Query::ReportOf {
        owner: path.owner,
        project: path.project,
        submission: path.submission,
    })
}

/// What the path of a route asks for, where its parts can be read.
pub(crate) fn aim_of(route: Route, path: &[u8]) -> Option<Aim>
    ensures { result ≡ aim_of route path.now }
{
    Some(match route {
        Route::Projects => Aim::Change(Draft::Open),
        Route::Members => members(project_in(path)?),
        Route::Submissions => submissions(project_in(path)?),
        Route::Withdraw => withdraw(submission_in(path)?),
        Route::Accept => accept(submission_in(path)?),
        Route::Waive => waive(submission_in(path)?),
        Route::Report => report(submission_in(path)?),
        Route::Base => base(project_in(path)?),
        Route::History => history(project_in(path)?),
        Route::Pending => pending(project_in(path)?),
    })
}
