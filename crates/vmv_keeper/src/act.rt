ghost use Rattle.std.specs.Prelude.{◌≡◌, ◌↔◌, IfOk, IsTrue};

use crate::label::Label;
use std::alloc::{AllocError, Global};
use vmv_edge::Text;

/// What a caller asks to be changed. A project is named by its owner and its name.
#[derive(PartialEq, Eq, Debug, Drop)]
pub enum Act {
    /// A new project of the caller, whose first version has this text.
    OpenProject {
        name: Label,
        text: Text,
    },
    /// One more member, where he isn't one yet.
    AddMember {
        owner: Label,
        project: Label,
        member: Label,
    },
    /// A text that waits to be accepted.
    Submit {
        owner: Label,
        project: Label,
        text: Text,
    },
    /// A submission that waits no more.
    Withdraw {
        owner: Label,
        project: Label,
        submission: u32,
    },
    /// A submission that becomes the next version, judged against the latest one that was opened or waived.
    Accept {
        owner: Label,
        project: Label,
        submission: u32,
    },
    /// A submission that becomes the next version without being judged: the next ones are judged against it.
    Waive {
        owner: Label,
        project: Label,
        submission: u32,
    },
}

/// What a caller asks to be told.
#[derive(Debug, Drop)]
pub enum Query {
    ReportOf {
        owner: Label,
        project: Label,
        submission: u32,
    },
    Base {
        owner: Label,
        project: Label,
    },
    History {
        owner: Label,
        project: Label,
    },
    Pending {
        owner: Label,
        project: Label,
    },
}

/// A change under an id of the caller's, or a question.
#[derive(Debug, Drop)]
pub enum Command {
    Change { caller: Label, id: Label, act: Act },
    Ask { caller: Label, query: Query },
}

impl Act {
    /// A second act that is the same. It fails where there is no memory.
    pub fn copy(&self, alloc: Global) -> Result<Act, AllocError>
        ensures { IfOk result (λ act. act ≡ self.now) }
    {
        Ok(match self {
            Act::OpenProject { name, text } => Act::OpenProject {
                name: *name,
                text: text.copy(alloc)?,
            },
            Act::AddMember {
                owner,
                project,
                member,
            } => Act::AddMember {
                owner: *owner,
                project: *project,
                member: *member,
            },
            Act::Submit {
                owner,
                project,
                text,
            } => Act::Submit {
                owner: *owner,
                project: *project,
                text: text.copy(alloc)?,
            },
            Act::Withdraw {
                owner,
                project,
                submission,
            } => Act::Withdraw {
                owner: *owner,
                project: *project,
                submission: *submission,
            },
            Act::Accept {
                owner,
                project,
                submission,
            } => Act::Accept {
                owner: *owner,
                project: *project,
                submission: *submission,
            },
            Act::Waive {
                owner,
                project,
                submission,
            } => Act::Waive {
                owner: *owner,
                project: *project,
                submission: *submission,
            },
        })
    }
}

fn is_same_text(a: &Text, b: &Text) -> bool
    ensures { IsTrue result ↔ (a.now ≡ b.now) }
{
    *a == *b
}

// Whether an act names this project.
fn names(owner: &Label, name: &Label, other_owner: &Label, other_name: &Label) -> bool
    ensures { IsTrue result ↔ ((owner.now ≡ other_owner.now) × (name.now ≡ other_name.now)) }
{
    owner.is_same(other_owner) && name.is_same(other_name)
}

impl Act {
    fn is_open_project(&self, name: &Label, text: &Text) -> bool
        ensures { IsTrue result ↔ (self.now ≡ Act.OpenProject name.now text.now) }
    {
        match self {
            Act::OpenProject { name: n, text: t } => n.is_same(name) && is_same_text(t, text),
            _ => false,
        }
    }

    fn is_add_member(&self, owner: &Label, project: &Label, member: &Label) -> bool
        ensures { IsTrue result ↔ (self.now ≡ Act.AddMember owner.now project.now member.now) }
    {
        match self {
            Act::AddMember {
                owner: o,
                project: p,
                member: m,
            } => names(o, p, owner, project) && m.is_same(member),
            _ => false,
        }
    }

    fn is_submit(&self, owner: &Label, project: &Label, text: &Text) -> bool
        ensures { IsTrue result ↔ (self.now ≡ Act.Submit owner.now project.now text.now) }
    {
        match self {
            Act::Submit {
                owner: o,
                project: p,
                text: t,
            } => names(o, p, owner, project) && is_same_text(t, text),
            _ => false,
        }
    }

    fn is_withdraw(&self, owner: &Label, project: &Label, submission: u32) -> bool
        ensures { IsTrue result ↔ (self.now ≡ Act.Withdraw owner.now project.now submission) }
    {
        match self {
            Act::Withdraw {
                owner: o,
                project: p,
                submission: s,
            } => names(o, p, owner, project) && *s == submission,
            _ => false,
        }
    }

    fn is_accept(&self, owner: &Label, project: &Label, submission: u32) -> bool
        ensures { IsTrue result ↔ (self.now ≡ Act.Accept owner.now project.now submission) }
    {
        match self {
            Act::Accept {
                owner: o,
                project: p,
                submission: s,
            } => names(o, p, owner, project) && *s == submission,
            _ => false,
        }
    }

    fn is_waive(&self, owner: &Label, project: &Label, submission: u32) -> bool
        ensures { IsTrue result ↔ (self.now ≡ Act.Waive owner.now project.now submission) }
    {
        match self {
            Act::Waive {
                owner: o,
                project: p,
                submission: s,
            } => names(o, p, owner, project) && *s == submission,
            _ => false,
        }
    }

    /// Whether two acts are the same.
    pub fn is_same(&self, other: &Act) -> bool
        ensures { IsTrue result ↔ (self.now ≡ other.now) }
    {
        match other {
            Act::OpenProject { name, text } => self.is_open_project(name, text),
            Act::AddMember {
                owner,
                project,
                member,
            } => self.is_add_member(owner, project, member),
            Act::Submit {
                owner,
                project,
                text,
            } => self.is_submit(owner, project, text),
            Act::Withdraw {
                owner,
                project,
                submission,
            } => self.is_withdraw(owner, project, *submission),
            Act::Accept {
                owner,
                project,
                submission,
            } => self.is_accept(owner, project, *submission),
            Act::Waive {
                owner,
                project,
                submission,
            } => self.is_waive(owner, project, *submission),
        }
    }
}
