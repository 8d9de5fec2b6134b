use crate::label::Label;
use crate::reply::{PendingRow, VersionRow, VersionRows};
use crate::rows::Rows;
use vmv_edge::Text;

pub type Labels = Rows<Label>;

pub type Numbers = Rows<u32>;

pub type Benches = Rows<Bench>;

/// A version of a project, with its text.
#[derive(Debug, Drop)]
pub struct Version {
    pub row: VersionRow,
    pub text: Text,
}

/// A submission that waits, with its text.
#[derive(Debug, Drop)]
pub struct Waiting {
    pub row: PendingRow,
    pub text: Text,
}

/// A project: its members, the owner first; its versions from 1 on; the number of the next submission; and
/// the submissions that wait, the oldest first.
#[derive(Debug, Drop)]
pub struct Project {
    pub owner: Label,
    pub name: Label,
    pub members: Labels,
    pub versions: Rows<Version>,
    pub next: u32,
    pub pending: Rows<Waiting>,
}

/// What the desk keeps of a project at hand: the numbers of the submissions that wait.
#[derive(Debug, Drop)]
pub struct Bench {
    pub owner: Label,
    pub name: Label,
    pub pending: Numbers,
}

/// A project without its texts and without what waits.
#[derive(Debug, Drop)]
pub struct Held {
    pub members: Labels,
    pub versions: VersionRows,
    pub next: u32,
}

/// The text of a submission, and who made it.
#[derive(Debug, Drop)]
pub struct Submitted {
    pub by: Label,
    pub text: Text,
}
