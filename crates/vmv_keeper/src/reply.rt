ghost use Rattle.std.specs.Prelude.{◌≡◌, IfOk};
ghost use Rattle.vmv_keeper.specs.Tables.{is_root};

use crate::label::Label;
use crate::rows::Rows;
use std::alloc::{AllocError, Global};
use vmv_edge::Text;

/// A version of a project: its number, how it came (1 opened, 2 accepted, 3 waived), the submission that it
/// came from (0 for the first), the caller who made it, and the number of the version that it was judged
/// against (0 where it wasn't accepted).
#[derive(Clone, Copy, PartialEq, Eq, Debug, Drop)]
pub struct VersionRow {
    pub number: u32,
    pub kind: u8,
    pub submission: u32,
    pub by: Label,
    pub against: u32,
}

impl VersionRow {
    /// Whether it was opened or waived: the next submissions are judged against it.
    pub fn is_root(&self) -> bool
        ensures { result ≡ is_root self.now }
    {
        self.kind == 1 || self.kind == 3
    }
}

/// A submission that waits, and the caller who made it.
#[derive(Clone, Copy, PartialEq, Eq, Debug, Drop)]
pub struct PendingRow {
    pub submission: u32,
    pub by: Label,
}

pub type VersionRows = Rows<VersionRow>;

pub type PendingRows = Rows<PendingRow>;

/// What a command is answered.
#[derive(PartialEq, Eq, Debug, Drop)]
pub enum Reply {
    Opened {
        version: u32,
    },
    Members {
        count: u32,
    },
    Submitted {
        submission: u32,
    },
    Withdrawn {
        submission: u32,
    },
    Accepted {
        version: u32,
    },
    Waived {
        version: u32,
    },
    /// The verdict and the report against the version of this number.
    Report {
        verdict: u8,
        json: Text,
        against: u32,
    },
    Base {
        version: u32,
        text: Text,
    },
    History {
        versions: VersionRows,
    },
    Pending {
        rows: PendingRows,
    },
    /// No such project, or not one of the caller's, or no such submission.
    NotFound,
    /// The project isn't the caller's own.
    NotAllowed,
    /// A limit is reached: 1 kept replies of the caller, 2 projects of the owner, 3 members, 4 submissions
    /// that wait, 5 submissions made, 6 versions.
    Full {
        which: u8,
    },
    TextRefused {
        number: u8,
        line: u32,
        column: u32,
    },
    NotCorrect {
        verdict: u8,
    },
    /// The id was used for another act.
    IdReused,
    AlreadyOpen,
    StoreFault,
    Memory,
    VacuousText,
}

impl Reply {
    /// A second reply that is the same. It fails where there is no memory.
    pub fn copy(&self, alloc: Global) -> Result<Reply, AllocError>
        ensures { IfOk result (λ reply. reply ≡ self.now) }
    {
        Ok(match self {
            Reply::Opened { version } => Reply::Opened { version: *version },
            Reply::Members { count } => Reply::Members { count: *count },
            Reply::Submitted { submission } => Reply::Submitted {
                submission: *submission,
            },
            Reply::Withdrawn { submission } => Reply::Withdrawn {
                submission: *submission,
            },
            Reply::Accepted { version } => Reply::Accepted { version: *version },
            Reply::Waived { version } => Reply::Waived { version: *version },
            Reply::Report {
                verdict,
                json,
                against,
            } => Reply::Report {
                verdict: *verdict,
                json: json.copy(alloc)?,
                against: *against,
            },
            Reply::Base { version, text } => Reply::Base {
                version: *version,
                text: text.copy(alloc)?,
            },
            Reply::History { versions } => Reply::History {
                versions: versions.copy(alloc)?,
            },
            Reply::Pending { rows } => Reply::Pending {
                rows: rows.copy(alloc)?,
            },
            Reply::NotFound => Reply::NotFound,
            Reply::NotAllowed => Reply::NotAllowed,
            Reply::Full { which } => Reply::Full { which: *which },
            Reply::TextRefused {
                number,
                line,
                column,
            } => Reply::TextRefused {
                number: *number,
                line: *line,
                column: *column,
            },
            Reply::NotCorrect { verdict } => Reply::NotCorrect { verdict: *verdict },
            Reply::IdReused => Reply::IdReused,
            Reply::AlreadyOpen => Reply::AlreadyOpen,
            Reply::StoreFault => Reply::StoreFault,
            Reply::Memory => Reply::Memory,
            Reply::VacuousText => Reply::VacuousText,
        })
    }
}
