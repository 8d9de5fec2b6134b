//! The desk: who may do what with a project, over any store of rows and any judge of texts.
#![tactic(auto)]

mod asking;
mod changing;
mod committing;
mod desk;
mod judging;
mod outcomes;
mod places;
mod queue;
mod queues;
mod row_causes;

pub use desk::{Desk, StartFault};
pub use vmv_desk_rules::{OldRow, OldRows, migrate};
pub use vmv_keeper::{
    Act, Bench, Benches, Change, Command, Compared, Held, Inspected, Judge, KeepFault, Keeper,
    Kept, Label, Labels, Numbers, PendingRow, PendingRows, Query, Reply, Submitted, VersionRow,
    VersionRows,
};
