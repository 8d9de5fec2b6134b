//! What the desk asks of a store: its rows, the acts and replies that it keeps, and a judge of texts.
#![tactic(auto)]

mod act;
mod change;
mod changing;
mod fault;
mod faultless_keeper;
mod fitting;
mod judge;
mod judge_rows;
mod keeper;
mod label;
mod laws;
mod memory_judge;
mod memory_keeper;
mod project;
mod reply;
mod rows;
mod store;

pub use act::{Act, Command, Query};
pub use change::{Change, Kept};
pub use fault::KeepFault;
pub use faultless_keeper::FaultlessKeeper;
pub use judge::{Compared, Inspected, Judge};
pub use keeper::Keeper;
pub use label::Label;
pub use laws::changes_keep_rows_formed;
pub use memory_judge::MemoryJudge;
pub use memory_keeper::MemoryKeeper;
pub use project::{Bench, Benches, Held, Labels, Numbers, Project, Submitted, Version, Waiting};
pub use reply::{PendingRow, PendingRows, Reply, VersionRow, VersionRows};
pub use rows::Rows;
