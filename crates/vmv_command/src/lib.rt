//! The commands over texts: from the words of the command line to the printed bytes and the status.
#![tactic(auto)]

mod baselines;
mod command;
mod faults;
mod files;
mod output;
mod rechecks;
mod replays;
mod review;
mod samples;
mod summary;

pub use command::run_command;

// The most bytes that a text of a program or of a witness may have, as a number and as a size.
pub(crate) const TEXT_MOST: u32 = 1_048_576;

pub(crate) const TEXT_MOST_BYTES: usize = 1_048_576;

// The most bytes that the text of a proof may have.
pub(crate) const PROOF_MOST: u32 = 67_108_864;

pub(crate) const PROOF_MOST_BYTES: usize = 67_108_864;
