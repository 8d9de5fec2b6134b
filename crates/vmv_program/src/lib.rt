//! The program: from the words of the command line to the printed bytes and the status, for commands over texts and for services.
#![tactic(auto)]

mod program;

pub use program::run;
