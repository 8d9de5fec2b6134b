//! A law of snapshots that follows from their definitions: a program has one resolved tree.
#![tactic(auto)]

mod laws;

pub use laws::resolutions_are_unique;
