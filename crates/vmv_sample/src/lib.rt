//! The programs of a sample: a base with many entries, and a revision of it that asks for more of its outside name.
#![tactic(auto)]

mod blocks;
mod laws;
mod names;
mod program;

pub use laws::sample_texts_are_short;
pub use program::sample_text;
