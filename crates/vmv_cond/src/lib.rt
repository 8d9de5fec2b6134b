//! Conditions on a word: a range of `i64`, perhaps without 0, or empty. Nothing here takes memory.
#![tactic(auto)]

mod cond;
mod laws;

pub use cond::{Cond, Piece};
pub use laws::{cut_is_monotone, meet_is_monotone, same_words_same_condition, within_is_monotone};
