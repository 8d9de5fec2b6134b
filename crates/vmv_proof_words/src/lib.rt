//! The words of a line, and the names and numbers that they tell. Nothing here takes memory.
#![tactic(auto)]

mod number;
mod words;

pub use number::{bound_of, count_of, end_of, is_number, natural_of};
pub use words::Words;
