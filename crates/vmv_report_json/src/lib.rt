//! The report of a review as JSON.
#![tactic(auto)]

mod conditions;
mod json;
mod laws;
mod rows;
mod strings;

pub use json::json_of;
pub use laws::{names_are_their_strings, witnesses_are_their_texts};
