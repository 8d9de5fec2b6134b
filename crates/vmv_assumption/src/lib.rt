//! Assumptions about the answers of outside functions: a condition for each outside name of a program.
#![tactic(auto)]

mod assumed;
mod laws;

pub use assumed::Assumption;
pub use laws::{
    answers_within_meet, below_itself, below_through, cut_is_below, cut_is_monotone,
    every_environment_is_within_whole, kept_is_below, kept_is_monotone, meeting_is_monotone,
    within_is_monotone, within_what_is_cut, within_what_is_kept,
};
