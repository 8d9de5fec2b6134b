//! Laws of states: each operation on states has a result, for states that no code holds too.
//!
//! Most results are there only in that they cannot be missing: `¬ (¬ ..)`, which serves where the goal is one that
//! cannot be false.
#![tactic(auto)]

mod laws;

pub use laws::{
    an_empty_condition_exists, argument_states_exist, assignments_exist, entered_states_exist,
    freed_states_exist, guards_exist, joins_exist, joins_of_normal_states_are_normal,
    meets_of_conditions_exist, norms_exist, ranges_exist,
};
