//! Abstract steps: what each resolved statement makes of a state, and where its site isn't proved to pass.
#![tactic(auto)]

mod entry;
mod fails;
mod laws;
mod passing;
mod repeat;
mod simple;
mod stepped;
mod zones;

pub use entry::{enter, enter_into};
pub use laws::{
    again_is_monotone, again_keeps_points, branch_is_monotone, branch_keeps_points,
    branches_are_normal, enter_is_monotone, enter_keeps_points, entered_states_are_normal,
    failing_sites_are_unproved, given_words_keep_points, head_is_monotone, head_keeps_points,
    heads_are_normal, leave_is_monotone, leave_keeps_points, left_slots_agree,
    outside_calls_answer_words, pass_is_monotone, pass_keeps_points, passed_states_are_normal,
    procedures_have_slots, resolved_arguments_are_inside, resolved_operands_are_inside,
    resolved_operands_have_the_value, resolved_slots_are_variables, states_behind_loops_are_normal,
    states_behind_turns_are_normal, step_is_monotone, step_keeps_points, steps_are_normal,
    turn_is_monotone, turn_keeps_points, turns_are_normal,
};
pub use passing::{pass, pass_into};
pub use repeat::{
    again, again_in_place, head, head_in_place, leave, leave_in_place, turn, turn_in_place,
};
pub use simple::{branch, branch_in_place, step, step_in_place};
pub use stepped::Stepped;
