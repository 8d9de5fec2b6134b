//! Bounds on the differences of up to 16 words and 0. Nothing here takes memory.
#![tactic(auto)]

mod args;
mod assign;
mod compute;
mod confine;
mod drop;
mod ends;
mod four;
mod guard;
mod laws;
mod marks;
mod norm;
mod operand;
mod order;
mod paths;
mod read;
mod rel;
mod round;
mod tables;
mod zone;

pub use laws::{
    assign_is_monotone, assign_is_monotone_in_the_words, assign_is_normal, assign_keeps_points,
    copy_args_is_monotone, copy_args_is_normal, copy_args_keeps_points, guard_is_monotone,
    guard_keeps_points, join_is_monotone, lower_states_have_fewer_points, norm_is_monotone,
    norm_is_unique, norm_keeps_points, normal_states_are_their_norms, range_is_monotone,
    range_keeps_points, round_up_is_monotone, states_below_each_other_are_equal,
};
pub use operand::{ZoneOp, ZoneOperand, ZoneTest, ZoneValue};
pub use rel::ZoneRel;
pub use zone::Zone;
