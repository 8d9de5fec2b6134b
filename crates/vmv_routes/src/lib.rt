//! What a request whose head was read asks of the desk, by its route and its body, or why it is refused.
#![tactic(auto)]

mod aim;
mod asked;
mod body;
mod laws;
mod path;
mod route;

pub use asked::command_of;
pub use laws::{
    parts_are_read_in_their_places, queries_decide_nothing, routes_are_matched_part_by_part,
};
pub use route::Route;
