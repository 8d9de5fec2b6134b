//! Laws of tables under smaller assumptions, which follow from their definitions: a row's walk goes on from a lower
//! state, so a table that is accepted stays accepted, and what tables show stays shown.
#![tactic(auto)]

mod laws;

pub use laws::{
    accepted_tables_are_never_refused, accepted_tables_stay_accepted, dead_is_kept,
    each_walk_ends_some_way, lower_walks_pass, provable_is_kept, smaller_assumptions_accept,
};
