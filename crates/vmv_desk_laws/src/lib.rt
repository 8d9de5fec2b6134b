//! Laws of the desk that follow from its definitions: callers are kept apart, whatever the order of their projects, a
//! command leaves other projects and other callers' replies alone, versions are never changed, the rows hold what was
//! done, failures change nothing, and chains begin with their roots.
#![tactic(auto)]

mod laws;

pub use laws::{
    a_command_has_one_step, callers_are_kept_apart, done_rows_are_held, failures_change_nothing,
    order_of_projects_is_not_seen, others_stay, roots_begin_their_chains,
    versions_are_never_changed,
};
