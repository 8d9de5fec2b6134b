//! The judge of texts behind the desk: a text is inspected by reading it and by what is necessary for it to be safe, and held
//! against another by the report of the two programs. What is necessary holds since the root of a project's chain.
#![tactic(auto)]

mod gate;
mod judging;
mod laws;

pub use gate::Gate;
pub use laws::{
    histories_are_correct, needs_hold_since_the_root, versions_are_correct_since_the_root,
};
pub use vmv_crew::Shared;
