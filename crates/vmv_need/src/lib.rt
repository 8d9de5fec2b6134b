//! The necessary conditions of a program: what the answers of its outside names have to meet in every environment that
//! is safe for it.
#![tactic(auto)]

mod candidate;
mod cut;
mod death;
mod dooming;
mod finding;
mod gather;
mod judge;
mod laws;
mod needed;
mod plan;
mod round;
mod shown;
mod subject;
mod vacuous;

pub use candidate::Candidate;
pub use cut::{Cut, Cuts};
pub use finding::necessary;
pub use gather::{EntryThresholds, all_thresholds};
pub use laws::{
    a_program_has_one_scope, cuts_in_any_order_lead_to_the_necessary,
    necessary_conditions_are_unique, necessary_conditions_exist, rounds_end_in_the_necessary,
    rounds_record_one_list, safe_environments_meet_the_necessary,
    vacuous_programs_have_no_safe_environment,
};
pub use needed::Needed;
pub use shown::ShownBy;
pub use subject::{Scope, Subject};
