//! What the desk answers, by definitions over the rows of a store, and the laws of these answers.
#![tactic(auto)]

mod laws;
mod migrating;
mod outcome;

pub use laws::{
    an_id_acts_once, done_acts_are_kept, histories_need_no_premise, migrated_rows_are_well,
    no_rows_are_well, steps_keep_rows_well, well_rows_keep_chains,
};
pub use migrating::{OldRow, OldRows, migrate};
pub use outcome::{Effect, Outcome};
