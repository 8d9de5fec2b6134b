//! Proofs: the tables from which a checker sees that a revision is relatively correct to its base. Values alone.
#![tactic(auto)]

mod proof;

pub use proof::{Exclusion, Exclusions, Proof, Shown, ShownList};
