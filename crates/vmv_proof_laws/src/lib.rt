//! Laws of proofs: a base and a revision have one proof, and the checker accepts it.
#![tactic(auto)]

mod laws;

pub use laws::{proofs_are_unique, proofs_of_reviews_are_accepted};
