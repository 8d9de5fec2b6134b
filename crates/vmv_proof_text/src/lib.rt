//! The texts of proofs: what they are, and the canonical one of a proof.
#![tactic(auto)]

mod bounds;
mod measure;
mod states;
mod tables;
mod words;
mod write;

pub use measure::proof_length;
pub use write::write_proof;
