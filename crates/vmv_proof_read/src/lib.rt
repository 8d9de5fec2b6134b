//! Proofs, read from their texts: a text is read exactly where it is that of a proof, with the first line that departs.
#![tactic(auto)]

mod fault;
mod laws;
mod lines;
mod proof;
mod read;
mod tables;

pub use fault::ProofFault;
pub use laws::{a_text_departs_once, a_text_is_of_one_proof, proofs_of_texts_are_few};
pub use read::read_proof;
