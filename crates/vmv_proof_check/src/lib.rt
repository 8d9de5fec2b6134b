//! A plain checker of proofs: for any proof from anywhere it says whether each part passes, with how many rows of the revision are
//! clean, hidden and left, or the first part, row and step that fail. Where none is left, the revision is relatively correct.
#![tactic(auto)]

mod boxes;
mod check;
mod claims;
mod count;
mod cuts;
mod entry;
mod exclusion;
mod laws;
mod shape;
mod shown;
mod sites;
mod sought;
mod tally;

pub use check::check_proof;
pub use claims::{Claims, Part, ProofRefused};
pub use laws::accepted_proofs_are_sound;
