//! The proof of a review, and the report and the proof from one making of the tables.
#![tactic(auto)]

mod judged;
mod limit;
mod making;
mod stop;

pub use judged::{Judged, judge_with_proof};
pub use limit::{is_within_limit, proof_of};
pub use making::proof_made;
pub use stop::ProofStop;
