//! Laws of the check of proofs that follow from its definitions: a proof has one answer, which is the counts of its rows, or the
//! part, row and step at which it is refused; and the counts are small.
#![tactic(auto)]

mod laws;

pub use laws::{accepted_proofs_count_few_rows, proofs_have_one_answer};
