//! Laws of the texts of programs that follow from their definitions: what is against a text is one thing.
#![tactic(auto)]

mod laws;

pub use laws::{a_program_has_one_first_defect, a_text_has_one_fault};
