//! Laws of witnesses that follow from their definitions: what is read of a text is one thing, and a witness fits a program in one way.
#![tactic(auto)]

mod laws;

pub use laws::{
    a_witness_fits_in_one_way, a_witness_text_has_no_fault, a_witness_text_has_one_witness,
    a_witness_text_is_at_fault_once,
};
