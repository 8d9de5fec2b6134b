//! The texts of valid programs.
#![tactic(auto)]

mod fault;
mod laws;
mod reading;

pub use fault::TextFault;
pub use laws::valid_texts_have_no_fault;
pub use reading::parse;
