//! Witnesses: runs that fail, as texts and against a program.
#![tactic(auto)]

mod fault;
mod fitting;
mod laws;
mod lines;
mod number;
mod read;
mod witness;
mod write;

pub use fault::WitnessFault;
pub use fitting::{Unfit, fit};
pub use laws::{a_text_departs_once, a_text_is_of_one_witness};
pub use read::read_witness;
pub use witness::{ParamValue, Values, Witness};
pub use write::write_witness;
