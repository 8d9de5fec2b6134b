//! The bytes that a store keeps of an act that was done and of its reply, written and read back exactly.
#![tactic(auto)]

mod acts;
mod fields;
mod kept;
mod laws;
mod replies;

pub use acts::{read_act, write_act};
pub use kept::{is_done, read_kept};
pub use laws::bytes_are_of_one_record;
pub use replies::{read_reply, write_reply};
