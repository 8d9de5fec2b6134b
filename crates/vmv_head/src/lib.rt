//! The head of a request over HTTP: where it ends, what of it decides, and why it is refused.
#![tactic(auto)]

mod head;
mod lines;
mod refusal;
mod scan;

pub use head::{Head, read_head};
pub use lines::{is_digits, value_of};
pub use refusal::{Method, Refusal};
pub use scan::{Place, blank_length, header_lines};
