//! The bytes of a request, read from a link: the head with the empty lines in front of it, and the body.
#![tactic(auto)]

mod body;
mod filling;
mod front;
mod scanning;
mod stop;

pub use body::read_body;
pub use front::{Front, read_front};
pub use stop::Stop;
