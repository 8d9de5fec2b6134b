//! Connections over TCP as links, and an address of the host as a door that gives them.
#![tactic(auto)]

mod door;
mod link;
mod span;
mod tally;

pub use door::TcpDoor;
pub use link::TcpLink;
