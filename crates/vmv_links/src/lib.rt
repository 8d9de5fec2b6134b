//! Doubly linked lists of small numbers, threaded by index through one table.
//!
//! [`Links`] holds some lists of numbers below a bound, each number in at most one of them. A number is
//! put at the end of a list, taken from the front of one or out of the middle of its list, each in
//! the same time, however long the lists are. Only [`Links::make`] takes memory.
#![tactic(auto)]

mod links;
mod node;

pub use links::{Links, Memory};
