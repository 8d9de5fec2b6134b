//! What an entry's tests tell of the values that matter: the boxes of its parameters.
#![tactic(auto)]

mod apart;
mod fact;
mod fixed;
mod full;

pub use apart::{Boxes, boxes};
pub use full::full_box;
