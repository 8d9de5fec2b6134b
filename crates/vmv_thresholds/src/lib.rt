//! The thresholds of an entry: the bounds that a state which is kept at one of its loops may have.
#![tactic(auto)]

mod calls;
mod laws;
mod place;
mod seeds;
mod thresholds;

pub use laws::states_may_be_rounded_up;
pub use thresholds::Thresholds;
