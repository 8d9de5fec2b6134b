//! One pass over a procedure, which raises the states that are kept for one call path until they hold.
//!
//! A pass walks through the procedure once, in text order, over the states that are kept at its loops, and raises those
//! that the walk leaves. A call of a helper is answered by what is stored for it. Nothing here takes memory.
#![tactic(auto)]

mod body;
mod call;
mod keep;
mod laws;
mod place;
mod steps;
mod walk;

pub use body::raise;
pub use laws::{calls_that_are_met_have_rows, ranks_are_few, rows_that_hold_meet_calls};
pub use place::{Passed, Place, Spare};
pub use steps::Steps;
