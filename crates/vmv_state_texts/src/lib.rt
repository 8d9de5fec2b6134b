//! Abstract states and conditions as texts, for programs of trials.
//!
//! A state is `bottom V`, or `vars V bounds N` with N triples `I J C` in order, then `nonzero M` with M variables: V is how many
//! variables it has, each triple is a bound C on thing I less thing J that is below top's, and the last ones are the variables that
//! are known not to be 0. Thing 0 is the constant 0. A condition is `LO..HI`, with ` not 0` behind it where 0 is left out.
#![tactic(auto)]

mod cond;
mod numbers;
mod read;
mod write;

pub use cond::{put_cond, read_cond};
pub use numbers::{small, wide};
pub use read::read_state;
pub use write::put_state;
