//! Which programs are valid, and the first defect of one that isn't.
//!
//! A program is walked once, in text order, and the walk ends at the first mention that has a defect. What a call of an
//! item brings is kept in a table with the items above, so that nothing is walked again at its calls.
#![tactic(auto)]

mod callee;
mod deep;
mod first;
mod item;
mod items;
mod measure;
mod names;
mod numbers;
mod procedure;
mod statement;
mod stop;

pub use deep::first_defect_of_deep;
pub use first::first_defect;
pub use names::is_among;
pub use numbers::reached_numbers;
pub use stop::FoundDefect;
