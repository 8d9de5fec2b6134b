//! The tables of a proof: that of each exclusion which was recorded of a base, and the two of each entry of a revision.
#![tactic(auto)]

mod exclusions;
mod shown;

pub use exclusions::exclusions_of;
pub use shown::all_shown;
