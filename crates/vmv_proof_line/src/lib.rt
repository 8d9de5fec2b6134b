//! The lines of a proof's text: what each tells.
#![tactic(auto)]

mod counts;
mod exclude;
mod fault;
mod halves;
mod left;
mod loose_states;
mod names;
mod ranges;
mod result;
mod rows;
mod states;

pub use counts::{read_entries, read_exclusions, read_table};
pub use exclude::{ExcludeHead, read_exclude};
pub use fault::LineFault;
pub use left::read_left;
pub use names::{is_end, is_given, is_opening, read_plain};
pub use ranges::read_box;
pub use result::read_result;
pub use rows::{RowHead, read_row};
pub use states::{read_input, read_keep};
