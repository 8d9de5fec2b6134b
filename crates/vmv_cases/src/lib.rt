//! Cases as texts: a file of cases is read from standard input, and what a program answers to each is written to standard output.
//!
//! A case begins with a line `== TITLE`. Texts follow, each begun by a line `-- NAME`, and lines `? WORD ..` that ask. Lines before
//! the first case, and between a title and the first text or ask, are for the reader alone. Each ask is answered over the texts
//! above it in its case, and the answers of a case stand below its title.
#![tactic(auto)]

mod case;
mod cases;
mod marks;
mod program;
mod sheet;
mod trial;
mod words;

pub use case::Case;
pub use cases::write_answers;
pub use program::run_cases;
pub use sheet::Sheet;
pub use trial::Trial;
pub use words::{cut, number, numbers, tail, word};
