//! Tables: what an abstract run of each procedure of a program is told to be, which a checker can look through.
//!
//! A table has a row for each procedure and input. The definitions in `specs/` say which tables are accepted.
#![tactic(auto)]

mod row;
mod table;

pub use row::{Reach, Row, Sites, Zones};
pub use table::{Rows, Table};
pub use vmv_tree::NamedSite;
