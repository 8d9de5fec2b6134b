//! A store of projects and of kept replies over SQL: in a file that sqlite3 reads, or in memory.
#![tactic(auto)]

mod benches;
mod cells;
mod committing;
mod faults;
mod held;
mod keeper;
mod making;
mod reading;
mod sql;
mod statements;

pub use keeper::SqlKeeper;
