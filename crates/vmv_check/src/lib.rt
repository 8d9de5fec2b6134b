//! A plain checker of tables: it walks through each row once, and finds the first step that fails.
#![tactic(auto)]

mod call;
mod form;
mod loops;
mod refused;
mod row;
mod sites;
mod table;
mod walk;

pub use loops::block_loops;
pub use refused::Refused;
pub use table::check_table;
