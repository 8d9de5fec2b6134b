//! The least accepted table of an entry and a box.
//!
//! One instance of a procedure stands for each path of calls that leads from the entry to it. The states that are kept for
//! the instances start at Bottom and are raised. An instance is visited again where its input, a result of its calls or a
//! state at its loops has risen, until none is left. What the states are then is the least accepted table.
#![tactic(auto)]

mod boxes;
mod callees;
mod decided;
mod grow;
mod instance;
mod laws;
mod lay;
mod rounds;
mod row;
mod table;
mod waiting;

pub use decided::{death, least_table, unproved_sites};
pub use laws::{
    least_tables_are_unique, least_tables_begin_above_their_boxes, least_tables_decide_death,
    least_tables_decide_proof, least_tables_have_rows,
};
pub use table::least;
pub use vmv_pass::Steps;
pub use vmv_thresholds::Thresholds;
