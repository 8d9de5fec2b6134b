//! Laws of tables that follow from their definitions: the walk of a row ends in one way, and a table is accepted or
//! refused, at one row and step; and rows match arguments by their normed inputs.
#![tactic(auto)]

mod laws;

pub use laws::{
    a_row_walks_one_way, accepted_tables_are_not_refused, matching_is_by_normed_inputs,
    tables_are_refused_in_one_way,
};
