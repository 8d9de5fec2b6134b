//! The analysed language: programs as trees, and what they mean.
//!
//! The types are those of the syntax. The definitions in `specs/` say which programs are valid, what their runs
//! are, and what it means that an environment is safe for a program and that a revision is relatively correct.
#![tactic(auto)]

mod deep;
mod defect;
mod ends;
mod name;
mod site;
mod tree;

pub use deep::{DeepProcedure, DeepProgram, ItemCounts};
pub use defect::Defect;
pub use ends::{EndList, Ends, NameEnds};
pub use name::Name;
pub use site::NamedSite;
pub use tree::{
    Args, Block, Body, Item, Items, Names, Op, Operand, Param, Params, Program, Rel, Stmt, Test,
};
