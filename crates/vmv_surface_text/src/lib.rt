//! The texts of surface programs: their grammar, and what reads their expressions.
#![tactic(auto)]

mod expr;
mod reader;

pub use expr::expression;
