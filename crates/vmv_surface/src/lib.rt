//! The surface language: programs with nested expressions and connectives, and what they mean.
//!
//! There is no code here. `specs/` has the surface trees, what their runs are, and the program of the analysed
//! language that each of them is lowered to.
#![tactic(auto)]
