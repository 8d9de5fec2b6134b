//! The canonical text of a program, which is a text of the grammar with an equal tree.
#![tactic(auto)]

mod item;
mod laws;
mod lists;
mod operand;
mod printing;
mod statement;

pub use laws::{canonical_text_has_no_fault, canonical_text_is_read, program_of_a_text_is_written};
pub use printing::{print, print_program};
