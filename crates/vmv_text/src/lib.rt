//! The texts of programs: tokens, grammar, and what reads them.
//!
//! A text is read once, token by token, by a cursor that knows what is left of it. Each reader of a part either takes
//! that part off the front, or leaves the cursor before the first token with which no such part can go on. Blocks that
//! stand deeper in one another than the language allows are read over a list of those that are open, and only measured.
#![tactic(auto)]

mod block;
mod cursor;
mod fault;
mod flat;
mod item;
mod item_part;
mod language;
mod laws;
mod lexer;
mod lists;
mod mention;
mod operand;
mod part;
mod read;
mod sizes;
mod statement;
mod symbol;
mod token;

pub use cursor::Cursor;
pub use fault::{Fault, ReadFault};
pub use item_part::Parsed;
pub use language::Language;
pub use laws::{
    mention_has_its_name, names_are_mentions, no_program_at_fault, one_fault, one_program,
};
pub use mention::mention_place;
pub use read::{MOST_BYTES, column, line, read_program};
pub use symbol::Symbol;
pub use token::{Small, Token};
