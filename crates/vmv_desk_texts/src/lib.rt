//! What is asked of a desk, of a judge and of a store as lines of words, and what these answer, for programs of trials.
#![tactic(auto)]

mod acts;
mod changes;
mod commands;
mod judges;
mod looks;
mod questions;
mod replies;
mod rows;
mod words;

pub use acts::put_act;
pub use changes::{change, is_change};
pub use commands::{act, command, id};
pub use judges::{judge, text_of};
pub use looks::look;
pub use questions::question;
pub use replies::{put_fault_of_text, put_number, put_reply, put_versions};
pub use rows::{put_fault, put_rows};
pub use words::{halves, label, size};
