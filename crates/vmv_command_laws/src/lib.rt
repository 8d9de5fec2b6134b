//! Laws of commands: words and told texts have one output and one status, whatever the number of workers.
#![tactic(auto)]

mod laws;

pub use laws::{
    outputs_are_one, outputs_are_one_for_any_number_of_workers,
    words_that_name_another_number_ask_alike,
};
