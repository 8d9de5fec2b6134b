//! The words of the command line: what they ask the program to do.
#![tactic(auto)]

mod count;
mod given;
mod laws;
mod matches;
mod request;
mod service;

pub use laws::{
    services_are_done_by_few_workers, words_ask_for_few_workers, words_ask_for_no_service_beside,
    words_ask_for_one_service, words_ask_for_one_thing,
};
pub use request::{Request, read_words};
pub use service::{Service, read_service};
