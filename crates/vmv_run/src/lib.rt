//! Runs of programs: the replay of given answers, and the run in which each outside name always answers the same.
#![tactic(auto)]

mod answer;
mod constant_run;
mod constants;
mod frame;
mod laws;
mod outcome;
mod replaying;
mod source;
mod walk;
mod walked;

pub use answer::{Answer, Answers};
pub use constant_run::Constant;
pub use constants::constant;
pub use laws::{
    answers_are_of_outside_items, answers_determine_a_run, one_constant_run, one_finding,
    outside_names_decide_safety, procedures_are_named_once, runs_are_short, slots_are_named_once,
};
pub use outcome::Outcome;
pub use replaying::replay;
