//! Sufficient conditions of a program, and the failing runs that probes of a revision find under them.
#![tactic(auto)]

mod attempt;
mod enough;
mod judge;
mod levels;
mod open;
mod pick;
mod plan;
mod probe;
mod probes;
mod search;
mod sites;

pub use enough::sufficient;
pub use probe::{Mode, Probe};
pub use search::{Found, witnesses, witnesses_in_turn};
pub use vmv_crew::{Open, Turnstile};
pub use vmv_witness::{
    ParamValue, Unfit, Values, Witness, WitnessFault, fit, read_witness, write_witness,
};
