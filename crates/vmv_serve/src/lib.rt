//! A service: connections are taken from a door one after another, and each is served by one desk over one store.
#![tactic(auto)]

mod lines;
mod service;
mod turns;

pub use service::serve;
