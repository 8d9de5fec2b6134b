//! One exchange over a link: a request is read, a desk does what it asks for, and the answer is written.
#![tactic(auto)]

mod answering;
mod laws;
mod reading;
mod sending;
mod served;
mod serving;

pub use laws::{an_exchange_is_one, inputs_ask_for_one_thing};
pub use served::{LinkEnd, Served};
pub use serving::serve_one;
