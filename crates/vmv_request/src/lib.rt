//! Answers to requests over HTTP as texts: those that tell a desk's replies, and those that tell why a request is refused.
#![tactic(auto)]

mod answers;
mod laws;
mod replies;

pub use answers::{refusal_text, reply_text};
pub use laws::{labels_are_their_strings, texts_are_their_strings};
pub use replies::{reply_body, reply_status};
pub use vmv_head::{Method, Refusal};
