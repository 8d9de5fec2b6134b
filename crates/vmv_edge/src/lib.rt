//! What a review gate needs from outside, as traits, with forms of them in memory and over files and streams.
//!
//! Each trait counts its faults: a call that answers `Failed` has raised the count, and no other answer
//! raises it, so that a caller's own answer about a fault can be held against the count. The content of a
//! thing outside is told where it is in memory, and not where it is a file or a stream.
#![tactic(auto)]

mod calls;
mod faults;
mod files;
mod link;
mod memory_link;
mod memory_shelf;
mod memory_sink;
mod room;
mod shelf;
mod sink;
mod stock;
mod streams;
mod text;

pub use calls::Calls;
pub use files::FileShelf;
pub use link::{Link, send_all};
pub use memory_link::{FaultlessLink, MemoryLink};
pub use memory_shelf::{FaultlessShelf, MemoryShelf};
pub use memory_sink::{FaultlessSink, MemorySink};
pub use shelf::{Shelf, ShelfFault};
pub use sink::{Failed, Sink, write_all};
pub use std::alloc::AllocError as Memory;
pub use streams::StreamSink;
pub use text::Text;
