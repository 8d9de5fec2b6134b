//! What listens for connections and gives them as links, as a trait, with forms of it in memory.
#![tactic(auto)]

mod door;
mod faultless_door;
mod memory_door;
mod queue;

pub use door::Door;
pub use faultless_door::FaultlessDoor;
pub use memory_door::MemoryDoor;
