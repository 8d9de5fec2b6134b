//! A disk, as a trait: what reads give and what a crash may leave at each moment, with a form in memory and one over a
//! file.
#![tactic(auto)]

mod call_log;
mod disk;
mod disk_call;
mod file_disk;
mod kept;
mod laws;
mod memory_disk;

pub use disk::Disk;
pub use disk_call::DiskCall;
pub use file_disk::FileDisk;
pub use laws::{synced_bytes_are_left, writes_take_nothing_back};
pub use memory_disk::MemoryDisk;
