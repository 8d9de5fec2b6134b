//! The files of the machine as stores over SQL, each under its path.
#![tactic(auto)]

mod opening;
mod vault;

pub use opening::FileKeeper;
pub use vault::SqlVault;
