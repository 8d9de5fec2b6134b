//! What gives out stores by name and takes them back, as a trait, with forms of it in memory.
#![tactic(auto)]

mod fault;
mod faultless_vault;
mod memory_vault;
mod vault;

pub use fault::VaultFault;
pub use faultless_vault::FaultlessVault;
pub use memory_vault::MemoryVault;
pub use vault::Vault;
