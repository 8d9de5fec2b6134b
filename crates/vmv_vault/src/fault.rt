ghost use Rattle.std.specs.Prelude.{◌≡◌};

use std::alloc::AllocError;

/// Why a vault gave no store.
#[derive(Clone, Copy, PartialEq, Eq, Debug, Drop)]
pub enum VaultFault {
    /// The store couldn't be opened, or isn't one, which the vault has counted.
    Failed,
    /// There was no memory for the store.
    Memory,
}

impl From<AllocError> for VaultFault {
    ghost use Rattle.vmv_vault.specs.declared.fault.VaultFault.TheVariants.{Memory};

    ghost from_gives = { λ _ fault. fault ≡ Memory };

    fn from(_error: AllocError) -> VaultFault {
        VaultFault::Memory
    }
}
