ghost use Rattle.std.specs.Prelude.{◌≡◌};

use std::alloc::AllocError;

/// Why a store gave no answer. Its rows are then as before.
#[derive(Clone, Copy, PartialEq, Eq, Debug, Drop)]
pub enum KeepFault {
    /// The device failed, or holds rows that aren't well formed, which the store has counted.
    Failed,
    /// There was no memory for the answer.
    Memory,
}

impl From<AllocError> for KeepFault {
    ghost use Rattle.vmv_keeper.specs.declared.fault.KeepFault.TheVariants.{Memory};

    ghost from_gives = { λ _ fault. fault ≡ Memory };

    fn from(_error: AllocError) -> KeepFault {
        KeepFault::Memory
    }
}
