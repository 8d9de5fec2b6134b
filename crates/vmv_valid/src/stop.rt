ghost use Rattle.std.specs.Prelude.{◌≡◌};
ghost use Rattle.vmv_valid.specs.declared.stop.Stop.{Stop};
ghost use Rattle.vmv_valid.specs.declared.stop.Stop.TheVariants.{Memory};

use std::alloc::{AllocError, AllocFailed};
use vmv_tree::Defect;

/// A defect, and the mention of a name at which it stands.
#[derive(Clone, Copy, PartialEq, Eq, Debug, Drop)]
pub struct FoundDefect {
    /// The number of the mention, counted from 0 in text order over all names of the program.
    pub mention: u32,
    /// What is against the rules there.
    pub defect: Defect,
}

/// Why a walk through a program ends early.
#[derive(Clone, Copy, Debug, Drop)]
pub(crate) enum Stop {
    Found(FoundDefect),
    Memory,
}

impl From<AllocError> for Stop {
    ghost from_gives = { λ _ stop. stop ≡ Memory };

    fn from(_e: AllocError) -> Stop {
        Stop::Memory
    }
}

impl<T: Drop> From<AllocFailed<T>> for Stop {
    ghost from_gives = { λ _ stop. stop ≡ Memory };

    fn from(_e: AllocFailed<T>) -> Stop {
        Stop::Memory
    }
}

/// This defect at this mention.
pub(crate) fn found(mention: u32, defect: Defect) -> Stop
    ensures { result ≡ Stop.Found (record { mention = mention; defect = defect }) }
{
    Stop::Found(FoundDefect { mention, defect })
}
