ghost use Rattle.std.specs.Prelude.{◌≡◌};

use std::alloc::AllocError;
use vmv_edge::Failed;

/// Why a request can't be read.
#[derive(Clone, Copy, PartialEq, Eq, Debug, Drop)]
pub enum Stop {
    /// The input ended before the request did.
    Ended,
    /// A read failed, which the link has counted.
    ReadFailed,
    /// There was no memory.
    Memory,
}

impl From<AllocError> for Stop {
    ghost use Rattle.vmv_request_reading.specs.declared.stop.Stop.TheVariants.{Memory};

    ghost from_gives = { λ _ stop. stop ≡ Memory };

    fn from(_error: AllocError) -> Stop {
        Stop::Memory
    }
}

impl From<Failed> for Stop {
    ghost use Rattle.vmv_request_reading.specs.declared.stop.Stop.TheVariants.{ReadFailed};

    ghost from_gives = { λ _ stop. stop ≡ ReadFailed };

    fn from(_error: Failed) -> Stop {
        Stop::ReadFailed
    }
}
