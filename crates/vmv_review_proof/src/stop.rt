ghost use Rattle.std.specs.Prelude.{◌≡◌};
ghost use Rattle.vmv_review_proof.specs.declared.stop.ProofStop.TheVariants.{Memory};

use std::alloc::AllocError;

/// Why there is no proof to be printed.
#[derive(Clone, Copy, PartialEq, Eq, Debug, Drop)]
pub enum ProofStop {
    /// Its text is longer than 67,108,864 bytes.
    TooLarge {
        /// How many bytes it has.
        found: usize,
    },
    /// Memory ran out.
    Memory,
}

impl From<AllocError> for ProofStop {
    ghost from_gives = { λ _ e. e ≡ Memory };

    fn from(_e: AllocError) -> ProofStop {
        ProofStop::Memory
    }
}
