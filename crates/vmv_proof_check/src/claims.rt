ghost use Rattle.std.specs.Prelude.{◌≡◌};
ghost use Rattle.vmv_proof_check.specs.declared.claims.ProofRefused.TheVariants.{Memory};

use std::alloc::AllocError;
use vmv_tree::Name;

/// How many rows of a revision a proof shows so. A row is a site that an entry reaches.
#[derive(Clone, Copy, PartialEq, Eq, Debug, Drop)]
pub struct Claims {
    /// The rows at which no run fails, whatever the outside names answer.
    pub clean: u32,
    /// The others at which no run fails, where the answers are those for which the base may be safe.
    pub hidden: u32,
    /// The others.
    pub left: u32,
}

/// A part of a proof.
#[derive(Clone, Copy, PartialEq, Eq, Debug, Drop)]
pub enum Part {
    /// The exclusion of this number, from 1.
    Exclusion(u32),
    /// The plain table of this entry.
    Plain(Name),
    /// The given table of this entry.
    Given(Name),
    /// The names of the entries.
    Shape,
}

/// Why a proof isn't accepted.
#[derive(Clone, Copy, PartialEq, Eq, Debug, Drop)]
pub enum ProofRefused {
    /// The first part that fails, and the first failure in it.
    At {
        /// The part.
        part: Part,
        /// The row of its table, from 1, and 0 for what stands beside the table.
        row: u32,
        /// The step of the row: 0 for its form, then its statements from 1 and the return.
        step: u32,
    },
    /// Memory ran out.
    Memory,
}

impl From<AllocError> for ProofRefused {
    ghost from_gives = { λ _ e. e ≡ Memory };

    fn from(_e: AllocError) -> ProofRefused {
        ProofRefused::Memory
    }
}
