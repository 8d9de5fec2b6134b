ghost use Rattle.std.specs.Prelude.{◌≡◌};
ghost use Rattle.vmv_snapshot.specs.declared.fault.NewFault.TheVariants.{Memory};

use std::alloc::AllocError;
use vmv_tree::Defect;

/// Why a program has no snapshot.
#[derive(Clone, Copy, PartialEq, Eq, Debug, Drop)]
pub enum NewFault {
    /// The program isn't valid.
    Defect {
        /// The least mention of a name that has a defect, counted from 0 in text order over all names of the program.
        mention: u32,
        /// The defect there with the lowest number.
        defect: Defect,
    },
    /// Memory ran out.
    Memory,
}

impl From<AllocError> for NewFault {
    ghost from_gives = { λ _ e. e ≡ Memory };

    fn from(_e: AllocError) -> NewFault {
        NewFault::Memory
    }
}
