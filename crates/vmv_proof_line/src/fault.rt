ghost use Rattle.std.specs.Prelude.{◌≡◌};
ghost use Rattle.vmv_proof_line.specs.declared.fault.LineFault.TheVariants.{Memory};
ghost use Rattle.vmv_proof_line.specs.Reading.{fault_at};

use std::alloc::AllocError;

/// How a line departs from those that may stand there.
#[derive(Clone, Copy, PartialEq, Eq, Debug, Drop)]
pub enum LineFault {
    /// No proof has such a line, whatever the size of its numbers.
    Form,
    /// Some proof would have it but for the size of its numbers.
    Size,
    /// Memory ran out.
    Memory,
}

impl From<AllocError> for LineFault {
    ghost from_gives = { λ _ e. e ≡ Memory };

    fn from(_e: AllocError) -> LineFault {
        LineFault::Memory
    }
}

/// The fault of a line that tells nothing, but maybe would, were its numbers of another size.
pub(crate) fn fault_of(loosely: bool) -> LineFault
    ensures { result ≡ fault_at loosely }
{
    if loosely {
        LineFault::Size
    } else {
        LineFault::Form
    }
}
