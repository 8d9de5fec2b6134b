ghost use Rattle.std.specs.Prelude.{◌≡◌, ◌<◌, ◌^◌};
ghost use Rattle.vmv_witness.specs.declared.fault.WitnessFault.TheVariants.{Memory};
ghost use Rattle.vmv_witness.specs.Told.{fault_at};

use std::alloc::AllocError;

/// Why a text isn't read as a witness.
#[derive(Clone, Copy, PartialEq, Eq, Debug, Drop)]
pub enum WitnessFault {
    /// The first line that departs from the format, other than by the size of its number alone. Lines are counted from 1.
    Syntax { line: u32 },
    /// The first line that departs, by the size of its number alone. Lines are counted from 1.
    Range { line: u32 },
    /// The text is longer than 1,048,576 bytes: it has `found` bytes.
    Limit { found: usize },
    /// Memory ran out.
    Memory,
}

impl From<AllocError> for WitnessFault {
    ghost from_gives = { λ _ e. e ≡ Memory };

    fn from(_e: AllocError) -> WitnessFault {
        WitnessFault::Memory
    }
}

/// How a line departs from the format.
#[derive(Clone, Copy, PartialEq, Eq, Debug, Drop)]
pub(crate) enum Ill {
    /// Other than by the size of its number alone.
    Form,
    /// By the size of its number alone.
    Size,
}

impl Ill {
    /// The fault of a line that departs so.
    pub(crate) fn at(self, line: usize) -> WitnessFault
        requires { line < 2 ^ 32 }
        ensures { result ≡ fault_at self line }
    {
        match self {
            Ill::Form => WitnessFault::Syntax { line: line as u32 },
            Ill::Size => WitnessFault::Range { line: line as u32 },
        }
    }
}
