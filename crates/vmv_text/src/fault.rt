ghost use Rattle.std.specs.Prelude.{◌≡◌};
ghost use Rattle.vmv_text.specs.declared.fault.Fault.TheVariants.{Memory};

use std::alloc::{AllocError, AllocFailed};

/// Why a text was not read as a program.
#[derive(Clone, Copy, PartialEq, Eq, Debug)]
pub enum ReadFault {
    /// The text has more than 1,048,576 bytes: so many.
    TooLong { found: usize },
    /// The text isn't UTF-8: its longest front that is has so many bytes.
    NotUtf8 { at: usize },
    /// No program has the text. Its tokens begin a program's up to this place, and no further. Lines and columns are
    /// counted from 1, columns in bytes; the end of the text is behind its last byte.
    Syntax { line: u32, column: u32 },
    /// Memory ran out.
    Memory,
}

/// Why a part of a program was not read. The cursor stands before the token at fault.
#[derive(Clone, Copy, PartialEq, Eq, Debug)]
pub enum Fault {
    /// No part goes on with this token.
    Syntax,
    /// Memory ran out.
    Memory,
}

impl From<AllocError> for Fault {
    ghost from_gives = { λ _ e. e ≡ Memory };

    fn from(_e: AllocError) -> Fault {
        Fault::Memory
    }
}

impl<T: Drop> From<AllocFailed<T>> for Fault {
    ghost from_gives = { λ _ e. e ≡ Memory };

    fn from(_e: AllocFailed<T>) -> Fault {
        Fault::Memory
    }
}
