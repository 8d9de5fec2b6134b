use vmv_text::ReadFault;
use vmv_tree::Defect;

/// Why a text has no snapshot. Lines and columns are counted from 1, columns in bytes.
#[derive(Clone, Copy, PartialEq, Eq, Debug, Drop)]
pub enum TextFault {
    /// The text isn't UTF-8: its longest front that is has so many bytes.
    NotUtf8 {
        at: usize,
    },
    /// No program has the text. Its tokens begin a program's up to this place, and no further.
    Syntax {
        line: u32,
        column: u32,
    },
    /// The program of the text isn't valid: its first defect, and the first byte of the name at which it stands.
    Defect {
        line: u32,
        column: u32,
        defect: Defect,
    },
    /// Memory ran out.
    Memory,
    /// The text has more than 1,048,576 bytes: so many.
    TooLong {
        found: usize,
    },
}

impl TextFault {
    ghost use Rattle.std.specs.Prelude.{◌≡◌, ℕ, List};
    ghost use Rattle.vmv_text.specs.Faults.{IsReadFault};
    ghost use Rattle.vmv_text.specs.declared.fault.ReadFault.TheVariants as reading;
    ghost use Rattle.vmv_source.specs.Faults.{IsTextFault};

    /// The fault of a text that wasn't read.
    pub(crate) fn of_reading(fault: ReadFault) -> TextFault
        ensures fault { (text : List ℕ) → IsReadFault text fault → IsTextFault text result }
        ensures too_long { (found : ℕ) → fault ≡ reading.TooLong found → result ≡ TextFault.TooLong found }
        ensures not_utf8 { (at : ℕ) → fault ≡ reading.NotUtf8 at → result ≡ TextFault.NotUtf8 at }
    {
        match fault {
            ReadFault::TooLong { found } => TextFault::TooLong { found },
            ReadFault::NotUtf8 { at } => TextFault::NotUtf8 { at },
            ReadFault::Syntax { line, column } => TextFault::Syntax { line, column },
            ReadFault::Memory => TextFault::Memory,
        }
    }
}
