/// Why a text isn't read as a proof.
#[derive(Clone, Copy, PartialEq, Eq, Debug, Drop)]
pub enum ProofFault {
    /// The first line that departs from the format, other than by the size of its numbers alone. Lines are counted from 1.
    Syntax { line: u32 },
    /// The first line that departs, by the size of its numbers alone. Lines are counted from 1.
    Range { line: u32 },
    /// The text is longer than 67,108,864 bytes: it has `found` bytes.
    Limit { found: usize },
    /// Memory ran out.
    Memory,
}
