use vmv_cond::Piece;
use vmv_snapshot::{ParamBox, ProcId};
use vmv_tree::Name;

/// An exclusion: no safe environment has an answer of this name in the piece, since the entry doesn't return from the
/// box where the name answers so.
#[derive(Clone, Copy)]
pub struct Cut {
    /// The entry.
    pub entry: ProcId,
    /// A box of the entry's parameters.
    pub within: ParamBox,
    /// The outside name.
    pub name: Name,
    /// The words that are excluded.
    pub piece: Piece,
    /// How many exclusions were recorded before the round in which this one was found.
    pub under: u32,
}

/// Exclusions, in the order in which they were found.
pub type Cuts = sqlite_items::Items<Cut>;
