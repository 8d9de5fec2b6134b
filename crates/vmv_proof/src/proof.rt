use sqlite_items::Items;
use vmv_cert::Table;
use vmv_cond::Piece;
use vmv_snapshot::ParamBox;
use vmv_tree::Name;

/// That no safe environment of the base answers a name with a word of a piece: with such answers the entry fails from
/// every point of a box, as a table shows.
#[derive(Drop)]
pub struct Exclusion {
    /// The entry.
    pub entry: Name,
    /// A box of the entry's parameters.
    pub within: ParamBox,
    /// The outside name.
    pub name: Name,
    /// The words that are excluded.
    pub piece: Piece,
    /// How many of the exclusions before this one the table is judged under.
    pub under: u32,
    /// The table, which says that the entry doesn't return from the box.
    pub table: Table,
}

/// Exclusions, each judged under some of those before it.
pub type Exclusions = Items<Exclusion>;

/// What is shown of an entry of the revision.
#[derive(Drop)]
pub struct Shown {
    /// The entry.
    pub entry: Name,
    /// A table under the whole assumption.
    pub plain: Table,
    /// A table under the assumption that all exclusions cut.
    pub given: Table,
}

/// Entries in the revision's order.
pub type ShownList = Items<Shown>;

/// A proof that a revision is relatively correct to its base, so far as its tables don't list sites.
#[derive(Drop)]
pub struct Proof {
    pub exclusions: Exclusions,
    pub shown: ShownList,
}
