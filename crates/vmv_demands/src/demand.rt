use sqlite_items::Items;
use vmv_cond::Cond;
use vmv_snapshot::SiteId;
use vmv_tree::Name;

/// A condition on the answers of an outside function that a site needs, where the program leads from the one to the other
/// by copies, sums with literals and calls alone.
#[derive(Clone, Copy, Debug, Drop)]
pub struct Demand {
    pub name: Name,
    pub cond: Cond,
    /// The first site that needs it.
    pub site: SiteId,
}

/// Demands, in the order of their sites in the text.
pub type Demands = Items<Demand>;
