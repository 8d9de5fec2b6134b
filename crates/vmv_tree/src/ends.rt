use crate::Name;

/// Words, in order.
pub type EndList = sqlite_items::Items<i64>;

/// The ends of the ranges that are of interest for the answers of one outside name.
#[derive(Debug, Drop)]
pub struct NameEnds {
    pub name: Name,
    pub ends: EndList,
}

/// The ends of each outside name of a program, in text order.
pub type Ends = sqlite_items::Items<NameEnds>;
