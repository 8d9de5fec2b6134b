use crate::lead::SiteLead;
use crate::source::Source;
use sqlite_items::Items;

/// Sites with where their conditions lead.
pub(crate) type Leads = Items<SiteLead>;

/// What is told of a procedure in terms of its start.
#[derive(Drop)]
pub(crate) struct Summary {
    /// The conditions of the sites in it and in its calls.
    pub(crate) leads: Leads,
    /// What it returns.
    pub(crate) result: Source,
}
