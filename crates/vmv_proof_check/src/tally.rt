use crate::claims::Claims;
use vmv_assumption::Assumption;
use vmv_cert::Sites;
use vmv_proof::Shown;
use vmv_snapshot::Snapshot;

/// What the entries of a revision are checked with.
#[derive(Clone, Copy)]
pub(crate) struct Checking<'a> {
    /// The revision.
    pub(crate) revision: &'a Snapshot,
    /// What is shown of its entries.
    pub(crate) shown: &'a [Shown],
    /// The whole condition for each name.
    pub(crate) whole: &'a Assumption,
    /// The whole conditions, cut by all exclusions.
    pub(crate) cut: &'a Assumption,
}

/// The sites that the tables of an entry list.
#[derive(Drop)]
pub(crate) struct Lists {
    /// The plain one.
    pub(crate) plain: Sites,
    /// The given one.
    pub(crate) given: Sites,
}

/// How far the entries are checked.
#[derive(Drop)]
pub(crate) struct Tally {
    /// The counts of the rows so far.
    pub(crate) claims: Claims,
    /// How many entries there were.
    pub(crate) next: usize,
}
