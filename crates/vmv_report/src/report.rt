use crate::row::ReportRows;
use sqlite_items::Items;
use vmv_assumption::Assumption;
use vmv_need::ShownBy;
use vmv_witness::Witness;

/// Runs that fail, in the order of their rows.
pub type Witnesses = Items<Witness>;

/// What a review tells of a revision.
#[derive(Drop)]
pub struct Report {
    /// 1: it is relatively correct to the base. 2: some row is an alarm. 3: some row is a regression. 4: the base is
    /// vacuous.
    pub verdict: u8,
    /// The necessary conditions of the base's outside names; none where the base is vacuous.
    pub conditions: Option<Assumption>,
    /// Conditions for which the base is safe, where there are some.
    pub enough: Option<Assumption>,
    /// The rows of the revision; none where the base is vacuous.
    pub rows: ReportRows,
    /// A run for each regression.
    pub witnesses: Witnesses,
    /// What shows that the base is vacuous, where it is.
    pub shown_by: Option<ShownBy>,
}
