use crate::class::Class;
use sqlite_items::Items;
use vmv_snapshot::{ProcId, SiteId};

/// A site that an entry reaches, in the entry itself or in a helper.
#[derive(Clone, Copy, Drop)]
pub struct ReportRow {
    /// The entry.
    pub entry: ProcId,
    /// The site.
    pub site: SiteId,
    /// What is found of it.
    pub class: Class,
}

/// Rows, by entry, then by procedure in text order, then by the number of the site.
pub type ReportRows = Items<ReportRow>;
