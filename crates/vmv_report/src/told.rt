ghost use Rattle.std.specs.Prelude.{◌≡◌, ◌≢◌, IfOk, IfSome, IfNone};
ghost use Rattle.std.specs.List.{Contains};
ghost use Rattle.vmv_witness.specs.declared.witness.Witness.{Witness as Shown};
ghost use Rattle.vmv_report.specs.Work.{IsNextRun, IsNoRun};

use crate::proving::is_same;
use crate::report::Witnesses;
use crate::row::ReportRows;
use sqlite_items::Items;
use std::alloc::{AllocError, Global};
use vmv_tree::NamedSite;
use vmv_witness::Witness;

/// The most regressions that are told of an entry.
const MOST_REGRESSIONS: usize = 8;

/// Rows, with a run for each regression.
#[derive(Drop)]
pub(crate) struct Told {
    /// The rows.
    pub(crate) rows: ReportRows,
    /// The runs.
    pub(crate) witnesses: Witnesses,
    /// How many of the rows are regressions of the entry whose rows come next.
    pub(crate) regressions: usize,
}

/// The run that fails at the site.
fn found_at<'a>(found: &'a [Witness], site: &NamedSite) -> Option<&'a Witness>
    ensures some { IfSome result (λ w. Contains found.now w.now × (w.now.site ≡ site.now)) }
    ensures none { IfNone result ((w : Shown) → Contains found.now w → w.site ≢ site.now) }
{
    for w in found {
        if is_same(&w.site, site) {
            return Some(w);
        }
    }
    None
}

/// The run that makes the next row a regression, where so many rows are regressions of its entry.
pub(crate) fn next_run<'a>(
    regressions: usize,
    found: &'a [Witness],
    site: &NamedSite,
) -> Option<&'a Witness>
    ensures some { IfSome result (λ w. IsNextRun regressions found.now site.now w.now) }
    ensures none { IfNone result (IsNoRun regressions found.now site.now) }
{
    if regressions >= MOST_REGRESSIONS {
        return None;
    }
    found_at(found, site)
}

/// A second run that is the same.
pub(crate) fn copy_run(alloc: Global, w: &Witness) -> Result<Witness, AllocError>
    ensures { IfOk result (λ copied. copied ≡ w.now) }
{
    Ok(Witness {
        entry: w.entry,
        params: Items::from_slice(alloc, w.params.as_slice())?,
        answers: Items::from_slice(alloc, w.answers.as_slice())?,
        site: w.site,
    })
}
