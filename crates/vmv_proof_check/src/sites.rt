ghost use Rattle.std.specs.Prelude.{◌≡◌, ◌↔◌, ◌⊎◌, ℕ, Some, IsTrue, map, slice_get, IfOk, OnOk};
ghost use Rattle.std.specs.List.{Contains};
ghost use Rattle.vmv_tree.specs.Run.{name_of};
ghost use Rattle.vmv_tree.specs.declared.site.NamedSite.{NamedSite as Site};
ghost use Rattle.vmv_snapshot.specs.Resolution.{Resolution, procs_of};
ghost use Rattle.vmv_cert.specs.Tables.{Box};
ghost use Rattle.vmv_proof_check.specs.Work.{IsSought, AreFound, IsNarrowed, IsNextFound};

use crate::sought::{Sought, is_above};
use sqlite_items::Items;
use std::alloc::{AllocError, Global};
use vmv_cert::{NamedSite, Row, Sites};

/// Whether the two are one site.
fn is_same(one: &NamedSite, other: &NamedSite) -> bool
    ensures { IsTrue result ↔ (one.now ≡ other.now) }
{
    one.index == other.index && one.proc.bytes() == other.proc.bytes()
}

/// Whether the site is among these.
pub(crate) fn is_among(sites: &[NamedSite], site: &NamedSite) -> bool
    ensures { IsTrue result ↔ Contains sites.now site.now }
{
    for other in sites {
        if is_same(other, site) {
            return true;
        }
    }
    false
}

/// Adds the site, where it is among the others.
fn keep(both: &mut Sites, others: &[NamedSite], site: &NamedSite) -> Result<(), AllocError>
    ensures { OnOk result ((one : Site) → Contains both.new one ↔ (Contains both.old one ⊎ ((site.now ≡ one) × Contains others.now one))) }
{
    if !is_among(others, site) {
        return Ok(());
    }
    both.push(*site)
}

/// The sites that are in both lists.
fn in_both(alloc: Global, sites: &[NamedSite], others: &[NamedSite]) -> Result<Sites, AllocError>
    ensures { IfOk result (λ both. (site : Site) → Contains both site ↔ (Contains sites.now site × Contains others.now site)) }
{
    let mut both = Items::new(alloc);
    for site in sites {
        keep(&mut both, others, site)?;
    }
    Ok(both)
}

/// The sites that one more row lists too.
fn narrowed(alloc: Global, found: &Option<Sites>, row: &Row) -> Result<Sites, AllocError>
    ensures { IfOk result (IsNarrowed found.now row.now) }
{
    match found {
        Some(sites) => {
            let both = in_both(alloc, sites.as_slice(), row.unproved.as_slice())?;
            Ok(both)
        }
        None => Items::from_slice(alloc, row.unproved.as_slice()),
    }
}

/// What is found with one more row.
fn with_row(
    alloc: Global,
    sought: &Sought,
    found: Option<Sites>,
    row: &Row,
) -> Result<Option<Sites>, AllocError>
    ensures { IfOk result (λ next. (program : Resolution) (number : ℕ) (box : Box) → slice_get (map name_of (procs_of program)) number ≡ Some sought.now.name → IsSought sought.now.name box sought.now → IsNextFound program number box found row.now next) }
{
    if !is_above(sought, row) {
        return Ok(found);
    }
    let sites = narrowed(alloc, &found, row)?;
    Ok(Some(sites))
}

/// The sites that all rows which are looked for list; `None` where there is no such row.
pub(crate) fn common_sites(
    alloc: Global,
    sought: &Sought,
    rows: &[Row],
) -> Result<Option<Sites>, AllocError>
    ensures { IfOk result (λ found. (program : Resolution) (number : ℕ) (box : Box) → slice_get (map name_of (procs_of program)) number ≡ Some sought.now.name → IsSought sought.now.name box sought.now → AreFound program number box rows.now found) }
{
    let mut found = None;
    for row in rows {
        found = with_row(alloc, sought, found, row)?;
    }
    Ok(found)
}
