ghost use Rattle.std.specs.Prelude.{◌≡◌, ◌↔◌, ℕ, ◌<◌, length, IsTrue};
ghost use Rattle.std.specs.List.{Contains};
ghost use Rattle.vmv_tree.specs.declared.site.NamedSite.{NamedSite};
ghost use Rattle.vmv_snapshot.specs.Resolution.{procs_of, IsResolution};
ghost use Rattle.vmv_cert.specs.Tables.{IsSiteOf, Precedes, AreSitesOf};
ghost use Rattle.vmv_check.specs.Walker.{IsSorted};

use vmv_cert::{NamedSite, Row};
use vmv_snapshot::{ProcId, Snapshot};
use vmv_tree::Name;

/// Whether the two are one name.
pub(crate) fn is_name(one: &Name, other: &Name) -> bool
    ensures { IsTrue result ↔ (one.now ≡ other.now) }
{
    one.bytes() == other.bytes()
}

/// Whether the two are one site.
fn is_same(one: &NamedSite, other: &NamedSite) -> bool
    ensures { IsTrue result ↔ (one.now ≡ other.now) }
{
    one.index == other.index && one.proc.bytes() == other.proc.bytes()
}

/// Whether the row lists the site.
pub(crate) fn lists(row: &Row, site: &NamedSite) -> bool
    ensures { IsTrue result ↔ Contains row.now.unproved site.now }
{
    for other in row.unproved.as_slice() {
        if is_same(other, site) {
            return true;
        }
    }
    false
}

/// Whether it is a site of a procedure that the one from which it is looked for reaches.
fn is_site(snapshot: &Snapshot, from: ProcId, site: &NamedSite) -> bool
    requires resolution { IsResolution snapshot.now }
    requires from { from.0 < length (procs_of snapshot.now) }
    ensures { IsTrue result ↔ ((m : ℕ) × IsSiteOf snapshot.now from.0 m site.now) }
{
    let Some(proc) = snapshot.find_proc(&site.proc) else {
        return false;
    };
    if site.index < 1 {
        return false;
    }
    if site.index > snapshot.site_count(proc) {
        return false;
    }
    snapshot.reaches(from, proc)
}

/// Whether the one site stands before the other.
fn precedes(snapshot: &Snapshot, one: &NamedSite, other: &NamedSite) -> bool
    requires { IsResolution snapshot.now }
    ensures { IsTrue result ↔ Precedes snapshot.now one.now other.now }
{
    let Some(first) = snapshot.find_proc(&one.proc) else {
        return false;
    };
    let Some(second) = snapshot.find_proc(&other.proc) else {
        return false;
    };
    if first.0 == second.0 {
        return one.index < other.index;
    }
    first.0 < second.0
}

/// Whether of two sites that follow one another the first stands before.
fn are_sorted(snapshot: &Snapshot, sites: &[NamedSite]) -> bool
    requires { IsResolution snapshot.now }
    ensures { IsTrue result ↔ IsSorted snapshot.now sites.now }
{
    for i in 1..sites.len() {
        if !precedes(snapshot, &sites[i - 1], &sites[i]) {
            return false;
        }
    }
    true
}

/// Whether each is a site of a procedure that the one reaches.
fn are_reached(snapshot: &Snapshot, from: ProcId, sites: &[NamedSite]) -> bool
    requires resolution { IsResolution snapshot.now }
    requires from { from.0 < length (procs_of snapshot.now) }
    ensures { IsTrue result ↔ ((site : NamedSite) → Contains sites.now site → (m : ℕ) × IsSiteOf snapshot.now from.0 m site) }
{
    for site in sites {
        if !is_site(snapshot, from, site) {
            return false;
        }
    }
    true
}

/// Whether these are sites of procedures that the one reaches, sorted and distinct.
pub(crate) fn are_sites(snapshot: &Snapshot, from: ProcId, sites: &[NamedSite]) -> bool
    requires resolution { IsResolution snapshot.now }
    requires from { from.0 < length (procs_of snapshot.now) }
    ensures { IsTrue result ↔ AreSitesOf snapshot.now from.0 sites.now }
{
    are_reached(snapshot, from, sites) && are_sorted(snapshot, sites)
}
