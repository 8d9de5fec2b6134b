ghost use Rattle.std.specs.Prelude.{◌≡◌, ◌<◌, ◌≤◌, ◌+◌, ◌-◌, ◌↔◌, ℕ, Some, true, length, map, slice_get, IsTrue, IfOk, OnOk};
ghost use Rattle.std.specs.List.{Contains};
ghost use Rattle.vmv_tree.specs.declared.site.NamedSite.{NamedSite};
ghost use Rattle.vmv_snapshot.specs.Resolution.{procs_of, IsResolution};
ghost use Rattle.vmv_snapshot.specs.Tables.{body_sites};
ghost use Rattle.vmv_zone.specs.Zone.{NotBottom};
ghost use Rattle.vmv_cert.specs.Tables.{IsSiteOf, AreSitesOf};
ghost use Rattle.vmv_forward.specs.Paths.{IsGrown};
ghost use Rattle.vmv_forward.specs.Rows.{IsFlagged, IsListed, IsReachOf, IsRowOf, IsReached, AreListedSites, AddsSites, IsOwn, AreMarkedBy};
ghost use Rattle.vmv_forward.specs.Rounds.{quest_of, AreKept, HasInput, HasResult};

use crate::instance::Instance;
use crate::rounds::{Search, input_of, result_of};
use sqlite_items::Items;
use std::alloc::{AllocError, Global};
use vmv_cert::{NamedSite, Reach, Row};
use vmv_cond::Cond;
use vmv_snapshot::{ProcId, SiteId, Snapshot};

/// Whether the site is flagged at the instance itself.
fn is_flagged(instance: &Instance, site: SiteId) -> bool
    ensures { IsTrue result ↔ ((instance.now.proc.0 ≡ site.proc.0) × (1 ≤ site.index) × (slice_get instance.now.unproved (site.index - 1) ≡ Some true)) }
{
    if instance.proc.0 != site.proc.0 || site.index < 1 {
        return false;
    }
    match instance.unproved.get(site.index as usize - 1) {
        Some(flag) => *flag,
        None => false,
    }
}

/// Marks the sites of the procedure that are flagged at the instance itself.
fn mark_own(instance: &Instance, proc: ProcId, count: u32, marks: &mut [bool])
    requires { length marks.old ≡ count }
    ensures { AreMarkedBy (λ i. IsOwn instance.now proc.0 (i + 1)) marks.old marks.new }
{
    for before in 0..count {
        let index = before + 1;
        if is_flagged(instance, SiteId { proc, index }) {
            marks[before as usize] = true;
        }
    }
}

/// Marks the sites of the procedure that are flagged at the instance, or at one to which reached calls lead from there.
fn mark_listed(
    search: &Search<'_>,
    instances: &[Instance],
    number: usize,
    proc: ProcId,
    count: u32,
    marks: &mut [bool],
)
    requires from { 1 ≤ number }
    requires to { number < length instances.now }
    requires kept { AreKept (quest_of search.now) instances.now }
    requires count { length marks.old ≡ count }
    ensures { AreMarkedBy (λ i. IsListed instances.now number proc.0 (i + 1)) marks.old marks.new }
{
    let instance = &instances[number];
    mark_own(instance, proc, count, marks);
    for (c, callee) in instance.callees.iter().enumerate() {
        if !instance.input(c).is_bottom() {
            mark_listed(search, instances, *callee, proc, count, marks);
        }
    }
}

/// The sites of the procedure that the instance's procedure reaches and that are listed, added in order.
fn add_sites(
    alloc: Global,
    search: &Search<'_>,
    instances: &[Instance],
    number: usize,
    proc: ProcId,
    sites: &mut Vec<NamedSite>,
) -> Result<(), AllocError>
    requires from { 1 ≤ number }
    requires to { number < length instances.now }
    requires proc { proc.0 < length (procs_of search.now.snapshot.now) }
    requires kept { AreKept (quest_of search.now) instances.now }
    ensures { OnOk result (AddsSites search.now.snapshot.now instances.now number proc.0 sites.old.items sites.new.items) }
{
    let name = search.snapshot.proc_name(proc);
    let count = search.snapshot.site_count(proc);
    let mut marks = vec![in alloc; false; count as usize]?;
    mark_listed(search, instances, number, proc, count, marks.as_mut_slice());
    let marked = marks.as_slice();
    for before in 0..count {
        let index = before + 1;
        if marked[before as usize] {
            sites.push(NamedSite { proc: name, index })?;
        }
    }
    Ok(())
}

/// The sites that the row of an instance lists.
fn sites_of(
    alloc: Global,
    search: &Search<'_>,
    instances: &[Instance],
    number: usize,
) -> Result<Vec<NamedSite>, AllocError>
    requires from { 1 ≤ number }
    requires to { number < length instances.now }
    requires kept { AreKept (quest_of search.now) instances.now }
    ensures { IfOk result (λ sites. AreListedSites search.now.snapshot.now instances.now number sites.items) }
{
    let instance = &instances[number];
    let from = instance.proc;
    let mut sites = Vec::new(alloc);
    for p in 0..search.snapshot.proc_count() {
        let proc = ProcId(p);
        if search.snapshot.reaches(from, proc) {
            add_sites(alloc, search, instances, number, proc, &mut sites)?;
        }
    }
    Ok(sites)
}

/// Bottom where the range holds nothing.
fn reach_of(range: Cond) -> Reach
    ensures { IsReachOf range result }
{
    if range.is_empty() {
        Reach::Bottom
    } else {
        Reach::Value(range)
    }
}

/// The row of an instance that is reached.
pub(crate) fn row_of(
    alloc: Global,
    search: &Search<'_>,
    instances: &[Instance],
    number: usize,
) -> Result<Row, AllocError>
    requires from { 1 ≤ number }
    requires to { number < length instances.now }
    requires kept { AreKept (quest_of search.now) instances.now }
    requires reached { IsReached instances.now number }
    ensures { IfOk result (IsRowOf search.now.snapshot.now instances.now number) }
{
    let instance = &instances[number];
    Ok(Row {
        proc: search.snapshot.proc_name(instance.proc),
        input: *input_of(search, instances, number),
        keeps: Items::from_slice(alloc, instance.keeps.as_slice())?,
        result: reach_of(result_of(search, instances, number)),
        unproved: Items::from_vec(sites_of(alloc, search, instances, number)?),
    })
}
