ghost use Rattle.std.specs.Prelude.{◌≡◌, ◌+◌, ◌<◌, ◌≤◌, Some, true, map, length, slice_get, IfOk, OnOk};
ghost use Rattle.vmv_snapshot.specs.Procs.{is_entry};
ghost use Rattle.vmv_snapshot.specs.Reaches.{Reaches};
ghost use Rattle.vmv_snapshot.specs.Resolution.{tree_of, procs_of, IsResolution};
ghost use Rattle.vmv_report.specs.Rows.{named_site, IsPlace, AreRows, AreWitnesses};
ghost use Rattle.vmv_report.specs.Work.{review_of, IsReady, AreSitesFor, AreSitesOfAll, IsInBoth, IsToldBefore, IsAhead, at};

use crate::ahead::Ahead;
use crate::class::Class;
use crate::proving::{EntrySites, Judging};
use crate::row::ReportRow;
use crate::told::{Told, copy_run, next_run};
use sqlite_items::Items;
use std::alloc::{AllocError, Global};
use std::thread::Threads;
use vmv_crew::{Turnstile, fan};
use vmv_snapshot::{ProcId, SiteId};
use vmv_tree::NamedSite;

/// Adds the row of a site that isn't provable in either way: a regression, where a run of its probes fails there.
fn add_unproved(
    alloc: Global,
    told: &mut Told,
    judging: &Judging<'_>,
    sites: &EntrySites,
    entry: ProcId,
    site: SiteId,
) -> Result<(), AllocError>
    requires proc { site.proc.0 < length (procs_of judging.now.revision.now) }
    requires place { IsPlace judging.now.revision.now (at entry.0 site.proc.0 site.index) }
    requires sites { AreSitesFor (review_of judging.now) entry.0 sites.now }
    requires unproved { IsInBoth sites.now (named_site judging.now.revision.now site) }
    requires before { IsToldBefore (review_of judging.now) (at entry.0 site.proc.0 site.index) told.old }
    ensures { OnOk result (IsToldBefore (review_of judging.now) (at entry.0 site.proc.0 (site.index + 1)) told.new) }
{
    let proc = judging.revision.proc_name(site.proc);
    let index = site.index;
    let named = NamedSite { proc, index };
    match next_run(told.regressions, sites.found.as_slice(), &named) {
        Some(w) => {
            let run = copy_run(alloc, w)?;
            let class = Class::Regression;
            told.witnesses.push(run)?;
            told.regressions += 1;
            told.rows.push(ReportRow { entry, site, class })
        }
        None => {
            let class = Class::Alarm;
            told.rows.push(ReportRow { entry, site, class })
        }
    }
}

/// Adds the row of a site, which is the next.
fn add_row(
    alloc: Global,
    told: &mut Told,
    ahead: &mut Ahead<'_>,
    judging: &Judging<'_>,
    sites: &EntrySites,
    entry: ProcId,
    site: SiteId,
) -> Result<(), AllocError>
    requires resolution { IsResolution judging.now.revision.now }
    requires proc { site.proc.0 < length (procs_of judging.now.revision.now) }
    requires place { IsPlace judging.now.revision.now (at entry.0 site.proc.0 site.index) }
    requires sites { AreSitesFor (review_of judging.now) entry.0 sites.now }
    requires before { IsToldBefore (review_of judging.now) (at entry.0 site.proc.0 site.index) told.old }
    requires ahead { IsAhead judging.now.revision.now (at entry.0 site.proc.0 site.index) sites.now ahead.old }
    ensures told { OnOk result (IsToldBefore (review_of judging.now) (at entry.0 site.proc.0 (site.index + 1)) told.new) }
    ensures ahead { IsAhead judging.now.revision.now (at entry.0 site.proc.0 (site.index + 1)) sites.now ahead.new }
{
    let proc = judging.revision.proc_name(site.proc);
    let index = site.index;
    match ahead.class_of(&NamedSite { proc, index }) {
        Some(class) => told.rows.push(ReportRow { entry, site, class }),
        None => add_unproved(alloc, told, judging, sites, entry, site),
    }
}

/// Adds the rows of the sites of a procedure that the entry reaches.
fn add_sites(
    alloc: Global,
    told: &mut Told,
    ahead: &mut Ahead<'_>,
    judging: &Judging<'_>,
    sites: &EntrySites,
    entry: ProcId,
    proc: ProcId,
) -> Result<(), AllocError>
    requires resolution { IsResolution judging.now.revision.now }
    requires entry { slice_get (map is_entry (procs_of judging.now.revision.now)) entry.0 ≡ Some true }
    requires proc { proc.0 < length (procs_of judging.now.revision.now) }
    requires reached { Reaches (tree_of judging.now.revision.now) entry.0 proc.0 }
    requires sites { AreSitesFor (review_of judging.now) entry.0 sites.now }
    requires before { IsToldBefore (review_of judging.now) (at entry.0 proc.0 1) told.old }
    requires ahead { IsAhead judging.now.revision.now (at entry.0 proc.0 1) sites.now ahead.old }
    ensures told { OnOk result (IsToldBefore (review_of judging.now) (at entry.0 (proc.0 + 1) 1) told.new) }
    ensures ahead { OnOk result (IsAhead judging.now.revision.now (at entry.0 (proc.0 + 1) 1) sites.now ahead.new) }
{
    for done in 0..judging.revision.site_count(proc) {
        let index = done + 1;
        let site = SiteId { proc, index };
        add_row(alloc, told, ahead, judging, sites, entry, site)?;
    }
    Ok(())
}

/// Adds the rows of a procedure, where the entry reaches it.
fn add_proc(
    alloc: Global,
    told: &mut Told,
    ahead: &mut Ahead<'_>,
    judging: &Judging<'_>,
    sites: &EntrySites,
    entry: ProcId,
    number: u16,
) -> Result<(), AllocError>
    requires resolution { IsResolution judging.now.revision.now }
    requires entry { slice_get (map is_entry (procs_of judging.now.revision.now)) entry.0 ≡ Some true }
    requires number { number < length (procs_of judging.now.revision.now) }
    requires sites { AreSitesFor (review_of judging.now) entry.0 sites.now }
    requires before { IsToldBefore (review_of judging.now) (at entry.0 number 1) told.old }
    requires ahead { IsAhead judging.now.revision.now (at entry.0 number 1) sites.now ahead.old }
    ensures told { OnOk result (IsToldBefore (review_of judging.now) (at entry.0 (number + 1) 1) told.new) }
    ensures ahead { OnOk result (IsAhead judging.now.revision.now (at entry.0 (number + 1) 1) sites.now ahead.new) }
{
    let proc = ProcId(number);
    if judging.revision.reaches(entry, proc) {
        return add_sites(alloc, told, ahead, judging, sites, entry, proc);
    }
    Ok(())
}

/// Adds the rows of all procedures that the entry reaches.
fn add_procs(
    alloc: Global,
    told: &mut Told,
    judging: &Judging<'_>,
    sites: &EntrySites,
    entry: ProcId,
) -> Result<(), AllocError>
    requires resolution { IsResolution judging.now.revision.now }
    requires entry { slice_get (map is_entry (procs_of judging.now.revision.now)) entry.0 ≡ Some true }
    requires sites { AreSitesFor (review_of judging.now) entry.0 sites.now }
    requires before { IsToldBefore (review_of judging.now) (at entry.0 0 1) told.old }
    ensures { OnOk result (IsToldBefore (review_of judging.now) (at (entry.0 + 1) 0 1) told.new) }
{
    let mut ahead = Ahead {
        always: sites.always.as_slice(),
        relative: sites.relative.as_slice(),
    };
    for number in 0..judging.revision.proc_count() {
        add_proc(alloc, told, &mut ahead, judging, sites, entry, number)?;
    }
    told.regressions = 0;
    Ok(())
}

/// The rows of a revision, with a run for each regression, from the sites of its entries.
fn rows_of(alloc: Global, judging: &Judging<'_>, sites: &[EntrySites]) -> Result<Told, AllocError>
    requires ready { IsReady judging.now }
    requires sites { AreSitesOfAll (review_of judging.now) judging.now.entries.now sites.now }
    ensures rows { IfOk result (λ told. AreRows (review_of judging.now) told.rows) }
    ensures witnesses { IfOk result (λ told. AreWitnesses (review_of judging.now) told.rows told.witnesses) }
{
    let mut told = Told {
        rows: Items::new(alloc),
        witnesses: Items::new(alloc),
        regressions: 0,
    };
    let entries = judging.entries;
    for place in 0..entries.len() {
        let entry = entries[place];
        add_procs(alloc, &mut told, judging, &sites[place], entry)?;
    }
    Ok(told)
}

/// The rows of a revision, with a run for each regression: one job an entry, by so many workers, and the rows in order.
pub(crate) fn all_rows<R: Threads + Sync, T: Turnstile + Sync>(
    rt: &R,
    alloc: Global,
    judging: &Judging<'_>,
    workers: u32,
    turnstile: &T,
) -> Result<Told, AllocError>
    requires ready { IsReady judging.now }
    requires workers { (1 ≤ workers) × (workers ≤ 64) }
    ensures rows { IfOk result (λ told. AreRows (review_of judging.now) told.rows) }
    ensures witnesses { IfOk result (λ told. AreWitnesses (review_of judging.now) told.rows told.witnesses) }
{
    let count = judging.entries.len();
    let sites = fan(rt, alloc, judging, count, workers, turnstile)?;
    let told = rows_of(alloc, judging, sites.as_slice())?;
    Ok(told)
}
