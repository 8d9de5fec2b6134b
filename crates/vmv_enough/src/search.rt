ghost use Rattle.std.specs.Prelude.{◌≡◌, ◌↔◌, ◌<◌, ◌≤◌, true, Some, length, map, slice_get, IsTrue, IfOk, OnOk};
ghost use Rattle.std.specs.List.{All, Contains};
ghost use Rattle.vmv_snapshot.specs.Procs.{is_entry};
ghost use Rattle.vmv_snapshot.specs.Resolution.{procs_of};
ghost use Rattle.vmv_assumption.specs.Assumed.{cond_of};
ghost use Rattle.vmv_enough.specs.Enough.{NoneEmpty};
ghost use Rattle.vmv_enough.specs.Failures.{IsCounterexample};
ghost use Rattle.vmv_enough.specs.Found.{AreFailures, AreFound};
ghost use Rattle.vmv_enough.specs.Tried.{AreReady, IsTriedAt, AddsFirst};

use crate::attempt::attempt;
use crate::probe::Probe;
use crate::probes::probes_of;
use crate::sites::is_same_site;
use sqlite_items::Items;
use std::alloc::{AllocError, Global};
use std::thread::Threads;
use vmv_assumption::Assumption;
use vmv_crew::{Job, Turnstile, fan};
use vmv_snapshot::{ProcId, Snapshot};
use vmv_tree::NamedSite;
use vmv_witness::Witness;

/// Witnesses, in the order of their probes.
pub type Found = Items<Witness>;

/// Whether a witness is of this site.
fn is_found(found: &[Witness], site: &NamedSite) -> bool
    ensures { IsTrue result ↔ Contains (map (λ w. w.site) found.now) site.now }
{
    for w in found {
        if is_same_site(&w.site, site) {
            return true;
        }
    }
    false
}

/// What is lent to those who try the probes of an entry: one answer a probe, which depends on this alone.
#[derive(Drop)]
struct Trying<'a> {
    /// The program.
    revision: &'a Snapshot,
    /// The entry.
    entry: ProcId,
    /// What is assumed of the answers.
    enough: &'a Assumption,
    /// The probes.
    probes: &'a [Probe],
}

impl Trying<'_> {
    /// The run of the probe at a place, where it fails.
    fn try_at(&self, alloc: Global, place: usize) -> Result<Option<Witness>, AllocError>
        requires ready { AreReady self.now.revision.now self.now.entry.0 (cond_of self.now.enough.now) self.now.probes.now }
        requires nonempty { NoneEmpty self.now.revision.now (cond_of self.now.enough.now) }
        requires place { place < length self.now.probes.now }
        ensures { IfOk result (IsTriedAt self.now.revision.now self.now.entry.0 (cond_of self.now.enough.now) self.now.probes.now place) }
    {
        let probes = self.probes;
        let probe = &probes[place];
        let tried = attempt(alloc, self.revision, self.entry, self.enough, probe)?;
        Ok(tried)
    }
}

impl Job for Trying<'_> {
    type Out = Option<Witness>;

    ghost can_run = { λ trying place. AreReady trying.revision.now trying.entry.0 (cond_of trying.enough.now) trying.probes.now × NoneEmpty trying.revision.now (cond_of trying.enough.now) × (place < length trying.probes.now) };

    ghost allows = { λ trying place tried. IsTriedAt trying.revision.now trying.entry.0 (cond_of trying.enough.now) trying.probes.now place tried };

    fn run(&self, alloc: Global, place: usize) -> Result<Option<Witness>, AllocError> {
        self.try_at(alloc, place)
    }
}

/// Adds the run of the next probe, where it fails at a site of which there is none yet.
fn add_first(found: &mut Found, tried: Option<Witness>) -> Result<(), AllocError>
    ensures { OnOk result (AddsFirst found.old tried found.new) }
{
    if let Some(w) = tried {
        if !is_found(found.as_slice(), &w.site) {
            found.push(w)?;
        }
    }
    Ok(())
}

/// For each site at which one of these probes fails, the run of the first one that does: one job a probe, by so many workers.
fn first_failures<R: Threads + Sync, T: Turnstile + Sync>(
    rt: &R,
    alloc: Global,
    trying: &Trying<'_>,
    workers: u32,
    turnstile: &T,
) -> Result<Found, AllocError>
    requires ready { AreReady trying.now.revision.now trying.now.entry.0 (cond_of trying.now.enough.now) trying.now.probes.now }
    requires nonempty { NoneEmpty trying.now.revision.now (cond_of trying.now.enough.now) }
    requires workers { (1 ≤ workers) × (workers ≤ 64) }
    ensures failures { IfOk result (AreFailures trying.now.revision.now trying.now.entry.0 (cond_of trying.now.enough.now) trying.now.probes.now) }
    ensures runs { IfOk result (λ found. All (IsCounterexample trying.now.revision.now trying.now.entry.0 (cond_of trying.now.enough.now)) found) }
{
    let tried = fan(rt, alloc, trying, trying.probes.len(), workers, turnstile)?;
    let mut found = Found::new(alloc);
    for one in tried.into_vec() {
        add_first(&mut found, one)?;
    }
    Ok(found)
}

/// For each site at which one of these probes fails, the run of the first one that does: one probe after another.
fn failures_in_turn(alloc: Global, trying: &Trying<'_>) -> Result<Found, AllocError>
    requires ready { AreReady trying.now.revision.now trying.now.entry.0 (cond_of trying.now.enough.now) trying.now.probes.now }
    requires nonempty { NoneEmpty trying.now.revision.now (cond_of trying.now.enough.now) }
    ensures failures { IfOk result (AreFailures trying.now.revision.now trying.now.entry.0 (cond_of trying.now.enough.now) trying.now.probes.now) }
    ensures runs { IfOk result (λ found. All (IsCounterexample trying.now.revision.now trying.now.entry.0 (cond_of trying.now.enough.now)) found) }
{
    let mut found = Found::new(alloc);
    for place in 0..trying.probes.len() {
        let tried = trying.try_at(alloc, place)?;
        add_first(&mut found, tried)?;
    }
    Ok(found)
}

/// What the probes of an entry find: for each site at which one fails, the run of the first one that does, in the order of
/// the probes. It fails for want of memory alone.
///
/// The probes are tried by so many workers, 1 to 64. Each probe passes the turnstile.
pub fn witnesses<R: Threads + Sync, T: Turnstile + Sync>(
    rt: &R,
    alloc: Global,
    revision: &Snapshot,
    entry: ProcId,
    enough: &Assumption,
    workers: u32,
    turnstile: &T,
) -> Result<Found, AllocError>
    requires workers { (1 ≤ workers) × (workers ≤ 64) }
    requires entry { slice_get (map is_entry (procs_of revision.now)) entry.0 ≡ Some true }
    requires nonempty { NoneEmpty revision.now (cond_of enough.now) }
    ensures found { IfOk result (AreFound revision.now entry.0 (cond_of enough.now)) }
    ensures runs { IfOk result (λ found. All (IsCounterexample revision.now entry.0 (cond_of enough.now)) found) }
{
    let probes = probes_of(alloc, revision, entry, enough)?;
    let trying = Trying {
        revision,
        entry,
        enough,
        probes: probes.as_slice(),
    };
    Ok(first_failures(rt, alloc, &trying, workers, turnstile)?)
}

/// What `witnesses` finds, one probe after another on this thread.
pub fn witnesses_in_turn(
    alloc: Global,
    revision: &Snapshot,
    entry: ProcId,
    enough: &Assumption,
) -> Result<Found, AllocError>
    requires entry { slice_get (map is_entry (procs_of revision.now)) entry.0 ≡ Some true }
    requires nonempty { NoneEmpty revision.now (cond_of enough.now) }
    ensures found { IfOk result (AreFound revision.now entry.0 (cond_of enough.now)) }
    ensures runs { IfOk result (λ found. All (IsCounterexample revision.now entry.0 (cond_of enough.now)) found) }
{
    let probes = probes_of(alloc, revision, entry, enough)?;
    let trying = Trying {
        revision,
        entry,
        enough,
        probes: probes.as_slice(),
    };
    Ok(failures_in_turn(alloc, &trying)?)
}
