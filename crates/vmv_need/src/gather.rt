ghost use Rattle.std.specs.Prelude.{◌≡◌, ◌≤◌, ◌++◌, ◌^◌, ◌<◌, Some, true, length, map, slice_get, IfOk, OnOk};
ghost use Rattle.std.specs.Option.{option_to_list};
ghost use Rattle.vmv_snapshot.specs.Procs.{is_entry};
ghost use Rattle.vmv_snapshot.specs.Resolution.{procs_of};
ghost use Rattle.vmv_back.specs.Boxes.{AreBoxes};
ghost use Rattle.vmv_demands.specs.Demands.{AreDemands};
ghost use Rattle.vmv_need.specs.Candidates.{IsScopeOf};
ghost use Rattle.vmv_need.specs.Thresholds.{AreThresholdsAt, HaveThresholds};
ghost use Rattle.vmv_need.specs.Plan.{AreFirst, IsFoundAt};

use crate::subject::{Scope, Subject};
use sqlite_items::Items;
use std::alloc::{AllocError, Global};
use std::thread::Threads;
use vmv_back::boxes;
use vmv_crew::{Job, Open, fan};
use vmv_demands::{demands, ends};
use vmv_snapshot::{ProcId, Snapshot};
use vmv_thresholds::Thresholds;
use vmv_tree::Ends;

/// The thresholds of each entry, by its number; a helper has none.
pub type EntryThresholds = Vec<Option<Thresholds>>;

/// An entry with its boxes and its demands.
fn subject_of(alloc: Global, base: &Snapshot, entry: ProcId) -> Result<Subject, AllocError>
    requires { slice_get (map is_entry (procs_of base.now)) entry.0 ≡ Some true }
    ensures entry { IfOk result (λ s. s.entry ≡ entry) }
    ensures boxes { IfOk result (λ s. AreBoxes base.now entry.0 s.boxes) }
    ensures demands { IfOk result (λ s. AreDemands base.now entry.0 s.demands) }
{
    let boxes = boxes(alloc, base, entry)?;
    let demands = demands(alloc, base, entry)?;
    Ok(Subject {
        entry,
        boxes,
        demands,
    })
}

/// What is lent to those who look at the procedures of a program: one answer a procedure, which depends on this alone.
#[derive(Drop)]
struct Gathering<'a> {
    base: &'a Snapshot,
}

impl Gathering<'_> {
    /// The procedure of a number with its boxes and its demands, where it is an entry.
    fn subject_at(&self, alloc: Global, place: usize) -> Result<Option<Subject>, AllocError>
        requires { place < length (procs_of self.now.base.now) }
        ensures { IfOk result (IsFoundAt self.now.base.now place) }
    {
        let _ = self.base.proc_count();
        let entry = ProcId(place as u16);
        if self.base.is_entry(entry) {
            let subject = subject_of(alloc, self.base, entry)?;
            Ok(Some(subject))
        } else {
            Ok(None)
        }
    }
}

impl Job for Gathering<'_> {
    type Out = Option<Subject>;

    ghost can_run = { λ gathering place. place < length (procs_of gathering.base.now) };

    ghost allows = { λ gathering place found. IsFoundAt gathering.base.now place found };

    fn run(&self, alloc: Global, place: usize) -> Result<Option<Subject>, AllocError> {
        self.subject_at(alloc, place)
    }
}

/// Adds what was found of a procedure, where it is an entry.
fn add_found(subjects: &mut Items<Subject>, found: Option<Subject>) -> Result<(), AllocError>
    ensures { OnOk result (subjects.new ≡ subjects.old ++ option_to_list found) }
{
    if let Some(subject) = found {
        subjects.push(subject)?;
    }
    Ok(())
}

/// The entries in text order, each with its boxes and its demands: one job a procedure, by so many workers.
fn subjects_of<R: Threads + Sync>(
    rt: &R,
    alloc: Global,
    base: &Snapshot,
    workers: u32,
) -> Result<Items<Subject>, AllocError>
    requires workers { (1 ≤ workers) × (workers ≤ 64) }
    ensures first { IfOk result (AreFirst base.now (length (procs_of base.now))) }
    ensures few { IfOk result (λ s. length s < 2 ^ 16) }
{
    let gathering = Gathering { base };
    let count = usize::from(base.proc_count());
    let found = fan(rt, alloc, &gathering, count, workers, &Open)?;
    let mut subjects = Items::new(alloc);
    for one in found.into_vec() {
        add_found(&mut subjects, one)?;
    }
    Ok(subjects)
}

/// What is looked at in a program. So many workers look.
pub(crate) fn scope_of<R: Threads + Sync>(
    rt: &R,
    alloc: Global,
    base: &Snapshot,
    workers: u32,
) -> Result<Scope, AllocError>
    requires workers { (1 ≤ workers) × (workers ≤ 64) }
    ensures scope { IfOk result (IsScopeOf base.now) }
    ensures few { IfOk result (λ s. length s.subjects < 2 ^ 16) }
{
    let ends = ends(alloc, base)?;
    let subjects = subjects_of(rt, alloc, base, workers)?;
    Ok(Scope { ends, subjects })
}

/// The thresholds of a procedure, where it is an entry.
fn thresholds_at(
    alloc: Global,
    base: &Snapshot,
    ends: &Ends,
    number: u16,
) -> Result<Option<Thresholds>, AllocError>
    requires { number < length (procs_of base.now) }
    ensures { IfOk result (λ found. AreThresholdsAt base.now ends.now number found) }
{
    let entry = ProcId(number);
    if base.is_entry(entry) {
        Ok(Some(Thresholds::of(alloc, base, entry, ends)?))
    } else {
        Ok(None)
    }
}

/// The thresholds of each entry, for these ends. It fails for want of memory alone.
pub fn all_thresholds(
    alloc: Global,
    base: &Snapshot,
    ends: &Ends,
) -> Result<EntryThresholds, AllocError>
    ensures { IfOk result (λ list. HaveThresholds base.now ends.now list.items) }
{
    let mut list = Vec::new(alloc);
    for number in 0..base.proc_count() {
        list.push(thresholds_at(alloc, base, ends, number)?)?;
    }
    Ok(list)
}
