ghost use Rattle.std.specs.Prelude.{◌≡◌, ◌<◌, ◌≤◌, ◌++◌, true, Some, length, map, slice_get, IfOk, OnOk};
ghost use Rattle.std.specs.Option.{option_to_list};
ghost use Rattle.vmv_snapshot.specs.Procs.{is_entry};
ghost use Rattle.vmv_snapshot.specs.Resolution.{procs_of};
ghost use Rattle.vmv_enough.specs.Plan.{IsSubject, IsFoundAt, AreSubjects, IsPlan};

use sqlite_items::Items;
use std::alloc::{AllocError, Global};
use std::thread::Threads;
use vmv_crew::{Job, Open, fan};
use vmv_demands::{Demands, demands, ends};
use vmv_snapshot::{ProcId, Snapshot};
use vmv_thresholds::Thresholds;
use vmv_tree::Ends;

/// What is looked at in an entry.
#[derive(Drop)]
pub(crate) struct Subject {
    /// The entry.
    pub(crate) entry: ProcId,
    /// Its thresholds.
    pub(crate) thresholds: Thresholds,
    /// Its demands.
    pub(crate) demands: Demands,
}

/// What is looked at in a program while its conditions are tightened.
#[derive(Drop)]
pub(crate) struct Plan {
    /// The ends of its outside names.
    pub(crate) ends: Ends,
    /// Its entries, in text order.
    pub(crate) subjects: Items<Subject>,
}

/// What is looked at in an entry.
fn subject_of(
    alloc: Global,
    base: &Snapshot,
    entry: ProcId,
    ends: &Ends,
) -> Result<Subject, AllocError>
    requires { slice_get (map is_entry (procs_of base.now)) entry.0 ≡ Some true }
    ensures subject { IfOk result (IsSubject base.now ends.now) }
    ensures entry { IfOk result (λ subject. subject.entry ≡ entry) }
{
    let _ = base.program();
    let thresholds = Thresholds::of(alloc, base, entry, ends)?;
    let demands = demands(alloc, base, entry)?;
    Ok(Subject {
        entry,
        thresholds,
        demands,
    })
}

/// What is lent to those who look at the procedures of a program: one answer a procedure, which depends on this alone.
#[derive(Drop)]
struct Planning<'a> {
    base: &'a Snapshot,
    ends: &'a Ends,
}

impl Planning<'_> {
    /// What is looked at in the procedure of a number, where it is an entry.
    fn subject_at(&self, alloc: Global, place: usize) -> Result<Option<Subject>, AllocError>
        requires { place < length (procs_of self.now.base.now) }
        ensures { IfOk result (IsFoundAt self.now.base.now self.now.ends.now place) }
    {
        let _ = self.base.proc_count();
        let entry = ProcId(place as u16);
        if self.base.is_entry(entry) {
            let subject = subject_of(alloc, self.base, entry, self.ends)?;
            Ok(Some(subject))
        } else {
            Ok(None)
        }
    }
}

impl Job for Planning<'_> {
    type Out = Option<Subject>;

    ghost can_run = { λ planning place. place < length (procs_of planning.base.now) };

    ghost allows = { λ planning place found. IsFoundAt planning.base.now planning.ends.now place found };

    fn run(&self, alloc: Global, place: usize) -> Result<Option<Subject>, AllocError> {
        self.subject_at(alloc, place)
    }
}

/// Adds what was found of the procedure of this number, where it is an entry.
fn add_found(subjects: &mut Items<Subject>, found: Option<Subject>) -> Result<(), AllocError>
    ensures { OnOk result (subjects.new ≡ subjects.old ++ option_to_list found) }
{
    if let Some(subject) = found {
        subjects.push(subject)?;
    }
    Ok(())
}

/// What is looked at in each entry, in text order: one job a procedure, by so many workers.
fn subjects_of<R: Threads + Sync>(
    rt: &R,
    alloc: Global,
    base: &Snapshot,
    ends: &Ends,
    workers: u32,
) -> Result<Items<Subject>, AllocError>
    requires workers { (1 ≤ workers) × (workers ≤ 64) }
    ensures { IfOk result (AreSubjects base.now ends.now (length (procs_of base.now))) }
{
    let planning = Planning { base, ends };
    let count = usize::from(base.proc_count());
    let found = fan(rt, alloc, &planning, count, workers, &Open)?;
    let mut subjects = Items::new(alloc);
    for one in found.into_vec() {
        add_found(&mut subjects, one)?;
    }
    Ok(subjects)
}

/// What is looked at in a program. So many workers look.
pub(crate) fn plan_of<R: Threads + Sync>(
    rt: &R,
    alloc: Global,
    base: &Snapshot,
    workers: u32,
) -> Result<Plan, AllocError>
    requires workers { (1 ≤ workers) × (workers ≤ 64) }
    ensures { IfOk result (IsPlan base.now) }
{
    let ends = ends(alloc, base)?;
    let subjects = subjects_of(rt, alloc, base, &ends, workers)?;
    Ok(Plan { ends, subjects })
}
