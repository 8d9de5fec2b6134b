ghost use Rattle.std.specs.Prelude.{◌≡◌, true, Some, IsTrue, IfSome, map, slice_get};
ghost use Rattle.vmv_snapshot.specs.Procs.{is_entry};
ghost use Rattle.vmv_snapshot.specs.Resolution.{procs_of};
ghost use Rattle.vmv_assumption.specs.Assumed.{cond_of};
ghost use Rattle.vmv_enough.specs.Enough.{NoneEmpty};

use crate::meeting::Meeting;
use std::alloc::{AllocError, Global};
use std::sync::Arc;
use std::thread::Threads;
use vmv_assumption::Assumption;
use vmv_crew::Open;
use vmv_enough::{sufficient, witnesses};
use vmv_need::{Needed, necessary};
use vmv_report::{baseline, judge};
use vmv_snapshot::{ProcId, Snapshot};
use vmv_tree::Name;

/// Looks for what is necessary.
pub fn find_necessary<R: Threads + Sync>(
    rt: &R,
    alloc: Global,
    program: &Snapshot,
    meeting: &Meeting,
) -> Result<(), AllocError> {
    necessary(rt, alloc, program, 2, meeting)?;
    Ok(())
}

/// Looks for what suffices.
pub fn find_sufficient<R: Threads + Sync>(
    rt: &R,
    alloc: Global,
    program: &Snapshot,
    meeting: &Meeting,
) -> Result<(), AllocError> {
    if let Needed::Conditions { assumption, .. } = necessary(rt, alloc, program, 2, &Open)? {
        sufficient(rt, alloc, program, &assumption, 2, meeting)?;
    }
    Ok(())
}

/// The entry of this name.
fn entry_of(program: &Snapshot, name: &[u8]) -> Option<ProcId>
    ensures { IfSome result (λ e. slice_get (map is_entry (procs_of program.now)) e.0 ≡ Some true) }
{
    let entry = program.find_proc(&Name::read(name)?)?;
    if entry.0 < program.proc_count() && program.is_entry(entry) {
        Some(entry)
    } else {
        None
    }
}

/// Whether each outside name may answer something.
fn can_answer(program: &Snapshot, assumed: &Assumption) -> bool
    ensures { IsTrue result → NoneEmpty program.now (cond_of assumed.now) }
{
    program
        .outsides()
        .iter()
        .all(|name| !assumed.get(name).is_empty())
}

/// Looks for failing runs of an entry, whatever the outside names answer.
pub fn find_witnesses<R: Threads + Sync>(
    rt: &R,
    alloc: Global,
    program: &Snapshot,
    entry: &[u8],
    meeting: &Meeting,
) -> Result<(), AllocError> {
    let any = Assumption::whole(alloc, program)?;
    let Some(entry) = entry_of(program, entry) else {
        return Ok(());
    };
    if can_answer(program, &any) {
        witnesses(rt, alloc, program, entry, &any, 2, meeting)?;
    }
    Ok(())
}

/// Judges a program against itself.
pub fn find_report<R: Threads + Sync>(
    rt: &R,
    alloc: Global,
    base: Snapshot,
    revision: &Snapshot,
    meeting: &Meeting,
) -> Result<(), AllocError> {
    let found = baseline(rt, alloc, Arc::new(alloc, base)?, 2, &Open)?;
    judge(rt, alloc, &found, revision, 2, meeting)?;
    Ok(())
}
