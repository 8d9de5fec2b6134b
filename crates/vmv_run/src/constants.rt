ghost use Rattle.std.specs.Prelude.{◌≡◌, true, Some, length, map, slice_get, IfOk};
ghost use Rattle.vmv_tree.specs.declared.name.Name.{Name};
ghost use Rattle.vmv_snapshot.specs.Procs.{outsides, is_entry};
ghost use Rattle.vmv_snapshot.specs.Resolution.{tree_of, procs_of};
ghost use Rattle.vmv_run.specs.Replay.{IsProcName, AreParams};
ghost use Rattle.vmv_run.specs.Constant.{IsConstantRun};
ghost use Rattle.vmv_run.specs.Walk.{over_of};

use crate::answer::Answers;
use crate::constant_run::Constant;
use crate::frame::entry_frame;
use crate::outcome::Outcome;
use crate::source::Source;
use crate::walk::walk_proc;
use crate::walked::Ended;
use std::alloc::{AllocError, Global};
use vmv_snapshot::{ProcId, Snapshot};

/// How a run ended that a walk came to the end of.
fn over(ended: Ended) -> Option<Outcome>
    ensures { result ≡ over_of ended }
{
    match ended {
        Ended::Done(word) => Some(Outcome::Done(word)),
        Ended::Fail(site) => Some(Outcome::Fail(site)),
        Ended::Stopped => None,
    }
}

/// The run of an entry on these parameters in which each outside name always answers its value. The values stand in the
/// order of the snapshot's outside names. It fails for want of memory alone.
pub fn constant(
    alloc: Global,
    snapshot: &Snapshot,
    entry: ProcId,
    params: &[i64],
    values: &[i64],
) -> Result<Constant, AllocError>
    requires entry { slice_get (map is_entry (procs_of snapshot.now)) entry.0 ≡ Some true }
    requires params { AreParams (tree_of snapshot.now) entry.0 params.now }
    requires values { length values.now ≡ length (outsides (tree_of snapshot.now)) }
    ensures { IfOk result (λ it. (name : Name) → IsProcName (tree_of snapshot.now) entry.0 name → IsConstantRun (tree_of snapshot.now) name params.now values.now it) }
{
    // A snapshot's program is valid.
    let _ = snapshot.program();
    let mut source = Source::Constant {
        names: snapshot.outsides(),
        values,
        taken: Answers::new(alloc),
    };
    let ended = walk_proc(snapshot, entry, entry_frame(params), &mut source);
    let Some(outcome) = over(ended) else {
        return Err(AllocError);
    };
    let Some(answers) = source.into_taken() else {
        return Err(AllocError);
    };
    Ok(Constant { answers, outcome })
}
