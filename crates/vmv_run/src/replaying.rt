ghost use Rattle.std.specs.Prelude.{◌≡◌, true, Some, map, slice_get};
ghost use Rattle.vmv_tree.specs.declared.name.Name.{Name};
ghost use Rattle.vmv_snapshot.specs.Procs.{is_entry};
ghost use Rattle.vmv_snapshot.specs.Resolution.{tree_of, procs_of};
ghost use Rattle.vmv_run.specs.declared.outcome.Outcome.{Outcome as Found};
ghost use Rattle.vmv_run.specs.Replay.{pairs, IsProcName, AreParams, IsReplay};
ghost use Rattle.vmv_run.specs.Walk.{found_of};

use crate::answer::Answer;
use crate::frame::entry_frame;
use crate::outcome::Outcome;
use crate::source::Source;
use crate::walk::walk_proc;
use crate::walked::Ended;
use vmv_snapshot::{ProcId, Snapshot};

/// What is found where a walk ended so, with so many of the answers.
fn found(ended: Ended, used: usize, count: usize) -> Outcome
    ensures { result ≡ found_of ended used count }
{
    let all = count <= used;
    match ended {
        Ended::Stopped if all => Outcome::Short { at: used },
        Ended::Stopped => Outcome::Stranger { at: used },
        Ended::Done(word) if all => Outcome::Done(word),
        Ended::Fail(site) if all => Outcome::Fail(site),
        Ended::Done(_) | Ended::Fail(_) => Outcome::Extra { used },
    }
}

/// What is found of these answers where an entry is run on these parameters. It takes no memory.
pub fn replay(snapshot: &Snapshot, entry: ProcId, params: &[i64], answers: &[Answer]) -> Outcome
    requires entry { slice_get (map is_entry (procs_of snapshot.now)) entry.0 ≡ Some true }
    requires params { AreParams (tree_of snapshot.now) entry.0 params.now }
    ensures found { (name : Name) → IsProcName (tree_of snapshot.now) entry.0 name → IsReplay (tree_of snapshot.now) name params.now (pairs answers.now) result }
    ensures only { (name : Name) (other : Found) → IsProcName (tree_of snapshot.now) entry.0 name → IsReplay (tree_of snapshot.now) name params.now (pairs answers.now) other → other ≡ result }
{
    // A snapshot's program is valid.
    let _ = snapshot.program();
    let mut source = Source::Given { answers, used: 0 };
    let ended = walk_proc(snapshot, entry, entry_frame(params), &mut source);
    found(ended, source.used(), answers.len())
}
