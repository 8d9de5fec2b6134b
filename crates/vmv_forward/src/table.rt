ghost use Rattle.std.specs.Prelude.{◌≡◌, ◌<◌, ◌≤◌, ◌+◌, ◌*◌, List, [], length, IfOk};
ghost use Rattle.vmv_tree.specs.declared.ends.NameEnds.{NameEnds};
ghost use Rattle.vmv_tree.specs.declared.tree.Param.{Param};
ghost use Rattle.vmv_snapshot.specs.Resolution.{tree_of};
ghost use Rattle.vmv_assumption.specs.Assumed.{cond_of};
ghost use Rattle.vmv_cert.specs.Tables.{Accepted, HasThresholds, IsEntry, IsBoxIn};
ghost use Rattle.vmv_thresholds.specs.Thresholds.{AreThresholds};
ghost use Rattle.vmv_zone.specs.Zone.{NotBottom};
ghost use Rattle.vmv_forward.specs.Rounds.{quest_of, AreKept};
ghost use Rattle.vmv_forward.specs.Rows.{Lays};
ghost use Rattle.vmv_forward.specs.Least.{IsLeastTable};
ghost use Rattle.vmv_forward.specs.Instances.{instances};

use crate::boxes::box_state;
use crate::grow::instances_of;
use crate::instance::Instance;
use crate::lay::rows_in_order;
use crate::rounds::{Search, settle};
use crate::waiting::all_waiting;
use sqlite_items::Items;
use std::alloc::{AllocError, Global};
use std::sync::ledger::Ledger;
use vmv_assumption::Assumption;
use vmv_cert::Table;
use vmv_pass::Steps;
use vmv_snapshot::{ParamBox, ProcId, Snapshot};
use vmv_thresholds::Thresholds;

/// The rows of the entry and of what it calls, in order.
fn table_of(alloc: Global, search: &Search<'_>, instances: &[Instance]) -> Result<Table, AllocError>
    requires kept { AreKept (quest_of search.now) instances.now }
    requires reached { NotBottom search.now.input.now }
    ensures { IfOk result (λ table. Lays (length instances.now) search.now.snapshot.now instances.now 1 search.now.input.now [] table.rows) }
{
    let rows = rows_in_order(alloc, search, instances)?;
    Ok(Table {
        rows: Items::from_vec(rows),
    })
}

/// The least accepted table of an entry and a box, with threshold states at its loops. It fails only for want of memory.
///
/// The box has a range for each parameter, which isn't empty and lies in the parameter's. The thresholds are those of the
/// snapshot, the entry and some ends. A step is one raising of the state of one loop on one path of calls.
pub fn least<L: Ledger>(
    alloc: Global,
    snapshot: &Snapshot,
    entry: ProcId,
    within: &ParamBox,
    assumed: &Assumption,
    thresholds: &Thresholds,
    steps: &mut Steps<L>,
) -> Result<Table, AllocError>
    requires entry { (params : List Param) × IsEntry snapshot.now entry.0 params × IsBoxIn params within.now }
    requires thresholds { (ends : List NameEnds) × AreThresholds (tree_of snapshot.now) entry.0 ends thresholds.now }
    ensures accepted { IfOk result (λ table. Accepted snapshot.now (cond_of assumed.now) table.rows) }
    ensures thresholds { IfOk result (λ table. (ends : List NameEnds) → AreThresholds (tree_of snapshot.now) entry.0 ends thresholds.now → HasThresholds snapshot.now entry.0 ends table.rows) }
    ensures least { IfOk result (λ table. (ends : List NameEnds) → AreThresholds (tree_of snapshot.now) entry.0 ends thresholds.now → IsLeastTable snapshot.now entry.0 within.now ends (cond_of assumed.now) table.rows) }
    ensures cost { steps.new ≤ steps.old + instances snapshot.now.codes entry.0 * (289 * (length thresholds.now + 2) + 17) }
{
    let _program = snapshot.program();
    let input = box_state(within).norm();
    let mut found = instances_of(alloc, snapshot, entry, &input)?;
    let count = found.len();
    let mut waiting = all_waiting(alloc, count)?;
    let mut risen = vec![in alloc; false; count]?;
    let search = Search {
        snapshot,
        entry,
        input: &input,
        assumed,
        thresholds: thresholds.as_slice(),
    };
    settle(
        &search,
        found.as_mut_slice(),
        &mut waiting,
        risen.as_mut_slice(),
        steps,
    );
    table_of(alloc, &search, found.as_slice())
}
