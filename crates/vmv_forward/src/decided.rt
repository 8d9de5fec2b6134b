ghost use Rattle.std.specs.Prelude.{◌≡◌, ◌↔◌, ◌<◌, ◌∷◌, List, Some, true, map, slice_get, IfOk, IfSome, IsSome, IsTrue};
ghost use Rattle.std.specs.List.{Contains};
ghost use Rattle.vmv_tree.specs.declared.ends.NameEnds.{NameEnds};
ghost use Rattle.vmv_tree.specs.declared.site.NamedSite.{NamedSite as Site};
ghost use Rattle.vmv_tree.specs.declared.tree.Param.{Param};
ghost use Rattle.vmv_snapshot.specs.Procs.{is_entry};
ghost use Rattle.vmv_snapshot.specs.Resolution.{tree_of, procs_of};
ghost use Rattle.vmv_assumption.specs.Assumed.{cond_of};
ghost use Rattle.vmv_cert.specs.declared.row.Row.{Row as Listed};
ghost use Rattle.vmv_cert.specs.declared.row.Reach.TheVariants.{Bottom};
ghost use Rattle.vmv_cert.specs.Tables.{Accepted, HasThresholds, IsEntry, IsBoxIn, AreSitesOf, Provable, Dead};
ghost use Rattle.vmv_thresholds.specs.Thresholds.{AreThresholds};
ghost use Rattle.vmv_forward.specs.Least.{IsLeastTable};

use crate::table::least;
use sqlite_items::Items;
use std::alloc::{AllocError, Global};
use std::marker::Brand;
use std::sync::ledger::{Blank, Ledger};
use vmv_assumption::Assumption;
use vmv_back::full_box;
use vmv_cert::{Reach, Row, Sites, Table};
use vmv_pass::Steps;
use vmv_snapshot::{ParamBox, ProcId, Snapshot};
use vmv_thresholds::Thresholds;

/// The least table, whose steps are counted in a new ledger.
fn counted<L: Ledger>(
    alloc: Global,
    snapshot: &Snapshot,
    entry: ProcId,
    within: &ParamBox,
    assumed: &Assumption,
    thresholds: &Thresholds,
    blank: Blank,
) -> Result<Table, AllocError>
    requires name { blank.name ≡ L.name }
    requires parts { blank.parts ≡ L.parts }
    requires some { 0 < blank.parts }
    requires entry { (params : List Param) × IsEntry snapshot.now entry.0 params × IsBoxIn params within.now }
    requires thresholds { (ends : List NameEnds) × AreThresholds (tree_of snapshot.now) entry.0 ends thresholds.now }
    ensures accepted { IfOk result (λ table. Accepted snapshot.now (cond_of assumed.now) table.rows) }
    ensures thresholds { IfOk result (λ table. (ends : List NameEnds) → AreThresholds (tree_of snapshot.now) entry.0 ends thresholds.now → HasThresholds snapshot.now entry.0 ends table.rows) }
    ensures least { IfOk result (λ table. (ends : List NameEnds) → AreThresholds (tree_of snapshot.now) entry.0 ends thresholds.now → IsLeastTable snapshot.now entry.0 within.now ends (cond_of assumed.now) table.rows) }
{
    let mut steps: Steps<L> = Steps::open(blank);
    least(
        alloc, snapshot, entry, within, assumed, thresholds, &mut steps,
    )
}

/// The least accepted table of an entry and a box, as `least` makes it, where nobody asks for its cost.
pub fn least_table(
    alloc: Global,
    snapshot: &Snapshot,
    entry: ProcId,
    within: &ParamBox,
    assumed: &Assumption,
    thresholds: &Thresholds,
) -> Result<Table, AllocError>
    requires entry { (params : List Param) × IsEntry snapshot.now entry.0 params × IsBoxIn params within.now }
    requires thresholds { (ends : List NameEnds) × AreThresholds (tree_of snapshot.now) entry.0 ends thresholds.now }
    ensures accepted { IfOk result (λ table. Accepted snapshot.now (cond_of assumed.now) table.rows) }
    ensures thresholds { IfOk result (λ table. (ends : List NameEnds) → AreThresholds (tree_of snapshot.now) entry.0 ends thresholds.now → HasThresholds snapshot.now entry.0 ends table.rows) }
    ensures least { IfOk result (λ table. (ends : List NameEnds) → AreThresholds (tree_of snapshot.now) entry.0 ends thresholds.now → IsLeastTable snapshot.now entry.0 within.now ends (cond_of assumed.now) table.rows) }
{
    counted::<Brand>(
        alloc,
        snapshot,
        entry,
        within,
        assumed,
        thresholds,
        Blank::new(1),
    )
}

/// Whether the first row says that its procedure doesn't return.
fn is_dead(rows: &[Row]) -> bool
    ensures { (first : Listed) (rest : List Listed) → rows.now ≡ first ∷ rest → IsTrue result ↔ (first.result ≡ Bottom) }
{
    match rows {
        [] => false,
        [first, ..] => match first.result {
            Reach::Bottom => true,
            Reach::Value(_) => false,
        },
    }
}

/// The least table of an entry and a box, where it says that the entry doesn't return. There is none exactly where no
/// accepted table of threshold states says so.
pub fn death(
    alloc: Global,
    snapshot: &Snapshot,
    entry: ProcId,
    within: &ParamBox,
    assumed: &Assumption,
    thresholds: &Thresholds,
) -> Result<Option<Table>, AllocError>
    requires entry { (params : List Param) × IsEntry snapshot.now entry.0 params × IsBoxIn params within.now }
    requires thresholds { (ends : List NameEnds) × AreThresholds (tree_of snapshot.now) entry.0 ends thresholds.now }
    ensures dead { IfOk result (λ found. (ends : List NameEnds) → AreThresholds (tree_of snapshot.now) entry.0 ends thresholds.now → IsSome found ↔ Dead snapshot.now entry.0 within.now ends (cond_of assumed.now)) }
    ensures accepted { IfOk result (λ found. IfSome found (λ table. Accepted snapshot.now (cond_of assumed.now) table.rows)) }
    ensures least { IfOk result (λ found. (ends : List NameEnds) → AreThresholds (tree_of snapshot.now) entry.0 ends thresholds.now → IfSome found (λ table. IsLeastTable snapshot.now entry.0 within.now ends (cond_of assumed.now) table.rows)) }
{
    let table = least_table(alloc, snapshot, entry, within, assumed, thresholds)?;
    if is_dead(table.rows.as_slice()) {
        Ok(Some(table))
    } else {
        Ok(None)
    }
}

/// The sites that the first row of a table lists.
fn first_sites(alloc: Global, rows: &[Row]) -> Result<Sites, AllocError>
    ensures { IfOk result (λ sites. (first : Listed) (rest : List Listed) → rows.now ≡ first ∷ rest → sites ≡ first.unproved) }
{
    match rows {
        [] => Ok(Items::new(alloc)),
        [first, ..] => Items::from_slice(alloc, first.unproved.as_slice()),
    }
}

/// The sites that aren't provable for an entry, sorted by procedure in text order, then by number: those that its least
/// table over the whole ranges of its parameters lists. The thresholds are those of the snapshot, the entry and some ends.
pub fn unproved_sites(
    alloc: Global,
    snapshot: &Snapshot,
    entry: ProcId,
    assumed: &Assumption,
    thresholds: &Thresholds,
) -> Result<Sites, AllocError>
    requires entry { slice_get (map is_entry (procs_of snapshot.now)) entry.0 ≡ Some true }
    requires thresholds { (ends : List NameEnds) × AreThresholds (tree_of snapshot.now) entry.0 ends thresholds.now }
    ensures provable { IfOk result (λ sites. (ends : List NameEnds) (site : Site) → AreThresholds (tree_of snapshot.now) entry.0 ends thresholds.now → Provable snapshot.now entry.0 ends (cond_of assumed.now) site ↔ (Contains sites site → ⊥)) }
    ensures sites { IfOk result (λ sites. AreSitesOf snapshot.now entry.0 sites) }
{
    let _ = snapshot.program();
    let within = full_box(snapshot.params(entry).as_slice());
    let table = least_table(alloc, snapshot, entry, &within, assumed, thresholds)?;
    let sites = first_sites(alloc, table.rows.as_slice())?;
    Ok(sites)
}
