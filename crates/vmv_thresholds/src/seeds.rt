ghost use Rattle.std.specs.Prelude.{◌≡◌, ◌↔◌, ◌⊎◌, ◌<◌, ℤ, Some, true, map, length, slice_get, IfOk, OnOk};
ghost use Rattle.std.specs.List.{Contains};
ghost use Rattle.vmv_snapshot.specs.Procs.{is_entry};
ghost use Rattle.vmv_snapshot.specs.Resolution.{tree_of, procs_of};
ghost use Rattle.vmv_cert.specs.Thresholds.{ReachesOutside, IsEndOf, IsSeed};
ghost use Rattle.vmv_thresholds.specs.Collect.{IsNumberOf};

use crate::calls::reaches_outside;
use crate::place::place_of;
use std::alloc::{AllocError, Global};
use vmv_snapshot::{ProcId, Snapshot};
use vmv_tree::{Item, NameEnds};
use vmv_valid::reached_numbers;

/// The literals, caps and range ends of an entry and of the helpers that it reaches.
fn numbers_of(alloc: Global, snapshot: &Snapshot, entry: ProcId) -> Result<Vec<i64>, AllocError>
    requires { slice_get (map is_entry (procs_of snapshot.now)) entry.0 ≡ Some true }
    ensures { IfOk result (λ numbers. (c : ℤ) → Contains numbers.items c ↔ IsNumberOf (tree_of snapshot.now) entry.0 c) }
{
    let items = snapshot.program().items.as_slice();
    let place = place_of(items, entry.0);
    let Item::Entry { params, body, .. } = &items[place] else {
        return Ok(Vec::new(alloc));
    };
    reached_numbers(alloc, &items[..place], params.as_slice(), body)
}

/// Adds the ends of a name, where it is an outside one that the entry reaches.
fn add_ends_of(
    seeds: &mut Vec<i64>,
    snapshot: &Snapshot,
    entry: ProcId,
    named: &NameEnds,
) -> Result<(), AllocError>
    requires { entry.0 < length (procs_of snapshot.now) }
    ensures { OnOk result ((c : ℤ) → Contains seeds.new.items c ↔ (Contains seeds.old.items c ⊎ (ReachesOutside (tree_of snapshot.now) entry.0 named.now.name × Contains named.now.ends c))) }
{
    if !reaches_outside(snapshot, entry, &named.name) {
        return Ok(());
    }
    seeds.extend_from_slice(named.ends.as_slice())?;
    Ok(())
}

/// Adds the ends of the outside names that the entry reaches.
fn add_ends(
    seeds: &mut Vec<i64>,
    snapshot: &Snapshot,
    entry: ProcId,
    ends: &[NameEnds],
) -> Result<(), AllocError>
    requires { entry.0 < length (procs_of snapshot.now) }
    ensures { OnOk result ((c : ℤ) → Contains seeds.new.items c ↔ (Contains seeds.old.items c ⊎ IsEndOf (tree_of snapshot.now) entry.0 ends.now c)) }
{
    for named in ends {
        add_ends_of(seeds, snapshot, entry, named)?;
    }
    Ok(())
}

/// The numbers around which the thresholds of an entry are. Some may stand there more than once.
pub(crate) fn seeds_of(
    alloc: Global,
    snapshot: &Snapshot,
    entry: ProcId,
    ends: &[NameEnds],
) -> Result<Vec<i64>, AllocError>
    requires { slice_get (map is_entry (procs_of snapshot.now)) entry.0 ≡ Some true }
    ensures { IfOk result (λ seeds. (c : ℤ) → Contains seeds.items c ↔ IsSeed (tree_of snapshot.now) entry.0 ends.now c) }
{
    let mut seeds = numbers_of(alloc, snapshot, entry)?;
    add_ends(&mut seeds, snapshot, entry, ends)?;
    seeds.extend_from_slice(&[i64::MIN, i64::MAX, 0, 1])?;
    Ok(seeds)
}
