ghost use Rattle.std.specs.Prelude.{◌≡◌, ◌<◌, ◌++◌, length, map, slice_get, IfOk, OnOk};
ghost use Rattle.vmv_snapshot.specs.Procs.{is_entry};
ghost use Rattle.vmv_snapshot.specs.Resolution.{procs_of};
ghost use Rattle.vmv_demands.specs.Sources.{AreSummaries};
ghost use Rattle.vmv_demands.specs.Ends.{both_ends, ends_of, entry_wants, all_wants, level_ends, ends_for, AreEnds};

use crate::kept::first_wanted;
use crate::lead::Found;
use crate::leads::summaries;
use crate::summary::Summary;
use crate::want::Condition;
use sqlite_items::Items;
use std::alloc::{AllocError, Global};
use vmv_snapshot::{ProcId, Snapshot};
use vmv_tree::{EndList, Ends, Name, NameEnds};

/// Adds the least and the greatest word that meet a condition.
fn push_both(ends: &mut EndList, cond: Condition) -> Result<(), AllocError>
    ensures { OnOk result (ends.new ≡ ends.old ++ both_ends cond) }
{
    let (lo, hi) = match cond {
        Condition::Range { lo, hi } => (lo, hi),
        Condition::Nonzero => (i64::MIN, i64::MAX),
    };
    ends.push(lo)?;
    ends.push(hi)?;
    Ok(())
}

/// Adds the ends of what is wanted of this name.
fn push_ends_of(ends: &mut EndList, name: &Name, wanted: &[Found]) -> Result<(), AllocError>
    ensures { OnOk result (ends.new ≡ ends.old ++ ends_of name.now wanted.now) }
{
    for found in wanted {
        if found.name.bytes() == name.bytes() {
            push_both(ends, found.cond)?;
        }
    }
    Ok(())
}

/// -2^k and 2^k - 1 for k of 62, 31, 15 and 7.
fn level_ends() -> [i64; 8]
    ensures { result ≡ level_ends }
{
    [
        -(1 << 62),
        (1 << 62) - 1,
        -(1 << 31),
        (1 << 31) - 1,
        -(1 << 15),
        (1 << 15) - 1,
        -(1 << 7),
        (1 << 7) - 1,
    ]
}

/// Adds what a procedure wants, where it is an entry.
fn push_entry(
    wanted: &mut Items<Found>,
    alloc: Global,
    snapshot: &Snapshot,
    rows: &[Summary],
    proc: ProcId,
) -> Result<(), AllocError>
    requires proc { proc.0 < length (procs_of snapshot.now) }
    requires rows { AreSummaries snapshot.now.codes proc.0 rows.now }
    ensures { OnOk result (wanted.new ≡ wanted.old ++ entry_wants snapshot.now proc.0 (slice_get (map is_entry (procs_of snapshot.now)) proc.0)) }
{
    if !snapshot.is_entry(proc) {
        return Ok(());
    }
    wanted.append(first_wanted(alloc, snapshot, rows, proc)?)?;
    Ok(())
}

/// What all entries want.
fn all_wants(alloc: Global, snapshot: &Snapshot) -> Result<Items<Found>, AllocError>
    ensures { IfOk result (λ wanted. wanted ≡ all_wants snapshot.now) }
{
    let count = snapshot.proc_count();
    let rows = summaries(alloc, snapshot, count)?;
    let mut wanted = Items::new(alloc);
    for n in 0..count {
        push_entry(&mut wanted, alloc, snapshot, rows.as_slice(), ProcId(n))?;
    }
    Ok(wanted)
}

/// The ends for an outside name, where all entries want this.
fn ends_for(alloc: Global, name: Name, wanted: &[Found]) -> Result<NameEnds, AllocError>
    ensures { IfOk result (λ e. e ≡ ends_for wanted.now name) }
{
    let mut ends = EndList::new(alloc);
    push_ends_of(&mut ends, &name, wanted)?;
    ends.append(EndList::from_slice(alloc, &level_ends())?)?;
    Ok(NameEnds { name, ends })
}

fn all_ends(alloc: Global, names: &[Name], wanted: &[Found]) -> Result<Ends, AllocError>
    ensures { IfOk result (λ ends. ends ≡ map (ends_for wanted.now) names.now) }
{
    let mut ends = Ends::new(alloc);
    for name in names {
        ends.push(ends_for(alloc, *name, wanted)?)?;
    }
    Ok(ends)
}

/// The ends of the ranges that are of interest for the answers of each outside function, in text order: both ends of each
/// demand on it in any entry, then -2^k and 2^k - 1 for k of 62, 31, 15 and 7. It fails for want of memory alone.
pub fn ends(alloc: Global, snapshot: &Snapshot) -> Result<Ends, AllocError>
    ensures { IfOk result (AreEnds snapshot.now) }
{
    let wanted = all_wants(alloc, snapshot)?;
    all_ends(alloc, snapshot.outsides(), wanted.as_slice())
}
