ghost use Rattle.std.specs.Prelude.{◌≡◌, ◌+◌, ◌<◌, length, IfOk, OnOk};
ghost use Rattle.vmv_snapshot.specs.Resolution.{procs_of};
ghost use Rattle.vmv_report.specs.Work.{AreEntries};

use sqlite_items::Items;
use std::alloc::{AllocError, Global};
use vmv_snapshot::{ProcId, Snapshot};

/// Adds the procedure of this number, where it is an entry.
fn add_entry(
    revision: &Snapshot,
    entries: &mut Items<ProcId>,
    number: u16,
) -> Result<(), AllocError>
    requires procs { number < length (procs_of revision.now) }
    requires before { AreEntries revision.now number entries.old }
    ensures { OnOk result (AreEntries revision.now (number + 1) entries.new) }
{
    let entry = ProcId(number);
    if revision.is_entry(entry) {
        entries.push(entry)?;
    }
    Ok(())
}

/// The entries of a revision, in text order.
pub(crate) fn entries_of(alloc: Global, revision: &Snapshot) -> Result<Items<ProcId>, AllocError>
    ensures { IfOk result (AreEntries revision.now (length (procs_of revision.now))) }
{
    let mut entries = Items::new(alloc);
    for number in 0..revision.proc_count() {
        add_entry(revision, &mut entries, number)?;
    }
    Ok(entries)
}
