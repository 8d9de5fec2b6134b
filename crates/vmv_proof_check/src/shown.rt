ghost use Rattle.std.specs.Prelude.{◌≡◌, ◌<◌, ◌^◌, Some, true, IfOk, IfErr, length, map, slice_get};
ghost use Rattle.vmv_tree.specs.Run.{name_of};
ghost use Rattle.vmv_snapshot.specs.Procs.{is_entry};
ghost use Rattle.vmv_snapshot.specs.Resolution.{procs_of, IsResolution};
ghost use Rattle.vmv_assumption.specs.Assumed.{Assumed, cond_of};
ghost use Rattle.vmv_cert.specs.Tables.{Accepted};
ghost use Rattle.vmv_proof_check.specs.Work.{IsTableFound, IsTableListed, IsTableFailed};

use crate::claims::{Part, ProofRefused};
use crate::sites::common_sites;
use crate::sought::seek;
use std::alloc::{AllocError, Global};
use vmv_assumption::Assumption;
use vmv_back::full_box;
use vmv_cert::{Row, Sites, Table};
use vmv_check::{Refused, check_table};
use vmv_snapshot::{ProcId, Snapshot};

/// How a table of an entry turns out.
#[derive(Drop)]
pub(crate) enum Found {
    /// It passes: the sites that all its rows of the entry for the whole ranges list.
    Listed(Sites),
    /// Its first failure.
    Failed(Refused),
}

/// How an accepted table of an entry turns out by its rows.
fn rows_found(
    alloc: Global,
    revision: &Snapshot,
    entry: ProcId,
    rows: &[Row],
) -> Result<Found, AllocError>
    requires resolution { IsResolution revision.now }
    requires entry { slice_get (map is_entry (procs_of revision.now)) entry.0 ≡ Some true }
    ensures { IfOk result (λ found. (assumed : Assumed) → Accepted revision.now assumed rows.now → IsTableFound revision.now assumed entry.0 rows.now found) }
{
    let within = full_box(revision.params(entry).as_slice());
    let sought = seek(revision.proc_name(entry), &within);
    match common_sites(alloc, &sought, rows)? {
        Some(sites) => Ok(Found::Listed(sites)),
        None => Ok(Found::Failed(Refused { row: 0, step: 0 })),
    }
}

/// How a table of an entry turns out under an assumption.
fn table_found(
    alloc: Global,
    revision: &Snapshot,
    assumed: &Assumption,
    entry: ProcId,
    table: &Table,
) -> Result<Found, AllocError>
    requires resolution { IsResolution revision.now }
    requires entry { slice_get (map is_entry (procs_of revision.now)) entry.0 ≡ Some true }
    requires few { length table.now.rows < 2 ^ 32 }
    ensures { IfOk result (IsTableFound revision.now (cond_of assumed.now) entry.0 table.now.rows) }
{
    match check_table(revision, assumed, table) {
        Ok(_) => {
            let found = rows_found(alloc, revision, entry, table.rows.as_slice())?;
            Ok(found)
        }
        Err(at) => Ok(Found::Failed(at)),
    }
}

/// The sites that all rows of a table of an entry for the whole ranges list, or why the proof isn't accepted, where the part is given
/// that the table is.
pub(crate) fn listed(
    alloc: Global,
    revision: &Snapshot,
    assumed: &Assumption,
    entry: ProcId,
    table: &Table,
    part: Part,
) -> Result<Sites, ProofRefused>
    requires resolution { IsResolution revision.now }
    requires entry { slice_get (map is_entry (procs_of revision.now)) entry.0 ≡ Some true }
    requires few { length table.now.rows < 2 ^ 32 }
    ensures listed { IfOk result (IsTableListed revision.now (cond_of assumed.now) entry.0 table.now.rows) }
    ensures failed { IfErr result (IsTableFailed revision.now (cond_of assumed.now) entry.0 table.now.rows part) }
{
    match table_found(alloc, revision, assumed, entry, table)? {
        Found::Listed(sites) => Ok(sites),
        Found::Failed(at) => Err(ProofRefused::At {
            part,
            row: at.row,
            step: at.step,
        }),
    }
}
