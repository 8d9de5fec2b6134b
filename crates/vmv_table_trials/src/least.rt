ghost use Rattle.std.specs.Prelude.{◌≡◌, true, Some, List, map, slice_get, IfOk, IfSome};
ghost use Rattle.vmv_tree.specs.declared.tree.Param.{Param};
ghost use Rattle.vmv_snapshot.specs.Procs.{is_entry};
ghost use Rattle.vmv_snapshot.specs.Resolution.{procs_of};
ghost use Rattle.vmv_cert.specs.Tables.{IsEntry, IsBoxIn};

use crate::entry::{ends_of, entry_of, program_of};
use crate::verdict::{assumed_of, put_verdict};
use crate::write::put_table;
use std::alloc::{AllocError, Global};
use vmv_assumption::Assumption;
use vmv_back::boxes;
use vmv_cases::{Case, Sheet, number, word};
use vmv_cert::Table;
use vmv_forward::{Thresholds, least_table};
use vmv_snapshot::{ParamBox, ProcId, Snapshot};
use vmv_tree::Ends;

/// The box of this number of an entry, where it has so many.
fn box_of(
    alloc: Global,
    snapshot: &Snapshot,
    entry: ProcId,
    number: usize,
) -> Result<Option<ParamBox>, AllocError>
    requires { slice_get (map is_entry (procs_of snapshot.now)) entry.0 ≡ Some true }
    ensures { IfOk result (λ found. IfSome found (λ within. (params : List Param) × IsEntry snapshot.now entry.0 params × IsBoxIn params within)) }
{
    let all = boxes(alloc, snapshot, entry)?;
    if number >= all.len() {
        return Ok(None);
    }
    Ok(Some(all.as_slice()[number]))
}

/// The least table of an entry over a box.
fn table_over(
    alloc: Global,
    snapshot: &Snapshot,
    entry: ProcId,
    within: &ParamBox,
    assumed: &Assumption,
    ends: &Ends,
) -> Result<Table, AllocError>
    requires entry { slice_get (map is_entry (procs_of snapshot.now)) entry.0 ≡ Some true }
    requires within { (params : List Param) × IsEntry snapshot.now entry.0 params × IsBoxIn params within.now }
{
    let thresholds = Thresholds::of(alloc, snapshot, entry, ends)?;
    least_table(alloc, snapshot, entry, within, assumed, &thresholds)
}

/// The least table over the box of this number of the entry of this name, where there is one.
fn table_of(
    alloc: Global,
    snapshot: &Snapshot,
    name: &[u8],
    number: usize,
    assumed: &Assumption,
    ends: &Ends,
) -> Result<Option<Table>, AllocError> {
    let Some(entry) = entry_of(snapshot, name) else {
        return Ok(None);
    };
    let Some(within) = box_of(alloc, snapshot, entry, number)? else {
        return Ok(None);
    };
    let table = table_over(alloc, snapshot, entry, &within, assumed, ends)?;
    Ok(Some(table))
}

/// Writes the least table of an ask, and what the checker says of it.
fn put_least(
    alloc: Global,
    snapshot: &Snapshot,
    assumed: &Assumption,
    ends: &Ends,
    ask: &[u8],
    sheet: &mut Sheet,
) {
    let Some(Ok(number)) = number(word(ask, 2)).map(|number| usize::try_from(number)) else {
        sheet.refuse();
        return;
    };
    match table_of(alloc, snapshot, word(ask, 1), number, assumed, ends) {
        Ok(Some(table)) => {
            put_table(alloc, &table, sheet);
            put_verdict(snapshot, assumed, &table, sheet);
        }
        Ok(None) => sheet.refuse(),
        Err(_) => sheet.fall_short(),
    }
}

/// `? least ENTRY NUMBER`: the least table of an entry over its box of this number, from 0, under the conditions of the text
/// `assumed` and with the ends of the text `ends`; and what the checker says of it.
pub fn least(alloc: Global, case: &Case, ask: &[u8], sheet: &mut Sheet) {
    let Some(snapshot) = program_of(alloc, case, sheet) else {
        return;
    };
    let Some(assumed) = assumed_of(alloc, &snapshot, case, sheet) else {
        return;
    };
    let ends = ends_of(alloc, case, sheet);
    put_least(alloc, &snapshot, &assumed, &ends, ask, sheet);
}
