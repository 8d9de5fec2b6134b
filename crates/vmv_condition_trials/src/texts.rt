ghost use Rattle.std.specs.Prelude.{◌≡◌, true, Some, map, slice_get, IfSome};
ghost use Rattle.vmv_snapshot.specs.Procs.{is_entry};
ghost use Rattle.vmv_snapshot.specs.Resolution.{procs_of};

use std::alloc::Global;
use vmv_cases::{Case, Sheet};
use vmv_snapshot::{ProcId, Snapshot};
use vmv_source::{TextFault, parse};
use vmv_tree::Name;

/// The snapshot of a text. A text that has none is refused.
pub fn snapshot_of(alloc: Global, text: &[u8], sheet: &mut Sheet) -> Option<Snapshot> {
    match parse(alloc, text) {
        Ok(snapshot) => Some(snapshot),
        Err(TextFault::Memory) => {
            sheet.fall_short();
            None
        }
        Err(_) => {
            sheet.refuse();
            None
        }
    }
}

/// The snapshot of the text `program` of a case.
pub fn program_of(alloc: Global, case: &Case, sheet: &mut Sheet) -> Option<Snapshot> {
    snapshot_of(alloc, case.text(b"program"), sheet)
}

/// The snapshot of the text that an ask is about, between the texts `head` and `tail` of its case.
pub fn framed_of(alloc: Global, case: &Case, ask: &[u8], sheet: &mut Sheet) -> Option<Snapshot> {
    let mut text = Sheet::new(alloc);
    text.put(case.text(b"head"));
    text.line(case.subject(ask));
    text.put(case.text(b"tail"));
    if text.is_short() {
        sheet.fall_short();
        return None;
    }
    snapshot_of(alloc, text.bytes(), sheet)
}

/// The entry of this name.
fn found_entry(snapshot: &Snapshot, bytes: &[u8]) -> Option<ProcId>
    ensures { IfSome result (λ e. slice_get (map is_entry (procs_of snapshot.now)) e.0 ≡ Some true) }
{
    let name = Name::read(bytes)?;
    let entry = snapshot.find_proc(&name)?;
    if entry.0 < snapshot.proc_count() && snapshot.is_entry(entry) {
        Some(entry)
    } else {
        None
    }
}

/// The entry of this name. Where there is none, the ask is refused.
pub fn entry_of(snapshot: &Snapshot, bytes: &[u8], sheet: &mut Sheet) -> Option<ProcId>
    ensures { IfSome result (λ e. slice_get (map is_entry (procs_of snapshot.now)) e.0 ≡ Some true) }
{
    let entry = found_entry(snapshot, bytes);
    if entry.is_none() {
        sheet.refuse();
    }
    entry
}
