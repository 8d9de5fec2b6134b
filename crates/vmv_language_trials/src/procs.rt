use crate::faults::put_defect;
use crate::texts::{program_of, snapshot_of};
use std::alloc::Global;
use vmv_cases::Sheet;
use vmv_snapshot::{NewFault, ProcId, Snapshot};

/// Writes ` reaches N ..` with the numbers of the procedures that one reaches.
fn put_reached(snapshot: &Snapshot, proc: ProcId, sheet: &mut Sheet) {
    sheet.put(b" reaches");
    let count = snapshot.proc_count();
    if proc.0 >= count {
        return;
    }
    for number in 0..count {
        if snapshot.reaches(proc, ProcId(number)) {
            sheet.put(b" ");
            sheet.show(&number);
        }
    }
}

/// Writes the numbers of a procedure's parameters, slots and sites.
fn put_sizes(snapshot: &Snapshot, proc: ProcId, sheet: &mut Sheet) {
    if proc.0 >= snapshot.proc_count() {
        return;
    }
    sheet.put(b" parameters ");
    sheet.show(&snapshot.params(proc).len());
    sheet.put(b" slots ");
    sheet.show(&snapshot.code(proc).vars);
    sheet.put(b" sites ");
    sheet.show(&snapshot.site_count(proc));
}

/// Writes whether a procedure is an entry, and its name.
fn put_head(snapshot: &Snapshot, proc: ProcId, sheet: &mut Sheet) {
    if proc.0 >= snapshot.proc_count() {
        return;
    }
    if snapshot.is_entry(proc) {
        sheet.put(b"entry ");
    } else {
        sheet.put(b"helper ");
    }
    sheet.put(snapshot.proc_name(proc).bytes());
}

/// `? procs`: the outside names of the snapshot of a text, and a line for each procedure.
pub fn procs(alloc: Global, text: &[u8], sheet: &mut Sheet) {
    let Some(snapshot) = snapshot_of(alloc, text, sheet) else {
        return;
    };
    sheet.put(b"outside");
    for name in snapshot.outsides() {
        sheet.put(b" ");
        sheet.put(name.bytes());
    }
    sheet.line(b"");
    for number in 0..snapshot.proc_count() {
        put_head(&snapshot, ProcId(number), sheet);
        put_sizes(&snapshot, ProcId(number), sheet);
        put_reached(&snapshot, ProcId(number), sheet);
        sheet.line(b"");
    }
}

/// `? snapshot`: `a snapshot` where the program of a text has one, or the number of the mention with the first defect.
pub fn snapshot(alloc: Global, text: &[u8], sheet: &mut Sheet) {
    let Some(program) = program_of(alloc, text, sheet) else {
        return;
    };
    match Snapshot::new(alloc, program) {
        Ok(_) => sheet.line(b"a snapshot"),
        Err(NewFault::Memory) => sheet.fall_short(),
        Err(NewFault::Defect { mention, defect }) => {
            sheet.put(b"mention ");
            sheet.show(&mention);
            sheet.put(b" ");
            put_defect(defect, sheet);
        }
    }
}
