use vmv_assumption::Assumption;
use vmv_cases::Sheet;
use vmv_cond::Cond;
use vmv_snapshot::{ProcId, Snapshot};
use vmv_tree::Name;

/// Writes `LO..HI`.
pub fn put_range(lo: i64, hi: i64, sheet: &mut Sheet) {
    sheet.show(&lo);
    sheet.put(b"..");
    sheet.show(&hi);
}

/// Writes the ranges of a box, one behind the other.
pub fn put_ranges(ranges: &[(i64, i64)], sheet: &mut Sheet) {
    for (lo, hi) in ranges {
        sheet.put(b" ");
        put_range(*lo, *hi, sheet);
    }
}

/// Writes `NAME LO..HI`, and `but 0` where 0 is left out between them.
pub fn put_cond(name: &Name, cond: Cond, sheet: &mut Sheet) {
    sheet.put(name.bytes());
    sheet.put(b" ");
    put_range(cond.lo(), cond.hi(), sheet);
    if cond.zero_out() && cond.lo() < 0 && cond.hi() > 0 {
        sheet.put(b" but 0");
    }
}

/// Writes a line for each condition.
pub fn put_conds(assumption: &Assumption, sheet: &mut Sheet) {
    for (name, cond) in assumption.conds() {
        put_cond(name, *cond, sheet);
        sheet.line(b"");
    }
}

/// Writes the name of a procedure.
pub fn put_proc(snapshot: &Snapshot, proc: ProcId, sheet: &mut Sheet) {
    if proc.0 < snapshot.proc_count() {
        sheet.put(snapshot.proc_name(proc).bytes());
    }
}
