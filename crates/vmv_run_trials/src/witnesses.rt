use crate::runs::snapshot_of;
use std::alloc::Global;
use vmv_cases::Sheet;
use vmv_snapshot::ProcId;
use vmv_tree::{Name, NamedSite};
use vmv_witness::{Unfit, Witness, WitnessFault, fit, read_witness, write_witness};

fn put_line(word: &[u8], line: u32, sheet: &mut Sheet) {
    sheet.put(word);
    sheet.show(&line);
    sheet.line(b"");
}

fn put_fault(fault: WitnessFault, sheet: &mut Sheet) {
    match fault {
        WitnessFault::Syntax { line } => put_line(b"syntax in line ", line, sheet),
        WitnessFault::Range { line } => put_line(b"range in line ", line, sheet),
        WitnessFault::Limit { found } => {
            sheet.put(b"too long: ");
            sheet.show(&found);
            sheet.line(b" bytes");
        }
        WitnessFault::Memory => sheet.fall_short(),
    }
}

/// The witness of a text. Where it has none, the fault is written.
fn witness_of(alloc: Global, text: &[u8], sheet: &mut Sheet) -> Option<Witness> {
    match read_witness(alloc, text) {
        Ok(witness) => Some(witness),
        Err(fault) => {
            put_fault(fault, sheet);
            None
        }
    }
}

fn put_named(name: &Name, value: i64, sheet: &mut Sheet) {
    sheet.put(b" ");
    sheet.put(name.bytes());
    sheet.put(b" ");
    sheet.show(&value);
}

fn put_site(site: &NamedSite, sheet: &mut Sheet) {
    sheet.put(b" site ");
    sheet.put(site.proc.bytes());
    sheet.put(b" ");
    sheet.show(&site.index);
}

fn put_witness(witness: &Witness, sheet: &mut Sheet) {
    sheet.put(b"entry ");
    sheet.put(witness.entry.bytes());
    put_site(&witness.site, sheet);
    sheet.put(b" params");
    for param in witness.params.as_slice() {
        put_named(&param.name, param.value, sheet);
    }
    sheet.put(b" answers");
    for answer in witness.answers.as_slice() {
        put_named(&answer.name, answer.value, sheet);
    }
    sheet.line(b"");
}

/// `? witness`: the parts of the witness of a text, or the fault.
pub fn read(alloc: Global, text: &[u8], sheet: &mut Sheet) {
    if let Some(witness) = witness_of(alloc, text, sheet) {
        put_witness(&witness, sheet);
    }
}

/// `? written`: the text that is written for the witness of a text.
pub fn written(alloc: Global, text: &[u8], sheet: &mut Sheet) {
    let Some(witness) = witness_of(alloc, text, sheet) else {
        return;
    };
    match write_witness(alloc, &witness) {
        Ok(written) => sheet.put(written.bytes()),
        Err(_) => sheet.fall_short(),
    }
}

fn put_fit(fits: Result<ProcId, Unfit>, sheet: &mut Sheet) {
    match fits {
        Ok(entry) => put_line(b"fits procedure ", u32::from(entry.0), sheet),
        Err(Unfit::NoEntry) => sheet.line(b"no entry"),
        Err(Unfit::ParamCount) => sheet.line(b"number of parameters"),
        Err(Unfit::ParamRange) => sheet.line(b"range of a parameter"),
        Err(Unfit::NoSite) => sheet.line(b"no site"),
    }
}

/// `? fit PROGRAM WITNESS`: whether the witness of a text fits the program of another.
pub fn fits(alloc: Global, program: &[u8], text: &[u8], sheet: &mut Sheet) {
    let Some(snapshot) = snapshot_of(alloc, program, sheet) else {
        return;
    };
    if let Some(witness) = witness_of(alloc, text, sheet) {
        put_fit(fit(&snapshot, &witness), sheet);
    }
}
