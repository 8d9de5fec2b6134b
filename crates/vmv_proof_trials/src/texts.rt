use std::alloc::Global;
use vmv_cases::Sheet;
use vmv_proof::Proof;
use vmv_proof_read::{ProofFault, read_proof};
use vmv_proof_text::write_proof;

/// Writes the canonical text of a proof, or that the text which it was read from is that.
fn put_written(alloc: Global, proof: &Proof, text: &[u8], sheet: &mut Sheet) {
    let Ok(written) = write_proof(alloc, proof) else {
        sheet.fall_short();
        return;
    };
    if written.bytes() == text {
        sheet.line(b"itself");
    } else {
        sheet.put(written.bytes());
    }
}

/// Writes what a fault is called, and its number.
fn put_fault(called: &[u8], number: usize, sheet: &mut Sheet) {
    sheet.put(called);
    sheet.show(&number);
    sheet.line(b"");
}

/// Writes what is written of the proof of a text, or why it isn't read.
pub(crate) fn put_proof(alloc: Global, text: &[u8], sheet: &mut Sheet) {
    match read_proof(alloc, text) {
        Ok(proof) => put_written(alloc, &proof, text, sheet),
        Err(ProofFault::Syntax { line }) => put_fault(b"syntax at line ", line as usize, sheet),
        Err(ProofFault::Range { line }) => put_fault(b"range at line ", line as usize, sheet),
        Err(ProofFault::Limit { found }) => put_fault(b"limit: ", found, sheet),
        Err(ProofFault::Memory) => sheet.fall_short(),
    }
}
