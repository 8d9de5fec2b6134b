use crate::pieces::put_pieces;
use crate::reads::{failing, size};
use std::alloc::Global;
use vmv_cases::{Case, Sheet, tail, word};
use vmv_edge::{FaultlessSink, MemorySink};

fn put_memory_sink(sink: &mut MemorySink, case: &Case, sheet: &mut Sheet) {
    put_pieces(sink, case, sheet);
    sheet.put(b"kept [");
    sheet.put(sink.bytes());
    sheet.line(b"]");
}

/// `? memory_sink SIZE MOST CALL ..`: what the text `pieces` does to a sink in memory that keeps so many bytes, takes at most
/// so many at once, and fails at these calls.
pub fn memory_sink(alloc: Global, case: &Case, ask: &[u8], sheet: &mut Sheet) {
    let (Some(size), Some(most)) = (size(word(ask, 1)), size(word(ask, 2))) else {
        sheet.refuse();
        return;
    };
    match MemorySink::new(alloc, size, most, failing(alloc, tail(ask, 3), sheet)) {
        Ok(mut sink) => put_memory_sink(&mut sink, case, sheet),
        Err(_) => sheet.fall_short(),
    }
}

fn put_faultless_sink(sink: &mut FaultlessSink, case: &Case, sheet: &mut Sheet) {
    put_pieces(sink, case, sheet);
    match sink.bytes() {
        Some(bytes) => {
            sheet.put(b"told ");
            sheet.line(bytes);
        }
        None => sheet.line(b"not told"),
    }
}

/// `? faultless_sink SIZE`: what the text `pieces` does to a sink without faults that tells so many bytes.
pub fn faultless_sink(alloc: Global, case: &Case, ask: &[u8], sheet: &mut Sheet) {
    let Some(size) = size(word(ask, 1)) else {
        sheet.refuse();
        return;
    };
    match FaultlessSink::new(alloc, size) {
        Ok(mut sink) => put_faultless_sink(&mut sink, case, sheet),
        Err(_) => sheet.fall_short(),
    }
}
