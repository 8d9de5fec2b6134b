use crate::given::{can_answer, given_of};
use crate::texts::{entry_of, program_of};
use std::alloc::Global;
use std::thread::Threads;
use vmv_cases::{Case, Sheet, word};
use vmv_crew::Open;
use vmv_enough::{Witness, witnesses};
use vmv_run::Answer;

fn put_answers(answers: &[Answer], sheet: &mut Sheet) {
    for answer in answers {
        sheet.put(b" ");
        sheet.put(answer.name.bytes());
        sheet.put(b" ");
        sheet.show(&answer.value);
    }
}

/// Writes a line for a failing run: its site, and what the outside names answer.
fn put_witness(witness: &Witness, sheet: &mut Sheet) {
    sheet.put(witness.site.proc.bytes());
    sheet.put(b" ");
    sheet.show(&witness.site.index);
    sheet.put(b":");
    put_answers(witness.answers.as_slice(), sheet);
    sheet.line(b"");
}

fn put_found(found: &[Witness], sheet: &mut Sheet) {
    sheet.put(b"failing runs: ");
    sheet.show(&found.len());
    sheet.line(b"");
    for witness in found {
        put_witness(witness, sheet);
    }
}

/// `? probes ENTRY`: what the probes of an entry of the text `program` find under the conditions that the text `given` writes.
pub fn probes_of<R: Threads + Sync>(
    rt: &R,
    alloc: Global,
    case: &Case,
    ask: &[u8],
    sheet: &mut Sheet,
) {
    let Some(revision) = program_of(alloc, case, sheet) else {
        return;
    };
    let Some(enough) = given_of(alloc, &revision, case, sheet) else {
        return;
    };
    let Some(entry) = entry_of(&revision, word(ask, 1), sheet) else {
        return;
    };
    if !can_answer(&revision, &enough) {
        sheet.refuse();
        return;
    }
    match witnesses(rt, alloc, &revision, entry, &enough, 1, &Open) {
        Ok(found) => put_found(found.as_slice(), sheet),
        Err(_) => sheet.fall_short(),
    }
}
