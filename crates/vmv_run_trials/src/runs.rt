ghost use Rattle.std.specs.Prelude.{◌≡◌, true, Some, length, map, slice_get, vec_len, IfSome};
ghost use Rattle.vmv_snapshot.specs.Procs.{is_entry};
ghost use Rattle.vmv_snapshot.specs.Resolution.{tree_of, procs_of};
ghost use Rattle.vmv_run.specs.Replay.{AreParams};

use crate::given::{Given, read_given};
use std::alloc::Global;
use vmv_cases::{Sheet, tail, word};
use vmv_run::{Answer, Constant, Outcome, constant, replay};
use vmv_snapshot::{ProcId, SiteId, Snapshot};
use vmv_source::{TextFault, parse};
use vmv_tree::Name;

/// Writes a word and a number.
fn put_line(word: &[u8], number: usize, sheet: &mut Sheet) {
    sheet.put(word);
    sheet.show(&number);
    sheet.line(b"");
}

fn put_failure(site: SiteId, sheet: &mut Sheet) {
    sheet.put(b"fails in procedure ");
    sheet.show(&site.proc.0);
    sheet.put(b" at site ");
    sheet.show(&site.index);
    sheet.line(b"");
}

fn put_outcome(outcome: Outcome, sheet: &mut Sheet) {
    match outcome {
        Outcome::Done(word) => {
            sheet.put(b"returns ");
            sheet.show(&word);
            sheet.line(b"");
        }
        Outcome::Fail(site) => put_failure(site, sheet),
        Outcome::Short { at } => put_line(b"short at ", at, sheet),
        Outcome::Stranger { at } => put_line(b"stranger at ", at, sheet),
        Outcome::Extra { used } => put_line(b"extra after ", used, sheet),
    }
}

/// The snapshot of a text. An ask about a text that has none is refused.
pub fn snapshot_of(alloc: Global, text: &[u8], sheet: &mut Sheet) -> Option<Snapshot> {
    match parse(alloc, text) {
        Ok(snapshot) => return Some(snapshot),
        Err(TextFault::Memory) => sheet.fall_short(),
        Err(_) => sheet.refuse(),
    }
    None
}

/// The entry of this name, where these parameters are for it.
fn entry_of(snapshot: &Snapshot, name: &[u8], params: &[i64]) -> Option<ProcId>
    ensures entry { IfSome result (λ e. slice_get (map is_entry (procs_of snapshot.now)) e.0 ≡ Some true) }
    ensures params { IfSome result (λ e. AreParams (tree_of snapshot.now) e.0 params.now) }
{
    let entry = snapshot.find_proc(&Name::read(name)?)?;
    if entry.0 >= snapshot.proc_count() || !snapshot.is_entry(entry) {
        return None;
    }
    if snapshot.params(entry).len() != params.len() {
        return None;
    }
    Some(entry)
}

/// `? run ENTRY PARAM .. with NAME VALUE ..`: what is found of these answers where the entry is run on these parameters.
pub fn run(alloc: Global, text: &[u8], words: &[u8], sheet: &mut Sheet) {
    let Some(snapshot) = snapshot_of(alloc, text, sheet) else {
        return;
    };
    let given = read_given(alloc, tail(words, 1), sheet);
    match entry_of(&snapshot, word(words, 0), given.params.as_slice()) {
        Some(entry) => {
            let outcome = replay(
                &snapshot,
                entry,
                given.params.as_slice(),
                given.answers.as_slice(),
            );
            put_outcome(outcome, sheet);
        }
        None => sheet.refuse(),
    }
}

/// The value that is given for a name.
fn value_of(name: &Name, answers: &[Answer]) -> Option<i64> {
    for answer in answers {
        if answer.name == *name {
            return Some(answer.value);
        }
    }
    None
}

/// The values that are given for these names, in the order of the names.
fn values_of(alloc: Global, names: &[Name], answers: &[Answer], sheet: &mut Sheet) -> Vec<i64> {
    let mut values = Vec::new(alloc);
    for name in names {
        match value_of(name, answers) {
            Some(value) => {
                if values.push(value).is_err() {
                    sheet.fall_short();
                }
            }
            None => sheet.refuse(),
        }
    }
    values
}

fn put_constant(run: &Constant, sheet: &mut Sheet) {
    sheet.put(b"answers");
    for answer in run.answers.as_slice() {
        sheet.put(b" ");
        sheet.put(answer.name.bytes());
        sheet.put(b" ");
        sheet.show(&answer.value);
    }
    sheet.line(b"");
    put_outcome(run.outcome, sheet);
}

/// Writes the run of an entry in which each outside name always answers the value that is given for it.
fn put_constant_run(
    alloc: Global,
    snapshot: &Snapshot,
    name: &[u8],
    given: &Given,
    sheet: &mut Sheet,
) {
    let params = given.params.as_slice();
    let values = values_of(alloc, snapshot.outsides(), given.answers.as_slice(), sheet);
    let Some(entry) = entry_of(snapshot, name, params) else {
        sheet.refuse();
        return;
    };
    if values.len() != snapshot.outsides().len() {
        return;
    }
    match constant(alloc, snapshot, entry, params, values.as_slice()) {
        Ok(run) => put_constant(&run, sheet),
        Err(_) => sheet.fall_short(),
    }
}

/// `? constant ENTRY PARAM .. with NAME VALUE ..`: the answers of the run in which each outside name always answers its value,
/// and its outcome.
pub fn constant_run(alloc: Global, text: &[u8], words: &[u8], sheet: &mut Sheet) {
    let Some(snapshot) = snapshot_of(alloc, text, sheet) else {
        return;
    };
    let given = read_given(alloc, tail(words, 1), sheet);
    put_constant_run(alloc, &snapshot, word(words, 0), &given, sheet);
}
