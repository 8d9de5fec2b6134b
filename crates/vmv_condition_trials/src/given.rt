ghost use Rattle.std.specs.Prelude.{◌≡◌, IsTrue, IfSome};
ghost use Rattle.vmv_snapshot.specs.Procs.{outsides};
ghost use Rattle.vmv_snapshot.specs.Resolution.{tree_of};
ghost use Rattle.vmv_assumption.specs.Assumed.{names_of, cond_of};
ghost use Rattle.vmv_enough.specs.Enough.{NoneEmpty};

use crate::puts::put_conds;
use crate::texts::program_of;
use std::alloc::Global;
use std::thread::Threads;
use vmv_assumption::Assumption;
use vmv_cases::{Case, Sheet, number, word};
use vmv_cond::Cond;
use vmv_crew::Open;
use vmv_enough::sufficient;
use vmv_snapshot::Snapshot;
use vmv_tree::Name;

/// The condition that a line `NAME LO HI` writes.
fn told(line: &[u8]) -> Option<(Name, Cond)> {
    let name = Name::read(word(line, 0))?;
    let lo = number(word(line, 1))?;
    let hi = number(word(line, 2))?;
    Some((name, Cond::of(lo, hi, false)))
}

/// Sets the condition that a line writes.
fn set_told(assumed: &mut Assumption, line: &[u8], sheet: &mut Sheet)
    ensures { names_of assumed.new ≡ names_of assumed.old }
{
    match told(line) {
        Some((name, cond)) => {
            if !assumed.set(&name, cond) {
                sheet.refuse();
            }
        }
        None => sheet.refuse(),
    }
}

/// Sets the condition that each line of a text writes.
fn set_all(assumed: &mut Assumption, text: &[u8], sheet: &mut Sheet)
    ensures { names_of assumed.new ≡ names_of assumed.old }
{
    for line in text.split(|byte| *byte == b'\n') {
        if !line.is_empty() {
            set_told(assumed, line, sheet);
        }
    }
}

/// Whether each outside name of the snapshot may answer something.
pub fn can_answer(snapshot: &Snapshot, assumed: &Assumption) -> bool
    ensures { IsTrue result → NoneEmpty snapshot.now (cond_of assumed.now) }
{
    snapshot
        .outsides()
        .iter()
        .all(|name| !assumed.get(name).is_empty())
}

/// The conditions that the text `given` of a case writes, a line `NAME LO HI` for each; whole for any other name.
pub fn given_of(
    alloc: Global,
    snapshot: &Snapshot,
    case: &Case,
    sheet: &mut Sheet,
) -> Option<Assumption>
    ensures { IfSome result (λ a. names_of a ≡ outsides (tree_of snapshot.now)) }
{
    let Ok(mut assumed) = Assumption::whole(alloc, snapshot) else {
        sheet.fall_short();
        return None;
    };
    set_all(&mut assumed, case.text(b"given"), sheet);
    Some(assumed)
}

fn put_sufficient(found: Option<Assumption>, sheet: &mut Sheet) {
    match found {
        Some(assumption) => {
            sheet.line(b"sufficient");
            put_conds(&assumption, sheet);
        }
        None => sheet.line(b"none"),
    }
}

/// `? sufficient`: the sufficient conditions of the text `program`, from the necessary ones that the text `given` writes.
pub fn sufficient_of<R: Threads + Sync>(rt: &R, alloc: Global, case: &Case, sheet: &mut Sheet) {
    let Some(base) = program_of(alloc, case, sheet) else {
        return;
    };
    let Some(needed) = given_of(alloc, &base, case, sheet) else {
        return;
    };
    if !can_answer(&base, &needed) {
        sheet.refuse();
        return;
    }
    match sufficient(rt, alloc, &base, &needed, 1, &Open) {
        Ok(found) => put_sufficient(found, sheet),
        Err(_) => sheet.fall_short(),
    }
}
