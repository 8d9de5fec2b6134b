//! What is said of texts.

ghost use Rattle.std.specs.Prelude.{◌≡◌, ◌≤◌, IfOk, IfErr};
ghost use Rattle.vmv_keeper.specs.declared.judge.Inspected.{Inspected};
ghost use Rattle.vmv_keeper.specs.declared.judge.Compared.{Compared};
ghost use Rattle.vmv_gate.specs.Judged.{IsReadAs, IsFaultOf, Inspects, Compares, refusal};

use std::alloc::{AllocError, Global};
use std::sync::Arc;
use std::thread::Threads;
use vmv_edge::Text;
use vmv_keeper::{Compared, Inspected};
use vmv_need::{Needed, necessary};
use vmv_report::{Open, baseline, judge};
use vmv_report_json::json_of;
use vmv_snapshot::Snapshot;
use vmv_source::{TextFault, parse};

/// A text's program, or the fault for which it has none. It fails where there is no memory.
fn read(alloc: Global, text: &Text) -> Result<Result<Snapshot, TextFault>, AllocError>
    ensures { IfOk result (λ found. IfOk found (IsReadAs text.now) × IfErr found (IsFaultOf text.now)) }
{
    match parse(alloc, text.bytes()) {
        Ok(program) => {
            let _tree = program.program();
            Ok(Ok(program))
        }
        Err(TextFault::Memory) => Err(AllocError),
        Err(why) => Ok(Err(why)),
    }
}

/// What is said of a text that has this fault.
fn refused(why: TextFault) -> Inspected
    ensures { result ≡ refusal why }
{
    match why {
        TextFault::NotUtf8 { .. } => Inspected::Refused {
            number: 1,
            line: 0,
            column: 0,
        },
        TextFault::Syntax { line, column } => Inspected::Refused {
            number: 2,
            line,
            column,
        },
        TextFault::Defect { line, column, .. } => Inspected::Refused {
            number: 3,
            line,
            column,
        },
        TextFault::Memory => Inspected::Refused {
            number: 4,
            line: 0,
            column: 0,
        },
        TextFault::TooLong { .. } => Inspected::Refused {
            number: 5,
            line: 0,
            column: 0,
        },
    }
}

/// What is said of a text alone. It fails where there is no memory.
pub(crate) fn inspected<R: Threads + Sync>(
    rt: &R,
    alloc: Global,
    text: &Text,
    workers: u32,
) -> Result<Inspected, AllocError>
    requires { (1 ≤ workers) × (workers ≤ 64) }
    ensures { IfOk result (Inspects text.now) }
{
    let program = match read(alloc, text)? {
        Ok(program) => program,
        Err(why) => return Ok(refused(why)),
    };
    match necessary(rt, alloc, &program, workers, &Open)? {
        Needed::Conditions { .. } => Ok(Inspected::Fine),
        Needed::Vacuous { .. } => Ok(Inspected::Vacuous),
    }
}

/// What is said of a program against another. It fails where there is no memory.
fn judged<R: Threads + Sync>(
    rt: &R,
    alloc: Global,
    base: Snapshot,
    revision: &Snapshot,
    workers: u32,
) -> Result<Compared, AllocError>
    requires { (1 ≤ workers) × (workers ≤ 64) }
    ensures { IfOk result (λ said. (first second : _) → IsReadAs first base → IsReadAs second revision.now → Compares first second said) }
{
    let found = baseline(rt, alloc, Arc::new(alloc, base)?, workers, &Open)?;
    let report = judge(rt, alloc, &found, revision, workers, &Open)?;
    let json = json_of(alloc, &report, found.base(), revision)?;
    Ok(Compared::Judged {
        verdict: report.verdict,
        json,
    })
}

/// What is said of a text against another. It fails where there is no memory.
pub(crate) fn compared<R: Threads + Sync>(
    rt: &R,
    alloc: Global,
    base: &Text,
    revision: &Text,
    workers: u32,
) -> Result<Compared, AllocError>
    requires { (1 ≤ workers) × (workers ≤ 64) }
    ensures { IfOk result (Compares base.now revision.now) }
{
    let Ok(first) = read(alloc, base)? else {
        return Ok(Compared::Unreadable { which: 1 });
    };
    let Ok(second) = read(alloc, revision)? else {
        return Ok(Compared::Unreadable { which: 2 });
    };
    judged(rt, alloc, first, &second, workers)
}
