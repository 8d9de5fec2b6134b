ghost use Rattle.std.specs.Prelude.{◌≡◌, ◌≤◌, codes, IfOk, IsErrOf};
ghost use Rattle.vmv_edge.specs.Outside.{Rose};
ghost use Rattle.vmv_snapshot.specs.Resolution.{tree_of};
ghost use Rattle.vmv_command.specs.Command.{text_most, OnFile};
ghost use Rattle.vmv_command.specs.Faults.{OnProgram};
ghost use Rattle.vmv_command.specs.Baselines.{baseline_status, BaselinesProgram};

use crate::faults::fault_output;
use crate::files::{read_text, too_long};
use crate::output::{Output, Stop};
use crate::{TEXT_MOST, TEXT_MOST_BYTES};
use std::alloc::{AllocError, Global};
use std::sync::Arc;
use std::thread::Threads;
use vmv_edge::{Shelf, Text};
use vmv_need::Needed;
use vmv_report::{Open, baseline, baseline_text};
use vmv_snapshot::Snapshot;
use vmv_source::parse;

fn status_of(needed: &Needed) -> u8
    ensures same { result ≡ baseline_status needed.now }
    ensures known { result ≤ 9 }
{
    match needed {
        Needed::Conditions { .. } => 0,
        Needed::Vacuous { .. } => 3,
    }
}

// The output of the baseline of a program.
fn baseline_program<R: Threads + Sync>(
    rt: &R,
    alloc: Global,
    base: Snapshot,
    workers: u32,
) -> Result<Output, AllocError>
    requires { (1 ≤ workers) × (workers ≤ 64) }
    ensures { IfOk result (λ output. BaselinesProgram (tree_of base) output.text output.status) }
{
    let found = baseline(rt, alloc, Arc::new(alloc, base)?, workers, &Open)?;
    let text = baseline_text(alloc, &found)?;
    Ok(Output {
        text,
        status: status_of(found.needed()),
    })
}

// The baseline of a text.
fn baseline_of_text<R: Threads + Sync>(
    rt: &R,
    alloc: Global,
    base: &Text,
    workers: u32,
) -> Result<Output, AllocError>
    requires { (1 ≤ workers) × (workers ≤ 64) }
    ensures { IfOk result (λ output. OnProgram (codes "base") base.now BaselinesProgram output.text output.status) }
{
    match parse(alloc, base.bytes()) {
        Ok(base) => baseline_program(rt, alloc, base, workers),
        Err(fault) => fault_output(alloc, "base", fault),
    }
}

/// The baseline of the text under a name, found by so many workers, 1 to 64.
pub(crate) fn baseline_file<R: Threads + Sync, F: Shelf>(
    rt: &R,
    alloc: Global,
    shelf: &mut F,
    base: &str,
    workers: u32,
) -> Result<Output, Stop>
    requires { (1 ≤ workers) × (workers ≤ 64) }
    ensures output { IfOk result (λ output. OnFile (F.told shelf.old) base.now (codes "base") text_most (λ b. OnProgram (codes "base") b BaselinesProgram) output.text output.status) }
    ensures failed { IsErrOf result Stop.Failed → Rose (F.fault_count shelf.old) (F.fault_count shelf.new) }
    ensures stands { ¬ (IsErrOf result Stop.Failed) → F.fault_count shelf.new ≡ F.fault_count shelf.old }
{
    let Some(base) = read_text(alloc, shelf, base, TEXT_MOST_BYTES)? else {
        return Ok(too_long(alloc, "base", TEXT_MOST)?);
    };
    Ok(baseline_of_text(rt, alloc, &base, workers)?)
}
