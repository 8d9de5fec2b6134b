ghost use Rattle.std.specs.Prelude.{◌≡◌, ◌≤◌, codes, IfOk};
ghost use Rattle.vmv_snapshot.specs.Resolution.{tree_of};
ghost use Rattle.vmv_command.specs.Faults.{OnProgram};
ghost use Rattle.vmv_command.specs.Samples.{SamplesPrograms, Samples};

use crate::faults::fault_output;
use crate::output::Output;
use crate::summary::sample_lines;
use std::alloc::{AllocError, Global};
use std::sync::Arc;
use std::thread::Threads;
use vmv_edge::Text;
use vmv_report::{Open, baseline, judge};
use vmv_sample::sample_text;
use vmv_snapshot::Snapshot;
use vmv_source::parse;

// The review of a sample's programs.
fn sample_programs<R: Threads + Sync>(
    rt: &R,
    alloc: Global,
    number: u64,
    base: Snapshot,
    revision: &Snapshot,
    workers: u32,
) -> Result<Output, AllocError>
    requires { (1 ≤ workers) × (workers ≤ 64) }
    ensures { IfOk result (λ output. SamplesPrograms number (tree_of base) (tree_of revision.now) output.text output.status) }
{
    let found = baseline(rt, alloc, Arc::new(alloc, base)?, workers, &Open)?;
    let _revision = revision.program(); // both are resolved
    let _base = found.base();
    let report = judge(rt, alloc, &found, revision, workers, &Open)?;
    let text = sample_lines(alloc, number, &found, &report)?;
    Ok(Output { text, status: 0 })
}

// The review of a sample's texts.
fn sample_texts<R: Threads + Sync>(
    rt: &R,
    alloc: Global,
    number: u64,
    base: &Text,
    revision: &Text,
    workers: u32,
) -> Result<Output, AllocError>
    requires { (1 ≤ workers) × (workers ≤ 64) }
    ensures { IfOk result (λ output. OnProgram (codes "base") base.now (λ B. OnProgram (codes "revision") revision.now (SamplesPrograms number B)) output.text output.status) }
{
    let base = match parse(alloc, base.bytes()) {
        Ok(base) => base,
        Err(fault) => return fault_output(alloc, "base", fault),
    };
    let revision = match parse(alloc, revision.bytes()) {
        Ok(revision) => revision,
        Err(fault) => return fault_output(alloc, "revision", fault),
    };
    sample_programs(rt, alloc, number, base, &revision, workers)
}

/// The sample of a number: a base is made, and a revision of it, and both are printed, parsed, and reviewed by so many
/// workers, 1 to 64.
pub(crate) fn sample_output<R: Threads + Sync>(
    rt: &R,
    alloc: Global,
    number: u64,
    workers: u32,
) -> Result<Output, AllocError>
    requires { (1 ≤ workers) × (workers ≤ 64) }
    ensures { IfOk result (λ output. Samples number output.text output.status) }
{
    let base = sample_text(alloc, 0)?;
    let revision = sample_text(alloc, (number % 3) as u8)?;
    sample_texts(rt, alloc, number, &base, &revision, workers)
}
