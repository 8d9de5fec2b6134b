ghost use Rattle.std.specs.Prelude.{◌≡◌, ◌≤◌, ◌++◌, codes, true, false, IfOk, IsErrOf};
ghost use Rattle.vmv_edge.specs.Outside.{Rose};
ghost use Rattle.vmv_snapshot.specs.Resolution.{tree_of};
ghost use Rattle.vmv_command.specs.Command.{text_most, OnFile, ReviewsTexts};
ghost use Rattle.vmv_report.specs.Reports.{IsReport};
ghost use Rattle.vmv_review_proof.specs.Proofs.{HasConditions, IsProofOf};
ghost use Rattle.vmv_review_proof.specs.Limit.{IsWithin};
ghost use Rattle.vmv_command.specs.Reviews.{review_status, too_large_line, ReviewsPrograms};
ghost use Rattle.vmv_command.specs.Work.{ReviewsBase};

use crate::faults::fault_output;
use crate::files::{read_text, too_long};
use crate::output::{Output, Stop};
use crate::{TEXT_MOST, TEXT_MOST_BYTES};
use std::alloc::{AllocError, Global};
use std::sync::Arc;
use std::thread::Threads;
use vmv_edge::{Shelf, Text};
use vmv_need::Needed;
use vmv_proof_text::write_proof;
use vmv_report::{Baseline, Open, baseline, judge, text_of};
use vmv_report_laws::baselines_are_unique;
use vmv_review_proof::{Judged, ProofStop, is_within_limit, judge_with_proof};
use vmv_snapshot::Snapshot;
use vmv_source::parse;

fn status_of(verdict: u8) -> u8
    ensures same { result ≡ review_status verdict }
    ensures known { result ≤ 9 }
{
    match verdict {
        1 => 0,
        2 => 1,
        3 => 2,
        _ => 3,
    }
}

// The output of a review without its proof.
fn report_output<R: Threads + Sync>(
    rt: &R,
    alloc: Global,
    found: &Baseline,
    revision: &Snapshot,
    workers: u32,
) -> Result<Output, AllocError>
    requires { (1 ≤ workers) × (workers ≤ 64) }
    ensures { IfOk result (λ output. ReviewsBase false found.now revision.now output.text output.status) }
{
    let report = judge(rt, alloc, found, revision, workers, &Open)?; // without a proof
    let text = text_of(alloc, &report, found.base(), revision)?; // without a proof
    Ok(Output {
        text,
        status: status_of(report.verdict),
    })
}

// The text of a report with that of its proof behind it.
fn both_texts(alloc: Global, report: &Text, proof: &Text) -> Result<Text, AllocError>
    ensures { IfOk result (λ text. text ≡ report.now ++ proof.now) }
{
    let mut text = Vec::from_slice(alloc, report.bytes())?;
    text.extend_from_slice(proof.bytes())?;
    Ok(Text::from_vec(text))
}

// The line of a proof that is too long to be printed.
fn too_large(alloc: Global, found: usize) -> Result<Output, AllocError>
    ensures { IfOk result (λ output. (output.text ≡ too_large_line found) × (output.status ≡ 5)) }
{
    let line = format!(in alloc; "proof: limit bytes found {found} most 67108864\n")?;
    Output::of(alloc, line.as_bytes(), 5)
}

// The output of a report and its proof, where the proof isn't too long.
fn judged_output(
    alloc: Global,
    found: &Baseline,
    revision: &Snapshot,
    judged: &Judged,
) -> Result<Output, AllocError>
    requires report { IsReport found.now.base revision.now judged.now.report }
    requires proof { IsProofOf found.now.base revision.now judged.now.proof }
    requires within { IsWithin judged.now.proof }
    ensures { IfOk result (λ output. ReviewsBase true found.now revision.now output.text output.status) }
{
    let base = found.base();
    let report_text = text_of(alloc, &judged.report, base, revision)?;
    let proof_text = write_proof(alloc, &judged.proof)?;
    let text = both_texts(alloc, &report_text, &proof_text)?;
    Ok(Output {
        text,
        status: status_of(judged.report.verdict),
    })
}

// The output of a review with its proof, of a base that isn't vacuous.
fn proved_output<R: Threads + Sync>(
    rt: &R,
    alloc: Global,
    found: &Baseline,
    revision: &Snapshot,
    workers: u32,
) -> Result<Output, AllocError>
    requires conditions { HasConditions found.now.needed }
    requires workers { (1 ≤ workers) × (workers ≤ 64) }
    ensures { IfOk result (λ output. ReviewsBase true found.now revision.now output.text output.status) }
{
    let judged = judge_with_proof(rt, alloc, found, revision, workers, &Open)?;
    match is_within_limit(alloc, &judged.proof) {
        Ok(()) => judged_output(alloc, found, revision, &judged),
        Err(ProofStop::TooLarge { found }) => too_large(alloc, found),
        Err(ProofStop::Memory) => Err(AllocError),
    }
}

// The output of the review of a vacuous base, which has no proof.
fn vacuous_output<R: Threads + Sync>(
    rt: &R,
    alloc: Global,
    found: &Baseline,
    revision: &Snapshot,
    workers: u32,
) -> Result<Output, AllocError>
    requires vacuous { HasConditions found.now.needed → ⊥ }
    requires workers { (1 ≤ workers) × (workers ≤ 64) }
    ensures { IfOk result (λ output. ReviewsBase true found.now revision.now output.text output.status) }
{
    baselines_are_unique();
    let base = found.base();
    let report = judge(rt, alloc, found, revision, workers, &Open)?;
    let text = text_of(alloc, &report, base, revision)?;
    Ok(Output {
        text,
        status: status_of(report.verdict),
    })
}

// The output of a review with its proof, where there is one.
fn review_with_proof<R: Threads + Sync>(
    rt: &R,
    alloc: Global,
    found: &Baseline,
    revision: &Snapshot,
    workers: u32,
) -> Result<Output, AllocError>
    requires { (1 ≤ workers) × (workers ≤ 64) }
    ensures { IfOk result (λ output. ReviewsBase true found.now revision.now output.text output.status) }
{
    match found.needed() {
        Needed::Conditions { .. } => proved_output(rt, alloc, found, revision, workers),
        Needed::Vacuous { .. } => vacuous_output(rt, alloc, found, revision, workers),
    }
}

// The output of the review of a revision against a base.
fn review_programs<R: Threads + Sync>(
    rt: &R,
    alloc: Global,
    base: Snapshot,
    revision: &Snapshot,
    proved: bool,
    workers: u32,
) -> Result<Output, AllocError>
    requires { (1 ≤ workers) × (workers ≤ 64) }
    ensures { IfOk result (λ output. ReviewsPrograms proved (tree_of base) (tree_of revision.now) output.text output.status) }
{
    let found = baseline(rt, alloc, Arc::new(alloc, base)?, workers, &Open)?;
    let _revision = revision.program();
    let _base = found.base();
    if proved {
        review_with_proof(rt, alloc, &found, revision, workers)
    } else {
        report_output(rt, alloc, &found, revision, workers)
    }
}

// The review of two texts.
fn review_texts<R: Threads + Sync>(
    rt: &R,
    alloc: Global,
    base: &Text,
    revision: &Text,
    proved: bool,
    workers: u32,
) -> Result<Output, AllocError>
    requires { (1 ≤ workers) × (workers ≤ 64) }
    ensures { IfOk result (λ output. ReviewsTexts proved base.now revision.now output.text output.status) }
{
    let base = match parse(alloc, base.bytes()) {
        Ok(base) => base,
        Err(fault) => return fault_output(alloc, "base", fault),
    };
    let revision = match parse(alloc, revision.bytes()) {
        Ok(revision) => revision,
        Err(fault) => return fault_output(alloc, "revision", fault),
    };
    review_programs(rt, alloc, base, &revision, proved, workers)
}

/// The review of the texts under two names by so many workers, 1 to 64, with its proof where that is asked for.
pub(crate) fn review_files<R: Threads + Sync, F: Shelf>(
    rt: &R,
    alloc: Global,
    shelf: &mut F,
    base: &str,
    revision: &str,
    proved: bool,
    workers: u32,
) -> Result<Output, Stop>
    requires { (1 ≤ workers) × (workers ≤ 64) }
    ensures output { IfOk result (λ output. OnFile (F.told shelf.old) base.now (codes "base") text_most (λ b. OnFile (F.told shelf.old) revision.now (codes "revision") text_most (ReviewsTexts proved b)) output.text output.status) }
    ensures failed { IsErrOf result Stop.Failed → Rose (F.fault_count shelf.old) (F.fault_count shelf.new) }
    ensures stands { ¬ (IsErrOf result Stop.Failed) → F.fault_count shelf.new ≡ F.fault_count shelf.old }
{
    let Some(base) = read_text(alloc, shelf, base, TEXT_MOST_BYTES)? else {
        return Ok(too_long(alloc, "base", TEXT_MOST)?);
    };
    let Some(revision) = read_text(alloc, shelf, revision, TEXT_MOST_BYTES)? else {
        return Ok(too_long(alloc, "revision", TEXT_MOST)?);
    };
    Ok(review_texts(rt, alloc, &base, &revision, proved, workers)?)
}
