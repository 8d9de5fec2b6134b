ghost use Rattle.std.specs.Prelude.{◌≤◌, IfOk};
ghost use Rattle.vmv_report.specs.Reports.{IsReport};
ghost use Rattle.vmv_review_proof.specs.Proofs.{HasConditions, IsProofOf};

use crate::making::proof_by;
use std::alloc::{AllocError, Global};
use std::thread::Threads;
use vmv_demands::ends;
use vmv_need::Needed;
use vmv_proof::Proof;
use vmv_report::{Baseline, Report, Turnstile, judge_by};
use vmv_snapshot::Snapshot;

/// A report and the proof of its review.
#[derive(Drop)]
pub struct Judged {
    /// What the review tells.
    pub report: Report,
    /// What shows it.
    pub proof: Proof,
}

/// What a review tells of a revision, with its proof: each table is made once. The base isn't vacuous. It fails for want of
/// memory alone.
///
/// The entries of the revision are judged by so many workers, 1 to 64. Each entry passes the turnstile.
pub fn judge_with_proof<R: Threads + Sync, T: Turnstile + Sync>(
    rt: &R,
    alloc: Global,
    baseline: &Baseline,
    revision: &Snapshot,
    workers: u32,
    turnstile: &T,
) -> Result<Judged, AllocError>
    requires conditions { HasConditions baseline.now.needed }
    requires workers { (1 ≤ workers) × (workers ≤ 64) }
    ensures report { IfOk result (λ judged. IsReport baseline.now.base revision.now judged.report) }
    ensures proof { IfOk result (λ judged. IsProofOf baseline.now.base revision.now judged.proof) }
{
    match baseline.needed() {
        Needed::Conditions { assumption, cuts } => {
            let ends = ends(alloc, baseline.base())?;
            let proof = proof_by(alloc, baseline, assumption, cuts, revision, &ends)?;
            let shown = proof.shown.as_slice();
            let report = judge_by(
                rt, alloc, baseline, revision, &ends, shown, workers, turnstile,
            )?;
            Ok(Judged { report, proof })
        }
        Needed::Vacuous { .. } => unreachable!(),
    }
}
