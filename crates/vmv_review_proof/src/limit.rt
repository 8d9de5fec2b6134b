ghost use Rattle.std.specs.Prelude.{◌≡◌, ◌≤◌, length, IfOk, IfErr, OnOk};
ghost use Rattle.vmv_proof_text.specs.Text.{proof_text};
ghost use Rattle.vmv_review_proof.specs.Proofs.{HasConditions};
ghost use Rattle.vmv_review_proof.specs.Limit.{IsWithin, IsOver, IsPrinted, IsStopped};

use crate::making::proof_made;
use crate::stop::ProofStop;
use std::alloc::Global;
use vmv_proof::Proof;
use vmv_proof_text::proof_length;
use vmv_report::Baseline;
use vmv_snapshot::Snapshot;

/// The most bytes that the text of a proof may have.
const MOST_BYTES: u64 = 67_108_864;

/// Whether the text of a proof isn't too long to be printed; how long it is, where it is too long.
#[tactic(auto, unfolding(vmv_proof_text::specs::Lengths::capped))]
pub fn is_within_limit(alloc: Global, proof: &Proof) -> Result<(), ProofStop>
    ensures within { OnOk result (IsWithin proof.now) }
    ensures over { IfErr result (IsOver proof.now) }
{
    let found = proof_length(alloc, proof)?;
    if found > MOST_BYTES {
        return Err(ProofStop::TooLarge {
            found: found as usize,
        });
    }
    Ok(())
}

/// The proof of a review of the revision against a base that isn't vacuous, where its text isn't too long to be printed.
pub fn proof_of(alloc: Global, baseline: &Baseline, revision: &Snapshot) -> Result<Proof, ProofStop>
    requires { HasConditions baseline.now.needed }
    ensures proof { IfOk result (IsPrinted baseline.now.base revision.now) }
    ensures stop { IfErr result (IsStopped baseline.now.base revision.now) }
{
    let proof = proof_made(alloc, baseline, revision)?;
    is_within_limit(alloc, &proof)?;
    Ok(proof)
}
