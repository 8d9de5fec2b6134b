ghost use Rattle.std.specs.Prelude.{◌≡◌, IfOk};
ghost use Rattle.vmv_assumption.specs.Assumed.{cond_of};
ghost use Rattle.vmv_demands.specs.Ends.{AreEnds};
ghost use Rattle.vmv_need.specs.declared.needed.Needed.TheVariants.{Conditions};
ghost use Rattle.vmv_proving.specs.Shown.{AreShown};
ghost use Rattle.vmv_review_proof.specs.Proofs.{HasConditions, IsProofOf};

use std::alloc::{AllocError, Global};
use vmv_assumption::Assumption;
use vmv_demands::ends;
use vmv_need::{Cuts, Needed};
use vmv_proof::Proof;
use vmv_proving::{all_shown, exclusions_of};
use vmv_report::Baseline;
use vmv_snapshot::Snapshot;
use vmv_tree::Ends;

/// The proof by these necessary conditions of the base, and the exclusions that led there.
pub(crate) fn proof_by(
    alloc: Global,
    baseline: &Baseline,
    needed: &Assumption,
    cuts: &Cuts,
    revision: &Snapshot,
    ends: &Ends,
) -> Result<Proof, AllocError>
    requires needed { baseline.now.needed ≡ Conditions needed.now cuts.now }
    requires ends { AreEnds baseline.now.base ends.now }
    ensures proof { IfOk result (IsProofOf baseline.now.base revision.now) }
    ensures shown { IfOk result (λ proof. AreShown revision.now ends.now (cond_of needed.now) proof.shown) }
{
    let exclusions = exclusions_of(alloc, baseline.base(), ends, cuts.as_slice())?;
    let shown = all_shown(alloc, revision, ends, needed)?;
    Ok(Proof { exclusions, shown })
}

/// The proof of a review of the revision against a base that isn't vacuous. It fails for want of memory alone.
pub fn proof_made(
    alloc: Global,
    baseline: &Baseline,
    revision: &Snapshot,
) -> Result<Proof, AllocError>
    requires { HasConditions baseline.now.needed }
    ensures { IfOk result (IsProofOf baseline.now.base revision.now) }
{
    match baseline.needed() {
        Needed::Conditions { assumption, cuts } => {
            let ends = ends(alloc, baseline.base())?;
            proof_by(alloc, baseline, assumption, cuts, revision, &ends)
        }
        Needed::Vacuous { .. } => unreachable!(),
    }
}
