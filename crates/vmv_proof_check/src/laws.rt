ghost use Rattle.std.specs.Prelude.{◌≡◌};
ghost use Rattle.vmv_tree.specs.Safe.{RelCorrect};
ghost use Rattle.vmv_snapshot.specs.Resolution.{Resolution, IsResolution, tree_of};
ghost use Rattle.vmv_proof.specs.declared.proof.Proof.{Proof};
ghost use Rattle.vmv_proof_check.specs.declared.claims.Claims.{Claims};
ghost use Rattle.vmv_proof_check.specs.Proofs.{IsProofAccepted};

/// Where a proof is accepted and no row is left, the revision is relatively correct.
pub fn accepted_proofs_are_sound()
    ensures { (base revision : Resolution) (proof : Proof) (claims : Claims) → IsResolution base → IsResolution revision → IsProofAccepted base revision proof claims → claims.left ≡ 0 → RelCorrect (tree_of base) (tree_of revision) }
{}
