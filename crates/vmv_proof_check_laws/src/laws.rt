ghost use Rattle.std.specs.Prelude.{◌≡◌, ◌<◌, ◌^◌, Result};
ghost use Rattle.vmv_snapshot.specs.Resolution.{Resolution, IsResolution};
ghost use Rattle.vmv_proof.specs.declared.proof.Proof.{Proof};
ghost use Rattle.vmv_proof_check.specs.declared.claims.Claims.{Claims};
ghost use Rattle.vmv_proof_check.specs.declared.claims.ProofRefused.{ProofRefused};
ghost use Rattle.vmv_proof_check.specs.Proofs.{IsProofAccepted};
ghost use Rattle.vmv_proof_check_laws.specs.Answers.{IsAnswer};

use vmv_table_laws::{accepted_tables_are_not_refused, tables_are_refused_in_one_way};

/// The check of a proof has one answer, but for want of memory: it is accepted with one count of its rows, or refused at one
/// part, row and step.
pub fn proofs_have_one_answer()
    ensures { (base revision : Resolution) (proof : Proof) (one other : Result Claims ProofRefused) → IsResolution base → IsResolution revision → IsAnswer base revision proof one → IsAnswer base revision proof other → one ≡ other }
{
    accepted_tables_are_not_refused();
    tables_are_refused_in_one_way();
}

/// Each count of an accepted proof is below 2^32.
pub fn accepted_proofs_count_few_rows()
    ensures { (base revision : Resolution) (proof : Proof) (claims : Claims) → IsResolution revision → IsProofAccepted base revision proof claims → (claims.clean < 2 ^ 32) × (claims.hidden < 2 ^ 32) × (claims.left < 2 ^ 32) }
{}
