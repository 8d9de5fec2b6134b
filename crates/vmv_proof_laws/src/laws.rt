ghost use Rattle.std.specs.Prelude.{◌≡◌, ◌+◌};
ghost use Rattle.vmv_snapshot.specs.Resolution.{Resolution, IsResolution};
ghost use Rattle.vmv_proof.specs.declared.proof.Proof.{Proof};
ghost use Rattle.vmv_proof_check.specs.declared.claims.Claims.{Claims};
ghost use Rattle.vmv_proof_check.specs.Proofs.{IsProofAccepted};
ghost use Rattle.vmv_report.specs.declared.class.Class.TheVariants.{Clean, Hidden, Regression, Alarm};
ghost use Rattle.vmv_report.specs.declared.report.Report.{Report};
ghost use Rattle.vmv_report.specs.Rows.{class_count};
ghost use Rattle.vmv_report.specs.Reports.{IsReport};
ghost use Rattle.vmv_review_proof.specs.Proofs.{IsProofOf};

use vmv_forward::{
    least_tables_are_unique, least_tables_begin_above_their_boxes, least_tables_decide_death,
    least_tables_decide_proof, least_tables_have_rows,
};
use vmv_report_laws::one_thing_is_necessary;

/// A base and a revision have one proof.
pub fn proofs_are_unique()
    ensures { (base revision : Resolution) (one other : Proof) → IsResolution base → IsResolution revision → IsProofOf base revision one → IsProofOf base revision other → one ≡ other }
{
    least_tables_are_unique();
}

/// The checker accepts the proof of a review, and counts the rows as the report does: what is left are regressions and alarms.
pub fn proofs_of_reviews_are_accepted()
    ensures { (base revision : Resolution) (proof : Proof) (report : Report) (claims : Claims) → IsResolution base → IsResolution revision → IsProofOf base revision proof → IsReport base revision report → claims.clean ≡ class_count Clean report.rows → claims.hidden ≡ class_count Hidden report.rows → claims.left ≡ class_count Regression report.rows + class_count Alarm report.rows → IsProofAccepted base revision proof claims }
{
    one_thing_is_necessary();
    least_tables_begin_above_their_boxes();
    least_tables_decide_death();
    least_tables_decide_proof();
    least_tables_have_rows();
}
