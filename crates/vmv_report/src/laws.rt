ghost use Rattle.std.specs.Prelude.{◌≡◌, ◌∷◌, ◌++◌, ℕ, List, Some, codes, nat_eq, IsTrue};
ghost use Rattle.std.specs.List.{starts_with};
ghost use Rattle.vmv_tree.specs.declared.name.Name.{Name};
ghost use Rattle.vmv_cond.specs.declared.cond.Cond.{Cond};
ghost use Rattle.vmv_assumption.specs.Assumed.{cond_of};
ghost use Rattle.vmv_assumption.specs.Within.{IsWithin};
ghost use Rattle.vmv_tree.specs.Safe.{Environment, Covers, Safe, RelCorrect};
ghost use Rattle.vmv_snapshot.specs.Resolution.{Resolution, IsResolution, tree_of};
ghost use Rattle.vmv_report.specs.declared.report.Report.{Report};
ghost use Rattle.vmv_report.specs.Reports.{IsReport};
ghost use Rattle.vmv_report.specs.Regressions.{ShowsRegression};
ghost use Rattle.vmv_report.specs.Texts.{report_text};

use vmv_assumption::every_environment_is_within_whole;
use vmv_need::{safe_environments_meet_the_necessary, vacuous_programs_have_no_safe_environment};
use vmv_run::answers_are_of_outside_items;
use vmv_table_sound::{
    failing_sites_are_reached, provable_sites_dont_fail, proved_programs_are_safe,
};

/// Where the verdict is 1, the revision is relatively correct to the base.
pub fn correct_verdicts_hold()
    ensures { (base revision : Resolution) (report : Report) → IsResolution base → IsResolution revision → IsReport base revision report → report.verdict ≡ 1 → RelCorrect (tree_of base) (tree_of revision) }
{
    every_environment_is_within_whole();
    safe_environments_meet_the_necessary();
    failing_sites_are_reached();
    provable_sites_dont_fail();
}

/// Where the verdict is 1, the revision is safe in every environment within what is necessary for the base.
pub fn correct_revisions_are_safe_within_the_necessary()
    ensures { (base revision : Resolution) (report : Report) (held : List (Name × Cond)) (env : Environment) → IsResolution revision → IsReport base revision report → report.verdict ≡ 1 → report.conditions ≡ Some held → IsWithin env (cond_of held) → Safe env (tree_of revision) }
{
    every_environment_is_within_whole();
    safe_environments_meet_the_necessary();
    failing_sites_are_reached();
    provable_sites_dont_fail();
}

/// Where the verdict is 4, no environment is safe for the base.
pub fn vacuous_verdicts_hold()
    ensures { (base revision : Resolution) (report : Report) (env : Environment) → IsResolution base → IsReport base revision report → report.verdict ≡ 4 → Covers env (tree_of base) → Safe env (tree_of base) → ⊥ }
{
    vacuous_programs_have_no_safe_environment();
}

/// The text of a report with verdict 3 shows a regression.
pub fn regressing_reports_show_it()
    ensures { (base revision : Resolution) (report : Report) → IsResolution base → IsResolution revision → IsReport base revision report → report.verdict ≡ 3 → ShowsRegression (tree_of base) (tree_of revision) (report_text report base revision) }
{
    proved_programs_are_safe();
    answers_are_of_outside_items();
}

/// Only the text of a report with verdict 1 says that the revision is relatively correct, whatever is written behind it.
pub fn only_correct_reports_say_so()
    ensures { (base revision : Resolution) (report : Report) (more : List ℕ) → IsReport base revision report → IsTrue (starts_with nat_eq (report_text report base revision ++ more) (codes "verdict relatively correct\n")) → report.verdict ≡ 1 }
{}
