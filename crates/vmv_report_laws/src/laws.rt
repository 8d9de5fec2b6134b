ghost use Rattle.std.specs.Prelude.{◌≡◌, ℕ, Option, List};
ghost use Rattle.vmv_tree.specs.declared.name.Name.{Name};
ghost use Rattle.vmv_cond.specs.declared.cond.Cond.{Cond};
ghost use Rattle.vmv_snapshot.specs.Resolution.{Resolution, IsResolution};
ghost use Rattle.vmv_assumption.specs.Assumed.{Assumed};
ghost use Rattle.vmv_witness.specs.declared.witness.Witness.{Witness};
ghost use Rattle.vmv_need.specs.declared.subject.Scope.{Scope};
ghost use Rattle.vmv_need.specs.declared.needed.Needed.{Needed};
ghost use Rattle.vmv_need.specs.Needed.{IsFound};
ghost use Rattle.vmv_enough.specs.declared.probe.Probe.{Probe};
ghost use Rattle.vmv_enough.specs.Enough.{IsEnough, HasNoEnough};
ghost use Rattle.vmv_enough.specs.Failures.{FailsAt};
ghost use Rattle.vmv_enough.specs.Found.{AreFound};
ghost use Rattle.vmv_report.specs.declared.class.Class.{Class};
ghost use Rattle.vmv_report.specs.declared.row.ReportRow.{ReportRow};
ghost use Rattle.vmv_report.specs.declared.report.Report.{Report};
ghost use Rattle.vmv_report.specs.Rows.{Review, IsOfClass, AreRows, AreWitnesses};
ghost use Rattle.vmv_report.specs.Baselines.{Based, IsEnoughFor, IsBaseline};
ghost use Rattle.vmv_report.specs.Reports.{IsReport};
ghost use Rattle.vmv_report.specs.Texts.{report_text};

use vmv_forward::least_tables_are_unique;

/// One list of conditions is the first that tightening comes to under which every site is proved.
pub fn sufficient_conditions_are_unique()
    ensures { (program : Resolution) (needed one other : Assumed) → IsEnough program needed one → IsEnough program needed other → one ≡ other }
{}

/// Tightening doesn't come both to conditions that suffice and to an end without them.
pub fn conditions_suffice_or_none_do()
    ensures { (program : Resolution) (needed enough : Assumed) → IsEnough program needed enough → HasNoEnough program needed → ⊥ }
{}

/// A probe of an entry fails in one way: with one list of words and of answers, at one site.
pub fn a_probe_fails_in_one_way()
    ensures { (program : Resolution) (number : ℕ) (assumed : Assumed) (probe : Probe) (one other : Witness) → FailsAt program number assumed probe one → FailsAt program number assumed probe other → one ≡ other }
{}

/// The probes of an entry find one list of runs.
pub fn probes_find_one_list()
    ensures { (program : Resolution) (number : ℕ) (assumed : Assumed) (one other : List Witness) → AreFound program number assumed one → AreFound program number assumed other → one ≡ other }
{}

/// One thing is found of a program: its necessary conditions with the exclusions that led there, or what shows that it is
/// vacuous.
pub fn one_thing_is_necessary()
    ensures { (program : Resolution) (scope : Scope) (one other : Needed) → IsResolution program → IsFound program scope one → IsFound program scope other → one ≡ other }
{
    least_tables_are_unique();
}

/// Of a base with what is necessary for it, one thing is told of what suffices.
pub fn one_thing_suffices()
    ensures { (base : Resolution) (needed : Needed) (one other : Option (List (Name × Cond))) → IsResolution base → IsEnoughFor base needed one → IsEnoughFor base needed other → one ≡ other }
{}

/// A base has one baseline.
pub fn baselines_are_unique()
    ensures { (one other : Based) → one.base ≡ other.base → IsBaseline one → IsBaseline other → one ≡ other }
{
    least_tables_are_unique();
}

/// A row has one class, by the rows before it.
pub fn a_row_has_one_class()
    ensures { (review : Review) (before : List ReportRow) (row : ReportRow) (one other : Class) → IsOfClass review before row one → IsOfClass review before row other → one ≡ other }
{}

/// A review has one list of rows.
pub fn rows_are_unique()
    ensures { (review : Review) (one other : List ReportRow) → AreRows review one → AreRows review other → one ≡ other }
{}

/// Rows have one list of runs.
pub fn witnesses_are_unique()
    ensures { (review : Review) (rows : List ReportRow) (one other : List Witness) → AreWitnesses review rows one → AreWitnesses review rows other → one ≡ other }
{}

/// A base and a revision have one report.
pub fn reports_are_unique()
    ensures { (base revision : Resolution) (one other : Report) → IsResolution base → IsReport base revision one → IsReport base revision other → one ≡ other }
{
    least_tables_are_unique();
}

/// The text of a report is determined by the base and the revision.
pub fn report_texts_are_unique()
    ensures { (base revision : Resolution) (one other : Report) → IsResolution base → IsReport base revision one → IsReport base revision other → report_text one base revision ≡ report_text other base revision }
{
    least_tables_are_unique();
}
