ghost use Rattle.std.specs.Prelude.{◌≡◌, ◌<◌, ◌++◌, ℤ, IfOk, OnOk, Some, length, zip};
ghost use Rattle.std.specs.List.{flat_map};
ghost use Rattle.vmv_snapshot.specs.Resolution.{procs_of};
ghost use Rattle.vmv_report.specs.Rows.{proc_name};
ghost use Rattle.vmv_report.specs.Reports.{IsReport};
ghost use Rattle.vmv_report.specs.Texts.{line, proc_params, param_range, shown_text, necessary_lines, sufficient_lines, vacuous_text, reviewed_text, report_text, baseline_text};
ghost use Rattle.vmv_report.specs.Work.{AreInside, IsShownOf};

use crate::conds::{push_held, push_necessary, push_sufficient, range_text};
use crate::kept::Baseline;
use crate::report::Report;
use crate::row_texts::{push_proc, push_rows, push_witnesses, verdict_line};
use std::alloc::{AllocError, Global};
use vmv_assumption::Assumption;
use vmv_edge::Text;
use vmv_need::{Needed, ShownBy};
use vmv_snapshot::{ParamBox, ProcId, Snapshot};
use vmv_tree::Param;

/// Writes a parameter with its range.
#[tactic(auto, using(crate::proofs::Writing::writing))]
fn push_range(
    alloc: Global,
    out: &mut Vec<u8>,
    param: &Param,
    range: (i64, i64),
) -> Result<(), AllocError>
    ensures { OnOk result (out.new.items ≡ out.old.items ++ param_range (param.now, range)) }
{
    let text = range_text(alloc, range.0, range.1)?;
    out.extend_from_slice(b" ")?;
    out.extend_from_slice(param.name.bytes())?;
    out.extend_from_slice(b" ")?;
    out.extend_from_slice(text.as_bytes())
}

/// Writes the parameters with their ranges.
#[tactic(auto, using(crate::proofs::Writing::writing))]
fn push_ranges(
    alloc: Global,
    out: &mut Vec<u8>,
    params: &[Param],
    ranges: &[(i64, i64)],
) -> Result<(), AllocError>
    ensures { OnOk result (out.new.items ≡ out.old.items ++ flat_map param_range (zip params.now ranges.now)) }
{
    for (param, range) in params.iter().zip(ranges.iter()) {
        push_range(alloc, out, param, *range)?;
    }
    Ok(())
}

/// Writes an entry with the ranges from which it doesn't return.
#[tactic(auto, using(crate::proofs::Writing::writing, crate::proofs::Naming::params_read))]
fn push_doomed(
    alloc: Global,
    out: &mut Vec<u8>,
    base: &Snapshot,
    entry: ProcId,
    within: &ParamBox,
) -> Result<(), AllocError>
    requires { entry.0 < length (procs_of base.now) }
    ensures { OnOk result (out.new.items ≡ out.old.items ++ (proc_name base.now entry.0 ++ flat_map param_range (zip (proc_params base.now entry.0) within.now))) }
{
    let params = base.params(entry);
    push_proc(out, base, entry)?;
    push_ranges(alloc, out, params.as_slice(), within.ranges())
}

/// Writes what shows that the base is vacuous.
#[tactic(auto, using(crate::proofs::Writing::writing))]
fn push_shown(
    alloc: Global,
    out: &mut Vec<u8>,
    base: &Snapshot,
    shown: &ShownBy,
) -> Result<(), AllocError>
    requires { IsShownOf base.now shown.now }
    ensures { OnOk result (out.new.items ≡ out.old.items ++ shown_text base.now shown.now) }
{
    match shown {
        ShownBy::EmptyName(name) => {
            out.extend_from_slice(b"empty ")?;
            out.extend_from_slice(name.bytes())
        }
        ShownBy::Doomed { entry, within, .. } => {
            out.extend_from_slice(b"doomed ")?;
            push_doomed(alloc, out, base, *entry, within)
        }
    }
}

/// The text of the report of a vacuous base.
#[tactic(auto, using(crate::proofs::Writing::writing))]
fn vacuous_text(alloc: Global, base: &Snapshot, shown: &ShownBy) -> Result<Vec<u8>, AllocError>
    requires { IsShownOf base.now shown.now }
    ensures { IfOk result (λ text. text.items ≡ vacuous_text base.now shown.now) }
{
    let mut out = Vec::from_slice(alloc, b"verdict vacuous\n")?;
    push_shown(alloc, &mut out, base, shown)?;
    out.extend_from_slice(b"\n")?;
    Ok(out)
}

/// The text of the report of a base that isn't vacuous.
#[tactic(auto, using(crate::proofs::Writing::writing))]
fn reviewed_text(alloc: Global, report: &Report, revision: &Snapshot) -> Result<Vec<u8>, AllocError>
    requires { AreInside revision.now report.now.rows }
    ensures { IfOk result (λ text. text.items ≡ reviewed_text report.now revision.now) }
{
    let mut out = Vec::from_slice(alloc, verdict_line(report.verdict))?;
    push_necessary(alloc, &mut out, &report.conditions)?;
    push_sufficient(alloc, &mut out, &report.enough)?;
    push_rows(alloc, &mut out, revision, report.rows.as_slice())?;
    push_witnesses(alloc, &mut out, report.witnesses.as_slice())?;
    Ok(out)
}

/// The text of a report that was made of this base and this revision. It fails for want of memory alone.
pub fn text_of(
    alloc: Global,
    report: &Report,
    base: &Snapshot,
    revision: &Snapshot,
) -> Result<Text, AllocError>
    requires { IsReport base.now revision.now report.now }
    ensures { IfOk result (λ text. text ≡ report_text report.now base.now revision.now) }
{
    let text = match &report.shown_by {
        Some(shown) => vacuous_text(alloc, base, shown)?,
        None => reviewed_text(alloc, report, revision)?,
    };
    Ok(Text::from_vec(text))
}

/// The text of the conditions of a base that isn't vacuous.
#[tactic(auto, using(crate::proofs::Writing::writing))]
fn conditions_text(
    alloc: Global,
    needed: &Assumption,
    enough: &Option<Assumption>,
) -> Result<Vec<u8>, AllocError>
    ensures { IfOk result (λ text. text.items ≡ necessary_lines (Some needed.now) ++ sufficient_lines enough.now) }
{
    let mut out = Vec::new(alloc);
    push_held(alloc, &mut out, needed)?;
    push_sufficient(alloc, &mut out, enough)?;
    Ok(out)
}

/// The text of what is found of a base: its necessary and its sufficient conditions, or what shows that it is vacuous. It fails
/// for want of memory alone.
pub fn baseline_text(alloc: Global, baseline: &Baseline) -> Result<Text, AllocError>
    ensures { IfOk result (λ text. text ≡ baseline_text baseline.now) }
{
    let text = match baseline.needed() {
        Needed::Conditions { assumption, .. } => {
            conditions_text(alloc, assumption, baseline.enough())?
        }
        Needed::Vacuous { shown_by } => vacuous_text(alloc, baseline.base(), shown_by)?,
    };
    Ok(Text::from_vec(text))
}
