ghost use Rattle.std.specs.Prelude.{◌≡◌, IfOk, false};
ghost use Rattle.serde_json.specs.View.{view};
ghost use Rattle.serde_json.specs.Written.{has_float, compact_text};
ghost use Rattle.vmv_report.specs.Reports.{IsReport};
ghost use Rattle.vmv_report.specs.Work.{AreInside};
ghost use Rattle.vmv_report_json.specs.Json.{report_data, report_json};

use crate::conditions::conditions_value;
use crate::rows::{rows_value, witnesses_value};
use serde_json::{Value, json};
use std::alloc::{AllocError, Global};
use vmv_edge::Text;
use vmv_report::{Class, Report, class_count};
use vmv_snapshot::Snapshot;

/// The value of a report.
fn report_value(alloc: Global, report: &Report, revision: &Snapshot) -> Result<Value, AllocError>
    requires { AreInside revision.now report.now.rows }
    ensures { IfOk result (λ value. view value ≡ report_data report.now revision.now) }
{
    let rows = report.rows.as_slice();
    let alarm = class_count(Class::Alarm, rows);
    let clean = class_count(Class::Clean, rows);
    let hidden = class_count(Class::Hidden, rows);
    let regression = class_count(Class::Regression, rows);
    let necessary = conditions_value(alloc, &report.conditions)?;
    let sufficient = conditions_value(alloc, &report.enough)?;
    let told = rows_value(alloc, revision, rows)?;
    let witnesses = witnesses_value(alloc, report.witnesses.as_slice())?;
    let verdict = report.verdict;
    json!(in alloc; {
        "alarm": alarm,
        "clean": clean,
        "hidden": hidden,
        "necessary": necessary,
        "regression": regression,
        "rows": told,
        "sufficient": sufficient,
        "verdict": verdict,
        "witnesses": witnesses
    })
}

/// The text of a value that has no float.
fn written(alloc: Global, value: &Value) -> Result<Text, AllocError>
    requires { has_float (view value.now) ≡ false }
    ensures { IfOk result (λ text. text ≡ compact_text (view value.now)) }
{
    let text = value.to_string(alloc)?;
    Ok(Text::from_vec(text.into_bytes()))
}

/// The JSON of a report that was made of this base and this revision. It fails for want of memory alone.
pub fn json_of(
    alloc: Global,
    report: &Report,
    base: &Snapshot,
    revision: &Snapshot,
) -> Result<Text, AllocError>
    requires { IsReport base.now revision.now report.now }
    ensures { IfOk result (λ text. text ≡ report_json report.now revision.now) }
{
    let value = report_value(alloc, report, revision)?;
    written(alloc, &value)
}
