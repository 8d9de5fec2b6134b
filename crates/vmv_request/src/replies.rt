ghost use Rattle.std.specs.Prelude.{◌≡◌, ◌++◌, false, IfOk, OnOk, map};
ghost use Rattle.serde_json.specs.View.{view, items_of};
ghost use Rattle.serde_json.specs.Data.{array};
ghost use Rattle.serde_json.specs.Written.{has_float, compact_text};
ghost use Rattle.vmv_request.specs.Replies.{reply_status, string_of, version_data, members_data, submission_data, base_data, row_data, history_data, waiting_data, pending_data, cause_data, full_data, text_data, verdict_data, report_body, reply_body};

use serde_json::{Value, json};
use std::alloc::{AllocError, Global};
use vmv_edge::Text;
use vmv_keeper::{PendingRow, Reply, VersionRow};

/// The status of the answer that tells a desk's reply.
pub fn reply_status(reply: &Reply) -> u16
    ensures { result ≡ reply_status reply.now }
{
    match reply {
        Reply::NotFound => 404,
        Reply::NotAllowed => 403,
        Reply::Full { .. } => 409,
        Reply::TextRefused { .. } => 422,
        Reply::NotCorrect { .. } => 409,
        Reply::IdReused => 409,
        Reply::AlreadyOpen => 409,
        Reply::StoreFault => 503,
        Reply::Memory => 507,
        Reply::VacuousText => 422,
        _ => 200,
    }
}

/// Bytes as a string.
fn string_of(alloc: Global, bytes: &[u8]) -> Result<Value, AllocError>
    ensures { IfOk result (λ value. view value ≡ string_of bytes.now) }
{
    let text = String::from_utf8_lossy(alloc, bytes)?;
    Ok(Value::String(text))
}

/// The text of a value that has no float.
fn written(alloc: Global, value: &Value) -> Result<Text, AllocError>
    requires { has_float (view value.now) ≡ false }
    ensures { IfOk result (λ text. text ≡ compact_text (view value.now)) }
{
    let text = value.to_string(alloc)?;
    Ok(Text::from_vec(text.into_bytes()))
}

fn version_value(alloc: Global, version: u32) -> Result<Value, AllocError>
    ensures { IfOk result (λ value. view value ≡ version_data version) }
{
    json!(in alloc; {"ok": true, "version": version})
}

fn members_value(alloc: Global, count: u32) -> Result<Value, AllocError>
    ensures { IfOk result (λ value. view value ≡ members_data count) }
{
    json!(in alloc; {"members": count, "ok": true})
}

fn submission_value(alloc: Global, submission: u32) -> Result<Value, AllocError>
    ensures { IfOk result (λ value. view value ≡ submission_data submission) }
{
    json!(in alloc; {"ok": true, "submission": submission})
}

fn base_value(alloc: Global, version: u32, text: &Text) -> Result<Value, AllocError>
    ensures { IfOk result (λ value. view value ≡ base_data version text.now) }
{
    let text = string_of(alloc, text.bytes())?;
    json!(in alloc; {"ok": true, "text": text, "version": version})
}

/// A version's row.
fn row_value(alloc: Global, row: &VersionRow) -> Result<Value, AllocError>
    ensures { IfOk result (λ value. view value ≡ row_data row.now) }
{
    let by = string_of(alloc, row.by.bytes())?;
    let against = row.against;
    let kind = row.kind;
    let number = row.number;
    let submission = row.submission;
    json!(in alloc; {
        "against": against,
        "by": by,
        "kind": kind,
        "number": number,
        "submission": submission
    })
}

/// The rows of versions.
#[tactic(auto, using(crate::proofs::Adding::adding))]
fn rows_value(alloc: Global, rows: &[VersionRow]) -> Result<Value, AllocError>
    ensures { IfOk result (λ value. view value ≡ array (items_of (map row_data rows.now))) }
{
    let mut list = Vec::new(alloc);
    for row in rows {
        let value = row_value(alloc, row)?;
        list.push(value)?;
    }
    Ok(Value::Array(list))
}

fn history_value(alloc: Global, rows: &[VersionRow]) -> Result<Value, AllocError>
    ensures { IfOk result (λ value. view value ≡ history_data rows.now) }
{
    let versions = rows_value(alloc, rows)?;
    json!(in alloc; {"ok": true, "versions": versions})
}

/// The row of a submission that waits.
fn waiting_value(alloc: Global, row: &PendingRow) -> Result<Value, AllocError>
    ensures { IfOk result (λ value. view value ≡ waiting_data row.now) }
{
    let by = string_of(alloc, row.by.bytes())?;
    let submission = row.submission;
    json!(in alloc; {"by": by, "submission": submission})
}

/// The rows of submissions that wait.
#[tactic(auto, using(crate::proofs::Adding::adding))]
fn waiting_values(alloc: Global, rows: &[PendingRow]) -> Result<Value, AllocError>
    ensures { IfOk result (λ value. view value ≡ array (items_of (map waiting_data rows.now))) }
{
    let mut list = Vec::new(alloc);
    for row in rows {
        let value = waiting_value(alloc, row)?;
        list.push(value)?;
    }
    Ok(Value::Array(list))
}

fn pending_value(alloc: Global, rows: &[PendingRow]) -> Result<Value, AllocError>
    ensures { IfOk result (λ value. view value ≡ pending_data rows.now) }
{
    let pending = waiting_values(alloc, rows)?;
    json!(in alloc; {"ok": true, "pending": pending})
}

fn cause_value(alloc: Global, cause: u8) -> Result<Value, AllocError>
    ensures { IfOk result (λ value. view value ≡ cause_data cause) }
{
    json!(in alloc; {"cause": cause, "ok": false})
}

fn full_value(alloc: Global, which: u8) -> Result<Value, AllocError>
    ensures { IfOk result (λ value. view value ≡ full_data which) }
{
    json!(in alloc; {"cause": 3, "ok": false, "which": which})
}

fn text_value(alloc: Global, number: u8, line: u32, column: u32) -> Result<Value, AllocError>
    ensures { IfOk result (λ value. view value ≡ text_data number line column) }
{
    json!(in alloc; {"cause": 4, "column": column, "line": line, "number": number, "ok": false})
}

fn verdict_value(alloc: Global, verdict: u8) -> Result<Value, AllocError>
    ensures { IfOk result (λ value. view value ≡ verdict_data verdict) }
{
    json!(in alloc; {"cause": 5, "ok": false, "verdict": verdict})
}

/// The body that tells the number of a cause.
pub(crate) fn cause_body(alloc: Global, cause: u8) -> Result<Text, AllocError>
    ensures { IfOk result (λ text. text ≡ compact_text (cause_data cause)) }
{
    let value = cause_value(alloc, cause)?;
    written(alloc, &value)
}

fn version_body(alloc: Global, version: u32) -> Result<Text, AllocError>
    ensures { IfOk result (λ text. text ≡ compact_text (version_data version)) }
{
    let value = version_value(alloc, version)?;
    written(alloc, &value)
}

fn members_body(alloc: Global, count: u32) -> Result<Text, AllocError>
    ensures { IfOk result (λ text. text ≡ compact_text (members_data count)) }
{
    let value = members_value(alloc, count)?;
    written(alloc, &value)
}

fn submission_body(alloc: Global, submission: u32) -> Result<Text, AllocError>
    ensures { IfOk result (λ text. text ≡ compact_text (submission_data submission)) }
{
    let value = submission_value(alloc, submission)?;
    written(alloc, &value)
}

fn base_body(alloc: Global, version: u32, text: &Text) -> Result<Text, AllocError>
    ensures { IfOk result (λ body. body ≡ compact_text (base_data version text.now)) }
{
    let value = base_value(alloc, version, text)?;
    written(alloc, &value)
}

fn history_body(alloc: Global, rows: &[VersionRow]) -> Result<Text, AllocError>
    ensures { IfOk result (λ text. text ≡ compact_text (history_data rows.now)) }
{
    let value = history_value(alloc, rows)?;
    written(alloc, &value)
}

fn pending_body(alloc: Global, rows: &[PendingRow]) -> Result<Text, AllocError>
    ensures { IfOk result (λ text. text ≡ compact_text (pending_data rows.now)) }
{
    let value = pending_value(alloc, rows)?;
    written(alloc, &value)
}

/// The body with a report, which stands there as it is.
#[tactic(auto, using(crate::proofs::Adding::adding))]
fn report_body(alloc: Global, against: u32, json: &Text) -> Result<Text, AllocError>
    ensures { IfOk result (λ text. text ≡ report_body against json.now) }
{
    let front = format!(in alloc; "{{\"against\":{against},\"ok\":true,\"report\":")?;
    let mut body = front.into_bytes();
    body.extend_from_slice(json.bytes())?;
    body.extend_from_slice(b"}")?;
    Ok(Text::from_vec(body))
}

fn full_body(alloc: Global, which: u8) -> Result<Text, AllocError>
    ensures { IfOk result (λ text. text ≡ compact_text (full_data which)) }
{
    let value = full_value(alloc, which)?;
    written(alloc, &value)
}

fn text_body(alloc: Global, number: u8, line: u32, column: u32) -> Result<Text, AllocError>
    ensures { IfOk result (λ text. text ≡ compact_text (text_data number line column)) }
{
    let value = text_value(alloc, number, line, column)?;
    written(alloc, &value)
}

fn verdict_body(alloc: Global, verdict: u8) -> Result<Text, AllocError>
    ensures { IfOk result (λ text. text ≡ compact_text (verdict_data verdict)) }
{
    let value = verdict_value(alloc, verdict)?;
    written(alloc, &value)
}

/// The body of the answer that tells a desk's reply. It fails for want of memory alone.
pub fn reply_body(alloc: Global, reply: &Reply) -> Result<Text, AllocError>
    ensures { IfOk result (λ text. text ≡ reply_body reply.now) }
{
    match reply {
        Reply::Opened { version } => version_body(alloc, *version),
        Reply::Members { count } => members_body(alloc, *count),
        Reply::Submitted { submission } => submission_body(alloc, *submission),
        Reply::Withdrawn { submission } => submission_body(alloc, *submission),
        Reply::Accepted { version } => version_body(alloc, *version),
        Reply::Waived { version } => version_body(alloc, *version),
        Reply::Report { json, against, .. } => report_body(alloc, *against, json),
        Reply::Base { version, text } => base_body(alloc, *version, text),
        Reply::History { versions } => history_body(alloc, versions.as_slice()),
        Reply::Pending { rows } => pending_body(alloc, rows.as_slice()),
        Reply::Full { which } => full_body(alloc, *which),
        Reply::TextRefused {
            number,
            line,
            column,
        } => text_body(alloc, *number, *line, *column),
        Reply::NotCorrect { verdict } => verdict_body(alloc, *verdict),
        Reply::NotFound => cause_body(alloc, 1),
        Reply::NotAllowed => cause_body(alloc, 2),
        Reply::IdReused => cause_body(alloc, 6),
        Reply::AlreadyOpen => cause_body(alloc, 7),
        Reply::StoreFault => cause_body(alloc, 8),
        Reply::Memory => cause_body(alloc, 9),
        Reply::VacuousText => cause_body(alloc, 10),
    }
}
