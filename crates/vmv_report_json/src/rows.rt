ghost use Rattle.std.specs.Prelude.{◌≡◌, ◌<◌, ◌++◌, IfOk, OnOk, length, map};
ghost use Rattle.std.specs.List.{flat_map};
ghost use Rattle.serde_json.specs.Data.{array};
ghost use Rattle.serde_json.specs.View.{view, items_of};
ghost use Rattle.vmv_snapshot.specs.Resolution.{procs_of};
ghost use Rattle.vmv_report.specs.Rows.{proc_name};
ghost use Rattle.vmv_report.specs.Texts.{site_text};
ghost use Rattle.vmv_report.specs.Work.{IsInside, AreInside};
ghost use Rattle.vmv_report_json.specs.Json.{string_of, row_data, told_row, witness_data};

use crate::strings::string_of;
use serde_json::{Value, json};
use std::alloc::{AllocError, Global};
use vmv_report::{Class, ReportRow, class_word, is_class};
use vmv_snapshot::{ProcId, SiteId, Snapshot};
use vmv_witness::{Witness, write_witness};

/// The name of a procedure.
#[tactic(auto, using(vmv_report::proofs::Naming::name_read))]
fn proc_value(alloc: Global, program: &Snapshot, proc: ProcId) -> Result<Value, AllocError>
    requires { proc.0 < length (procs_of program.now) }
    ensures { IfOk result (λ value. view value ≡ string_of (proc_name program.now proc.0)) }
{
    let name = program.proc_name(proc);
    string_of(alloc, name.bytes())
}

/// The name of a procedure and the number of a site in it.
#[tactic(auto, using(vmv_report::proofs::Naming::name_read))]
fn site_value(alloc: Global, program: &Snapshot, site: SiteId) -> Result<Value, AllocError>
    requires { site.proc.0 < length (procs_of program.now) }
    ensures { IfOk result (λ value. view value ≡ string_of (site_text (proc_name program.now site.proc.0) site.index)) }
{
    let name = program.proc_name(site.proc);
    let index = site.index;
    let number = format!(in alloc; "#{index}")?;
    let mut text = Vec::from_slice(alloc, name.bytes())?;
    text.extend_from_slice(number.as_bytes())?;
    string_of(alloc, text.as_slice())
}

/// A row.
fn row_value(alloc: Global, revision: &Snapshot, row: &ReportRow) -> Result<Value, AllocError>
    requires { IsInside revision.now row.now }
    ensures { IfOk result (λ value. view value ≡ row_data revision.now row.now) }
{
    let class = string_of(alloc, class_word(row.class))?;
    let entry = proc_value(alloc, revision, row.entry)?;
    let site = site_value(alloc, revision, row.site)?;
    json!(in alloc; {"class": class, "entry": entry, "site": site})
}

/// Adds a row that isn't clean.
#[tactic(auto, using(crate::proofs::Adding::adding))]
fn push_told(
    alloc: Global,
    list: &mut Vec<Value>,
    revision: &Snapshot,
    row: &ReportRow,
) -> Result<(), AllocError>
    requires { IsInside revision.now row.now }
    ensures { OnOk result (map view list.new.items ≡ map view list.old.items ++ told_row revision.now row.now) }
{
    if !is_class(Class::Clean, row.class) {
        let value = row_value(alloc, revision, row)?;
        list.push(value)?;
    }
    Ok(())
}

/// The rows that aren't clean.
#[tactic(auto, using(crate::proofs::Adding::adding))]
pub(crate) fn rows_value(
    alloc: Global,
    revision: &Snapshot,
    rows: &[ReportRow],
) -> Result<Value, AllocError>
    requires { AreInside revision.now rows.now }
    ensures { IfOk result (λ value. view value ≡ array (items_of (flat_map (told_row revision.now) rows.now))) }
{
    let mut list = Vec::new(alloc);
    for row in rows {
        push_told(alloc, &mut list, revision, row)?;
    }
    Ok(Value::Array(list))
}

/// The text of a witness.
fn witness_value(alloc: Global, witness: &Witness) -> Result<Value, AllocError>
    ensures { IfOk result (λ value. view value ≡ witness_data witness.now) }
{
    let text = write_witness(alloc, witness)?;
    string_of(alloc, text.bytes())
}

/// The texts of witnesses.
#[tactic(auto, using(crate::proofs::Adding::adding))]
pub(crate) fn witnesses_value(alloc: Global, witnesses: &[Witness]) -> Result<Value, AllocError>
    ensures { IfOk result (λ value. view value ≡ array (items_of (map witness_data witnesses.now))) }
{
    let mut list = Vec::new(alloc);
    for witness in witnesses {
        let value = witness_value(alloc, witness)?;
        list.push(value)?;
    }
    Ok(Value::Array(list))
}
