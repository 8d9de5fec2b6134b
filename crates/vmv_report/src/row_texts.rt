ghost use Rattle.std.specs.Prelude.{◌≡◌, ◌<◌, ◌++◌, IfOk, OnOk, length};
ghost use Rattle.std.specs.List.{flat_map};
ghost use Rattle.std.specs.String.{string_bytes};
ghost use Rattle.std.specs.Fmt.{decimal};
ghost use Rattle.vmv_snapshot.specs.Resolution.{procs_of};
ghost use Rattle.vmv_witness.specs.Text.{witness_text};
ghost use Rattle.vmv_report.specs.Rows.{proc_name, is_class, class_count};
ghost use Rattle.vmv_report.specs.Texts.{line, verdict_line, counts_line, class_word, site_text, row_line, told_row, rows_lines, witnesses_lines};
ghost use Rattle.vmv_report.specs.Work.{IsInside, AreInside};

use crate::class::Class;
use crate::row::ReportRow;
use std::alloc::{AllocError, Global};
use vmv_snapshot::{ProcId, Snapshot};
use vmv_witness::{Witness, write_witness};

/// The first line of a report.
pub fn verdict_line(verdict: u8) -> &'static [u8]
    ensures { result.now ≡ verdict_line verdict }
{
    match verdict {
        1 => b"verdict relatively correct\n",
        2 => b"verdict alarms\n",
        _ => b"verdict regression\n",
    }
}

/// Whether it is this class.
pub fn is_class(one: Class, other: Class) -> bool
    ensures { result ≡ is_class one other }
{
    match (one, other) {
        (Class::Clean, Class::Clean) => true,
        (Class::Hidden, Class::Hidden) => true,
        (Class::Regression, Class::Regression) => true,
        (Class::Alarm, Class::Alarm) => true,
        _ => false,
    }
}

/// How many rows have this class.
pub fn class_count(class: Class, rows: &[ReportRow]) -> usize
    ensures { result ≡ class_count class rows.now }
{
    rows.iter().filter(|row| is_class(class, row.class)).count()
}

/// The line of the numbers of rows. It fails for want of memory alone.
pub fn counts_line(alloc: Global, rows: &[ReportRow]) -> Result<String, AllocError>
    ensures { IfOk result (λ line. string_bytes line ≡ counts_line rows.now) }
{
    let clean = class_count(Class::Clean, rows);
    let hidden = class_count(Class::Hidden, rows);
    let regression = class_count(Class::Regression, rows);
    let alarm = class_count(Class::Alarm, rows);
    format!(in alloc; "rows clean {clean} hidden {hidden} regression {regression} alarm {alarm}\n")
}

/// How a class is called.
pub fn class_word(class: Class) -> &'static [u8]
    ensures { result.now ≡ class_word class }
{
    match class {
        Class::Clean => b"clean",
        Class::Hidden => b"hidden",
        Class::Regression => b"regression",
        Class::Alarm => b"alarm",
    }
}

/// Writes the name of a procedure.
#[tactic(auto, using(crate::proofs::Naming::name_read))]
pub(crate) fn push_proc(
    out: &mut Vec<u8>,
    program: &Snapshot,
    proc: ProcId,
) -> Result<(), AllocError>
    requires { proc.0 < length (procs_of program.now) }
    ensures { OnOk result (out.new.items ≡ out.old.items ++ proc_name program.now proc.0) }
{
    let name = program.proc_name(proc);
    out.extend_from_slice(name.bytes())
}

/// Writes the name of a procedure and the number of a site in it.
#[tactic(auto, using(crate::proofs::Writing::writing))]
fn push_site(
    alloc: Global,
    out: &mut Vec<u8>,
    program: &Snapshot,
    proc: ProcId,
    index: u32,
) -> Result<(), AllocError>
    requires { proc.0 < length (procs_of program.now) }
    ensures { OnOk result (out.new.items ≡ out.old.items ++ site_text (proc_name program.now proc.0) index) }
{
    let number = format!(in alloc; "#{index}")?;
    push_proc(out, program, proc)?;
    out.extend_from_slice(number.as_bytes())
}

/// Writes the line of a row.
#[tactic(auto, using(crate::proofs::Writing::writing))]
fn push_row(
    alloc: Global,
    out: &mut Vec<u8>,
    revision: &Snapshot,
    row: &ReportRow,
) -> Result<(), AllocError>
    requires { IsInside revision.now row.now }
    ensures { OnOk result (out.new.items ≡ out.old.items ++ row_line revision.now row.now) }
{
    out.extend_from_slice(b"  ")?;
    out.extend_from_slice(class_word(row.class))?;
    out.extend_from_slice(b" ")?;
    push_proc(out, revision, row.entry)?;
    out.extend_from_slice(b" ")?;
    push_site(alloc, out, revision, row.site.proc, row.site.index)?;
    out.extend_from_slice(b"\n")
}

/// Writes the line of a row that isn't clean.
#[tactic(auto, using(crate::proofs::Writing::writing))]
fn push_told_row(
    alloc: Global,
    out: &mut Vec<u8>,
    revision: &Snapshot,
    row: &ReportRow,
) -> Result<(), AllocError>
    requires { IsInside revision.now row.now }
    ensures { OnOk result (out.new.items ≡ out.old.items ++ told_row revision.now row.now) }
{
    if !is_class(Class::Clean, row.class) {
        push_row(alloc, out, revision, row)?;
    }
    Ok(())
}

/// Writes the lines of the rows that aren't clean.
#[tactic(auto, using(crate::proofs::Writing::writing))]
fn push_told_rows(
    alloc: Global,
    out: &mut Vec<u8>,
    revision: &Snapshot,
    rows: &[ReportRow],
) -> Result<(), AllocError>
    requires { AreInside revision.now rows.now }
    ensures { OnOk result (out.new.items ≡ out.old.items ++ flat_map (told_row revision.now) rows.now) }
{
    for row in rows {
        push_told_row(alloc, out, revision, row)?;
    }
    Ok(())
}

/// Writes how many rows there are, and those that aren't clean.
#[tactic(auto, using(crate::proofs::Writing::writing))]
pub(crate) fn push_rows(
    alloc: Global,
    out: &mut Vec<u8>,
    revision: &Snapshot,
    rows: &[ReportRow],
) -> Result<(), AllocError>
    requires { AreInside revision.now rows.now }
    ensures { OnOk result (out.new.items ≡ out.old.items ++ rows_lines revision.now rows.now) }
{
    let counts = counts_line(alloc, rows)?;
    out.extend_from_slice(counts.as_bytes())?;
    push_told_rows(alloc, out, revision, rows)
}

/// Writes the texts of witnesses.
#[tactic(auto, using(crate::proofs::Writing::writing))]
fn push_witness_texts(
    alloc: Global,
    out: &mut Vec<u8>,
    witnesses: &[Witness],
) -> Result<(), AllocError>
    ensures { OnOk result (out.new.items ≡ out.old.items ++ flat_map witness_text witnesses.now) }
{
    for witness in witnesses {
        let text = write_witness(alloc, witness)?;
        out.extend_from_slice(text.bytes())?;
    }
    Ok(())
}

/// Writes how many witnesses there are, and their texts.
#[tactic(auto, using(crate::proofs::Writing::writing))]
pub(crate) fn push_witnesses(
    alloc: Global,
    out: &mut Vec<u8>,
    witnesses: &[Witness],
) -> Result<(), AllocError>
    ensures { OnOk result (out.new.items ≡ out.old.items ++ witnesses_lines witnesses.now) }
{
    let count = witnesses.len();
    let number = format!(in alloc; "witnesses {count}\n")?;
    out.extend_from_slice(number.as_bytes())?;
    push_witness_texts(alloc, out, witnesses)
}
