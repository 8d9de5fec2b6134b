ghost use Rattle.std.specs.Prelude.{◌≡◌, ◌++◌, ◌∷◌, [], length, map, OnOk};
ghost use Rattle.std.specs.List.{flat_map};
ghost use Rattle.vmv_proof_text.specs.Parts.{row_part, input_part, keep_part, result_part, left_part, table_part, parts_of_row, parts_of_table};
ghost use Rattle.vmv_proof_text.specs.Text.{parts_text};

use crate::states::push_state;
use crate::words::{push_count, push_number, push_reach, push_sites, push_word};
use std::alloc::AllocError;
use vmv_cert::{NamedSite, Reach, Row, Table};
use vmv_tree::Name;
use vmv_zone::Zone;

/// Writes the first line of a row.
#[tactic(auto, using(crate::proofs::Writing::writing))]
fn push_heading(out: &mut Vec<u8>, proc: &Name, loops: usize) -> Result<(), AllocError>
    ensures { OnOk result (out.new.items ≡ out.old.items ++ parts_text (row_part proc.now loops ∷ [])) }
{
    out.extend_from_slice(b"row")?;
    push_word(out, proc.bytes())?;
    push_count(out, loops as u64)?;
    out.extend_from_slice(b"\n")
}

/// Writes the line of an input.
#[tactic(auto, using(crate::proofs::Writing::writing))]
fn push_input(out: &mut Vec<u8>, zone: &Zone) -> Result<(), AllocError>
    ensures { OnOk result (out.new.items ≡ out.old.items ++ parts_text (input_part zone.now ∷ [])) }
{
    out.extend_from_slice(b"input")?;
    push_state(out, zone)?;
    out.extend_from_slice(b"\n")
}

/// Writes the line of a state at a loop.
#[tactic(auto, using(crate::proofs::Writing::writing))]
fn push_keep(out: &mut Vec<u8>, zone: &Zone) -> Result<(), AllocError>
    ensures { OnOk result (out.new.items ≡ out.old.items ++ parts_text (keep_part zone.now ∷ [])) }
{
    out.extend_from_slice(b"keep")?;
    push_state(out, zone)?;
    out.extend_from_slice(b"\n")
}

/// Writes the lines of the states at loops.
#[tactic(auto, using(crate::proofs::Writing::writing))]
fn push_keeps(out: &mut Vec<u8>, keeps: &[Zone]) -> Result<(), AllocError>
    ensures { OnOk result (out.new.items ≡ out.old.items ++ parts_text (map keep_part keeps.now)) }
{
    for zone in keeps {
        push_keep(out, zone)?;
    }
    Ok(())
}

/// Writes the line of a result.
#[tactic(auto, using(crate::proofs::Writing::writing))]
fn push_result(out: &mut Vec<u8>, reach: Reach) -> Result<(), AllocError>
    ensures { OnOk result (out.new.items ≡ out.old.items ++ parts_text (result_part reach ∷ [])) }
{
    out.extend_from_slice(b"result")?;
    push_reach(out, reach)?;
    out.extend_from_slice(b"\n")
}

/// Writes the line of the sites that may fail.
#[tactic(auto, using(crate::proofs::Writing::writing))]
fn push_left(out: &mut Vec<u8>, sites: &[NamedSite]) -> Result<(), AllocError>
    ensures { OnOk result (out.new.items ≡ out.old.items ++ parts_text (left_part sites.now ∷ [])) }
{
    out.extend_from_slice(b"left ")?;
    push_number(out, sites.len() as u64)?;
    push_sites(out, sites)?;
    out.extend_from_slice(b"\n")
}

/// Writes the lines of a row.
#[tactic(auto, using(crate::proofs::Writing::writing))]
pub(crate) fn push_row(out: &mut Vec<u8>, row: &Row) -> Result<(), AllocError>
    ensures { OnOk result (out.new.items ≡ out.old.items ++ parts_text (parts_of_row row.now)) }
{
    push_heading(out, &row.proc, row.keeps.len())?;
    push_input(out, &row.input)?;
    push_keeps(out, row.keeps.as_slice())?;
    push_result(out, row.result)?;
    push_left(out, row.unproved.as_slice())
}

/// Writes the lines of rows.
#[tactic(auto, using(crate::proofs::Writing::writing))]
fn push_rows(out: &mut Vec<u8>, rows: &[Row]) -> Result<(), AllocError>
    ensures { OnOk result (out.new.items ≡ out.old.items ++ parts_text (flat_map parts_of_row rows.now)) }
{
    for row in rows {
        push_row(out, row)?;
    }
    Ok(())
}

/// Writes the first line of a table.
#[tactic(auto, using(crate::proofs::Writing::writing))]
pub(crate) fn push_table_heading(out: &mut Vec<u8>, rows: usize) -> Result<(), AllocError>
    ensures { OnOk result (out.new.items ≡ out.old.items ++ parts_text (table_part rows ∷ [])) }
{
    out.extend_from_slice(b"table ")?;
    push_number(out, rows as u64)?;
    out.extend_from_slice(b"\n")
}

/// Writes the lines of a table.
#[tactic(auto, using(crate::proofs::Writing::writing))]
pub(crate) fn push_table(out: &mut Vec<u8>, table: &Table) -> Result<(), AllocError>
    ensures { OnOk result (out.new.items ≡ out.old.items ++ parts_text (parts_of_table table.now)) }
{
    push_table_heading(out, table.rows.len())?;
    push_rows(out, table.rows.as_slice())
}
