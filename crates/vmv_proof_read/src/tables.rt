ghost use Rattle.std.specs.List.{flat_map};
ghost use Rattle.vmv_proof_text.specs.Parts.{keep_part, parts_of_row, parts_of_table};
ghost use Rattle.vmv_proof_read.specs.Reading.{Reads, Any, HasCount, only};

use crate::lines::Lines;
use std::alloc::Global;
use vmv_cert::{Row, Rows, Table, Zones};
use vmv_proof_line::LineFault;

/// Reads so many states at loops.
fn read_keeps(alloc: Global, count: u32, lines: &mut Lines) -> Result<Zones, LineFault>
    ensures { Reads (HasCount count) (flat_map (only keep_part)) lines.old lines.new result }
{
    let mut keeps = Zones::new(alloc);
    for _ in 0..count {
        let keep = lines.take_keep()?;
        keeps.push(keep)?;
    }
    Ok(keeps)
}

/// Reads a row.
fn read_row(alloc: Global, lines: &mut Lines) -> Result<Row, LineFault>
    ensures { Reads Any parts_of_row lines.old lines.new result }
{
    let head = lines.take_row()?;
    let input = lines.take_input()?;
    let keeps = read_keeps(alloc, head.loops, lines)?;
    let result = lines.take_result()?;
    let unproved = lines.take_left(alloc)?;
    Ok(Row {
        proc: head.proc,
        input,
        keeps,
        result,
        unproved,
    })
}

/// Reads so many rows.
fn read_rows(alloc: Global, count: u32, lines: &mut Lines) -> Result<Rows, LineFault>
    ensures { Reads (HasCount count) (flat_map parts_of_row) lines.old lines.new result }
{
    let mut rows = Rows::new(alloc);
    for _ in 0..count {
        let row = read_row(alloc, lines)?;
        rows.push(row)?;
    }
    Ok(rows)
}

/// Reads a table.
pub(crate) fn read_table(alloc: Global, lines: &mut Lines) -> Result<Table, LineFault>
    ensures { Reads Any parts_of_table lines.old lines.new result }
{
    let count = lines.take_table()?;
    let rows = read_rows(alloc, count, lines)?;
    Ok(Table { rows })
}
