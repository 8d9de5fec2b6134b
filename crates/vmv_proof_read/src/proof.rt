ghost use Rattle.std.specs.List.{flat_map};
ghost use Rattle.vmv_proof_text.specs.Parts.{parts_of_exclusion, parts_of_shown, parts_of_proof};
ghost use Rattle.vmv_proof_read.specs.Reading.{Reads, Any, HasCount};

use crate::lines::Lines;
use crate::tables::read_table;
use std::alloc::Global;
use vmv_proof::{Exclusion, Exclusions, Proof, Shown, ShownList};
use vmv_proof_line::LineFault;

/// Reads an exclusion.
fn read_exclusion(alloc: Global, lines: &mut Lines) -> Result<Exclusion, LineFault>
    ensures { Reads Any parts_of_exclusion lines.old lines.new result }
{
    let head = lines.take_exclude()?;
    let within = lines.take_box()?;
    let table = read_table(alloc, lines)?;
    Ok(Exclusion {
        entry: head.entry,
        within,
        name: head.name,
        piece: head.piece,
        under: head.under,
        table,
    })
}

/// Reads so many exclusions.
fn read_exclusions(alloc: Global, count: u32, lines: &mut Lines) -> Result<Exclusions, LineFault>
    ensures { Reads (HasCount count) (flat_map parts_of_exclusion) lines.old lines.new result }
{
    let mut exclusions = Exclusions::new(alloc);
    for _ in 0..count {
        let exclusion = read_exclusion(alloc, lines)?;
        exclusions.push(exclusion)?;
    }
    Ok(exclusions)
}

/// Reads what is shown of an entry.
fn read_shown(alloc: Global, lines: &mut Lines) -> Result<Shown, LineFault>
    ensures { Reads Any parts_of_shown lines.old lines.new result }
{
    let entry = lines.take_plain()?;
    let plain = read_table(alloc, lines)?;
    lines.take_given(&entry)?;
    let given = read_table(alloc, lines)?;
    Ok(Shown {
        entry,
        plain,
        given,
    })
}

/// Reads what is shown of so many entries.
fn read_shown_list(alloc: Global, count: u32, lines: &mut Lines) -> Result<ShownList, LineFault>
    ensures { Reads (HasCount count) (flat_map parts_of_shown) lines.old lines.new result }
{
    let mut list = ShownList::new(alloc);
    for _ in 0..count {
        let shown = read_shown(alloc, lines)?;
        list.push(shown)?;
    }
    Ok(list)
}

/// Reads the lines of a proof.
pub(crate) fn read_lines(alloc: Global, lines: &mut Lines) -> Result<Proof, LineFault>
    ensures { Reads Any parts_of_proof lines.old lines.new result }
{
    lines.take_opening()?;
    let count = lines.take_exclusions()?;
    let exclusions = read_exclusions(alloc, count, lines)?;
    let entries = lines.take_entries()?;
    let shown = read_shown_list(alloc, entries, lines)?;
    lines.take_end()?;
    Ok(Proof { exclusions, shown })
}
