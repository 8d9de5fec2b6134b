ghost use Rattle.std.specs.Prelude.{◌↔◌, IsTrue};
ghost use Rattle.vmv_proof_words.specs.Taking.{Tells};
ghost use Rattle.vmv_proof_text.specs.Parts.{row_part};
ghost use Rattle.vmv_proof_text.specs.Lines.{IsLine};
ghost use Rattle.vmv_proof_line.specs.Reading.{ReadsLine};
ghost use Rattle.vmv_proof_line.specs.Shapes.{IsRowLoosely};

use crate::fault::{LineFault, fault_of};
use vmv_proof_words::Words;
use vmv_tree::Name;

/// The head of a row.
#[derive(Clone, Copy, Drop)]
pub struct RowHead {
    /// The procedure.
    pub proc: Name,
    /// How many states of loops follow.
    pub loops: u32,
}

/// The head of a row that the line tells.
fn told_row(line: &[u8]) -> Option<RowHead>
    ensures { Tells (λ head. IsLine (row_part head.proc head.loops)) line.now result }
{
    let Some(mut words) = Words::behind(line, b"row") else {
        return None;
    };
    let Some(proc) = words.next_name() else {
        return None;
    };
    let Some(loops) = words.last_count() else {
        return None;
    };
    Some(RowHead { proc, loops })
}

/// Whether the line would tell the head of a row, were its number of another size.
fn is_row_loosely(line: &[u8]) -> bool
    ensures { IsTrue result ↔ IsRowLoosely line.now }
{
    let Some(mut words) = Words::behind(line, b"row") else {
        return false;
    };
    let Some(_) = words.next_name() else {
        return false;
    };
    words.is_last_number()
}

/// Reads the head of a row.
pub fn read_row(line: &[u8]) -> Result<RowHead, LineFault>
    ensures { ReadsLine (λ head. row_part head.proc head.loops) line.now result }
{
    match told_row(line) {
        Some(head) => Ok(head),
        None => Err(fault_of(is_row_loosely(line))),
    }
}
