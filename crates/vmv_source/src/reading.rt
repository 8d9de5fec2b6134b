ghost use Rattle.std.specs.Prelude.{◌≡◌, ◌<◌, ◌≤◌, ℕ, List, length, Err, IfOk, IfErr};
ghost use Rattle.std.specs.Str.{IsValidUpTo};
ghost use Rattle.vmv_tree.specs.Tree.{Item};
ghost use Rattle.vmv_tree.specs.Valid.{Valid, FirstDefect};
ghost use Rattle.vmv_text.specs.Grammar.{IsText};
ghost use Rattle.vmv_snapshot.specs.Resolution.{tree_of};
ghost use Rattle.vmv_source.specs.Faults.{HasDefectAt, IsTextFault};

use crate::fault::TextFault;
use std::alloc::{AllocError, Global};
use vmv_snapshot::{NewFault, Snapshot};
use vmv_text::{Parsed, mention_place, read_program};
use vmv_tree::Defect;
use vmv_valid::first_defect_of_deep;

/// The fault of a text whose program has this first defect.
fn defect_in(text: &[u8], mention: u32, defect: Defect) -> TextFault
    requires short { length text.now ≤ 1048576 }
    requires first { (program : List Item) × (IsText text.now program) × FirstDefect program mention defect }
    ensures { IsTextFault text.now result }
{
    match mention_place(text, mention) {
        Some((line, column)) => TextFault::Defect {
            line,
            column,
            defect,
        },
        None => unreachable!(),
    }
}

/// Reads the text of a valid program.
///
/// The text is refused with the first of these that holds: it has more than 1,048,576 bytes (`TooLong`); it isn't UTF-8
/// (`NotUtf8`); no program has it (`Syntax`); its program isn't valid (`Defect`, the one at the least mention, and there
/// the one with the lowest number). `Memory` says that memory ran out.
pub fn parse(alloc: Global, text: &[u8]) -> Result<Snapshot, TextFault>
    ensures text { IfOk result (λ s. IsText text.now (tree_of s)) }
    ensures short { IfOk result (λ s. length text.now ≤ 1048576) }
    ensures valid { IfOk result (λ s. Valid (tree_of s)) }
    ensures fault { IfErr result (λ e. IsTextFault text.now e) }
    ensures too_long { 1048576 < length text.now → result ≡ Err (TextFault.TooLong (length text.now)) }
    ensures not_utf8 { length text.now ≤ 1048576 → (at : ℕ) → IsValidUpTo text.now at → result ≡ Err (TextFault.NotUtf8 at) }
{
    match read_program(alloc, text) {
        Ok(Parsed::Whole(program)) => match Snapshot::new(alloc, program) {
            Ok(snapshot) => Ok(snapshot),
            Err(NewFault::Defect { mention, defect }) => Err(defect_in(text, mention, defect)),
            Err(NewFault::Memory) => Err(TextFault::Memory),
        },
        Ok(Parsed::Deep(told)) => match first_defect_of_deep(alloc, &told) {
            Ok(found) => Err(defect_in(text, found.mention, found.defect)),
            Err(AllocError) => Err(TextFault::Memory),
        },
        Err(fault) => Err(TextFault::of_reading(fault)),
    }
}
