ghost use Rattle.std.specs.Prelude.{◌≡◌, ℕ, List, IfOk};
ghost use Rattle.vmv_tree.specs.View.{program_of};
ghost use Rattle.vmv_text.specs.Grammar.{IsText};
ghost use Rattle.vmv_snapshot.specs.Resolution.{tree_of};
ghost use Rattle.vmv_print.specs.Canonical.{canonical};
ghost use Rattle.vmv_print.specs.Written.{HasCounts};

use crate::item::push_items;
use std::alloc::{AllocError, Global};
use vmv_edge::Text;
use vmv_snapshot::Snapshot;
use vmv_tree::Program;

/// The canonical text of a program.
///
/// Each item and each statement stands on a line of its own, each level indented by two spaces, with single spaces between
/// what needs them, and an else part only where it isn't empty. It is a text of that program wherever its arities and caps
/// are 0 or more; it may be longer than a reader takes. The only error is want of memory.
pub fn print_program(alloc: Global, program: &Program) -> Result<Text, AllocError>
    ensures canonical { IfOk result (λ text. text ≡ canonical (program_of program.now)) }
    ensures written { HasCounts (program_of program.now) → IfOk result (λ text. IsText text (program_of program.now)) }
{
    let mut out = Vec::new(alloc);
    push_items(alloc, &mut out, program.items.as_slice())?;
    Ok(Text::from_vec(out))
}

/// The canonical text of a snapshot's program.
///
/// It is a text of that program wherever this has a text at all, as it has where the snapshot was made from one, or where
/// its arities and caps are 0 or more. The only error is want of memory.
pub fn print(alloc: Global, snapshot: &Snapshot) -> Result<Text, AllocError>
    ensures canonical { IfOk result (λ text. text ≡ canonical (tree_of snapshot.now)) }
    ensures read_again { (bytes : List ℕ) → IsText bytes (tree_of snapshot.now) → IfOk result (λ text. IsText text (tree_of snapshot.now)) }
    ensures written { HasCounts (tree_of snapshot.now) → IfOk result (λ text. IsText text (tree_of snapshot.now)) }
{
    print_program(alloc, snapshot.program())
}
