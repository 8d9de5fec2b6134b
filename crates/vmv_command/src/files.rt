ghost use Rattle.std.specs.Prelude.{◌≡◌, ◌≤◌, length, IfOk, IfSome, IsNone, IsErrOf};
ghost use Rattle.std.specs.String.{string_bytes};
ghost use Rattle.vmv_command.specs.Lines.{SaysTooLong, too_long_end};
ghost use Rattle.vmv_edge.specs.Outside.{Rose, IsAsTold, IsMoreThan};

use crate::output::{Output, Stop};
use std::alloc::{AllocError, Global};
use vmv_edge::{Shelf, ShelfFault, Text};

/// The text under the name, or None where it is longer than it may be.
pub(crate) fn read_text<F: Shelf>(
    alloc: Global,
    shelf: &mut F,
    name: &str,
    most: usize,
) -> Result<Option<Text>, Stop>
    ensures long { IfOk result (λ r. IsNone r → IsMoreThan (F.told shelf.old name.now) most) }
    ensures told { IfOk result (λ r. IfSome r (IsAsTold (F.told shelf.old name.now))) }
    ensures within { IfOk result (λ r. IfSome r (λ text. length text ≤ most)) }
    ensures failed { IsErrOf result Stop.Failed → Rose (F.fault_count shelf.old) (F.fault_count shelf.new) }
    ensures stands { ¬ (IsErrOf result Stop.Failed) → F.fault_count shelf.new ≡ F.fault_count shelf.old }
    ensures kept { F.told shelf.new ≡ F.told shelf.old }
{
    match shelf.read(alloc, name, most) {
        Ok(text) => Ok(Some(text)),
        Err(ShelfFault::TooLong) => Ok(None),
        Err(ShelfFault::Failed) => Err(Stop::Failed),
        Err(ShelfFault::Memory) => Err(Stop::Memory),
    }
}

// What the line of a text that is too long has behind what the text is called.
fn too_long_end(alloc: Global, most: u32) -> Result<String, AllocError>
    ensures { IfOk result (λ end. string_bytes end ≡ too_long_end most) }
{
    let found = u64::from(most) + 1;
    format!(in alloc; ": limit bytes found {found} most {most}\n")
}

/// The line of a text that is called so and is longer than it may be.
pub(crate) fn too_long(alloc: Global, called: &str, most: u32) -> Result<Output, AllocError>
    ensures { IfOk result (λ output. SaysTooLong called.now most output.text output.status) }
{
    let end = too_long_end(alloc, most)?;
    let mut text = Vec::from_slice(alloc, called.as_bytes())?;
    text.extend_from_slice(end.as_bytes())?;
    Ok(Output {
        text: Text::from_vec(text),
        status: 5,
    })
}
