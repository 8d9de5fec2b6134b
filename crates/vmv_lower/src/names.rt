ghost use Rattle.std.specs.Prelude.{◌≡◌, ◌++◌, codes, decimal, IfOk};
ghost use Rattle.vmv_surface.specs.Temporaries.{temporary};

use itoa::Buffer;
use std::alloc::{AllocError, Global};
use vmv_tree::Name;

/// Two underscores, and the digits of a number.
fn spelled(alloc: Global, number: u64) -> Result<Vec<u8>, AllocError>
    ensures { IfOk result (λ bytes. bytes.items ≡ codes "__" ++ decimal number) }
{
    let mut buffer = Buffer::new();
    let mut bytes = Vec::from_slice(alloc, b"__")?;
    bytes.extend_from_slice(buffer.format(number).as_bytes())?;
    Ok(bytes)
}

/// The name of the temporary of this number, with all its digits.
pub fn temporary(alloc: Global, number: u64) -> Result<Name, AllocError>
    ensures { IfOk result (λ name. name ≡ temporary number) }
{
    let bytes = spelled(alloc, number)?;
    match Name::read(bytes.as_slice()) {
        Some(name) => Ok(name),
        None => unreachable!(),
    }
}
