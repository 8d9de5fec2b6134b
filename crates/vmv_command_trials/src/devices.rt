use crate::ask::{Ask, ROOM};
use std::alloc::{AllocError, Global};
use vmv_cases::Case;
use vmv_edge::{MemoryShelf, MemorySink};

/// What a command reads and writes.
#[derive(Drop)]
pub struct Devices {
    /// Holds the texts.
    pub shelf: MemoryShelf,
    /// Takes what is printed.
    pub out: MemorySink,
}

/// A list of this one number, or of none where it is 0.
fn listed(alloc: Global, number: u64) -> Result<Vec<u64>, AllocError> {
    let mut numbers = Vec::new(alloc);
    if number > 0 {
        numbers.push(number)?;
    }
    Ok(numbers)
}

/// The devices that an ask says: a shelf with the texts of a case under these names, and an empty sink.
pub fn devices_of(
    alloc: Global,
    case: &Case,
    ask: &Ask,
    names: &[String],
) -> Result<Devices, AllocError> {
    let mut shelf = MemoryShelf::new(alloc, listed(alloc, ask.failing_read)?);
    for name in names {
        shelf.hold(alloc, name.as_str(), case.text(name.as_bytes()))?;
    }
    let out = MemorySink::new(alloc, ROOM, ask.most, listed(alloc, ask.failing_write)?)?;
    Ok(Devices { shelf, out })
}
