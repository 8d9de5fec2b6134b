use crate::ask::{Ask, ROOM};
use crate::links::{faultless_links, memory_links};
use std::alloc::{AllocError, Global};
use vmv_cases::{Case, Sheet};
use vmv_door::{FaultlessDoor, MemoryDoor};
use vmv_edge::{FaultlessShelf, FaultlessSink, MemoryShelf, MemorySink};
use vmv_vault::{FaultlessVault, MemoryVault};

/// What the program reads and writes, and what its services use.
#[derive(Drop)]
pub(crate) struct Devices<F, O, V, D> {
    /// Holds the texts.
    pub(crate) shelf: F,
    /// Takes what is printed.
    pub(crate) out: O,
    /// Gives out the store.
    pub(crate) vault: V,
    /// Gives the links.
    pub(crate) door: D,
    /// How many links the door had.
    pub(crate) links: usize,
}

/// Things in memory, of which some calls fail.
pub(crate) type InMemory = Devices<MemoryShelf, MemorySink, MemoryVault, MemoryDoor>;

/// Things in memory that never fail.
pub(crate) type Faultless = Devices<FaultlessShelf, FaultlessSink, FaultlessVault, FaultlessDoor>;

/// A list of this one number, or of none where it is 0.
pub(crate) fn listed(alloc: Global, number: u64) -> Result<Vec<u64>, AllocError> {
    let mut numbers = Vec::new(alloc);
    if number > 0 {
        numbers.push(number)?;
    }
    Ok(numbers)
}

/// The things that an ask says: a shelf with the texts of a case under these names, an empty sink, a vault whose stores have no
/// rows, and a door with the case's links.
pub(crate) fn in_memory(
    alloc: Global,
    case: &Case,
    ask: &Ask,
    names: &[String],
    sheet: &mut Sheet,
) -> Result<InMemory, AllocError> {
    let mut shelf = MemoryShelf::new(alloc, listed(alloc, ask.shelf)?);
    for name in names {
        shelf.hold(alloc, name.as_str(), case.text(name.as_bytes()))?;
    }
    let links = memory_links(alloc, case, sheet)?;
    let count = links.len();
    Ok(Devices {
        shelf,
        out: MemorySink::new(alloc, ROOM, ask.most, listed(alloc, ask.sink)?)?,
        vault: MemoryVault::new(listed(alloc, ask.vault)?, listed(alloc, ask.store)?),
        door: MemoryDoor::new(alloc, links, listed(alloc, ask.door)?)?,
        links: count,
    })
}

/// The same as things that never fail.
pub(crate) fn faultless(
    alloc: Global,
    case: &Case,
    names: &[String],
    sheet: &mut Sheet,
) -> Result<Faultless, AllocError> {
    let mut shelf = FaultlessShelf::new(alloc);
    for name in names {
        shelf.hold(alloc, name.as_str(), case.text(name.as_bytes()))?;
    }
    let links = faultless_links(alloc, case, sheet)?;
    let count = links.len();
    Ok(Devices {
        shelf,
        out: FaultlessSink::new(alloc, ROOM)?,
        vault: FaultlessVault::new(),
        door: FaultlessDoor::new(alloc, links)?,
        links: count,
    })
}
