ghost use Rattle.std.specs.Prelude.{◌≡◌, ◌==◌, ◌<◌, length, OnOk, if◌then◌else◌};
ghost use Rattle.vmv_snapshot.specs.declared.code.Slot.{Slot as Variable};
ghost use Rattle.vmv_demands.specs.Sources.{held};

use crate::source::Source;
use sqlite_items::Items;
use std::alloc::AllocError;
use vmv_snapshot::Slot;

/// What variables hold behind statements, by their slots. A variable that isn't listed holds what it held at the start.
pub(crate) type Sources = Items<Source>;

/// What a variable holds.
pub(crate) fn held(sources: &[Source], slot: Slot) -> Source
    ensures { result ≡ held sources.now slot }
{
    match sources.get(slot.0 as usize) {
        Some(source) => *source,
        None => Source::Start(slot),
    }
}

/// Lists the variable, and all before it.
fn grow(sources: &mut Sources, slot: Slot) -> Result<(), AllocError>
    ensures length { OnOk result (slot.0 < length sources.new) }
    ensures same { OnOk result ((x : Variable) → held sources.new x ≡ held sources.old x) }
{
    for k in sources.len()..slot.0 as usize + 1 {
        sources.push(Source::Start(Slot(k as u8)))?;
    }
    Ok(())
}

/// Lets a variable hold this.
pub(crate) fn put(sources: &mut Sources, slot: Slot, source: &Source) -> Result<(), AllocError>
    ensures { OnOk result ((x : Variable) → held sources.new x ≡ (if slot.0 == x.0 then source.now else held sources.old x)) }
{
    grow(sources, slot)?;
    sources.set(slot.0 as usize, *source);
    Ok(())
}
