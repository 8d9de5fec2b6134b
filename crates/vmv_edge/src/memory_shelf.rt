ghost use Rattle.std.specs.Prelude.{◌≡◌, ◌++◌, ◌∷◌, [], ◌↔◌, ◌<◌, ◌≤◌, ℕ, List, length, nat_eq, Some, None, IfOk, OnOk, OnErr, IsOk, IsErrOf, IsNone, unwrap_or, if◌then◌else◌};
ghost use Rattle.std.specs.Option.{option_copied};
ghost use Rattle.std.specs.Cmp.Lexicographic.{pointwise};
ghost use Rattle.vmv_edge.specs.Outside.{Rose, IsAsTold, IsMoreThan};
ghost use Rattle.vmv_edge.specs.Calls.{AreUnused, IsOneMore, failed_calls};
ghost use Rattle.vmv_edge.specs.Held.{text_under};
ghost use Rattle.vmv_edge.specs.Forms.{held, reads, ReadFails, given};

use crate::calls::Calls;
use crate::shelf::{Shelf, ShelfFault};
use crate::text::Text;
use std::alloc::{AllocError, Global};

// A text and the name that it is held under.
#[derive(Debug, Drop)]
struct Entry {
    name: Text,
    text: Text,
}

fn entry_of(alloc: Global, name: &str, text: &[u8]) -> Result<Entry, AllocError>
    ensures { IfOk result (λ entry. entry ≡ record { name = name.now; text = text.now }) }
{
    Ok(Entry {
        name: Text::from_slice(alloc, name.as_bytes())?,
        text: Text::from_slice(alloc, text)?,
    })
}

fn text_under<'a>(entries: &'a [Entry], name: &[u8]) -> Option<&'a Text>
    ensures { option_copied result ≡ text_under entries.now name.now }
{
    for entry in entries {
        if entry.name.bytes() == name {
            return Some(&entry.text);
        }
    }
    None
}

fn copy_within(alloc: Global, text: &Text, most: usize) -> Result<Text, ShelfFault>
    ensures same { IfOk result (λ copy. copy ≡ text.now) }
    ensures within { IfOk result (λ copy. length copy ≤ most) }
    ensures long { IsErrOf result ShelfFault.TooLong → most < length text.now }
    ensures works { ¬ (IsErrOf result ShelfFault.Failed) }
{
    if text.len() > most {
        return Err(ShelfFault::TooLong);
    }
    text.copy(alloc).map_err(|_| ShelfFault::Memory)
}

/// A shelf in memory, with a list of reads that are to fail. A name that isn't held is a fault too.
#[derive(Debug, Drop)]
pub struct MemoryShelf {
    entries: Vec<Entry>,
    calls: Calls,
}

impl MemoryShelf {
    /// A shelf that holds nothing, and whose reads with these numbers fail, the first being 1.
    pub fn new(alloc: Global, failing: Vec<u64>) -> MemoryShelf
        ensures empty { (name : List ℕ) → held result name ≡ None }
        ensures unused { AreUnused (reads result) failing.items }
    {
        MemoryShelf {
            entries: Vec::new(alloc),
            calls: Calls::new(failing),
        }
    }

    /// Holds the text under the name, in place of what was held there.
    pub fn hold(&mut self, alloc: Global, name: &str, text: &[u8]) -> Result<(), AllocError>
        ensures held { OnOk result ((asked : List ℕ) → held self.new asked ≡ (if pointwise nat_eq name.now asked then Some text.now else held self.old asked)) }
        ensures refused { OnErr result (held self.new ≡ held self.old) }
        ensures reads { reads self.new ≡ reads self.old }
    {
        self.entries.insert(0, entry_of(alloc, name, text)?)?;
        Ok(())
    }
}

impl Shelf for MemoryShelf {
    ghost told = { held };

    ghost fault_count = { λ shelf. failed_calls (reads shelf) };

    fn read(&mut self, alloc: Global, name: &str, most: usize) -> Result<Text, ShelfFault>
        ensures bytes { IfOk result (IsAsTold (held self.old name.now)) }
        ensures within { IfOk result (λ text. length text ≤ most) }
        ensures too_long { IsErrOf result ShelfFault.TooLong → IsMoreThan (held self.old name.now) most }
        ensures failed { IsErrOf result ShelfFault.Failed → Rose (failed_calls (reads self.old)) (failed_calls (reads self.new)) }
        ensures stands { ¬ (IsErrOf result ShelfFault.Failed) → failed_calls (reads self.new) ≡ failed_calls (reads self.old) }
        ensures later { failed_calls (reads self.old) ≤ failed_calls (reads self.new) }
        ensures kept { held self.new ≡ held self.old }
        ensures fails { IsErrOf result ShelfFault.Failed ↔ ReadFails self.old name.now }
        ensures counted { IsOneMore (reads self.old) (reads self.new) }
    {
        let fails = self.calls.begin();
        match text_under(&self.entries, name.as_bytes()) {
            Some(text) if !fails => copy_within(alloc, text, most),
            _ => {
                self.calls.fail();
                Err(ShelfFault::Failed)
            }
        }
    }

    fn faults(&self) -> u64 {
        self.calls.faults()
    }
}

/// A shelf in memory that never fails, and gives the empty text under a name that isn't held.
#[derive(Debug, Drop)]
pub struct FaultlessShelf {
    entries: Vec<Entry>,
}

impl FaultlessShelf {
    /// A shelf that holds nothing.
    pub fn new(alloc: Global) -> FaultlessShelf
        ensures { (name : List ℕ) → given result name ≡ [] }
    {
        FaultlessShelf {
            entries: Vec::new(alloc),
        }
    }

    /// Holds the text under the name, in place of what was held there.
    pub fn hold(&mut self, alloc: Global, name: &str, text: &[u8]) -> Result<(), AllocError>
        ensures held { OnOk result ((asked : List ℕ) → given self.new asked ≡ (if pointwise nat_eq name.now asked then text.now else given self.old asked)) }
        ensures refused { OnErr result (given self.new ≡ given self.old) }
    {
        self.entries.insert(0, entry_of(alloc, name, text)?)?;
        Ok(())
    }
}

impl Shelf for FaultlessShelf {
    ghost told = { λ shelf name. Some (given shelf name) };

    ghost fault_count = { λ _. 0 };

    fn read(&mut self, alloc: Global, name: &str, most: usize) -> Result<Text, ShelfFault> {
        match text_under(&self.entries, name.as_bytes()) {
            Some(text) => copy_within(alloc, text, most),
            None => Ok(Text::new(alloc)),
        }
    }

    fn faults(&self) -> u64 {
        0
    }
}
