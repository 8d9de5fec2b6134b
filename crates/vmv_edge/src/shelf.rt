ghost use Rattle.std.specs.Prelude.{◌≡◌, ◌≤◌, ℕ, length, List, Option, IfOk, IsErrOf};
ghost use Rattle.vmv_edge.specs.Outside.{Rose, IsAsTold, IsMoreThan};

use crate::text::Text;
use std::alloc::Global;

/// Why a shelf gave no text.
#[derive(Clone, Copy, PartialEq, Eq, Debug, Drop)]
pub enum ShelfFault {
    /// The device failed, which the shelf has counted.
    Failed,
    /// The text is longer than was asked for.
    TooLong,
    /// There was no memory for the text.
    Memory,
}

/// What holds texts under names, as a folder of files.
pub trait Shelf {
    // the bytes under a name, where the shelf tells them
    ghost told: { Self → List ℕ → Option (List ℕ) };

    // how many calls have failed
    ghost fault_count: { Self → ℕ };

    /// The bytes under the name, if they are at most `most`.
    ///
    /// It is `TooLong` where they are more, `Failed` where the device failed, and `Memory` where there was
    /// no room for them.
    fn read(&mut self, alloc: Global, name: &str, most: usize) -> Result<Text, ShelfFault>
        ensures bytes { IfOk result (IsAsTold (told self.old name.now)) }
        ensures within { IfOk result (λ text. length text ≤ most) }
        ensures too_long { IsErrOf result ShelfFault.TooLong → IsMoreThan (told self.old name.now) most }
        ensures failed { IsErrOf result ShelfFault.Failed → Rose (fault_count self.old) (fault_count self.new) }
        ensures stands { ¬ (IsErrOf result ShelfFault.Failed) → fault_count self.new ≡ fault_count self.old }
        ensures later { fault_count self.old ≤ fault_count self.new }
        ensures kept { told self.new ≡ told self.old };

    /// How many calls have failed. It never falls, and stands at its last value.
    fn faults(&self) -> u64
        ensures { result ≡ fault_count self.now };
}
