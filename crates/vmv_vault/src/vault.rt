ghost use Rattle.std.specs.Prelude.{◌≡◌, ◌≢◌, ◌≤◌, ℕ, List, Option, IfOk, OnErr, IsErrOf};
ghost use Rattle.vmv_edge.specs.Outside.{Rose};
ghost use Rattle.vmv_keeper.specs.Tables.{Tables};
ghost use Rattle.vmv_vault.specs.Given.{IsGivenAs};

use crate::fault::VaultFault;
use std::alloc::Global;
use vmv_keeper::Keeper;

/// What gives out stores by name, and takes them back.
pub trait Vault {
    /// A store that it gives.
    type Keeper: Keeper;

    // the rows of the store that is given next under a name, where the vault tells them
    ghost told: { Self → List ℕ → Option Tables };

    // no store that the vault gives ever counts a fault
    ghost IsSteady: { Self → Type 0 };

    // how many calls have failed, and how many stores that had counted faults were given back
    ghost fault_count: { Self → ℕ };

    /// The store under the name, which has counted no fault yet.
    ///
    /// It is `Failed` where the store couldn't be opened or isn't one, and `Memory` where there was no memory for it.
    fn keeper(&mut self, alloc: Global, name: &str) -> Result<Self::Keeper, VaultFault>
        ensures told { IfOk result (λ keeper. IsGivenAs (told self.old name.now) (Self.Keeper.told keeper)) }
        ensures fresh { IfOk result (λ keeper. Self.Keeper.fault_count keeper ≡ 0) }
        ensures failed { IsErrOf result VaultFault.Failed → Rose (fault_count self.old) (fault_count self.new) }
        ensures stands { ¬ (IsErrOf result VaultFault.Failed) → fault_count self.new ≡ fault_count self.old }
        ensures later { fault_count self.old ≤ fault_count self.new }
        ensures refused { OnErr result (told self.new ≡ told self.old) };

    /// Takes a store back. One that has counted faults is a fault of the vault.
    fn give_back(&mut self, keeper: Self::Keeper)
        ensures counted { Self.Keeper.fault_count keeper ≢ 0 → Rose (fault_count self.old) (fault_count self.new) }
        ensures stands { Self.Keeper.fault_count keeper ≡ 0 → fault_count self.new ≡ fault_count self.old }
        ensures later { fault_count self.old ≤ fault_count self.new };

    /// How many calls have failed, and how many stores that had counted faults were given back. It never falls, and
    /// stands at its last value.
    fn faults(&self) -> u64
        ensures { result ≡ fault_count self.now };

    // a steady vault's stores stand at 0
    ghost steady_count: { (vault : Self) → IsSteady vault → (keeper : Self.Keeper) → Self.Keeper.fault_count keeper ≡ 0 };
}
