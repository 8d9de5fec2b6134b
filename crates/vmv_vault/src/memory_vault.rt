ghost use Rattle.std.specs.Prelude.{◌≡◌, ◌≢◌, ◌↔◌, ◌≤◌, Some, IfOk, OnErr, IsErrOf, IsTrue};
ghost use Rattle.vmv_edge.specs.Outside.{Rose};
ghost use Rattle.vmv_edge.specs.Calls.{AreUnused, IsOneMore, IsSameCall, is_to_fail, failed_calls};
ghost use Rattle.vmv_keeper.specs.Tables.{no_rows};
ghost use Rattle.vmv_keeper.specs.Forms.{rows, calls};
ghost use Rattle.vmv_vault.specs.Given.{IsGivenAs};
ghost use Rattle.vmv_vault.specs.Forms.{vault_calls, store_failing};

use crate::fault::VaultFault;
use crate::vault::Vault;
use std::alloc::Global;
use vmv_edge::Calls;
use vmv_keeper::{Keeper, MemoryKeeper};

/// A vault in memory, with a list of calls that are to fail. Each store that it gives begins without rows.
#[derive(Debug, Drop)]
pub struct MemoryVault {
    calls: Calls,
    in_stores: Vec<u64>,
}

impl MemoryVault {
    /// A vault whose calls of `keeper` with these numbers fail, the first being 1. Of each store that it gives the
    /// calls with the numbers of `in_stores` fail.
    pub fn new(failing: Vec<u64>, in_stores: Vec<u64>) -> MemoryVault
        ensures unused { AreUnused (vault_calls result) failing.items }
        ensures stores { store_failing result ≡ in_stores.items }
    {
        MemoryVault {
            calls: Calls::new(failing),
            in_stores,
        }
    }
}

impl Vault for MemoryVault {
    type Keeper = MemoryKeeper;

    ghost told = { λ _ _. Some no_rows };

    ghost IsSteady = { λ _. ⊥ };

    ghost fault_count = { λ vault. failed_calls (vault_calls vault) };

    fn keeper(&mut self, alloc: Global, _name: &str) -> Result<MemoryKeeper, VaultFault>
        ensures told { IfOk result (λ keeper. IsGivenAs (Some no_rows) (Some (rows keeper))) }
        ensures fresh { IfOk result (λ keeper. failed_calls (calls keeper) ≡ 0) }
        ensures failed { IsErrOf result VaultFault.Failed → Rose (failed_calls (vault_calls self.old)) (failed_calls (vault_calls self.new)) }
        ensures stands { ¬ (IsErrOf result VaultFault.Failed) → failed_calls (vault_calls self.new) ≡ failed_calls (vault_calls self.old) }
        ensures later { failed_calls (vault_calls self.old) ≤ failed_calls (vault_calls self.new) }
        ensures unused { IfOk result (λ keeper. AreUnused (calls keeper) (store_failing self.old)) }
        ensures fails { IsErrOf result VaultFault.Failed ↔ IsTrue (is_to_fail (vault_calls self.old)) }
        ensures one_more { IsOneMore (vault_calls self.old) (vault_calls self.new) }
        ensures stores { store_failing self.new ≡ store_failing self.old }
    {
        if self.calls.begin() {
            self.calls.fail();
            return Err(VaultFault::Failed);
        }
        let failing = Vec::from_slice(alloc, self.in_stores.as_slice())?;
        Ok(MemoryKeeper::new(alloc, failing))
    }

    fn give_back(&mut self, keeper: MemoryKeeper)
        ensures counted { failed_calls (calls keeper) ≢ 0 → Rose (failed_calls (vault_calls self.old)) (failed_calls (vault_calls self.new)) }
        ensures stands { failed_calls (calls keeper) ≡ 0 → failed_calls (vault_calls self.new) ≡ failed_calls (vault_calls self.old) }
        ensures later { failed_calls (vault_calls self.old) ≤ failed_calls (vault_calls self.new) }
        ensures same_calls { IsSameCall (vault_calls self.old) (vault_calls self.new) }
        ensures stores { store_failing self.new ≡ store_failing self.old }
    {
        if keeper.faults() != 0 {
            self.calls.fail();
        }
    }

    fn faults(&self) -> u64 {
        self.calls.faults()
    }

    ghost steady_count = { λ _ steady. absurd steady };
}
