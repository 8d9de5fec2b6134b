ghost use Rattle.std.specs.Prelude.{◌≡◌, Some, ⊤, refl};
ghost use Rattle.vmv_keeper.specs.Tables.{no_rows};
ghost use Rattle.vmv_keeper.specs.Forms.{held_rows};
ghost use Rattle.vmv_vault.specs.Forms.{next_rows};

use crate::fault::VaultFault;
use crate::vault::Vault;
use std::alloc::Global;
use vmv_keeper::FaultlessKeeper;

/// A vault in memory that never fails, and whose stores never do. It has one store, whatever the name: the one that
/// was last given back, and one without rows where none was or it is given out.
#[derive(Debug, Drop)]
pub struct FaultlessVault {
    back: Option<FaultlessKeeper>,
}

impl FaultlessVault {
    /// A vault whose store has no rows.
    pub fn new() -> FaultlessVault
        ensures { next_rows result ≡ no_rows }
    {
        FaultlessVault { back: None }
    }
}

impl Vault for FaultlessVault {
    type Keeper = FaultlessKeeper;

    ghost told = { λ vault _. Some (next_rows vault) };

    ghost IsSteady = { λ _. ⊤ };

    ghost fault_count = { λ _. 0 };

    fn keeper(&mut self, alloc: Global, _name: &str) -> Result<FaultlessKeeper, VaultFault> {
        match self.back.take() {
            Some(keeper) => Ok(keeper),
            None => Ok(FaultlessKeeper::new(alloc)),
        }
    }

    fn give_back(&mut self, keeper: FaultlessKeeper)
        ensures { next_rows self.new ≡ held_rows keeper }
    {
        self.back = Some(keeper);
    }

    fn faults(&self) -> u64 {
        0
    }

    ghost steady_count = { λ _ _ _. refl };
}
