ghost use Rattle.std.specs.Prelude.{◌≡◌, ◌≤◌, None, IsErrOf};
ghost use Rattle.vmv_edge.specs.Outside.{Rose};

use crate::opening::{FileKeeper, close, open};
use std::alloc::Global;
use std::rt::HostRuntime;
use vmv_keeper::Keeper;
use vmv_vault::{Vault, VaultFault};

/// The files of the machine as stores over SQL, each under its path. What they hold isn't told.
///
/// A file that isn't there is made. One that can't be opened, that is no database, or whose tables are of another mark
/// than 1 and 2 is a counted fault.
#[derive(Drop)]
pub struct SqlVault<'r> {
    rt: &'r HostRuntime,
    faults: u64,
}

impl<'r> SqlVault<'r> {
    /// The files that the runtime reaches. No call has failed yet.
    pub fn new(rt: &'r HostRuntime) -> SqlVault<'r>
        ensures { ⟦<SqlVault<'r> as Vault>⟧.fault_count result ≡ 0 }
    {
        SqlVault { rt, faults: 0 }
    }
}

// Counts an answer that is a fault.
fn noted<T>(faults: &mut u64, got: Result<T, VaultFault>) -> Result<T, VaultFault>
    ensures same { result ≡ got }
    ensures failed { IsErrOf got VaultFault.Failed → Rose faults.old faults.new }
    ensures stands { ¬ (IsErrOf got VaultFault.Failed) → faults.new ≡ faults.old }
    ensures later { faults.old ≤ faults.new }
{
    if let Err(VaultFault::Failed) = got {
        *faults = faults.saturating_add(1);
    }
    got
}

impl<'r> Vault for SqlVault<'r> {
    type Keeper = FileKeeper;

    ghost told = { λ _ _. None };

    ghost IsSteady = { λ _. ⊥ };

    ghost fault_count = { λ vault. vault.faults };

    /// Opens the file under the path as a database, or makes it, and makes its tables ready.
    fn keeper(&mut self, alloc: Global, name: &str) -> Result<FileKeeper, VaultFault> {
        let got = open(self.rt, alloc, name);
        noted(&mut self.faults, got)
    }

    /// Closes the store's file.
    fn give_back(&mut self, keeper: FileKeeper) {
        if keeper.faults() != 0 {
            self.faults = self.faults.saturating_add(1);
        }
        close(keeper);
    }

    fn faults(&self) -> u64 {
        self.faults
    }

    ghost steady_count = { λ _ steady. absurd steady };
}
