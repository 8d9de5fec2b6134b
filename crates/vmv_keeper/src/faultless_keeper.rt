ghost use Rattle.std.specs.Prelude.{◌≡◌, ◌↔◌, Some, IsTrue};
ghost use Rattle.vmv_keeper.specs.Tables.{no_rows};
ghost use Rattle.vmv_keeper.specs.Changes.{Fits};
ghost use Rattle.vmv_keeper.specs.Forms.{held_rows};

use crate::change::{Change, Kept};
use crate::fault::KeepFault;
use crate::keeper::Keeper;
use crate::label::Label;
use crate::project::{Benches, Held, Submitted};
use crate::store::Store;
use std::alloc::Global;
use vmv_edge::Text;

/// A store in memory that never fails.
#[derive(Debug, Drop)]
pub struct FaultlessKeeper {
    store: Store,
}

impl FaultlessKeeper {
    /// A store without rows.
    pub fn new(alloc: Global) -> FaultlessKeeper
        ensures { held_rows result ≡ no_rows }
    {
        FaultlessKeeper {
            store: Store::new(alloc),
        }
    }

    /// Whether a change fits the rows: its id is new for its caller, who has room for one more reply, nothing
    /// that the rows show forbids its act, its text is UTF-8, its reply is the act's, and the version that it
    /// was judged against is the project's latest root for an accepted submission, and none for another act.
    pub fn fits(&self, change: &Change) -> bool
        ensures { IsTrue result ↔ Fits (held_rows self.now) change.now }
    {
        self.store.fits(change)
    }
}

impl Keeper for FaultlessKeeper {
    ghost told = { λ keeper. Some (held_rows keeper) };

    ghost fault_count = { λ _. 0 };

    fn projects(&mut self, alloc: Global) -> Result<Benches, KeepFault> {
        Ok(self.store.benches(alloc)?)
    }

    fn load(
        &mut self,
        alloc: Global,
        owner: &Label,
        project: &Label,
    ) -> Result<Option<Held>, KeepFault> {
        Ok(self.store.load(alloc, owner, project)?)
    }

    fn text(
        &mut self,
        alloc: Global,
        owner: &Label,
        project: &Label,
        version: u32,
    ) -> Result<Option<Text>, KeepFault> {
        Ok(self.store.text(alloc, owner, project, version)?)
    }

    fn submission(
        &mut self,
        alloc: Global,
        owner: &Label,
        project: &Label,
        number: u32,
    ) -> Result<Option<Submitted>, KeepFault> {
        Ok(self.store.submission(alloc, owner, project, number)?)
    }

    fn reply_of(
        &mut self,
        alloc: Global,
        caller: &Label,
        id: &Label,
    ) -> Result<Option<Kept>, KeepFault> {
        Ok(self.store.reply_of(alloc, caller, id)?)
    }

    fn replies(&mut self, _alloc: Global, caller: &Label) -> Result<u32, KeepFault> {
        Ok(self.store.replies(caller))
    }

    fn commit(&mut self, alloc: Global, change: &Change) -> Result<(), KeepFault> {
        Ok(self.store.commit(alloc, change)?)
    }

    fn faults(&self) -> u64 {
        0
    }
}
