ghost use Rattle.std.specs.Prelude.{◌≡◌, ◌↔◌, ◌≤◌, false, Some, IfOk, IfSome, OnOk, OnErr, IfErr, IsErrOf, IsTrue, IsUtf8};
ghost use Rattle.std.specs.Option.{option_map};
ghost use Rattle.vmv_edge.specs.Calls.{AreUnused, IsOneMore, is_to_fail, failed_calls};
ghost use Rattle.vmv_keeper.specs.Tables.{no_rows, benches_in, held_in, text_in, submission_in, kept_in, reply_count};
ghost use Rattle.vmv_keeper.specs.Outside.{Counts, IsAsIn};
ghost use Rattle.vmv_keeper.specs.Formed.{AreBenches, IsHeld, IsDone};
ghost use Rattle.vmv_keeper.specs.Changes.{Fits, after};
ghost use Rattle.vmv_keeper.specs.Forms.{rows, calls};

use crate::change::{Change, Kept};
use crate::fault::KeepFault;
use crate::keeper::Keeper;
use crate::label::Label;
use crate::project::{Benches, Held, Submitted};
use crate::store::Store;
use std::alloc::Global;
use vmv_edge::{Calls, Text};

/// A store in memory, with a list of calls that are to fail.
#[derive(Debug, Drop)]
pub struct MemoryKeeper {
    store: Store,
    calls: Calls,
}

impl MemoryKeeper {
    /// A store without rows, whose calls with these numbers fail, the first being 1.
    pub fn new(alloc: Global, failing: Vec<u64>) -> MemoryKeeper
        ensures empty { rows result ≡ no_rows }
        ensures unused { AreUnused (calls result) failing.items }
    {
        MemoryKeeper {
            store: Store::new(alloc),
            calls: Calls::new(failing),
        }
    }

    /// Whether a change fits the rows: its id is new for its caller, who has room for one more reply, nothing
    /// that the rows show forbids its act, its text is UTF-8, its reply is the act's, and the version that it
    /// was judged against is the project's latest root for an accepted submission, and none for another act.
    pub fn fits(&self, change: &Change) -> bool
        ensures { IsTrue result ↔ Fits (rows self.now) change.now }
    {
        self.store.fits(change)
    }

    // Counts a call, which fails where it is to.
    fn begin(&mut self) -> Result<(), KeepFault>
        ensures rows { rows self.new ≡ rows self.old }
        ensures counted { Counts result (failed_calls (calls self.old)) (failed_calls (calls self.new)) }
        ensures fails { OnErr result (IsTrue (is_to_fail (calls self.old))) }
        ensures works { OnOk result (is_to_fail (calls self.old) ≡ false) }
        ensures failed { IfErr result (λ fault. fault ≡ KeepFault.Failed) }
        ensures one_more { IsOneMore (calls self.old) (calls self.new) }
    {
        if self.calls.begin() {
            self.calls.fail();
            return Err(KeepFault::Failed);
        }
        Ok(())
    }
}

impl Keeper for MemoryKeeper {
    ghost told = { λ keeper. Some (rows keeper) };

    ghost fault_count = { λ keeper. failed_calls (calls keeper) };

    fn projects(&mut self, alloc: Global) -> Result<Benches, KeepFault>
        ensures told { IfOk result (IsAsIn benches_in (Some (rows self.old))) }
        ensures formed { IfOk result AreBenches }
        ensures counted { Counts result (failed_calls (calls self.old)) (failed_calls (calls self.new)) }
        ensures kept { Some (rows self.new) ≡ Some (rows self.old) }
        ensures fails { IsErrOf result KeepFault.Failed ↔ IsTrue (is_to_fail (calls self.old)) }
        ensures one_more { IsOneMore (calls self.old) (calls self.new) }
    {
        self.begin()?;
        Ok(self.store.benches(alloc)?)
    }

    fn load(
        &mut self,
        alloc: Global,
        owner: &Label,
        project: &Label,
    ) -> Result<Option<Held>, KeepFault>
        ensures told { IfOk result (IsAsIn (held_in owner.now project.now) (Some (rows self.old))) }
        ensures formed { IfOk result (λ found. IfSome found (IsHeld owner.now)) }
        ensures counted { Counts result (failed_calls (calls self.old)) (failed_calls (calls self.new)) }
        ensures kept { Some (rows self.new) ≡ Some (rows self.old) }
        ensures fails { IsErrOf result KeepFault.Failed ↔ IsTrue (is_to_fail (calls self.old)) }
        ensures one_more { IsOneMore (calls self.old) (calls self.new) }
    {
        self.begin()?;
        Ok(self.store.load(alloc, owner, project)?)
    }

    fn text(
        &mut self,
        alloc: Global,
        owner: &Label,
        project: &Label,
        version: u32,
    ) -> Result<Option<Text>, KeepFault>
        ensures told { IfOk result (IsAsIn (text_in owner.now project.now version) (Some (rows self.old))) }
        ensures formed { IfOk result (λ found. IfSome found IsUtf8) }
        ensures counted { Counts result (failed_calls (calls self.old)) (failed_calls (calls self.new)) }
        ensures kept { Some (rows self.new) ≡ Some (rows self.old) }
        ensures fails { IsErrOf result KeepFault.Failed ↔ IsTrue (is_to_fail (calls self.old)) }
        ensures one_more { IsOneMore (calls self.old) (calls self.new) }
    {
        self.begin()?;
        Ok(self.store.text(alloc, owner, project, version)?)
    }

    fn submission(
        &mut self,
        alloc: Global,
        owner: &Label,
        project: &Label,
        number: u32,
    ) -> Result<Option<Submitted>, KeepFault>
        ensures told { IfOk result (IsAsIn (submission_in owner.now project.now number) (Some (rows self.old))) }
        ensures formed { IfOk result (λ found. IfSome found (λ submitted. IsUtf8 submitted.text)) }
        ensures counted { Counts result (failed_calls (calls self.old)) (failed_calls (calls self.new)) }
        ensures kept { Some (rows self.new) ≡ Some (rows self.old) }
        ensures fails { IsErrOf result KeepFault.Failed ↔ IsTrue (is_to_fail (calls self.old)) }
        ensures one_more { IsOneMore (calls self.old) (calls self.new) }
    {
        self.begin()?;
        Ok(self.store.submission(alloc, owner, project, number)?)
    }

    fn reply_of(
        &mut self,
        alloc: Global,
        caller: &Label,
        id: &Label,
    ) -> Result<Option<Kept>, KeepFault>
        ensures told { IfOk result (IsAsIn (kept_in caller.now id.now) (Some (rows self.old))) }
        ensures formed { IfOk result (λ found. IfSome found (λ kept. IsDone kept.act kept.reply)) }
        ensures counted { Counts result (failed_calls (calls self.old)) (failed_calls (calls self.new)) }
        ensures kept { Some (rows self.new) ≡ Some (rows self.old) }
        ensures fails { IsErrOf result KeepFault.Failed ↔ IsTrue (is_to_fail (calls self.old)) }
        ensures one_more { IsOneMore (calls self.old) (calls self.new) }
    {
        self.begin()?;
        Ok(self.store.reply_of(alloc, caller, id)?)
    }

    fn replies(&mut self, _alloc: Global, caller: &Label) -> Result<u32, KeepFault>
        ensures told { IfOk result (IsAsIn (λ tables. reply_count tables caller.now) (Some (rows self.old))) }
        ensures formed { IfOk result (λ count. count ≤ 100000) }
        ensures counted { Counts result (failed_calls (calls self.old)) (failed_calls (calls self.new)) }
        ensures kept { Some (rows self.new) ≡ Some (rows self.old) }
        ensures fails { IsErrOf result KeepFault.Failed ↔ IsTrue (is_to_fail (calls self.old)) }
        ensures one_more { IsOneMore (calls self.old) (calls self.new) }
    {
        self.begin()?;
        Ok(self.store.replies(caller))
    }

    fn commit(&mut self, alloc: Global, change: &Change) -> Result<(), KeepFault>
        requires { Fits (rows self.old) change.now }
        ensures done { OnOk result (Some (rows self.new) ≡ option_map (after change.now) (Some (rows self.old))) }
        ensures refused { OnErr result (Some (rows self.new) ≡ Some (rows self.old)) }
        ensures counted { Counts result (failed_calls (calls self.old)) (failed_calls (calls self.new)) }
        ensures fails { IsErrOf result KeepFault.Failed ↔ IsTrue (is_to_fail (calls self.old)) }
        ensures one_more { IsOneMore (calls self.old) (calls self.new) }
    {
        self.begin()?;
        Ok(self.store.commit(alloc, change)?)
    }

    fn faults(&self) -> u64 {
        self.calls.faults()
    }
}
