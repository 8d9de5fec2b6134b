ghost use Rattle.std.specs.Prelude.{◌≡◌, ◌≤◌, ℕ, Option, Some, IfOk, IfSome, OnOk, OnErr, IsUtf8};
ghost use Rattle.std.specs.Option.{option_map};
ghost use Rattle.vmv_keeper.specs.Tables.{Tables, benches_in, held_in, text_in, submission_in, kept_in, reply_count};
ghost use Rattle.vmv_keeper.specs.Outside.{Counts, IsAsIn, OfTold};
ghost use Rattle.vmv_keeper.specs.Formed.{AreBenches, IsHeld, IsDone};
ghost use Rattle.vmv_keeper.specs.Changes.{Fits, after};

use crate::change::{Change, Kept};
use crate::fault::KeepFault;
use crate::label::Label;
use crate::project::{Benches, Held, Submitted};
use std::alloc::Global;
use vmv_edge::Text;

/// A store of projects and of kept replies.
///
/// Whether or not it tells its rows, those that it answers are well formed: a store that holds others counts
/// a fault. A call that is refused leaves the rows as they were.
pub trait Keeper {
    // the rows, where the store tells them
    ghost told: { Self → Option Tables };

    // how many calls have failed
    ghost fault_count: { Self → ℕ };

    /// Each project, with the numbers of the submissions that wait.
    fn projects(&mut self, alloc: Global) -> Result<Benches, KeepFault>
        ensures told { IfOk result (IsAsIn benches_in (told self.old)) }
        ensures formed { IfOk result AreBenches }
        ensures counted { Counts result (fault_count self.old) (fault_count self.new) }
        ensures kept { told self.new ≡ told self.old };

    /// The project of this owner and name, where there is one.
    fn load(
        &mut self,
        alloc: Global,
        owner: &Label,
        project: &Label,
    ) -> Result<Option<Held>, KeepFault>
        ensures told { IfOk result (IsAsIn (held_in owner.now project.now) (told self.old)) }
        ensures formed { IfOk result (λ found. IfSome found (IsHeld owner.now)) }
        ensures counted { Counts result (fault_count self.old) (fault_count self.new) }
        ensures kept { told self.new ≡ told self.old };

    /// The text of a version, where there is one.
    fn text(
        &mut self,
        alloc: Global,
        owner: &Label,
        project: &Label,
        version: u32,
    ) -> Result<Option<Text>, KeepFault>
        ensures told { IfOk result (IsAsIn (text_in owner.now project.now version) (told self.old)) }
        ensures formed { IfOk result (λ found. IfSome found IsUtf8) }
        ensures counted { Counts result (fault_count self.old) (fault_count self.new) }
        ensures kept { told self.new ≡ told self.old };

    /// A submission, where it waits.
    fn submission(
        &mut self,
        alloc: Global,
        owner: &Label,
        project: &Label,
        number: u32,
    ) -> Result<Option<Submitted>, KeepFault>
        ensures told { IfOk result (IsAsIn (submission_in owner.now project.now number) (told self.old)) }
        ensures formed { IfOk result (λ found. IfSome found (λ submitted. IsUtf8 submitted.text)) }
        ensures counted { Counts result (fault_count self.old) (fault_count self.new) }
        ensures kept { told self.new ≡ told self.old };

    /// What was done under a caller's id, where something was.
    fn reply_of(
        &mut self,
        alloc: Global,
        caller: &Label,
        id: &Label,
    ) -> Result<Option<Kept>, KeepFault>
        ensures told { IfOk result (IsAsIn (kept_in caller.now id.now) (told self.old)) }
        ensures formed { IfOk result (λ found. IfSome found (λ kept. IsDone kept.act kept.reply)) }
        ensures counted { Counts result (fault_count self.old) (fault_count self.new) }
        ensures kept { told self.new ≡ told self.old };

    /// How many replies are kept for a caller.
    fn replies(&mut self, alloc: Global, caller: &Label) -> Result<u32, KeepFault>
        ensures told { IfOk result (IsAsIn (λ tables. reply_count tables caller.now) (told self.old)) }
        ensures formed { IfOk result (λ count. count ≤ 100000) }
        ensures counted { Counts result (fault_count self.old) (fault_count self.new) }
        ensures kept { told self.new ≡ told self.old };

    /// Makes a change and keeps its reply, all of it or nothing.
    fn commit(&mut self, alloc: Global, change: &Change) -> Result<(), KeepFault>
        requires { OfTold (told self.old) (λ tables. Fits tables change.now) }
        ensures done { OnOk result (told self.new ≡ option_map (after change.now) (told self.old)) }
        ensures refused { OnErr result (told self.new ≡ told self.old) }
        ensures counted { Counts result (fault_count self.old) (fault_count self.new) };

    /// How many calls have failed. It never falls, and stands at its last value.
    fn faults(&self) -> u64
        ensures { result ≡ fault_count self.now };
}
