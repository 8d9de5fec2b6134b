ghost use Rattle.std.specs.Prelude.{◌≡◌, ◌≤◌, length, IfOk};
ghost use Rattle.std.specs.List.{Contains};
ghost use Rattle.vmv_proving.specs.Exclusions.{AreRecorded, IsExclusionOf, AreExclusions};
ghost use Rattle.vmv_proving.specs.Work.{IsReady, IsFrozen};

use sqlite_items::Items;
use std::alloc::{AllocError, Global};
use vmv_assumption::Assumption;
use vmv_forward::least_table;
use vmv_need::{Cut, EntryThresholds, all_thresholds};
use vmv_proof::{Exclusion, Exclusions};
use vmv_snapshot::Snapshot;
use vmv_tree::Ends;

/// What the tables of exclusions are made with.
#[derive(Drop)]
pub(crate) struct Excluding<'a> {
    /// The base.
    pub(crate) base: &'a Snapshot,
    /// The ends of its outside names.
    pub(crate) ends: &'a Ends,
    /// The exclusions that were recorded.
    pub(crate) cuts: &'a [Cut],
    /// The thresholds of each entry.
    pub(crate) thresholds: &'a EntryThresholds,
}

impl Excluding<'_> {
    /// Cuts what is assumed by the exclusions from this place to that.
    fn cut_on(&self, frozen: &mut Assumption, from: usize, to: usize)
        requires ready { IsReady self.now }
        requires from { from ≤ to }
        requires to { to ≤ length self.now.cuts.now }
        requires frozen { IsFrozen self.now.base.now self.now.cuts.now from frozen.old }
        ensures { IsFrozen self.now.base.now self.now.cuts.now to frozen.new }
    {
        for place in from..to {
            let cut = self.cuts[place];
            let _held = frozen.cut(&cut.name, cut.piece);
        }
    }

    /// The exclusion that tells of a recorded one.
    fn exclusion_of(
        &self,
        alloc: Global,
        frozen: &Assumption,
        cut: &Cut,
    ) -> Result<Exclusion, AllocError>
        requires ready { IsReady self.now }
        requires cut { Contains self.now.cuts.now cut.now }
        requires frozen { IsFrozen self.now.base.now self.now.cuts.now cut.now.under frozen.now }
        ensures { IfOk result (IsExclusionOf self.now.base.now self.now.ends.now self.now.cuts.now cut.now) }
    {
        let Some(thresholds) = &self.thresholds[cut.entry.0 as usize] else {
            unreachable!()
        };
        let mut kept = frozen.copy(alloc)?;
        let _held = kept.keep_to(&cut.name, cut.piece);
        let table = least_table(alloc, self.base, cut.entry, &cut.within, &kept, thresholds)?;
        Ok(Exclusion {
            entry: self.base.proc_name(cut.entry),
            within: cut.within,
            name: cut.name,
            piece: cut.piece,
            under: cut.under,
            table,
        })
    }

    /// The exclusions that tell of the recorded ones, in order.
    fn all_exclusions(&self, alloc: Global) -> Result<Exclusions, AllocError>
        requires { IsReady self.now }
        ensures { IfOk result (AreExclusions self.now.base.now self.now.ends.now self.now.cuts.now) }
    {
        let mut frozen = Assumption::whole(alloc, self.base)?;
        let mut done = 0;
        let mut exclusions = Items::new(alloc);
        for cut in self.cuts {
            let under = cut.under as usize;
            self.cut_on(&mut frozen, done, under);
            done = under;
            let one = self.exclusion_of(alloc, &frozen, cut)?;
            exclusions.push(one)?;
        }
        Ok(exclusions)
    }
}

/// The exclusions of a proof: those that were recorded of a base, each with the least table that shows it. The ends are those
/// of the base's outside names. It fails for want of memory alone.
pub fn exclusions_of(
    alloc: Global,
    base: &Snapshot,
    ends: &Ends,
    cuts: &[Cut],
) -> Result<Exclusions, AllocError>
    requires { AreRecorded base.now ends.now cuts.now }
    ensures { IfOk result (AreExclusions base.now ends.now cuts.now) }
{
    let _ = base.program();
    let thresholds = all_thresholds(alloc, base, ends)?;
    let excluding = Excluding {
        base,
        ends,
        cuts,
        thresholds: &thresholds,
    };
    let exclusions = excluding.all_exclusions(alloc)?;
    Ok(exclusions)
}
