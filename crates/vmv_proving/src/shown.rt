ghost use Rattle.std.specs.Prelude.{◌≡◌, ◌+◌, ◌<◌, Some, true, length, map, slice_get, IfOk, OnOk};
ghost use Rattle.vmv_snapshot.specs.Procs.{is_entry};
ghost use Rattle.vmv_snapshot.specs.Resolution.{procs_of};
ghost use Rattle.vmv_assumption.specs.Assumed.{cond_of};
ghost use Rattle.vmv_proving.specs.Shown.{IsShownOf, AreShown};
ghost use Rattle.vmv_proving.specs.Work.{IsWhole, AreShownBefore};

use sqlite_items::Items;
use std::alloc::{AllocError, Global};
use vmv_assumption::Assumption;
use vmv_back::full_box;
use vmv_forward::{Thresholds, least_table};
use vmv_proof::{Shown, ShownList};
use vmv_snapshot::{ProcId, Snapshot};
use vmv_tree::Ends;

/// What the tables of a revision's entries are made under.
#[derive(Clone, Copy)]
struct Showing<'a> {
    /// The revision.
    revision: &'a Snapshot,
    /// The ends of the base's outside names.
    ends: &'a Ends,
    /// The whole condition for each name.
    whole: &'a Assumption,
    /// What is necessary for the base.
    needed: &'a Assumption,
}

/// The two tables of an entry.
fn shown_of(alloc: Global, showing: &Showing<'_>, entry: ProcId) -> Result<Shown, AllocError>
    requires whole { IsWhole showing.now.whole.now }
    requires entry { slice_get (map is_entry (procs_of showing.now.revision.now)) entry.0 ≡ Some true }
    ensures { IfOk result (IsShownOf showing.now.revision.now showing.now.ends.now (cond_of showing.now.needed.now) entry.0) }
{
    let revision = showing.revision;
    let _ = revision.program();
    let within = full_box(revision.params(entry).as_slice());
    let thresholds = Thresholds::of(alloc, revision, entry, showing.ends)?;
    let plain = least_table(alloc, revision, entry, &within, showing.whole, &thresholds)?;
    let given = least_table(alloc, revision, entry, &within, showing.needed, &thresholds)?;
    Ok(Shown {
        entry: revision.proc_name(entry),
        plain,
        given,
    })
}

/// Adds the tables of the procedure of this number, where it is an entry.
fn add_shown(
    alloc: Global,
    showing: &Showing<'_>,
    shown: &mut ShownList,
    number: u16,
) -> Result<(), AllocError>
    requires whole { IsWhole showing.now.whole.now }
    requires number { number < length (procs_of showing.now.revision.now) }
    requires before { AreShownBefore showing.now.revision.now showing.now.ends.now (cond_of showing.now.needed.now) number shown.old }
    ensures { OnOk result (AreShownBefore showing.now.revision.now showing.now.ends.now (cond_of showing.now.needed.now) (number + 1) shown.new) }
{
    let entry = ProcId(number);
    if showing.revision.is_entry(entry) {
        let one = shown_of(alloc, showing, entry)?;
        shown.push(one)?;
    }
    Ok(())
}

/// The least tables of each entry of a revision over the whole ranges of its parameters, in text order: one whatever the
/// outside names answer, and one where their answers meet what is needed. The ends are those of the base's outside names.
/// It fails for want of memory alone.
pub fn all_shown(
    alloc: Global,
    revision: &Snapshot,
    ends: &Ends,
    needed: &Assumption,
) -> Result<ShownList, AllocError>
    ensures { IfOk result (AreShown revision.now ends.now (cond_of needed.now)) }
{
    let whole = Assumption::whole(alloc, revision)?;
    let showing = Showing {
        revision,
        ends,
        whole: &whole,
        needed,
    };
    let mut shown = Items::new(alloc);
    for number in 0..revision.proc_count() {
        add_shown(alloc, &showing, &mut shown, number)?;
    }
    Ok(shown)
}
