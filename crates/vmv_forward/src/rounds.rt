ghost use Rattle.std.specs.Prelude.{◌≡◌, ◌<◌, ◌≤◌, ◌+◌, ◌≢◌, ℕ, Some, length, slice_get, IsTrue, IsFalse};
ghost use Rattle.vmv_tree.specs.Tree.{Item};
ghost use Rattle.vmv_snapshot.specs.declared.code.Code.{Code};
ghost use Rattle.vmv_snapshot.specs.Procs.{params_of};
ghost use Rattle.vmv_snapshot.specs.Resolution.{procs_of};
ghost use Rattle.vmv_zone.specs.Zone.{vars_of};
ghost use Rattle.vmv_pass.specs.Upper.{IsProc, AreScale, Fits};
ghost use Rattle.vmv_pass.specs.Holds.{Settles};
ghost use Rattle.vmv_pass.specs.Told.{AreTold};
ghost use Rattle.vmv_forward.specs.Path.{Path};
ghost use Rattle.vmv_forward.specs.Paths.{loops_of};
ghost use Rattle.vmv_forward.specs.Rounds.{quest_of, stored_of, AreKept, HasInput, HasResult, IsSettled, IsPassed, IsVisited, AreWaiting, AreWaitingBut, HaveFew, all_rooms, all_ranks};
ghost use Rattle.vmv_forward.specs.Waiting.{load, AreDone};

use crate::instance::Instance;
use crate::waiting::{next, put_again, put_caller, put_raised};
use std::sync::ledger::Ledger;
use vmv_assumption::Assumption;
use vmv_cond::Cond;
use vmv_links::Links;
use vmv_pass::{Passed, Place, Spare, Steps, raise};
use vmv_snapshot::{ProcId, Snapshot};
use vmv_zone::Zone;

/// What the instances are of: an entry of a program and its input, under an assumption, over thresholds.
#[derive(Drop)]
pub(crate) struct Search<'a> {
    pub(crate) snapshot: &'a Snapshot,
    pub(crate) entry: ProcId,
    pub(crate) input: &'a Zone,
    pub(crate) assumed: &'a Assumption,
    pub(crate) thresholds: &'a [i128],
}

/// What a visit answers.
#[derive(Drop)]
struct Visited {
    /// Whether something that is stored for the instance was raised.
    raised: bool,
    /// Whether that was a state at a loop.
    looped: bool,
    /// Whether the range of what it returns isn't the one that was stored.
    changed: bool,
}

/// The input that is stored for an instance, with its caller.
pub(crate) fn input_of<'a>(
    search: &Search<'_>,
    instances: &'a [Instance],
    number: usize,
) -> &'a Zone
    requires from { 1 ≤ number }
    requires to { number < length instances.now }
    requires kept { AreKept (quest_of search.now) instances.now }
    ensures { (path : Path) → slice_get instances.now number ≡ Some path → HasInput instances.now path result.now }
{
    let instance = &instances[number];
    let caller = instance.caller;
    instances[caller].input(instance.place)
}

/// The result that is stored for an instance, with its caller.
pub(crate) fn result_of(search: &Search<'_>, instances: &[Instance], number: usize) -> Cond
    requires from { 1 ≤ number }
    requires to { number < length instances.now }
    requires kept { AreKept (quest_of search.now) instances.now }
    ensures { (path : Path) → slice_get instances.now number ≡ Some path → HasResult instances.now path result }
{
    let instance = &instances[number];
    let caller = instance.caller;
    instances[caller].result_of(instance.place)
}

/// One pass over the instance's procedure, from its input. Of each call whose input is raised the flag is set.
fn pass<L: Ledger>(
    search: &Search<'_>,
    instance: &mut Instance,
    input: &Zone,
    risen: &mut [bool],
    steps: &mut Steps<L>,
    spare: &mut Spare,
) -> Passed
    requires proc { instance.old.proc.0 < length (procs_of search.now.snapshot.now) }
    requires scale { AreScale search.now.thresholds.now }
    requires input { (item : Item) (code : Code) → IsProc search.now.snapshot.now instance.old.proc.0 item code → vars_of input.now ≡ length (params_of item) }
    requires fits { (item : Item) (code : Code) → IsProc search.now.snapshot.now instance.old.proc.0 item code → Fits search.now.snapshot.now search.now.thresholds.now item code (stored_of (quest_of search.now).assumed instance.old) }
    ensures passed { IsPassed (quest_of search.now) input.now instance.old instance.new result.range result.raised steps.old steps.new }
    ensures looped { IsFalse result.raised → IsFalse result.looped }
    ensures settled { IsFalse result.looped → (item : Item) (code : Code) → IsProc search.now.snapshot.now instance.old.proc.0 item code → Settles (stored_of (quest_of search.now).assumed instance.new) item code input.now result.range }
    ensures told { AreTold instance.old.inputs risen.old instance.new.inputs risen.new }
{
    let place = Place {
        snapshot: search.snapshot,
        proc: instance.proc,
        assumed: search.assumed,
        thresholds: search.thresholds,
        input,
        results: instance.results.as_slice(),
    };
    raise(
        &place,
        instance.keeps.as_mut_slice(),
        instance.inputs.as_mut_slice(),
        risen,
        instance.unproved.as_mut_slice(),
        steps,
        spare,
    )
}

/// Passes over an instance from the input that its caller has for it, and gives the range to the caller. Of each of its
/// calls whose input is raised the flag is set. The input is copied out meanwhile.
fn visit<L: Ledger>(
    search: &Search<'_>,
    instances: &mut [Instance],
    number: usize,
    risen: &mut [bool],
    steps: &mut Steps<L>,
    input: &mut Zone,
    spare: &mut Spare,
) -> Visited
    requires from { 1 ≤ number }
    requires to { number < length instances.old }
    requires kept { AreKept (quest_of search.now) instances.old }
    ensures visited { IsVisited (quest_of search.now) instances.old number result.raised steps.old instances.new steps.new }
    ensures looped { IsFalse result.raised → IsFalse result.looped }
    ensures settled { IsFalse result.looped → IsSettled (quest_of search.now) instances.new number }
    ensures told { (old new : Path) → slice_get instances.old number ≡ Some old → slice_get instances.new number ≡ Some new → AreTold old.inputs risen.old new.inputs risen.new }
    ensures same { IsFalse result.changed → (path : Path) → slice_get instances.old number ≡ Some path → slice_get instances.new path.caller ≡ slice_get instances.old path.caller }
{
    let instance = &instances[number];
    let caller = instance.caller;
    let place = instance.place;
    input.copy_from(instances[caller].input(place));
    let passed = pass(search, &mut instances[number], input, risen, steps, spare);
    let range = passed.range;
    let changed = instances[caller].take_result(place, range);
    Visited {
        raised: passed.raised,
        looped: passed.looped,
        changed,
    }
}

/// Clears so many flags from the first on.
fn clear(flags: &mut [bool], count: usize) {
    for i in 0..count {
        if i < flags.len() {
            flags[i] = false;
        }
    }
}

/// Visits an instance that was taken off its list, and puts in a list those that have to be visited again: those that it
/// calls with inputs that were raised, the instance itself where a state at a loop was, and its caller where it returns
/// something else. Answers whether something that is stored was raised.
fn turn<L: Ledger>(
    search: &Search<'_>,
    instances: &mut [Instance],
    number: usize,
    waiting: &mut Links,
    risen: &mut [bool],
    steps: &mut Steps<L>,
    input: &mut Zone,
    spare: &mut Spare,
) -> bool
    requires from { 1 ≤ number }
    requires to { number < length instances.old }
    requires kept { AreKept (quest_of search.now) instances.old }
    requires waiting { AreWaitingBut (quest_of search.now) instances.old waiting.old number }
    ensures kept { AreKept (quest_of search.now) instances.new }
    ensures waiting { AreWaiting (quest_of search.now) instances.new waiting.new }
    ensures falls { IsTrue result → all_rooms instances.new < all_rooms instances.old }
    ensures stays { IsFalse result → all_rooms instances.new ≡ all_rooms instances.old }
    ensures load { IsFalse result → load waiting.new < load waiting.old + number }
    ensures few { HaveFew instances.old → HaveFew instances.new }
    ensures loops { loops_of instances.new ≡ loops_of instances.old }
    ensures cost { steps.new + all_ranks search.now.thresholds.now instances.old ≤ steps.old + all_ranks search.now.thresholds.now instances.new }
{
    let before = &instances[number];
    clear(risen, before.callees.len());
    let seen = visit(search, instances, number, risen, steps, input, spare);
    let instance = &instances[number];
    let caller = instance.caller;
    put_raised(instance.callees.as_slice(), seen.raised, risen, waiting);
    put_again(number, seen.looped, waiting);
    put_caller(caller, seen.changed, waiting);
    seen.raised
}

/// Visits instances that are in a list, until something that is stored is raised or none is left. Answers whether
/// something was raised. The visits work in the other states.
fn sweep<L: Ledger>(
    search: &Search<'_>,
    instances: &mut [Instance],
    waiting: &mut Links,
    risen: &mut [bool],
    steps: &mut Steps<L>,
    input: &mut Zone,
    spare: &mut Spare,
) -> bool
    requires kept { AreKept (quest_of search.now) instances.old }
    requires waiting { AreWaiting (quest_of search.now) instances.old waiting.old }
    ensures kept { AreKept (quest_of search.now) instances.new }
    ensures waiting { AreWaiting (quest_of search.now) instances.new waiting.new }
    ensures done { IsFalse result → AreDone waiting.new }
    ensures falls { IsTrue result → all_rooms instances.new < all_rooms instances.old }
    ensures stays { IsFalse result → all_rooms instances.new ≡ all_rooms instances.old }
    ensures few { HaveFew instances.old → HaveFew instances.new }
    ensures loops { loops_of instances.new ≡ loops_of instances.old }
    ensures cost { steps.new + all_ranks search.now.thresholds.now instances.old ≤ steps.old + all_ranks search.now.thresholds.now instances.new }
{
    while let Some(item) = next(waiting) {
        let number = item as usize;
        if turn(
            search, instances, number, waiting, risen, steps, input, spare,
        ) {
            return true;
        }
    }
    false
}

/// Raises what is stored until the walks of all instances hold. An instance is visited where it isn't known to be settled:
/// at first those that are in a list.
pub(crate) fn settle<L: Ledger>(
    search: &Search<'_>,
    instances: &mut [Instance],
    waiting: &mut Links,
    risen: &mut [bool],
    steps: &mut Steps<L>,
)
    requires kept { AreKept (quest_of search.now) instances.old }
    requires waiting { AreWaiting (quest_of search.now) instances.old waiting.old }
    ensures kept { AreKept (quest_of search.now) instances.new }
    ensures settled { (j : ℕ) → 1 ≤ j → IsSettled (quest_of search.now) instances.new j }
    ensures few { HaveFew instances.old → HaveFew instances.new }
    ensures loops { loops_of instances.new ≡ loops_of instances.old }
    ensures cost { steps.new + all_ranks search.now.thresholds.now instances.old ≤ steps.old + all_ranks search.now.thresholds.now instances.new }
{
    let mut input = Zone::bottom(0);
    let mut spare = Spare::new();
    let mut raised = true;
    while raised {
        raised = sweep(
            search, instances, waiting, risen, steps, &mut input, &mut spare,
        );
    }
}
