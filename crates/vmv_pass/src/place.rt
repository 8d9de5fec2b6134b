use vmv_assumption::Assumption;
use vmv_cond::Cond;
use vmv_snapshot::{ProcId, Snapshot};
use vmv_zone::Zone;

/// What a pass looks at: a procedure, an assumption, the thresholds, the input with which the procedure is entered, and
/// what each of its calls of helpers returns, in text order.
#[derive(Drop)]
pub struct Place<'a> {
    pub snapshot: &'a Snapshot,
    pub proc: ProcId,
    pub assumed: &'a Assumption,
    pub thresholds: &'a [i128],
    pub input: &'a Zone,
    pub results: &'a [Cond],
}

/// What a pass answers.
#[derive(Drop)]
pub struct Passed {
    /// The range of what the procedure returns.
    pub range: Cond,
    /// Whether a state that is stored was raised.
    pub raised: bool,
    /// Whether that was a state at a loop.
    pub looped: bool,
}

/// Where a pass is: how many loops and calls of helpers were met, whether a state was raised, and whether one at a loop was.
#[derive(Drop)]
pub(crate) struct Mark {
    pub(crate) keep: usize,
    pub(crate) call: usize,
    pub(crate) raised: bool,
    pub(crate) looped: bool,
}

/// States to work in. What they are before and behind a pass doesn't matter.
#[derive(Drop)]
pub struct Spare {
    /// The state that a walk carries.
    pub(crate) walked: Zone,
    /// The state of the arguments of a call.
    pub(crate) passed: Zone,
}

impl Spare {
    /// Two states for passes to work in, which may be used again and again.
    pub fn new() -> Spare {
        Spare {
            walked: Zone::bottom(0),
            passed: Zone::bottom(0),
        }
    }
}
