ghost use Rattle.std.specs.Prelude.{◌≡◌, ◌++◌, ◌∷◌, [], ◌<◌, Some, length, slice_get, slice_set, IsTrue, IsFalse, OnOk};

use std::alloc::AllocError;
use std::marker::Model;
use vmv_cond::Cond;
use vmv_snapshot::ProcId;
use vmv_zone::Zone;

/// A procedure on one path of calls from an entry, and what is stored for it. Contracts see it as that.
#[derive(Drop)]
pub(crate) struct Instance {
    pub(crate) proc: ProcId,
    pub(crate) caller: usize,
    pub(crate) place: usize,
    pub(crate) callees: Vec<usize>,
    pub(crate) keeps: Vec<Zone>,
    pub(crate) inputs: Vec<Zone>,
    pub(crate) results: Vec<Cond>,
    pub(crate) unproved: Vec<bool>,
}

impl Model for Instance {
    ghost use Rattle.vmv_forward.specs.Path.{Path};

    ghost Value = { Path };

    ghost view = { λ x. record { proc = x.proc; caller = x.caller; place = x.place; callees = x.callees.items; keeps = x.keeps.items; inputs = x.inputs.items; results = x.results.items; unproved = x.unproved.items } };
}

/// Whether both are true or both are false.
fn agree(one: bool, other: bool) -> bool
    ensures { IsTrue result → one ≡ other }
{
    if one { other } else { !other }
}

/// Whether the two don't hold the same words.
fn is_other(one: Cond, other: Cond) -> bool
    ensures { IsFalse result → one ≡ other }
{
    if one.lo() != other.lo() {
        return true;
    }
    if one.hi() != other.hi() {
        return true;
    }
    if agree(one.zero_out(), other.zero_out()) {
        return false;
    }
    true
}

impl Instance {
    /// The input that is stored for the call of this place.
    pub(crate) fn input(&self, place: usize) -> &Zone
        requires { place < length self.now.inputs }
        ensures { slice_get self.now.inputs place ≡ Some result.now }
    {
        &self.inputs[place]
    }

    /// The result that is stored for the call of this place.
    pub(crate) fn result_of(&self, place: usize) -> Cond
        requires { place < length self.now.results }
        ensures { slice_get self.now.results place ≡ Some result }
    {
        self.results[place]
    }

    /// Stores the result of the call of this place. Answers whether it is another one than before.
    pub(crate) fn take_result(&mut self, place: usize, range: Cond) -> bool
        requires { place < length self.old.results }
        ensures taken { self.new ≡ record self.old { results = slice_set self.old.results place range } }
        ensures same { IsFalse result → slice_get self.old.results place ≡ Some range }
    {
        let before = self.results[place];
        self.results[place] = range;
        is_other(before, range)
    }

    /// Adds the instance of the next call.
    pub(crate) fn add_callee(&mut self, number: usize) -> Result<(), AllocError>
        ensures { OnOk result (self.new ≡ record self.old { callees = self.old.callees ++ number ∷ [] }) }
    {
        self.callees.push(number)?;
        Ok(())
    }
}
