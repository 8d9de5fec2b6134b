ghost use Rattle.std.specs.Prelude.{◌≡◌, ◌⊎◌, ◌<◌, ◌≤◌, ◌+◌, ◌^◌, ℕ, Some, false, length, slice_get, IsTrue, IsFalse, IfSome, IsNone, IfOk};
ghost use Rattle.std.specs.List.{All};
ghost use Rattle.vmv_links.specs.Lists.{IsListed};
ghost use Rattle.vmv_forward.specs.Waiting.{load, AreRoom, AreMore, IsTaken, AreDone, AreAll};

use std::alloc::{AllocError, Global};
use vmv_links::Links;

/// The list of those that are visited first: instances of which something was raised, and those that they call.
const RAISED: u32 = 0;

/// The list of those that are visited where no other is left: callers, whose calls return something else than before.
const CALLERS: u32 = 1;

/// Puts an instance at the end of the list, unless it stands in one.
fn put(number: usize, list: u32, waiting: &mut Links)
    requires from { 1 ≤ number }
    requires to { number < waiting.old.size }
    requires list { list < 2 }
    requires room { AreRoom waiting.old }
    ensures more { AreMore waiting.old waiting.new }
    ensures there { IsListed waiting.new.lists number }
    ensures load { load waiting.new ≤ load waiting.old + number }
{
    let item = number as u32;
    match waiting.is_in(item) {
        Some(_list) => {}
        None => waiting.push_back(list, item),
    }
}

/// Whether the flag of this number is set, so far as is known.
fn is_set(flags: &[bool], c: usize) -> bool
    ensures { IsFalse result → slice_get flags.now c ≡ Some false }
{
    match flags.get(c) {
        Some(flag) => *flag,
        None => true,
    }
}

/// Puts an instance in a list, where the flag of its call is set.
fn put_set(number: usize, risen: &[bool], c: usize, waiting: &mut Links)
    requires from { 1 ≤ number }
    requires to { number < waiting.old.size }
    requires room { AreRoom waiting.old }
    ensures more { AreMore waiting.old waiting.new }
    ensures called { (slice_get risen.now c ≡ Some false) ⊎ IsListed waiting.new.lists number }
{
    if is_set(risen, c) {
        put(number, RAISED, waiting);
    }
}

/// Puts those of these in a list whose flags are set.
fn put_called(callees: &[usize], risen: &[bool], waiting: &mut Links)
    requires callees { All (λ k. (1 ≤ k) × (k < waiting.old.size)) callees.now }
    requires room { AreRoom waiting.old }
    ensures more { AreMore waiting.old waiting.new }
    ensures called { (c k : ℕ) → slice_get callees.now c ≡ Some k → (slice_get risen.now c ≡ Some false) ⊎ IsListed waiting.new.lists k }
{
    for (c, callee) in callees.iter().enumerate() {
        put_set(*callee, risen, c, waiting);
    }
}

/// Puts those of the calls of an instance in a list whose flags are set, where something of it was raised.
pub(crate) fn put_raised(callees: &[usize], raised: bool, risen: &[bool], waiting: &mut Links)
    requires callees { All (λ k. (1 ≤ k) × (k < waiting.old.size)) callees.now }
    requires room { AreRoom waiting.old }
    ensures more { AreMore waiting.old waiting.new }
    ensures called { IsTrue raised → (c k : ℕ) → slice_get callees.now c ≡ Some k → (slice_get risen.now c ≡ Some false) ⊎ IsListed waiting.new.lists k }
    ensures load { IsFalse raised → load waiting.new ≡ load waiting.old }
{
    if raised {
        put_called(callees, risen, waiting);
    }
}

/// Puts an instance in a list again where a state at a loop of it was raised.
pub(crate) fn put_again(number: usize, looped: bool, waiting: &mut Links)
    requires from { 1 ≤ number }
    requires to { number < waiting.old.size }
    requires room { AreRoom waiting.old }
    ensures more { AreMore waiting.old waiting.new }
    ensures there { IsTrue looped → IsListed waiting.new.lists number }
    ensures load { IsFalse looped → load waiting.new ≡ load waiting.old }
{
    if looped {
        put(number, RAISED, waiting);
    }
}

/// Puts a caller in a list to which a call returns something else than before. The caller of the entry isn't visited.
pub(crate) fn put_caller(caller: usize, changed: bool, waiting: &mut Links)
    requires to { caller < waiting.old.size }
    requires room { AreRoom waiting.old }
    ensures more { AreMore waiting.old waiting.new }
    ensures there { IsTrue changed → 1 ≤ caller → IsListed waiting.new.lists caller }
    ensures load { load waiting.new ≤ load waiting.old + caller }
{
    if changed && caller > 0 {
        put(caller, CALLERS, waiting);
    }
}

/// Takes the next instance off its list, and gives `None` exactly where none is left.
pub(crate) fn next(waiting: &mut Links) -> Option<u32>
    requires room { AreRoom waiting.old }
    ensures taken { IfSome result (λ item. IsTaken waiting.old item waiting.new) }
    ensures done { IsNone result → AreDone waiting.new }
    ensures still { IsNone result → waiting.new ≡ waiting.old }
{
    match waiting.pop_front(RAISED) {
        Some(number) => Some(number),
        None => waiting.pop_front(CALLERS),
    }
}

/// The instances of these numbers but 0, all of which have to be visited: those that are called before their callers.
pub(crate) fn all_waiting(alloc: Global, count: usize) -> Result<Links, AllocError>
    ensures { IfOk result (λ waiting. AreAll waiting count) }
{
    let Ok(size) = u32::try_from(count) else {
        return Err(AllocError);
    };
    let mut waiting = Links::make(alloc, size, 2)?;
    let mut number = count;
    while number > 1 {
        number -= 1;
        put(number, CALLERS, &mut waiting);
    }
    Ok(waiting)
}
