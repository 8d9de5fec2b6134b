//! The queues of all projects.

ghost use Rattle.std.specs.Prelude.{◌≡◌, ◌++◌, ◌∷◌, [], ◌<◌, count_by, find, IfOk, OnOk, OnErr};
ghost use Rattle.std.specs.List.{AllByRecursion, position};
ghost use Rattle.std.specs.Option.{option_copied};
ghost use Rattle.vmv_keeper.specs.Tables.{is_same};
ghost use Rattle.vmv_keeper.specs.Formed.{is_bench_of, IsBench};
ghost use Rattle.vmv_keeper.specs.Changes.{changed};
ghost use Rattle.vmv_desk.specs.Queues.{with_number, without_number};

use crate::queue::Queue;
use std::alloc::{AllocError, Global};
use vmv_keeper::{Bench, Label};

/// The queue of the project of this owner and name.
pub(crate) fn queue_of<'a>(queues: &'a [Queue], owner: &Label, name: &Label) -> Option<&'a Queue>
    ensures { option_copied result ≡ find (is_bench_of owner.now name.now) queues.now }
{
    queues.iter().find(|queue| queue.is_of(owner, name))
}

/// How many projects an owner has.
pub(crate) fn owned_count(queues: &[Queue], owner: &Label) -> usize
    ensures { result ≡ count_by (λ queue. is_same queue.owner owner.now) queues.now }
{
    queues
        .iter()
        .filter(|queue| *queue.owner() == *owner)
        .count()
}

fn place_of(queues: &[Queue], owner: &Label, name: &Label) -> Option<usize>
    ensures { result ≡ position (is_bench_of owner.now name.now) queues.now }
{
    queues.iter().position(|queue| queue.is_of(owner, name))
}

/// Puts a submission's number behind the others of its project.
pub(crate) fn push_number(queues: &mut Vec<Queue>, owner: &Label, name: &Label, number: u32)
    ensures { queues.new.items ≡ changed (is_bench_of owner.now name.now) (with_number number) queues.old.items }
{
    if let Some(place) = place_of(queues.as_slice(), owner, name) {
        queues[place].push(number);
    }
}

/// Takes a submission's number out of those of its project.
pub(crate) fn remove_number(queues: &mut Vec<Queue>, owner: &Label, name: &Label, number: u32)
    ensures { queues.new.items ≡ changed (is_bench_of owner.now name.now) (without_number number) queues.old.items }
{
    if let Some(place) = place_of(queues.as_slice(), owner, name) {
        queues[place].remove(number);
    }
}

fn filled(alloc: Global, bench: &Bench) -> Result<Queue, AllocError>
    requires { IsBench bench.now }
    ensures { IfOk result (λ queue. queue ≡ bench.now) }
{
    let mut queue = Queue::make(alloc, &bench.owner, &bench.name)?;
    for number in bench.pending.as_slice() {
        queue.push(*number);
    }
    Ok(queue)
}

/// The queues that a store tells of. It fails where there is no memory.
pub(crate) fn queues_of(alloc: Global, benches: &[Bench]) -> Result<Vec<Queue>, AllocError>
    requires { AllByRecursion IsBench benches.now }
    ensures { IfOk result (λ queues. queues.items ≡ benches.now) }
{
    let mut queues = Vec::with_capacity(alloc, benches.len())?;
    for bench in benches {
        queues.push(filled(alloc, bench)?)?;
    }
    Ok(queues)
}
