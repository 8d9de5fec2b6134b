//! The places of a job, in turn and by halves and by `rayon`.

ghost use Rattle.std.specs.Prelude.{◌≡◌, ℕ, ◌+◌, ◌-◌, ◌/◌, ◌<◌, ◌≤◌, ◌^◌, IfOk};
ghost use Rattle.std.specs.Thread.{IsSync, IsSend};
ghost use Rattle.vmv_crew.specs.Answers.{CanRunAt, AnswersInOrder};

use crate::job::{Job, Memory};
use crate::turnstile::Turnstile;
use rayon::prelude::*;
use std::alloc::Global;
use std::thread::{Threads, join};

// From this many places on the work goes by `rayon`.
const MANY: usize = 2048;

/// The answer of one place, once it has passed the turnstile.
fn at_place<J: Job, T: Turnstile>(
    alloc: Global,
    job: &J,
    place: usize,
    turnstile: &T,
) -> Result<J::Out, Memory>
    requires { J.can_run job.now place }
    ensures { IfOk result (J.allows job.now place) }
{
    turnstile.pass(place);
    job.run(alloc, place)
}

/// The answers of `count` places from `from` on, one after another on this thread.
fn in_turn<J: Job, T: Turnstile>(
    alloc: Global,
    job: &J,
    from: usize,
    count: usize,
    turnstile: &T,
) -> Result<Vec<J::Out>, Memory>
where
    J::Out: Drop,
    requires room { from + count < 2 ^ 64 }
    requires places { CanRunAt (J.can_run job.now) from count }
    ensures { IfOk result (λ list. AnswersInOrder (J.allows job.now) from count list.items) }
{
    let mut list = Vec::new(alloc);
    for k in 0..count {
        list.push(at_place(alloc, job, from + k, turnstile)?)?;
    }
    Ok(list)
}

/// The answers of `count` places from `from` on, by at most `workers` threads.
///
/// The first half of the places and of the workers goes to a thread of its own, and the rest stays
/// on this one.
fn by_halves<R: Threads + Sync, J: Job + Sync, T: Turnstile + Sync>(
    rt: &R,
    alloc: Global,
    job: &J,
    from: usize,
    count: usize,
    workers: u32,
    turnstile: &T,
) -> Result<Vec<J::Out>, Memory>
where
    J::Out: Send + Drop,
    requires room { from + count < 2 ^ 64 }
    requires places { CanRunAt (J.can_run job.now) from count }
    ensures { IfOk result (λ list. AnswersInOrder (J.allows job.now) from count list.items) }
{
    if workers <= 1 || count <= 1 {
        return in_turn(alloc, job, from, count, turnstile);
    }
    let low = count / 2;
    let high = count - low;
    let middle = from + low;
    let some = workers / 2;
    let others = workers - some;
    let front = move || -> Result<Vec<J::Out>, Memory>
        requires { IsSync R.row × IsSync J.row × IsSync T.row × IsSend J.Out.row × (from + low < 2 ^ 64) × CanRunAt (J.can_run job.now) from low }
        ensures { IfOk result (λ list. AnswersInOrder (J.allows job.entry.now) from low list.items) }
    { by_halves(rt, alloc, job, from, low, some, turnstile) };
    let back = move || -> Result<Vec<J::Out>, Memory>
        requires { IsSync R.row × IsSync J.row × IsSync T.row × IsSend J.Out.row × (middle + high < 2 ^ 64) × CanRunAt (J.can_run job.now) middle high }
        ensures { IfOk result (λ list. AnswersInOrder (J.allows job.entry.now) middle high list.items) }
    { by_halves(rt, alloc, job, middle, high, others, turnstile) };
    let (first, second) = join(rt, front, back);
    let mut all = first?;
    let mut rest = second?;
    all.append(&mut rest)?;
    Ok(all)
}

/// The answers of the places below `n`, by as many threads as `rayon` makes of them.
fn by_rayon<R: Threads + Sync, J: Job + Sync, T: Turnstile + Sync>(
    rt: &R,
    alloc: Global,
    job: &J,
    n: usize,
    turnstile: &T,
) -> Result<Vec<J::Out>, Memory>
where
    J::Out: Send + Drop,
    requires { CanRunAt (J.can_run job.now) 0 n }
    ensures { IfOk result (λ list. AnswersInOrder (J.allows job.now) 0 n list.items) }
{
    let list: Result<Vec<J::Out>, Memory> = (0..n)
        .into_par_iter()
        .map(
            move |place: usize| -> Result<J::Out, Memory>
                requires { J.can_run job.now place }
                ensures { IfOk result (J.allows job.entry.now place) }
            { at_place(alloc, job, place, turnstile) },
        )
        .collect(rt, alloc)?;
    list
}

/// The answers of the places below `n`: fewer than 2,048 by halves, and otherwise by `rayon`.
pub fn by_threads<R: Threads + Sync, J: Job + Sync, T: Turnstile + Sync>(
    rt: &R,
    alloc: Global,
    job: &J,
    n: usize,
    workers: u32,
    turnstile: &T,
) -> Result<Vec<J::Out>, Memory>
where
    J::Out: Send + Drop,
    requires { CanRunAt (J.can_run job.now) 0 n }
    ensures { IfOk result (λ list. AnswersInOrder (J.allows job.now) 0 n list.items) }
{
    if n < MANY {
        return by_halves(rt, alloc, job, 0, n, workers, turnstile);
    }
    by_rayon(rt, alloc, job, n, turnstile)
}
