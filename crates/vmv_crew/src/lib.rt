//! Jobs that are done by many threads, with the answers in the order of their places.
//!
//! A [`Job`] has an answer at each place. [`fan`] asks for the answers of the places below a number,
//! from several threads at once, and gives them in order. Where the meaning of the job allows one
//! answer at each place, the list doesn't depend on the number of workers.
#![tactic(auto)]

mod job;
mod outs;
mod parts;
mod shared;
mod turnstile;

ghost use Rattle.std.specs.Prelude.{◌≡◌, ℕ, ◌<◌, ◌≤◌, IfOk, length, map};
ghost use Rattle.std.specs.List.{range_with_len};
ghost use Rattle.vmv_crew.specs.Answers.{AnswersInOrder, AllowsOnly};

pub use job::{Job, Memory};
pub use outs::Outs;
pub use shared::Shared;
use std::alloc::Global;
use std::thread::Threads;
pub use turnstile::{Open, Turnstile};

/// The answers of the places 0 to `n - 1`, in order.
///
/// Fewer than 2,048 places are split into halves, and `workers`, 1 to 64, with them: at most so many
/// threads run at once, and with one worker all places are done in turn on this thread. From 2,048
/// places on `rayon` splits the places by the processors that there are. Where a thread can't be
/// made, its places are done on the thread that asked for it.
///
/// Each place passes the turnstile on the thread of its job, before its job runs. Nothing else waits
/// but for the threads that it started. No clause says that two threads ran.
///
/// The only error is want of memory, of a job or for the list. Then the answers that there are have
/// been dropped, and some jobs may not have run.
pub fn fan<R: Threads + Sync, J: Job + Sync, T: Turnstile + Sync>(
    rt: &R,
    alloc: Global,
    job: &J,
    n: usize,
    workers: u32,
    turnstile: &T,
) -> Result<Outs<J::Out>, Memory>
where
    J::Out: Send + Drop,
    requires workers { (1 ≤ workers) × (workers ≤ 64) }
    requires places { (place : ℕ) → place < n → J.can_run job.now place }
    ensures answers { IfOk result (λ outs. AnswersInOrder (J.allows job.now) 0 n outs) }
    ensures count { IfOk result (λ outs. length outs ≡ n) }

    // Where the job allows one answer at each place, the answers are that list, whatever the workers.
    ensures determined { IfOk result (λ outs. (f : ℕ → J.Out) → AllowsOnly (J.allows job.now) n f → outs ≡ map f (range_with_len 0 n)) }
{
    let list = parts::by_threads(rt, alloc, job, n, workers, turnstile)?;
    Ok(Outs::from_vec(list))
}

#[cfg(test)]
mod tests;
