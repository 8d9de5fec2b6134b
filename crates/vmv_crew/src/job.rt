ghost use Rattle.std.specs.Prelude.{◌≡◌, ℕ, IfOk};

pub use std::alloc::AllocError as Memory;
use std::alloc::Global;

/// Work that has an answer at each place of a list.
///
/// A job is lent to several threads at once, and its answer at a place depends on the job and the
/// place alone as far as its meaning says so.
pub trait Job {
    /// An answer.
    type Out;

    // At which places the job may be run.
    ghost can_run: { Self → ℕ → Type 0 };

    // The meaning of the job: which answers a place may have.
    ghost allows: { Self → ℕ → Self.Out → Type 0 };

    /// The answer at a place. The only error is want of memory.
    fn run(&self, alloc: Global, place: usize) -> Result<Self::Out, Memory>
        requires { can_run self.now place }
        ensures { IfOk result (allows self.now place) };
}
