ghost use Rattle.vmv_crew.specs.Threads.{IsForThreads};

/// A runtime that threads share: its type says so itself, where a trait's method has no bound that could.
pub trait Shared {
    /// Says that threads share the runtime.
    fn shared(&self)
        ensures { IsForThreads Self.row };
}

impl Shared for HostRuntime {
    fn shared(&self) {}
}
