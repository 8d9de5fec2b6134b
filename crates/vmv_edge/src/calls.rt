ghost use Rattle.std.specs.Prelude.{◌≡◌, ◌≤◌};
ghost use Rattle.vmv_edge.specs.Calls.{is_to_fail, failed_calls, AreUnused, IsOneMore, IsSameCall};
ghost use Rattle.vmv_edge.specs.Outside.{Rose};

use crate::faults::Faults;

/// The calls of a thing in memory: how many were made and have failed, and which are to fail.
#[derive(Debug, Drop)]
pub struct Calls {
    made: u64,
    failing: Vec<u64>,
    faults: Faults,
}

impl Calls {
    /// No calls yet, of which those with these numbers are to fail, the first being 1.
    pub fn new(failing: Vec<u64>) -> Calls
        ensures { AreUnused result failing.items }
    {
        Calls {
            made: 0,
            failing,
            faults: Faults::none(),
        }
    }

    /// How many calls have failed.
    pub fn faults(&self) -> u64
        ensures { result ≡ failed_calls self.now }
    {
        self.faults.count()
    }

    /// Counts a call, and says whether it is to fail.
    pub fn begin(&mut self) -> bool
        ensures fails { result ≡ is_to_fail self.old }
        ensures counted { IsOneMore self.old self.new }
        ensures faults { failed_calls self.new ≡ failed_calls self.old }
    {
        self.made = self.made.saturating_add(1);
        self.failing.as_slice().contains(&self.made)
    }

    /// Counts a call that has failed.
    pub fn fail(&mut self)
        ensures counted { Rose (failed_calls self.old) (failed_calls self.new) }
        ensures later { failed_calls self.old ≤ failed_calls self.new }
        ensures calls { IsSameCall self.old self.new }
    {
        self.faults.rise();
    }
}
