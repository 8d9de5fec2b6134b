ghost use Rattle.std.specs.Prelude.{◌≡◌, ◌≤◌};
ghost use Rattle.vmv_edge.specs.Outside.{Rose};

/// How many calls of a thing outside have failed.
#[derive(Debug, Drop)]
pub(crate) struct Faults {
    count: u64,
}

impl Faults {
    pub(crate) fn none() -> Faults
        ensures { result.count ≡ 0 }
    {
        Faults { count: 0 }
    }

    pub(crate) fn count(&self) -> u64
        ensures { result ≡ self.now.count }
    {
        self.count
    }

    // Counts one more, where the type has a greater number.
    pub(crate) fn rise(&mut self)
        ensures counted { Rose self.old.count self.new.count }
        ensures later { self.old.count ≤ self.new.count }
    {
        self.count = self.count.saturating_add(1);
    }
}
