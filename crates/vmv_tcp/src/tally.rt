//! How many links a door has given, and how many it was given back.

ghost use Rattle.std.specs.Prelude.{◌≡◌, ◌+◌, ◌-◌, ◌^◌, ◌≤◌, ◌<◌, IsTrue};

/// Two counts, of which the second is never the greater.
#[derive(Debug, Drop)]
pub(crate) struct Tally {
    given: u64,
    back: u64,
    ghost within: { back ≤ given },
}

impl Tally {
    pub(crate) fn none() -> Tally
        ensures given { result.given ≡ 0 }
        ensures back { result.back ≡ 0 }
    {
        Tally { given: 0, back: 0 }
    }

    // Whether one more can be counted.
    pub(crate) fn has_room(&self) -> bool
        ensures { IsTrue result → self.now.given < 2 ^ 64 - 1 }
    {
        self.given < u64::MAX
    }

    pub(crate) fn give(&mut self)
        requires { self.old.given < 2 ^ 64 - 1 }
        ensures given { self.new.given ≡ self.old.given + 1 }
        ensures back { self.new.back ≡ self.old.back }
    {
        self.given += 1;
    }

    pub(crate) fn take_back(&mut self)
        requires { self.old.back < self.old.given }
        ensures given { self.new.given ≡ self.old.given }
        ensures back { self.new.back ≡ self.old.back + 1 }
    {
        self.back += 1;
    }
}
