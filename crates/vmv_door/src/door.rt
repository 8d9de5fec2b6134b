ghost use Rattle.std.specs.Prelude.{◌≡◌, ◌+◌, ◌≤◌, ◌<◌, ℕ, Bool, true, is_ok, Option, None, Ok, OnOk, OnErr};
ghost use Rattle.std.specs.Option.{option_map};
ghost use Rattle.vmv_edge.specs.Outside.{Rose};
ghost use Rattle.vmv_door.specs.Links.{Links, IsGiven, count_of, with_back};

use vmv_edge::{Failed, Link};

/// What listens for connections, and gives them as links one after another.
pub trait Door {
    /// A link that it gives.
    type Link: Link;

    // the last `listen` was answered Ok
    ghost is_listening: { Self → Bool };

    // no link comes any more
    ghost has_ended: { Self → Bool };

    // how many links were given
    ghost given: { Self → ℕ };

    // how many links were given back
    ghost given_back: { Self → ℕ };

    // the links that are still to be given, and those that were given back, where the door tells them
    ghost told: { Self → Option (Links Self.Link) };

    // how many calls have failed
    ghost fault_count: { Self → ℕ };

    /// Listens at an address. It takes no memory.
    fn listen(&mut self, address: &str) -> Result<(), Failed>
        ensures listens { is_listening self.new ≡ is_ok result }
        ensures ended { has_ended self.new ≡ has_ended self.old }
        ensures given { given self.new ≡ given self.old }
        ensures given_back { given_back self.new ≡ given_back self.old }
        ensures told { told self.new ≡ told self.old }
        ensures failed { OnErr result (Rose (fault_count self.old) (fault_count self.new)) }
        ensures stands { OnOk result (fault_count self.new ≡ fault_count self.old) }
        ensures later { fault_count self.old ≤ fault_count self.new };

    /// The next link, or none where the door has ended. It takes no memory.
    fn next(&mut self) -> Result<Option<Self::Link>, Failed>
        ensures ended { result ≡ Ok None → (has_ended self.old ≡ true) × (has_ended self.new ≡ true) }
        ensures refused { OnErr result (has_ended self.new ≡ has_ended self.old) }
        ensures given { given self.new ≡ given self.old + count_of result }
        ensures given_back { given_back self.new ≡ given_back self.old }
        ensures told { IsGiven result (told self.old) (told self.new) }
        ensures listens { is_listening self.new ≡ is_listening self.old }
        ensures failed { OnErr result (Rose (fault_count self.old) (fault_count self.new)) }
        ensures stands { OnOk result (fault_count self.new ≡ fault_count self.old) }
        ensures later { fault_count self.old ≤ fault_count self.new };

    /// Takes a link back whose connection is done. It takes no memory.
    fn give_back(&mut self, link: Self::Link)
        requires { given_back self.old < given self.old }
        ensures given_back { given_back self.new ≡ given_back self.old + 1 }
        ensures given { given self.new ≡ given self.old }
        ensures told { told self.new ≡ option_map (with_back link) (told self.old) }
        ensures ended { has_ended self.new ≡ has_ended self.old }
        ensures listens { is_listening self.new ≡ is_listening self.old }
        ensures stands { fault_count self.new ≡ fault_count self.old };

    /// How many calls have failed. It never falls, and stands at its last value.
    fn faults(&self) -> u64
        ensures { result ≡ fault_count self.now };

    // no more links are given back than were given
    ghost within: { (door : Self) → given_back door ≤ given door };
}
