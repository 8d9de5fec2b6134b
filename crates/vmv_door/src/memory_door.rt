ghost use Rattle.std.specs.Prelude.{◌≡◌, ◌↔◌, ◌+◌, ◌≤◌, ◌<◌, [], true, false, length, is_ok, Some, Ok, None, IfOk, OnOk, OnErr, IsErr, IsOk, IsTrue};
ghost use Rattle.vmv_edge.specs.Outside.{Rose};
ghost use Rattle.vmv_edge.specs.Calls.{AreUnused, IsOneMore, IsSameCall, is_to_fail, failed_calls};
ghost use Rattle.vmv_door.specs.Links.{IsGiven, count_of, with_back};
ghost use Rattle.vmv_door.specs.Forms.{door_calls, door_links, is_open, none_left, given_of, back_of};

use crate::door::Door;
use crate::queue::Queue;
use std::alloc::{AllocError, Global};
use vmv_edge::{Calls, Failed, MemoryLink};

/// A door in memory, with a list of calls that are to fail, which gives some links and keeps those that are given back.
///
/// It has ended where no link is left.
#[derive(Debug, Drop)]
pub struct MemoryDoor {
    queue: Queue<MemoryLink>,
    listening: bool,
    calls: Calls,
}

impl MemoryDoor {
    /// A door with these links, whose calls of `listen` and `next` with these numbers fail, both counted together, the
    /// first being 1. It fails where there is no memory to keep as many links that are given back.
    pub fn new(
        alloc: Global,
        links: Vec<MemoryLink>,
        failing: Vec<u64>,
    ) -> Result<MemoryDoor, AllocError>
        ensures left { IfOk result (λ door. door_links door ≡ record { left = links.items; back = [] }) }
        ensures closed { IfOk result (λ door. is_open door ≡ false) }
        ensures none { IfOk result (λ door. given_of door ≡ 0) }
        ensures unused { IfOk result (λ door. AreUnused (door_calls door) failing.items) }
    {
        Ok(MemoryDoor {
            queue: Queue::new(alloc, links)?,
            listening: false,
            calls: Calls::new(failing),
        })
    }

    /// The links that were given back, in their order.
    pub fn back(&self) -> &[MemoryLink]
        ensures { result.now ≡ (door_links self.now).back }
    {
        self.queue.back()
    }

    /// How many links are still to be given.
    pub fn left(&self) -> usize
        ensures { result ≡ length (door_links self.now).left }
    {
        self.queue.len()
    }

    /// Whether the last `listen` was answered Ok.
    pub fn listens(&self) -> bool
        ensures { result ≡ is_open self.now }
    {
        self.listening
    }
}

impl Door for MemoryDoor {
    type Link = MemoryLink;

    ghost use Rattle.std.proofs.Common.{arith};

    ghost is_listening = { is_open };

    ghost has_ended = { none_left };

    ghost given = { given_of };

    ghost given_back = { back_of };

    ghost told = { λ door. Some (door_links door) };

    ghost fault_count = { λ door. failed_calls (door_calls door) };

    fn listen(&mut self, _address: &str) -> Result<(), Failed>
        ensures listens { is_open self.new ≡ is_ok result }
        ensures ended { none_left self.new ≡ none_left self.old }
        ensures given { given_of self.new ≡ given_of self.old }
        ensures given_back { back_of self.new ≡ back_of self.old }
        ensures told { Some (door_links self.new) ≡ Some (door_links self.old) }
        ensures failed { OnErr result (Rose (failed_calls (door_calls self.old)) (failed_calls (door_calls self.new))) }
        ensures stands { OnOk result (failed_calls (door_calls self.new) ≡ failed_calls (door_calls self.old)) }
        ensures later { failed_calls (door_calls self.old) ≤ failed_calls (door_calls self.new) }
        ensures fails { IsErr result ↔ IsTrue (is_to_fail (door_calls self.old)) }
        ensures counted { IsOneMore (door_calls self.old) (door_calls self.new) }
    {
        self.listening = !self.calls.begin();
        if !self.listening {
            self.calls.fail();
            return Err(Failed);
        }
        Ok(())
    }

    fn next(&mut self) -> Result<Option<MemoryLink>, Failed>
        ensures ended { result ≡ Ok None → (none_left self.old ≡ true) × (none_left self.new ≡ true) }
        ensures refused { OnErr result (none_left self.new ≡ none_left self.old) }
        ensures given { given_of self.new ≡ given_of self.old + count_of result }
        ensures given_back { back_of self.new ≡ back_of self.old }
        ensures told { IsGiven result (Some (door_links self.old)) (Some (door_links self.new)) }
        ensures listens { is_open self.new ≡ is_open self.old }
        ensures failed { OnErr result (Rose (failed_calls (door_calls self.old)) (failed_calls (door_calls self.new))) }
        ensures stands { OnOk result (failed_calls (door_calls self.new) ≡ failed_calls (door_calls self.old)) }
        ensures later { failed_calls (door_calls self.old) ≤ failed_calls (door_calls self.new) }
        ensures fails { IsErr result ↔ IsTrue (is_to_fail (door_calls self.old)) }
        ensures counted { IsOneMore (door_calls self.old) (door_calls self.new) }
    {
        if self.calls.begin() {
            self.calls.fail();
            return Err(Failed);
        }
        Ok(self.queue.next())
    }

    fn give_back(&mut self, link: MemoryLink)
        requires { back_of self.old < given_of self.old }
        ensures given_back { back_of self.new ≡ back_of self.old + 1 }
        ensures given { given_of self.new ≡ given_of self.old }
        ensures told { Some (door_links self.new) ≡ Some (with_back link (door_links self.old)) }
        ensures ended { none_left self.new ≡ none_left self.old }
        ensures listens { is_open self.new ≡ is_open self.old }
        ensures stands { failed_calls (door_calls self.new) ≡ failed_calls (door_calls self.old) }
        ensures calls { IsSameCall (door_calls self.old) (door_calls self.new) }
    {
        self.queue.give_back(link);
    }

    fn faults(&self) -> u64 {
        self.calls.faults()
    }

    ghost within = { λ door. Prim.omega (arith, door.queue.counted) };
}
