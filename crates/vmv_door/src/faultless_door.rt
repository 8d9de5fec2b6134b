ghost use Rattle.std.specs.Prelude.{◌≡◌, ◌↔◌, ◌+◌, ◌<◌, [], true, false, length, Some, None, Ok, IfOk, IsOk};
ghost use Rattle.vmv_door.specs.Links.{IsGiven, count_of, with_back};
ghost use Rattle.vmv_door.specs.Forms.{whole_links, is_whole_open, no_whole_left, whole_given, whole_back};

use crate::door::Door;
use crate::queue::Queue;
use std::alloc::{AllocError, Global};
use vmv_edge::{Failed, FaultlessLink};

/// A door in memory that never fails, which gives some links that never fail and keeps those that are given back.
///
/// It has ended where no link is left.
#[derive(Debug, Drop)]
pub struct FaultlessDoor {
    queue: Queue<FaultlessLink>,
    listening: bool,
}

impl FaultlessDoor {
    /// A door with these links. It fails where there is no memory to keep as many links that are given back.
    pub fn new(alloc: Global, links: Vec<FaultlessLink>) -> Result<FaultlessDoor, AllocError>
        ensures left { IfOk result (λ door. whole_links door ≡ record { left = links.items; back = [] }) }
        ensures closed { IfOk result (λ door. is_whole_open door ≡ false) }
        ensures none { IfOk result (λ door. whole_given door ≡ 0) }
    {
        Ok(FaultlessDoor {
            queue: Queue::new(alloc, links)?,
            listening: false,
        })
    }

    /// The links that were given back, in their order.
    pub fn back(&self) -> &[FaultlessLink]
        ensures { result.now ≡ (whole_links self.now).back }
    {
        self.queue.back()
    }

    /// How many links are still to be given.
    pub fn left(&self) -> usize
        ensures { result ≡ length (whole_links self.now).left }
    {
        self.queue.len()
    }

    /// Whether the last `listen` was answered Ok.
    pub fn listens(&self) -> bool
        ensures { result ≡ is_whole_open self.now }
    {
        self.listening
    }
}

impl Door for FaultlessDoor {
    type Link = FaultlessLink;

    ghost use Rattle.std.proofs.Common.{arith};

    ghost is_listening = { is_whole_open };

    ghost has_ended = { no_whole_left };

    ghost given = { whole_given };

    ghost given_back = { whole_back };

    ghost told = { λ door. Some (whole_links door) };

    ghost fault_count = { λ _. 0 };

    fn listen(&mut self, _address: &str) -> Result<(), Failed>
        ensures fine { result ≡ Ok tt }
        ensures listens { is_whole_open self.new ≡ true }
        ensures links { whole_links self.new ≡ whole_links self.old }
        ensures given { whole_given self.new ≡ whole_given self.old }
    {
        self.listening = true;
        Ok(())
    }

    fn next(&mut self) -> Result<Option<FaultlessLink>, Failed>
        ensures fine { IsOk result }
        ensures given { whole_given self.new ≡ whole_given self.old + count_of result }
        ensures told { IsGiven result (Some (whole_links self.old)) (Some (whole_links self.new)) }
        ensures ended { result ≡ Ok None ↔ no_whole_left self.old ≡ true }
        ensures listens { is_whole_open self.new ≡ is_whole_open self.old }
    {
        Ok(self.queue.next())
    }

    fn give_back(&mut self, link: FaultlessLink)
        requires { whole_back self.old < whole_given self.old }
        ensures told { whole_links self.new ≡ with_back link (whole_links self.old) }
        ensures given { whole_given self.new ≡ whole_given self.old }
        ensures listens { is_whole_open self.new ≡ is_whole_open self.old }
    {
        self.queue.give_back(link);
    }

    fn faults(&self) -> u64 {
        0
    }

    ghost within = { λ door. Prim.omega (arith, door.queue.counted) };
}
