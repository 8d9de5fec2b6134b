ghost use Rattle.std.specs.Prelude.{◌≡◌, ◌==◌, [], length, nat_le, IfOk};
ghost use Rattle.std.specs.List.{list_any};
ghost use Rattle.vmv_keeper.specs.Formed.{is_bench_of};
ghost use Rattle.vmv_desk.specs.Queues.{with_number, without_number};

use crate::places::{FREE, PENDING, place_of, waiting};
use std::alloc::{AllocError, Global};
use std::marker::Model;
use vmv_keeper::Label;
use vmv_links::Links;

/// The submissions of a project that wait, the oldest first, by their numbers: 32 at most.
///
/// A contract sees the project's owner and name, and the numbers.
#[derive(Drop)]
pub(crate) struct Queue {
    owner: Label,
    name: Label,
    numbers: Vec<u32>,
    links: Links,
}

impl Model for Queue {
    ghost use Rattle.vmv_keeper.specs.declared.project.Bench.{Bench};

    ghost Value = { Bench };

    ghost use Rattle.vmv_desk.specs.Queues.{numbers_in, IsQueue};

    ghost view = { λ q. record { owner = q.owner; name = q.name; pending = numbers_in q.numbers.items q.links } };

    ghost invariant = { λ q. IsQueue q.numbers.items q.links };
}

impl Queue {
    /// An empty queue. It fails where there is no memory.
    pub(crate) fn make(alloc: Global, owner: &Label, name: &Label) -> Result<Queue, AllocError>
        ensures { IfOk result (λ queue. queue ≡ record { owner = owner.now; name = name.now; pending = [] }) }
    {
        let mut numbers = Vec::with_capacity(alloc, 32)?;
        let mut links = Links::make(alloc, 32, 2)?;
        for place in 0..32 {
            numbers.push(0)?;
            links.push_back(FREE, place);
        }
        Ok(Queue {
            owner: *owner,
            name: *name,
            numbers,
            links,
        })
    }

    /// Whether the queue is that of the project of this owner and name.
    pub(crate) fn is_of(&self, owner: &Label, name: &Label) -> bool
        ensures { result ≡ is_bench_of owner.now name.now self.now }
    {
        self.owner == *owner && self.name == *name
    }

    /// The project's owner.
    pub(crate) fn owner(&self) -> &Label
        ensures { result.now ≡ self.now.owner }
    {
        &self.owner
    }

    /// Whether 32 submissions wait.
    pub(crate) fn is_full(&self) -> bool
        ensures { result ≡ nat_le 32 (length self.now.pending) }
    {
        self.links.first(FREE).is_none()
    }

    /// Whether the submission of this number waits.
    pub(crate) fn holds(&self, number: u32) -> bool
        ensures { result ≡ list_any (λ n. n == number) self.now.pending }
    {
        place_of(&self.numbers, &self.links, number).is_some()
    }

    /// The numbers, in their order. It fails where there is no memory.
    pub(crate) fn pending(&self, alloc: Global) -> Result<Vec<u32>, AllocError>
        ensures { IfOk result (λ numbers. numbers.items ≡ self.now.pending) }
    {
        waiting(alloc, &self.numbers, &self.links)
    }

    /// Puts a number behind the others, where there is a free place.
    pub(crate) fn push(&mut self, number: u32)
        ensures { self.new ≡ with_number number self.old }
    {
        self.links.each_in_one_list();
        if let Some(place) = self.links.pop_front(FREE) {
            self.numbers[place as usize] = number;
            self.links.push_back(PENDING, place);
        }
    }

    /// Takes the first number out that is this one.
    pub(crate) fn remove(&mut self, number: u32)
        ensures { self.new ≡ without_number number self.old }
    {
        self.links.each_in_one_list();
        if let Some(place) = place_of(&self.numbers, &self.links, number) {
            self.links.take_out(place);
            self.links.push_back(FREE, place);
        }
    }
}
