ghost use Rattle.std.specs.Prelude.{◌≡◌, ◌++◌, ◌∷◌, [], ◌+◌, ◌-◌, ◌≤◌, ◌<◌, length, Some, None, IfOk, IfSome, IsNone};
ghost use Rattle.std.specs.Vec.{vec_capacity};
ghost use Rattle.std.specs.Option.{option_to_list};

use std::alloc::{AllocError, Global};
use std::collections::VecDeque;

/// Links that are given one after another, and those that were taken back, for which there is room from the start.
#[derive(Debug, Drop)]
pub(crate) struct Queue<L> {
    left: VecDeque<L>,
    back: Vec<L>,
    total: usize,
    ghost counted: { length back.items + length left.items ≤ total },
    ghost reserved: { total ≤ vec_capacity back },
}

impl<L: Drop> Queue<L> {
    pub(crate) fn new(alloc: Global, links: Vec<L>) -> Result<Queue<L>, AllocError>
        ensures left { IfOk result (λ queue. queue.left.items ≡ links.items) }
        ensures back { IfOk result (λ queue. queue.back.items ≡ []) }
        ensures total { IfOk result (λ queue. queue.total ≡ length links.items) }
    {
        let total = links.len();
        Ok(Queue {
            left: VecDeque::from(links),
            back: Vec::with_capacity(alloc, total)?,
            total,
        })
    }

    // How many links are still to be given.
    pub(crate) fn len(&self) -> usize
        ensures { result ≡ length self.now.left.items }
    {
        self.left.len()
    }

    // The links that were taken back.
    pub(crate) fn back(&self) -> &[L]
        ensures { result.now ≡ self.now.back.items }
    {
        self.back.as_slice()
    }

    // Gives the next link.
    pub(crate) fn next(&mut self) -> Option<L>
        ensures given { self.old.left.items ≡ option_to_list result ++ self.new.left.items }
        ensures none { IsNone result → self.old.left.items ≡ [] }
        ensures back { self.new.back.items ≡ self.old.back.items }
        ensures total { self.new.total ≡ self.old.total }
    {
        self.left.pop_front()
    }

    // Takes a link back.
    pub(crate) fn give_back(&mut self, link: L)
        requires { length self.old.back.items < self.old.total - length self.old.left.items }
        ensures back { self.new.back.items ≡ self.old.back.items ++ link ∷ [] }
        ensures left { self.new.left.items ≡ self.old.left.items }
        ensures total { self.new.total ≡ self.old.total }
    {
        let _ = self.back.push(link);
    }
}
