ghost use Rattle.std.specs.Prelude.{◌≡◌, ℕ, ◌<◌, ◌↔◌, [], ◌∷◌, ◌++◌, List, Some, None, IfOk, IfSome, IsTrue, drop, length, map, replicate, slice_set};
ghost use Rattle.std.specs.Bool.{OnFalse};
ghost use Rattle.vmv_links.specs.Nodes.{number_of};
ghost use Rattle.vmv_links.specs.Lists.{IsApart, IsListed, StandsIn, first_of, list_at, without};

use crate::node;
use crate::node::Node;
pub use std::alloc::AllocError as Memory;
use std::alloc::Global;
use std::marker::Model;

/// Lists of numbers below a bound, each number in at most one of them.
///
/// Contracts see the bound as `size` and the lists as `lists`.
///
/// The nodes of the table are the numbers, and behind them one node for each list, its end, which is
/// linked with the list's first and last number (Cormen, Leiserson, Rivest and Stein, Introduction to
/// Algorithms, section 10.2, lists with a sentinel).
#[derive(Drop)]
pub struct Links {
    nodes: Vec<Node>,
    size: u32,
    lists: u32,
}

// Clauses see the bound and the lists.
impl Model for Links {
    ghost use Rattle.std.specs.Prelude.{◌≡◌, ◌+◌};
    ghost use Rattle.std.specs.Vec.{vec_len};
    ghost use Rattle.vmv_links.specs.Lists.{Lists};
    ghost use Rattle.vmv_links.specs.Nodes.{after_at, before_at, owner_at, AreInside};
    ghost use Rattle.vmv_links.specs.Rings.{lists_of, Spells};

    ghost Value = { Lists };

    ghost view = { λ a. record { size = a.size; lists = lists_of (after_at a.nodes.items) a.size a.lists } };

    ghost invariant = { λ a. (vec_len a.nodes ≡ a.size + a.lists)
        × AreInside a.nodes.items
        × Spells (after_at a.nodes.items) (before_at a.nodes.items) (owner_at a.nodes.items) a.size (lists_of (after_at a.nodes.items) a.size a.lists) };
}

impl Links {
    /// `k` empty lists, for the numbers below `n`.
    pub fn make(alloc: Global, n: u32, k: u32) -> Result<Self, Memory>
        ensures { IfOk result (λ links. links ≡ record { size = n; lists = replicate k [] }) }
    {
        let places = n as usize + k as usize;
        let mut nodes = Vec::with_capacity(alloc, places)?;
        for place in 0..places {
            nodes.push(Node {
                before: place,
                after: place,
                list: None,
            })?;
        }
        Ok(Links {
            nodes,
            size: n,
            lists: k,
        })
    }

    /// Puts a number that is in no list at the end of a list. No other list changes.
    pub fn push_back(&mut self, list: u32, item: u32)
        requires list { list < length self.old.lists }
        requires item { item < self.old.size }
        requires free { ¬ IsListed self.old.lists item }
        ensures lists { self.new.lists ≡ slice_set self.old.lists list (list_at self.old.lists list ++ item ∷ []) }
        ensures size { self.new.size ≡ self.old.size }
    {
        let end = self.size as usize + list as usize;
        node::put(&mut self.nodes, item as usize, end, list);
    }

    /// Takes the first number of a list off, and gives `None` exactly where the list is empty. No other
    /// list changes.
    pub fn pop_front(&mut self, list: u32) -> Option<u32>
        requires { list < length self.old.lists }
        ensures first { result ≡ first_of (list_at self.old.lists list) }
        ensures below { IfSome result (λ item. item < self.old.size) }
        ensures lists { self.new.lists ≡ slice_set self.old.lists list (drop 1 (list_at self.old.lists list)) }
        ensures size { self.new.size ≡ self.old.size }
    {
        let end = self.size as usize + list as usize;
        let place = node::after(&self.nodes, end);
        let item = number(self.size, place)?;
        node::cut(&mut self.nodes, place);
        Some(item)
    }

    /// Takes a number out of its list, the others of which keep their order. It is false exactly where
    /// the number is in no list, and then nothing changes.
    pub fn take_out(&mut self, item: u32) -> bool
        requires { item < self.old.size }
        ensures listed { IsTrue result ↔ IsListed self.old.lists item }
        ensures lists { self.new.lists ≡ map (without item) self.old.lists }
        ensures size { self.new.size ≡ self.old.size }
        ensures same { OnFalse result (self.new ≡ self.old) }
    {
        let place = item as usize;
        if node::owner(&self.nodes, place).is_none() {
            return false;
        }
        node::cut(&mut self.nodes, place);
        true
    }

    /// The list that a number is in, and `None` exactly where it is in no list.
    pub fn is_in(&self, item: u32) -> Option<u32>
        requires { item < self.now.size }
        ensures list { (l : ℕ) → (result ≡ Some l) ↔ StandsIn self.now.lists l item }
        ensures none { (result ≡ None) ↔ ¬ IsListed self.now.lists item }
    {
        node::owner(&self.nodes, item as usize)
    }

    /// The first number of a list, and `None` exactly where the list is empty.
    pub fn first(&self, list: u32) -> Option<u32>
        requires { list < length self.now.lists }
        ensures first { result ≡ first_of (list_at self.now.lists list) }
        ensures below { IfSome result (λ item. item < self.now.size) }
    {
        let end = self.size as usize + list as usize;
        number(self.size, node::after(&self.nodes, end))
    }

    /// The number behind a number in its list, and `None` exactly where it is the last one of its list
    /// or in no list.
    pub fn next(&self, item: u32) -> Option<u32>
        requires { item < self.now.size }
        ensures listed { (l : ℕ) (front back : List ℕ) → l < length self.now.lists → list_at self.now.lists l ≡ front ++ item ∷ back → result ≡ first_of back }
        ensures unlisted { ¬ IsListed self.now.lists item → result ≡ None }
        ensures below { IfSome result (λ other. other < self.now.size) }
    {
        let place = item as usize;
        if node::owner(&self.nodes, place).is_none() {
            return None;
        }
        number(self.size, node::after(&self.nodes, place))
    }

    /// A law: each list has numbers below the bound, none of them twice, and no number is in two lists.
    pub fn each_in_one_list(&self)
        ensures { IsApart self.now }
    {
        let _nodes = &self.nodes;
    }
}

/// The number of a node, where it isn't an end.
fn number(size: u32, place: usize) -> Option<u32>
    ensures number { result ≡ number_of size place }
    ensures below { IfSome result (λ item. item < size) }
{
    if place < size as usize {
        Some(place as u32)
    } else {
        None
    }
}
