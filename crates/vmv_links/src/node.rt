//! Nodes of rings, which are linked by their places in one table.

ghost use Rattle.std.specs.Prelude.{◌≡◌, ◌<◌, length};
ghost use Rattle.vmv_links.specs.Nodes.{after_at, before_at, owner_at, AreInside, IsCutOut, IsLinked, IsOwned, IsPutIn};

/// A node, which knows the nodes before and behind it, and the list that it stands in.
#[derive(Clone, Copy)]
pub struct Node {
    pub before: usize,
    pub after: usize,
    pub list: Option<u32>,
}

/// The place of the node behind a node.
pub fn after(nodes: &[Node], place: usize) -> usize
    requires { place < length nodes.now }
    ensures { result ≡ after_at nodes.now place }
{
    nodes[place].after
}

/// The place of the node before a node.
pub fn before(nodes: &[Node], place: usize) -> usize
    requires { place < length nodes.now }
    ensures { result ≡ before_at nodes.now place }
{
    nodes[place].before
}

/// The list that a node stands in.
pub fn owner(nodes: &[Node], place: usize) -> Option<u32>
    requires { place < length nodes.now }
    ensures { result ≡ owner_at nodes.now place }
{
    nodes[place].list
}

/// Sets the links between two nodes.
pub fn link(nodes: &mut [Node], from: usize, to: usize)
    requires from_in { from < length nodes.old }
    requires to_in { to < length nodes.old }
    ensures { IsLinked nodes.old nodes.new from to }
{
    nodes[from].after = to;
    nodes[to].before = from;
}

/// Sets the list of a node.
pub fn own(nodes: &mut [Node], place: usize, list: Option<u32>)
    requires { place < length nodes.old }
    ensures { IsOwned nodes.old nodes.new place list }
{
    nodes[place].list = list;
}

/// Cuts a node out of its links and its list.
pub fn cut(nodes: &mut [Node], place: usize)
    requires place { place < length nodes.old }
    requires inside { AreInside nodes.old }
    ensures { IsCutOut nodes.old nodes.new place }
{
    let from = before(nodes, place);
    let to = after(nodes, place);
    link(nodes, from, to);
    own(nodes, place, None);
}

/// Puts a node before another one and into a list.
pub fn put(nodes: &mut [Node], place: usize, end: usize, list: u32)
    requires place { place < length nodes.old }
    requires end { end < length nodes.old }
    requires inside { AreInside nodes.old }
    ensures { IsPutIn nodes.old nodes.new place end list }
{
    let last = before(nodes, end);
    link(nodes, last, place);
    link(nodes, place, end);
    own(nodes, place, Some(list));
}
