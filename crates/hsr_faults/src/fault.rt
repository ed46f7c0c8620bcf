//! Links and nodes that are off from the start.
ghost use Rattle.std.specs.Prelude.{◌≡◌};
ghost use Rattle.hsr_faults.specs.Fault.{has_end_at, is_link_off, is_link_off_by, is_node_off, is_node_off_by};

use hsr_topology::End;

/// A link or a node that is off from the start, by its number. With a node all its links are down.
#[derive(Clone, Copy, PartialEq, Eq)]
pub enum Off {
    Link(usize),
    Node(usize),
}

/// What is off: one link or node, or two of them.
#[derive(Clone, Copy, PartialEq, Eq)]
pub enum Fault {
    One(Off),
    Two(Off, Off),
}

/// Whether a link has an end at a node.
fn has_end_at(links: &[[End; 2]], link: usize, node: usize) -> bool
    ensures { result ≡ has_end_at node links.now link }
{
    match links.get(link) {
        Some([a, b]) => a.node == node || b.node == node,
        None => false,
    }
}

impl Off {
    /// Whether a link is down by it.
    fn is_link_off(self, links: &[[End; 2]], link: usize) -> bool
        ensures { result ≡ is_link_off_by links.now self link }
    {
        match self {
            Off::Link(number) => link == number,
            Off::Node(node) => has_end_at(links, link, node),
        }
    }

    /// Whether a node is off by it.
    fn is_node_off(self, node: usize) -> bool
        ensures { result ≡ is_node_off_by self node }
    {
        match self {
            Off::Link(_) => false,
            Off::Node(number) => node == number,
        }
    }
}

impl Fault {
    /// Whether a link is down: it is off, or one of its nodes is.
    pub fn is_link_off(self, links: &[[End; 2]], link: usize) -> bool
        ensures { result ≡ is_link_off links.now self link }
    {
        match self {
            Fault::One(off) => off.is_link_off(links, link),
            Fault::Two(a, b) => a.is_link_off(links, link) || b.is_link_off(links, link),
        }
    }

    /// Whether a node is off.
    pub fn is_node_off(self, node: usize) -> bool
        ensures { result ≡ is_node_off self node }
    {
        match self {
            Fault::One(off) => off.is_node_off(node),
            Fault::Two(a, b) => a.is_node_off(node) || b.is_node_off(node),
        }
    }
}
