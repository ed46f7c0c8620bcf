//! Where the ports of nodes lead.
ghost use Rattle.std.specs.Prelude.{◌≡◌, ◌<◌, [], ◌∷◌, IfSome, length};
ghost use Rattle.hsr_runner.specs.Wires.{other, wire_at};

use hsr_link::Dir;
use hsr_topology::{End, Topology};

/// The link of a port, and the direction in which copies leave the port on it.
#[derive(Clone, Copy, PartialEq, Eq)]
pub(crate) struct Wire {
    pub(crate) link: usize,
    pub(crate) out: Dir,
}

impl Wire {
    /// The direction in which copies come to the port.
    pub(crate) fn into(self) -> Dir
        ensures { result ≡ other self.out }
    {
        match self.out {
            Dir::Forth => Dir::Back,
            Dir::Back => Dir::Forth,
        }
    }
}

/// Where a port of a node leads, each by its number; `None` for a port without a link, or that isn't there.
pub(crate) fn wire_at(topology: &Topology, node: usize, port: u8) -> Option<Wire>
    ensures exact { result ≡ wire_at topology.now node port }
    ensures there { IfSome result (λ wire. wire.link < length topology.now.links) }
{
    let (link, is_first) = topology.link_at(End { node, port })?;
    let out = if is_first { Dir::Forth } else { Dir::Back };
    Some(Wire { link, out })
}

/// Where the ports of a node lead, by their numbers.
pub(crate) fn wires_of(topology: &Topology, node: usize) -> [Option<Wire>; 4]
    ensures { result ≡ wire_at topology.now node 0 ∷ wire_at topology.now node 1
        ∷ wire_at topology.now node 2 ∷ wire_at topology.now node 3 ∷ [] }
{
    [
        wire_at(topology, node, 0),
        wire_at(topology, node, 1),
        wire_at(topology, node, 2),
        wire_at(topology, node, 3),
    ]
}
