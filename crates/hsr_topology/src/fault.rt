//! Why nodes and links do not form a valid topology.
ghost use Rattle.std.specs.Prelude.{◌≡◌};
ghost use Rattle.hsr_topology.specs.Fault.{topology_fault_code};

/// Why nodes and links do not form a valid topology, in the order in which the reasons are tried.
#[derive(Clone, Copy, Debug, PartialEq, Eq)]
pub enum TopologyFault {
    /// There are over 64 nodes or over 128 links.
    TooMany,
    /// A node has the address of a group, or a Station has no address, or one twice.
    BadNode,
    /// A link's end names a node or a port that isn't there.
    NoSuchPort,
    /// A port is used by an earlier link, or by both ends of one.
    PortTwice,
    /// A link's ends are on one node, or an interlink faces no Station.
    WrongPeer,
}

impl TopologyFault {
    /// Its number in texts, 1 to 5.
    pub fn code(&self) -> u8
        ensures { result ≡ topology_fault_code self.now }
    {
        match self {
            TopologyFault::TooMany => 1,
            TopologyFault::BadNode => 2,
            TopologyFault::NoSuchPort => 3,
            TopologyFault::PortTwice => 4,
            TopologyFault::WrongPeer => 5,
        }
    }
}
