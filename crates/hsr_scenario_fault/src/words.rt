//! What is wrong with a scenario, and what would be right.
use hsr_scenario::Key;
use hsr_topology::TopologyFault;

/// What the value of a key of a node or a link may be.
fn values_of_parts(key: Key) -> &'static str {
    match key {
        Key::Capacity => "1 to 4096",
        Key::TimeUnit => "\"ms\" or \"us\"",
        Key::Name | Key::Stream => "1 to 32 small letters, digits and hyphens",
        Key::Role => "\"danh\", \"redbox\", \"quadbox\" or \"station\"",
        Key::Mac => "an address as \"02-00-00-00-00-01\"",
        Key::Mode => "\"H\", \"N\" or \"U\"",
        Key::Macs => "a list of 1 to 16 addresses",
        Key::Ends => "two ends as [\"ied1.B\", \"ied2.A\"]",
        _ =>
            "an array of tables, or tables under their own headers; in a step a node's name or a link's number, from 0",
    }
}

/// What the value of a key may be.
pub(crate) fn values_of(key: Key) -> &'static str {
    match key {
        Key::Do =>
            "\"clock\", \"send\", \"life\", \"age\", \"drain\", \"put\", \"take\", \"judge\", \"cut\", \"mend\" or \"inject\"",
        Key::At => "a moment in the scenario's unit, not negative",
        Key::To | Key::About => "an address as \"02-00-00-00-00-01\"",
        Key::Kind => "0 to 65535, as 0x88B8",
        Key::Payload | Key::Octets => "pairs of hexadecimal digits, as \"00FF\"",
        Key::Vlan => "0 to 65535: priority and VLAN, as 0x800A",
        Key::From => "0 to 15: the place of the address among the Station's own",
        Key::Port => "a node's port as \"ied1.A\"",
        Key::Dir => "\"forth\" or \"back\"",
        key => values_of_parts(key),
    }
}

/// Why nodes and links do not form a valid topology.
pub(crate) fn words_of(fault: TopologyFault) -> &'static str {
    match fault {
        TopologyFault::TooMany =>
            "over 64 nodes or 128 links (topology-1): bench a part of the network",
        TopologyFault::BadNode =>
            "a group's address, or a Station with none or with one twice (topology-2): a group's first octet is odd",
        TopologyFault::NoSuchPort =>
            "an end at a port that isn't there (topology-3): A and B, of a RedBox also I, of a QuadBox also C and D, of a Station P",
        TopologyFault::PortTwice =>
            "a port that is in two links, or is both ends of one (topology-4): give each link ports of its own",
        TopologyFault::WrongPeer =>
            "ends on one node, or an interlink that faces no Station (topology-5): join two nodes, and I of a RedBox with P of a Station",
    }
}
