//! Which node or link keeps nodes and links from being a valid topology.
use crate::keys::{table_in, text_at};
use hsr_frame::Mac;
use hsr_scenario::Spot;
use hsr_text::split_at;
use hsr_topology::TopologyFault;
use toml::{Table, Value};

/// More nodes and links than a topology has.
const MOST: usize = 256;

/// The text of that number of an array.
fn text_in<'a>(table: &'a Table, key: &str, number: usize) -> Option<&'a str> {
    table.get(key)?.as_array()?.get(number)?.as_str()
}

/// The two ends of the link of that number.
fn ends_of(document: &Table, number: usize) -> Option<(&str, &str)> {
    let link = table_in(document, "link", number)?;
    Some((text_in(link, "ends", 0)?, text_in(link, "ends", 1)?))
}

// ---- a node

fn is_group(text: &str) -> bool {
    match Mac::from_text(text) {
        Ok(mac) => mac.is_group(),
        Err(_) => false,
    }
}

/// The address that a value is, whatever the case of its digits.
fn mac_of(value: &Value) -> Option<Mac> {
    match Mac::from_text(value.as_str()?) {
        Ok(mac) => Some(mac),
        Err(_) => None,
    }
}

/// Whether the address at an index among others is a group's, or stands again further on.
fn is_bad_among(macs: &[Value], at: usize) -> bool {
    let Some(mac) = macs.get(at).and_then(mac_of) else {
        return false;
    };
    let Some(rest) = at.checked_add(1).and_then(|next| macs.get(next..)) else {
        return false;
    };
    mac.is_group() || rest.iter().any(|other| mac_of(other) == Some(mac))
}

/// Whether a Station has no address, a group's, or one twice.
fn is_bad_station(macs: &[Value]) -> bool {
    for at in 0..macs.len() {
        if is_bad_among(macs, at) {
            return true;
        }
    }
    macs.is_empty()
}

/// Whether no topology has such a node.
fn is_bad_node(node: &Table) -> bool {
    match node.get("macs") {
        Some(macs) => match macs.as_array() {
            Some(macs) => is_bad_station(macs.as_slice()),
            None => false,
        },
        None => is_group(text_at(node, "mac")),
    }
}

/// The first node that no topology has.
fn first_bad_node(document: &Table) -> Option<usize> {
    // A loop with a bound has an end by its form. The list of a document ends before.
    for number in 0..MOST {
        if is_bad_node(table_in(document, "node", number)?) {
            return Some(number);
        }
    }
    None
}

// ---- a link

/// Whether a link with a number below this one has the end.
fn is_used(document: &Table, below: usize, end: &str) -> bool {
    for number in 0..below {
        if let Some((one, other)) = ends_of(document, number) {
            // An end has one spelling, so its text tells it.
            if one == end || other == end {
                return true;
            }
        }
    }
    false
}

/// Whether the letter of an interlink's end stands there.
fn has_letter(end: &str, letter: &[u8]) -> bool {
    split_at(end.as_bytes(), b'.').1 == Some(letter)
}

/// Whether an interlink faces no Station.
fn faces_wrongly(end: &str, peer: &str) -> bool {
    has_letter(end, b"I") && !has_letter(peer, b"P")
}

/// Whether a link's ends are on one node, or an interlink faces no Station.
fn is_wrong_peer(one: &str, other: &str) -> bool {
    split_at(one.as_bytes(), b'.').0 == split_at(other.as_bytes(), b'.').0
        || faces_wrongly(one, other)
        || faces_wrongly(other, one)
}

/// Whether the link of that number has the fault.
fn has_fault(
    document: &Table,
    number: usize,
    one: &str,
    other: &str,
    fault: TopologyFault,
) -> bool {
    match fault {
        TopologyFault::PortTwice => one == other
            || is_used(document, number, one)
            || is_used(document, number, other),
        TopologyFault::WrongPeer => is_wrong_peer(one, other),
        TopologyFault::TooMany | TopologyFault::BadNode | TopologyFault::NoSuchPort => false,
    }
}

/// The first link with the fault.
fn first_bad_link(document: &Table, fault: TopologyFault) -> Option<usize> {
    for number in 0..MOST {
        let (one, other) = ends_of(document, number)?;
        if has_fault(document, number, one, other, fault) {
            return Some(number);
        }
    }
    None
}

/// The node or the link that keeps them from being a valid topology.
pub(crate) fn spot_of(document: &Table, fault: TopologyFault) -> Spot {
    let node = match fault {
        TopologyFault::BadNode => first_bad_node(document),
        _ => None,
    };
    match node {
        Some(number) => Spot::Node(number),
        None => match first_bad_link(document, fault) {
            Some(number) => Spot::Link(number),
            None => Spot::Top,
        },
    }
}
