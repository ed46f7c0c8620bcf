//! The nodes and stations that a node knows.
ghost use Rattle.std.specs.Prelude.{◌≡◌, ◌≤◌, fold, reverse};
ghost use Rattle.hsr_node.specs.Record.{hearings_from, now, rows};
ghost use Rattle.hsr_tables.specs.Nodes.{heard as node_heard};
ghost use Rattle.hsr_devices.specs.Known.{hears_with, stations_known};

use arrayvec::ArrayVec;
use hsr_forwarding::hear as hear_life;
use hsr_frame::{Mac, RingPort};
use hsr_node::{Entry, Event, Place};
use hsr_table_demand::hear;
use hsr_tables::{NodeRow, NodeTable, ProxyTable, ROW_LIMIT};
use hsr_tag::look_at;

/// What a node knows: the nodes of which it heard supervision frames on the ring, and of a RedBox the stations that it
/// heard on its interlink, each with the moment in microseconds when it was heard last; the latest heard first.
#[derive(Clone, Drop)]
pub struct Known {
    pub nodes: ArrayVec<NodeRow, ROW_LIMIT>,
    pub stations: ArrayVec<(Mac, u64), ROW_LIMIT>,
}

/// The ring port that a port is, of a node that hears supervision frames, and the node's address.
pub(crate) fn hears_on(place: &Place, port: u8) -> Option<(Mac, RingPort)>
    ensures { result ≡ hears_with place.now port }
{
    match (place, port) {
        (Place::Danh { mac, .. } | Place::RedBox { mac, .. }, 0) => Some((*mac, RingPort::A)),
        (Place::Danh { mac, .. } | Place::RedBox { mac, .. }, 1) => Some((*mac, RingPort::B)),
        _ => None,
    }
}

/// Hears an event, at an effective moment in microseconds.
fn hear_node(nodes: &mut NodeTable, place: &Place, at: u64, event: &Event)
    requires { nodes.old.last ≤ at }
    ensures { nodes.new ≡ fold node_heard nodes.old (hearings_from place.now at event.now) }
{
    if let Event::Arrive { port, carried } = event
        && let Some(ear) = hears_on(place, *port)
    {
        hear_life(nodes, ear.0, ear.1, &look_at(carried.octets.as_slice()), at);
    }
}

/// What a record lets its node know at the moment of the last entry: the nodes that are in the node's own table, and the
/// stations.
pub fn known_by(place: &Place, entries: &[Entry]) -> Known
    ensures nodes { result.nodes.items ≡ rows place.now (reverse entries.now)
        (now (reverse entries.now)) }
    ensures stations { result.stations.items ≡ stations_known place.now (reverse entries.now) }
{
    let mut at = 0;
    // Heard anew from the record: a closed run doesn't show what its nodes hold.
    let mut nodes = NodeTable::new();
    let mut stations = ProxyTable::new();
    // The index is used by the loop's invariant alone.
    for (i, entry) in entries.iter().enumerate() {
        at = entry.at.max(at);
        hear_node(&mut nodes, place, at, &entry.event);
        hear(&mut stations, place, at, &entry.event);
    }
    Known {
        nodes: nodes.rows(at),
        stations: stations.list(at),
    }
}
