//! The ends of links.
ghost use Rattle.std.specs.Prelude.{◌≡◌};
ghost use Rattle.hsr_topology.specs.Links.{faces_wrongly, has_port, is_interlink, is_same_end, is_station};

use hsr_node::Place;

/// An end of a link: a port of a node, each by its number.
/// A and B are 0 and 1, a RedBox's interlink is 2, a QuadBox's C and D are 2 and 3, and a Station's port is 0.
#[derive(Clone, Copy, PartialEq, Eq)]
pub struct End {
    pub node: usize,
    pub port: u8,
}

/// Whether two ends are one port.
/// Nodes and ports are compared by their numbers, whether they are there or not.
pub fn is_same_end(a: End, b: End) -> bool
    ensures { result ≡ is_same_end a b }
{
    a.node == b.node && a.port == b.port
}

/// Whether the node of an end is there, and has its port.
pub(crate) fn has_port(places: &[Place], end: End) -> bool
    ensures { result ≡ has_port places.now end }
{
    match places.get(end.node) {
        Some(place) => end.port < place.ports(),
        None => false,
    }
}

/// Whether an end is the interlink of a RedBox.
fn is_interlink(places: &[Place], end: End) -> bool
    ensures { result ≡ is_interlink places.now end }
{
    match places.get(end.node) {
        // A RedBox has ports 0 (A), 1 (B) and 2 (I), its interlink.
        Some(Place::RedBox { .. }) => end.port == 2,
        _ => false,
    }
}

/// Whether an end is on a Station.
fn is_station(places: &[Place], end: End) -> bool
    ensures { result ≡ is_station places.now end }
{
    matches!(places.get(end.node), Some(Place::Station { .. }))
}

/// Whether an end is an interlink that faces no Station.
pub(crate) fn faces_wrongly(places: &[Place], end: End, peer: End) -> bool
    ensures { result ≡ faces_wrongly places.now end peer }
{
    is_interlink(places, end) && !is_station(places, peer)
}
