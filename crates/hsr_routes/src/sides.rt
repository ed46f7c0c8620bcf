//! Whether links join what is alike.
ghost use Rattle.std.specs.Prelude.{◌≡◌, ◌↔◌, IsTrue};
ghost use Rattle.hsr_network_laws.specs.Network.{is_edge};
ghost use Rattle.hsr_routes.specs.Addressed.{AreLike, IsUnlike, is_edge_at};

use hsr_node::Place;
use hsr_topology::End;

/// Whether a port is an edge: whether frames carry no tag there, since it is a Station's, or the interlink of a RedBox.
/// The other ports are on rings.
pub fn is_edge(place: &Place, port: u8) -> bool
    ensures { result ≡ is_edge place.now port }
{
    match place {
        Place::Danh { .. } | Place::QuadBox => false,
        // Port 2 is the interlink.
        Place::RedBox { .. } => port == 2,
        Place::Station { .. } => true,
    }
}

/// Whether an end is an edge of its node.
fn is_edge_at(places: &[Place], end: End) -> bool
    ensures { result ≡ is_edge_at places.now end }
{
    match places.get(end.node) {
        Some(place) => is_edge(place, end.port),
        None => false,
    }
}

/// Whether a link joins two ports on rings, or two edges.
fn are_like(places: &[Place], link: [End; 2]) -> bool
    ensures { IsTrue result ↔ AreLike places.now link }
{
    let [a, b] = link;
    is_edge_at(places, a) == is_edge_at(places, b)
}

/// The lowest link that joins a port on a ring and an edge, if there is one.
pub(crate) fn first_unlike(places: &[Place], links: &[[End; 2]]) -> Option<usize>
    ensures { IsUnlike places.now links.now result }
{
    for (l, link) in links.iter().enumerate() {
        if !are_like(places, *link) {
            return Some(l);
        }
    }
    None
}
