//! Which sends a network promises to bring.
ghost use Rattle.std.specs.Prelude.{◌≡◌};
ghost use Rattle.std.specs.List.{list_any};
ghost use Rattle.hsr_network_laws.specs.Delivered.{is_covered};
ghost use Rattle.hsr_network_laws.specs.Lives.{is_joined_with_station, is_station_at, joins_stations};
ghost use Rattle.hsr_network_laws.specs.Network.{is_station, is_station_with};
ghost use Rattle.hsr_plays.specs.Conditions.{is_covered_send};
ghost use Rattle.hsr_routes.specs.Routes.{bare, heading};
ghost use Rattle.hsr_certify.specs.Firsts.{first_send};

use hsr_frame::{Mac, is_supervision};
use hsr_node::Place;
use hsr_plays::SendSpan;
use hsr_topology::{End, Topology};

/// Whether a node is a Station with an address.
fn is_station_with(address: Mac, place: &Place) -> bool
    ensures { result ≡ is_station_with address place.now }
{
    match place {
        Place::Station { macs } => address.is_among(macs.as_slice()),
        Place::Danh { .. } | Place::RedBox { .. } | Place::QuadBox => false,
    }
}

/// Whether a Station has an address.
fn has_station_with(places: &[Place], address: Mac) -> bool
    ensures { result ≡ list_any (is_station_with address) places.now }
{
    places.iter().any(|place| is_station_with(address, place))
}

/// Whether an end is a Station's.
fn is_station_at(places: &[Place], end: End) -> bool
    ensures { result ≡ is_station_at places.now end }
{
    matches!(places.get(end.node), Some(Place::Station { .. }))
}

/// Whether both ends of a link are Stations', and one of them is this node's.
fn joins_stations(places: &[Place], node: usize, link: [End; 2]) -> bool
    ensures { result ≡ joins_stations places.now node link }
{
    let [a, b] = link;
    (a.node == node || b.node == node) && is_station_at(places, a) && is_station_at(places, b)
}

/// Whether a node is a Station that is joined with a Station.
fn is_joined_with_station(places: &[Place], links: &[[End; 2]], node: usize) -> bool
    ensures { result ≡ is_joined_with_station places.now links.now node }
{
    links.iter().any(|link| joins_stations(places, node, *link))
}

/// Whether a frame to an address is to a group, or to one that no Station has.
fn is_covered(places: &[Place], dst: Mac, kind: u16) -> bool
    ensures { result ≡ is_covered places.now (heading dst kind) }
{
    // The type says nothing here: it belongs to what is covered, as the law of networks has it.
    let _ = kind;
    dst.is_group() || !has_station_with(places, dst)
}

/// Whether a send is to a group or to an address that no Station has, and is no supervision frame of a Station that is joined with a
/// Station.
fn is_covered_send(topology: &Topology, span: &SendSpan) -> bool
    ensures { result ≡ is_covered_send (bare topology.now.places topology.now.links) span.now }
{
    let asked = span.asked;
    is_covered(topology.places(), asked.dst, asked.kind)
        && !(is_supervision(asked.dst, asked.kind)
            && is_joined_with_station(topology.places(), topology.links(), asked.node))
}

/// The first send that isn't so.
pub(crate) fn first_uncovered(topology: &Topology, spans: &[SendSpan]) -> Option<usize>
    ensures { result ≡ first_send (is_covered_send (bare topology.now.places topology.now.links))
        spans.now }
{
    // The index is used by the loop's invariant alone.
    for (i, span) in spans.iter().enumerate() {
        if !is_covered_send(topology, span) {
            return Some(span.index);
        }
    }
    None
}
