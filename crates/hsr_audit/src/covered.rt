//! Which sends the law of networks covers, and which are to Stations.
ghost use Rattle.std.specs.Prelude.{◌≡◌, ◌&&◌, not};
ghost use Rattle.hsr_frame.specs.Egress as egress;
ghost use Rattle.hsr_run_laws.specs.Premises.{is_redbox};
ghost use Rattle.hsr_audit.specs.Coming.{is_to_station};
ghost use Rattle.hsr_network_laws.specs.Lives.{is_joined_with_station, is_station_at, joins_stations};
ghost use Rattle.hsr_network_laws.specs.Network.{is_station};

use hsr_frame::is_supervision;
use hsr_node::Place;
use hsr_tag::FrameView;
use hsr_topology::{End, Topology};

pub(crate) fn is_redbox(place: &Place) -> bool
    ensures { result ≡ is_redbox place.now }
{
    matches!(place, Place::RedBox { .. })
}

fn is_station(place: &Place) -> bool
    ensures { result ≡ is_station place.now }
{
    matches!(place, Place::Station { .. })
}

/// Whether a frame is to one address, and a node is a Station.
pub(crate) fn is_to_station(frame: &FrameView<'_>, place: &Place) -> bool
    ensures { result ≡ is_to_station frame.now place.now }
{
    !frame.dst.is_group() && is_station(place)
}

/// Whether an end is a Station's.
fn is_station_at(places: &[Place], end: End) -> bool
    ensures { result ≡ is_station_at places.now end }
{
    match places.get(end.node) {
        Some(place) => is_station(place),
        None => false,
    }
}

/// Whether both ends of a link are Stations', and one of them is this node's.
fn joins_stations(places: &[Place], node: usize, link: [End; 2]) -> bool
    ensures { result ≡ joins_stations places.now node link }
{
    let [a, b] = link;
    (a.node == node || b.node == node) && is_station_at(places, a) && is_station_at(places, b)
}

/// Whether a node is a Station that is joined with a Station.
fn is_joined_with_station(places: &[Place], links: &[[End; 2]], node: usize) -> bool
    ensures { result ≡ is_joined_with_station places.now links.now node }
{
    links.iter().any(|link| joins_stations(places, node, *link))
}

/// Whether a frame that a node sends isn't supervision of a Station that is joined with a Station.
pub(crate) fn is_promised(topology: &Topology, sender: usize, frame: &FrameView<'_>) -> bool
    ensures { result ≡ not (egress.is_supervision frame.now.dst frame.now.kind
        && is_joined_with_station topology.now.places topology.now.links sender) }
{
    let (places, links) = (topology.places(), topology.links());
    !(is_supervision(frame.dst, frame.kind) && is_joined_with_station(places, links, sender))
}
