//! What a network asks of nodes and links.
ghost use Rattle.std.specs.Prelude.{◌≡◌, ◌↔◌, IsTrue, MatchOption};
ghost use Rattle.std.specs.List.{list_all};
ghost use Rattle.hsr_network_laws.specs.Network.{IsNetwork, goes_round, is_in_h_or_u};
ghost use Rattle.hsr_routes.specs.Networks.{AreGoingRound, HaveOwnAddresses, IsFirstUnlike};
ghost use Rattle.hsr_routes.specs.Routes.{bare};

use crate::addresses::are_own;
use crate::sides::first_unlike;
use hsr_frame::Mode;
use hsr_node::Place;
use hsr_topology::Topology;

/// Whether frames go round a ring in a mode.
fn goes_round(mode: Mode) -> bool
    ensures { result ≡ goes_round mode }
{
    match mode {
        Mode::H | Mode::U => true,
        Mode::N => false,
    }
}

/// Whether a node is a DANH or a RedBox in mode H or U, in which frames go round a ring (IEC 62439-3 clause 5.3.2), a
/// QuadBox or a Station.
pub fn is_in_h_or_u(place: &Place) -> bool
    ensures { result ≡ is_in_h_or_u place.now }
{
    match place {
        Place::Danh { mode, .. } | Place::RedBox { mode, .. } => goes_round(*mode),
        Place::QuadBox | Place::Station { .. } => true,
    }
}

fn are_in_h_or_u(places: &[Place]) -> bool
    ensures { result ≡ list_all is_in_h_or_u places.now }
{
    places.iter().all(|place| is_in_h_or_u(place))
}

/// Whether all DANHs and RedBoxes of a topology are in mode H or U.
pub fn are_going_round(topology: &Topology) -> bool
    ensures { IsTrue result ↔ AreGoingRound (bare topology.now.places topology.now.links) }
{
    are_in_h_or_u(topology.places())
}

/// Whether no address is two nodes' of a topology.
pub fn have_own_addresses(topology: &Topology) -> bool
    ensures { IsTrue result ↔ HaveOwnAddresses (bare topology.now.places topology.now.links) }
{
    are_own(topology.places())
}

/// The lowest link of a topology that joins a port on a ring and an edge, which is a Station's port or an interlink. Where
/// there is none, nodes in modes H and U with addresses that are theirs alone are a network (IEC 62439-3 clause 5).
pub fn first_unlike_link(topology: &Topology) -> Option<usize>
    ensures { MatchOption result (AreGoingRound (bare topology.now.places topology.now.links)
        → HaveOwnAddresses (bare topology.now.places topology.now.links)
        → IsNetwork (bare topology.now.places topology.now.links))
        (IsFirstUnlike (bare topology.now.places topology.now.links)) }
{
    first_unlike(topology.places(), topology.links())
}
