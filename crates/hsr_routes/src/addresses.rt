//! Whether addresses are their owners' alone.
ghost use Rattle.std.specs.Prelude.{◌≡◌, ◌↔◌, length, IsTrue};
ghost use Rattle.std.specs.List.{list_any};
ghost use Rattle.hsr_routes.specs.Addressed.{OwnBelow, shares, shares_any};
ghost use Rattle.hsr_node.specs.Place.{owns};

use hsr_frame::Mac;
use hsr_node::Place;

/// Whether one of these addresses is a node's own.
fn owns_any(place: &Place, macs: &[Mac]) -> bool
    ensures { result ≡ list_any (owns place.now) macs.now }
{
    macs.iter().any(|mac| place.owns(*mac))
}

/// Whether an address is both nodes' own.
pub fn share_address(place: &Place, other: &Place) -> bool
    ensures { result ≡ shares place.now other.now }
{
    match place {
        Place::Danh { mac, .. } | Place::RedBox { mac, .. } => other.owns(*mac),
        Place::QuadBox => false,
        Place::Station { macs } => owns_any(other, macs.as_slice()),
    }
}

/// Whether an address of a node is also of one of those before it.
#[tactic(auto, unfolding(crate::specs::Addressed::shares_any))]
fn shares_any(place: &Place, before: &[Place]) -> bool
    ensures { result ≡ shares_any place.now before.now }
{
    before.iter().any(|other| share_address(place, other))
}

/// Whether no address is of two of these nodes.
pub(crate) fn are_own(places: &[Place]) -> bool
    ensures { IsTrue result ↔ OwnBelow places.now (length places.now) }
{
    for (k, place) in places.iter().enumerate() {
        if shares_any(place, &places[..k]) {
            return false;
        }
    }
    true
}
