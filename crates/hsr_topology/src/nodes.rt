//! What the nodes of a topology may be.
ghost use Rattle.std.specs.Prelude.{◌≡◌, drop, length};
ghost use Rattle.hsr_frame.specs.Address.{is_among};
ghost use Rattle.hsr_topology.specs.Nodes.{has_bad_node, has_group, has_twice, is_bad_node};

use hsr_frame::Mac;
use hsr_node::Place;

/// Whether a node has the address of a group, or is a Station with no address or one twice.
fn is_bad_node(place: &Place) -> bool
    ensures { result ≡ is_bad_node place.now }
{
    match place {
        Place::Danh { mac, .. } | Place::RedBox { mac, .. } => mac.is_group(),
        // A QuadBox has no address.
        Place::QuadBox => false,
        Place::Station { macs } => {
            let macs = macs.as_slice();
            macs.is_empty() || has_group(macs) || has_twice(macs)
        }
    }
}

/// Whether one of these nodes has the address of a group, or is a Station with no address or one twice.
pub(crate) fn has_bad_node(places: &[Place]) -> bool
    ensures { result ≡ has_bad_node places.now }
{
    places.iter().any(|place| is_bad_node(place))
}

/// Whether one of these addresses is a group's.
fn has_group(macs: &[Mac]) -> bool
    ensures { result ≡ has_group macs.now }
{
    macs.iter().any(|mac| mac.is_group())
}

/// Whether an address stands twice among addresses.
fn has_twice(macs: &[Mac]) -> bool
    ensures { result ≡ has_twice macs.now }
{
    for (i, mac) in macs.iter().enumerate() {
        if mac.is_among(&macs[i + 1..]) {
            return true;
        }
    }
    false
}
