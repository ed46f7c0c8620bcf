//! The nodes that a send is due at.
ghost use Rattle.std.specs.Prelude.{◌≡◌, ◌==◌, ◌&&◌, not};
ghost use Rattle.hsr_deliveries.specs.Delivered.{is_for, takes_groups};

use hsr_frame::{Mac, is_supervision};
use hsr_node::Place;

/// Whether a frame to a group of this destination and type is for a kind of node. A Station gets no supervision frames
/// (IEC 62439-3 clause 5.7).
fn takes_groups(place: &Place, dst: Mac, ethertype: u16) -> bool
    ensures { result ≡ takes_groups place.now dst ethertype }
{
    match place {
        Place::Danh { .. } | Place::RedBox { .. } => true,
        Place::QuadBox => false,
        Place::Station { .. } => !is_supervision(dst, ethertype),
    }
}

/// Whether a frame of this destination and type is for a node.
fn is_for(place: &Place, dst: Mac, ethertype: u16) -> bool
    ensures { result ≡ is_for place.now dst ethertype }
{
    if dst.is_group() {
        takes_groups(place, dst, ethertype)
    } else {
        place.owns(dst)
    }
}

/// Whether a send of this destination and type is due at a node: at each but the sender that it is for.
pub fn is_due(place: &Place, sender: usize, node: usize, dst: Mac, ethertype: u16) -> bool
    ensures { result ≡ (not (node == sender) && is_for place.now dst ethertype) }
{
    node != sender && is_for(place, dst, ethertype)
}
