//! Whether two topologies are the same.
ghost use Rattle.std.specs.Prelude.{◌≡◌, ◌↔◌, IsTrue};

use crate::end::End;
use crate::topology::Topology;
use hsr_frame::Mac;
use hsr_node::Place;

/// Whether addresses are the same, one by one.
fn are_same_macs(a: &[Mac], b: &[Mac]) -> bool
    ensures { IsTrue result ↔ (a.now ≡ b.now) }
{
    a == b
}

/// Whether two kinds of node are the same, with their addresses and modes.
pub fn is_same_place(a: &Place, b: &Place) -> bool
    ensures { IsTrue result ↔ (a.now ≡ b.now) }
{
    match (a, b) {
        (
            Place::Danh { mac, mode },
            Place::Danh {
                mac: other,
                mode: its,
            },
        ) => mac == other && mode == its,
        (
            Place::RedBox { mac, mode },
            Place::RedBox {
                mac: other,
                mode: its,
            },
        ) => mac == other && mode == its,
        (Place::QuadBox, Place::QuadBox) => true,
        (Place::Station { macs }, Place::Station { macs: others }) => are_same_macs(
            macs.as_slice(),
            others.as_slice(),
        ),
        _ => false,
    }
}

/// Whether kinds of node are the same, one by one.
fn are_same_places(a: &[Place], b: &[Place]) -> bool
    ensures { IsTrue result ↔ (a.now ≡ b.now) }
{
    let mut left = b;
    for place in a.iter() {
        let Some((other, more)) = left.split_first() else {
            return false;
        };
        if !is_same_place(place, other) {
            return false;
        }
        left = more;
    }
    left.is_empty()
}

/// Whether two links join the same ends, in the same order.
fn is_same_link(a: &[End; 2], b: &[End; 2]) -> bool
    ensures { IsTrue result ↔ (a.now ≡ b.now) }
{
    let [one, other] = *a;
    let [first, second] = *b;
    one == first && other == second
}

/// Whether links are the same, one by one.
fn are_same_links(a: &[[End; 2]], b: &[[End; 2]]) -> bool
    ensures { IsTrue result ↔ (a.now ≡ b.now) }
{
    let mut left = b;
    for link in a.iter() {
        let Some((other, more)) = left.split_first() else {
            return false;
        };
        if !is_same_link(link, other) {
            return false;
        }
        left = more;
    }
    left.is_empty()
}

/// Whether two topologies have the same nodes and links, in the same order.
pub fn is_same_topology(a: &Topology, b: &Topology) -> bool
    ensures { IsTrue result ↔ (a.now ≡ b.now) }
{
    are_same_places(a.places(), b.places()) && are_same_links(a.links(), b.links())
}
