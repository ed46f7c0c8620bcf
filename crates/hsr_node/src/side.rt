//! What the ports of a place lead to.
ghost use Rattle.std.specs.Prelude.{◌≡◌, ◌<◌, Option};
ghost use Rattle.hsr_node.specs.Copies.{is_ring, other_side, path_of, ring_side, side_of};

use crate::place::Place;
use hsr_frame::RingPort;

/// What a port leads to: a ring, as one of its two ports there, or stations that know no HSR.
#[derive(Clone, Copy, PartialEq, Eq)]
pub(crate) enum Side {
    Ring(RingPort),
    Edge,
}

/// What the port of this number leads to, where it is A or B.
fn ring_side(port: u8) -> Option<Side>
    ensures { result ≡ ring_side port }
{
    match port {
        0 => Some(Side::Ring(RingPort::A)),
        1 => Some(Side::Ring(RingPort::B)),
        _ => None,
    }
}

/// What the port of this number leads to, where it is the C or D of a QuadBox.
fn other_side(port: u8) -> Option<Side>
    ensures { result ≡ other_side port }
{
    match port {
        // In its other ring C stands where A does, and D where B does.
        2 => Some(Side::Ring(RingPort::A)),
        3 => Some(Side::Ring(RingPort::B)),
        _ => None,
    }
}

/// What a port leads to, where the place has it.
pub(crate) fn side_of(place: &Place, port: u8) -> Option<Side>
    ensures { result ≡ side_of place.now port }
{
    match place {
        Place::Danh { .. } => ring_side(port),
        Place::RedBox { .. } => {
            if port == 2 {
                Some(Side::Edge)
            } else {
                ring_side(port)
            }
        }
        Place::QuadBox => {
            if port < 2 {
                ring_side(port)
            } else {
                other_side(port)
            }
        }
        Place::Station { .. } => { if port == 0 { Some(Side::Edge) } else { None } }
    }
}

/// Whether it is a ring.
pub(crate) fn is_ring(side: Side) -> bool
    ensures { result ≡ is_ring side }
{
    match side {
        Side::Ring(_) => true,
        Side::Edge => false,
    }
}

/// The path in the tags of a node's own frames: 0 on A and 1 on B (IEC 62439-3 clause 5.6).
pub(crate) fn path_of(port: RingPort) -> u8
    ensures value { result ≡ path_of port }
    ensures fits { result < 16 }
{
    match port {
        RingPort::A => 0,
        RingPort::B => 1,
    }
}
