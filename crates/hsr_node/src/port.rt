//! The ports of a node by their numbers.
ghost use Rattle.std.specs.Prelude.{◌≡◌, Option};
ghost use Rattle.hsr_node.specs.Step.{box_port, quad_port, ring_port};

use hsr_frame::RingPort;
use hsr_quadbox::QuadPort;
use hsr_redbox::BoxPort;

/// The ring port with this number: 0 is A, 1 is B.
pub fn ring_port(number: u8) -> Option<RingPort>
    ensures { result ≡ ring_port number }
{
    match number {
        0 => Some(RingPort::A),
        1 => Some(RingPort::B),
        _ => None,
    }
}

/// The port of a RedBox with this number: 0 is A, 1 is B, 2 is the interlink.
pub(crate) fn box_port(number: u8) -> Option<BoxPort>
    ensures { result ≡ box_port number }
{
    match number {
        0 => Some(BoxPort::A),
        1 => Some(BoxPort::B),
        2 => Some(BoxPort::I),
        _ => None,
    }
}

/// The port of a QuadBox with this number: 0 is A, 1 is B, 2 is C, 3 is D.
pub fn quad_port(number: u8) -> Option<QuadPort>
    ensures { result ≡ quad_port number }
{
    match number {
        0 => Some(QuadPort::A),
        1 => Some(QuadPort::B),
        2 => Some(QuadPort::C),
        3 => Some(QuadPort::D),
        _ => None,
    }
}
