//! Where a packet passes the device, and which way.
ghost use Rattle.std.specs.Prelude.{◌≡◌};
ghost use Rattle.hsr_node_lines.specs.Passage.{comes_by_flag, comes_by_lane, is_up, lane_of, passage_by, passage_by_flag, passage_of};

use crate::fault::LinesFault;
use hsr_capture_reader::{Packet, Way};
use hsr_frame_copies::{Copy, NoCopy, copy_of};
use hsr_tap_device::{End, Passing, Tap};

/// A packet at an end of the device: it goes in, or it leaves.
#[derive(Clone, Copy, PartialEq, Eq)]
pub(crate) struct Passage {
    pub(crate) end: End,
    pub(crate) is_in: bool,
}

/// Whether an end is the host's.
pub(crate) fn is_up(end: End) -> bool
    ensures { result ≡ is_up end }
{
    matches!(end, End::Up)
}

/// The lane of a port: the lowest bit of the path of what it sends.
fn lane_of(end: End) -> u8
    ensures { result ≡ lane_of end }
{
    match end {
        End::B | End::D => 1,
        End::A | End::C | End::I | End::Up => 0,
    }
}

/// Whether what passes a port goes in: what has its lane leaves by it, all else goes in.
fn comes_by_lane(end: End, copy: &Result<Copy<'_>, NoCopy>) -> bool
    ensures { result ≡ comes_by_lane end copy.now }
{
    match copy {
        Ok(copy) => copy.path % 2 != lane_of(end),
        Err(_) => true,
    }
}

/// Whether what passes an interface of the device goes in, by its flag: what leaves the host's own interface goes into the device.
fn comes_by_flag(end: End, way: Way) -> bool
    ensures { result ≡ comes_by_flag end way }
{
    match way {
        Way::In => !is_up(end),
        Way::Out => is_up(end),
    }
}

/// Where a packet of this number passes, by its flag.
fn passage_by_flag(end: End, number: u32, way: Option<Way>) -> Result<Option<Passage>, LinesFault>
    ensures { result ≡ passage_by_flag end number way }
{
    match way {
        Some(way) => Ok(Some(Passage {
            end,
            is_in: comes_by_flag(end, way),
        })),
        None => Err(LinesFault::NoDirection(number)),
    }
}

/// Where a packet of an interface passes.
fn passage_by(tap: Tap, packet: &Packet<'_>) -> Result<Option<Passage>, LinesFault>
    ensures { result ≡ passage_by tap.end tap.passing packet.now }
{
    let end = tap.end;
    match tap.passing {
        Passing::In => Ok(Some(Passage { end, is_in: true })),
        Passing::Out => Ok(Some(Passage { end, is_in: false })),
        Passing::Lane => Ok(Some(Passage {
            end,
            is_in: comes_by_lane(end, &copy_of(packet)),
        })),
        Passing::Flags => passage_by_flag(end, packet.number(), packet.way()),
    }
}

/// The end of the device at which a packet is, and whether it goes in; nothing where its interface is none of the device's.
pub(crate) fn passage_of(
    taps: &[Option<Tap>],
    packet: &Packet<'_>,
) -> Result<Option<Passage>, LinesFault>
    ensures { result ≡ passage_of taps.now packet.now }
{
    match taps.get(packet.interface()) {
        Some(Some(tap)) => passage_by(*tap, packet),
        _ => Ok(None),
    }
}
