//! Which way a packet passed an end.
ghost use Rattle.std.specs.Prelude.{◌≡◌};
ghost use Rattle.hsr_tap_passages.specs.Headings.{by_flag, by_flags, by_lane, heading_by, lane_of};

use crate::fault::PassageFault;
use hsr_capture_reader::{Packet, Way};
use hsr_frame_copies::{Copy, NoCopy, copy_of};
use hsr_playback::Heading;
use hsr_tap_device::{End, Passing, Tap};

/// The lane of a port: 0 of A and C, 1 of B and D (IEC 62439-3 clause 5.6).
fn lane_of(end: End) -> u8
    ensures { result ≡ lane_of end }
{
    match end {
        End::B | End::D => 1,
        End::A | End::C | End::I | End::Up => 0,
    }
}

/// The way of a packet on a cable that has both: a tagged packet with the port's lane left by it, any other came in.
fn by_lane(end: End, copy: &Result<Copy<'_>, NoCopy>) -> Heading
    ensures { result ≡ by_lane end copy.now }
{
    match copy {
        Ok(copy) => {
            if copy.path % 2 == lane_of(end) {
                Heading::Out
            } else {
                Heading::In
            }
        }
        Err(_) => Heading::In,
    }
}

/// The way of a packet by its flag. `up` is the host's own device, so what leaves that goes into the device.
fn by_flag(end: End, way: Way) -> Heading
    ensures { result ≡ by_flag end way }
{
    match (end, way) {
        (End::Up, Way::In) => Heading::Out,
        (End::Up, Way::Out) => Heading::In,
        (_, Way::In) => Heading::In,
        (_, Way::Out) => Heading::Out,
    }
}

/// The way of a packet of this number by its flags. `NoDirection` where these tell none.
fn by_flags(end: End, number: u32, way: Option<Way>) -> Result<Heading, PassageFault>
    ensures { result ≡ by_flags end number way }
{
    match way {
        None => Err(PassageFault::NoDirection(number)),
        Some(way) => Ok(by_flag(end, way)),
    }
}

/// The way of a packet at an interface. `NoDirection` where its flags would have to tell it, and don't.
pub(crate) fn heading_of(tap: Tap, packet: &Packet<'_>) -> Result<Heading, PassageFault>
    ensures { result ≡ heading_by tap.passing tap.end packet.now }
{
    match tap.passing {
        Passing::In => Ok(Heading::In),
        Passing::Out => Ok(Heading::Out),
        Passing::Flags => by_flags(tap.end, packet.number(), packet.way()),
        Passing::Lane => Ok(by_lane(tap.end, &copy_of(packet))),
    }
}
