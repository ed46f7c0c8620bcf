//! What is told of a capture by the octets of its packets, which may go then.
ghost use Rattle.std.specs.Prelude.{IfOk};
ghost use Rattle.hsr_health.specs.Whole.{AreCaught, AreContents, IsBounded, IsGathered, ring_in};

use crate::asked::Asked;
use crate::contents::{Contents, contents_of};
use crate::traffic::{Arrived, Traffic, traffic_of};
use hsr_capture_reader::Capture;
use hsr_frame::NoMemory;
use hsr_frame_groups::{Caught, Noted, all_noted};
use hsr_sightings::Ring;
use std::alloc::Global;

/// What is told of a capture by the octets of its packets. It refers to none of them.
#[derive(Drop)]
pub struct Gathered<'a> {
    pub(crate) traffic: Traffic<'a>,
    pub(crate) copies: Vec<Noted>,
    pub(crate) contents: Contents,
}

/// What the copies that came by the taps of a capture tell by their payloads.
fn contents_by(
    alloc: Global,
    traffic: &Traffic<'_>,
    copies: &[Caught<'_>],
    is_whole: bool,
) -> Result<Contents, NoMemory>
    requires { AreCaught (ring_in traffic.now is_whole) copies.now }
    ensures { IfOk result (AreContents (ring_in traffic.now is_whole) copies.now traffic.now.tapped.taps.items) }
{
    let points = traffic.tapped.point_of.as_slice();
    let ways = traffic.tapped.way_of.as_slice();
    let ring = Ring {
        start: traffic.outline.start,
        end: traffic.outline.end,
        is_whole,
        points,
        ways,
    };
    let taps = traffic.tapped.taps.as_slice();
    let contents = contents_of(alloc, &ring, copies, taps)?;
    Ok(contents)
}

/// What is told of a capture by the octets of its packets: who calls this may let them go, and keeps the names of interfaces alone. `NoMemory`
/// where room is refused.
pub fn gathered_of<'n>(
    alloc: Global,
    capture: Capture<'n, '_>,
    asked: &Asked<'n>,
) -> Result<Gathered<'n>, NoMemory>
    requires { IsBounded capture }
    ensures { IfOk result (IsGathered capture.entry asked.now) }
{
    let Arrived { traffic, copies } = traffic_of(alloc, capture, &asked.choice)?;
    let caught = copies.as_slice();
    let contents = contents_by(alloc, &traffic, caught, asked.is_whole)?;
    let copies = all_noted(alloc, copies)?;
    Ok(Gathered {
        traffic,
        copies,
        contents,
    })
}
