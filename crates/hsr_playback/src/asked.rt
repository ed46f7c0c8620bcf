//! What a passage asks of the reference.
ghost use Rattle.std.specs.Prelude.{◌≡◌, IfOk};
ghost use Rattle.hsr_tag.specs.Seen.{classified};
ghost use Rattle.hsr_playback.specs.Asked.{about_of, asked_by, handed, own_asked, port_at, send_of, told_in};

use crate::known::arrival;
use crate::own::own_frame;
use crate::passage::{Heading, Passage};
use hsr_frame::{About, FrameFault, Mac, NoMemory, SendFault, is_supervision};
use hsr_node::{Event, Octets};
use hsr_supervision::Supervision;
use hsr_tag::{EitherView, FrameView, TaggedView, look_at};
use hsr_tap_device::End;
use std::alloc::Global;

/// What a passage asks of the reference.
#[derive(Drop)]
pub(crate) enum Asked {
    /// Nothing: it left the device, or came in where nothing is asked.
    Nothing,
    /// To judge what came to a port.
    Arrival(Event),
    /// To send what the host handed down.
    Handed(Event),
    /// Nothing, since what the host handed down can't be sent.
    Refused(SendFault),
    /// To send a frame of the device's own that no interface shows.
    Own(Event),
}

/// The number of the port at an end; none up.
pub(crate) fn port_at(end: End) -> Option<u8>
    ensures { result ≡ port_at end }
{
    match end {
        End::A => Some(0),
        End::B => Some(1),
        End::C | End::I => Some(2),
        End::D => Some(3),
        End::Up => None,
    }
}

/// A send of a plain frame.
fn send_of(alloc: Global, frame: &FrameView<'_>) -> Result<Event, NoMemory>
    ensures { IfOk result (λ e. e ≡ send_of frame.now) }
{
    let payload = Octets::from_slice(alloc, frame.payload.as_slice())?;
    Ok(Event::Send {
        from: 0,
        dst: frame.dst,
        vlan: frame.vlan,
        kind: frame.kind,
        payload,
    })
}

/// What octets ask that the host handed down: a send of the plain frame that they are.
fn handed(alloc: Global, octets: &[u8]) -> Result<Asked, NoMemory>
    ensures { IfOk result (λ a. a ≡ handed (classified octets.now)) }
{
    match look_at(octets) {
        Ok(seen) => match seen.frame {
            EitherView::Plain(frame) => {
                let event = send_of(alloc, &frame)?;
                Ok(Asked::Handed(event))
            }
            EitherView::Tagged(_) => Ok(Asked::Refused(SendFault::ReservedType)),
        },
        Err(FrameFault::Long) => Ok(Asked::Refused(SendFault::TooLong)),
        Err(_) => Ok(Asked::Refused(SendFault::ReservedType)),
    }
}

/// The node that a supervision frame of the device is about.
fn about_of(own: Mac, told: Mac) -> About
    ensures { result ≡ about_of own told }
{
    if told == own {
        About::Own
    } else {
        About::Proxied(told)
    }
}

/// The node that a frame of the device's own is about, if it is readable supervision.
fn told_in(frame: &TaggedView<'_>) -> Option<Mac>
    ensures { result ≡ told_in frame.now }
{
    if !is_supervision(frame.dst, frame.kind) {
        return None;
    }
    match Supervision::read(frame.payload.as_slice()) {
        Ok(said) => Some(said.about),
        Err(_) => None,
    }
}

/// What a frame of the device's own asks that no interface shows: of supervision a supervision about that node, else a send.
fn own_asked(alloc: Global, frame: &TaggedView<'_>) -> Result<Event, NoMemory>
    ensures { IfOk result (λ e. e ≡ own_asked frame.now) }
{
    match told_in(frame) {
        Some(told) => Ok(Event::Supervise(about_of(frame.src, told))),
        None => send_of(alloc, &frame.untag()),
    }
}

/// What a passage asks of the reference. `begins` says whether it begins a frame of the device's own that no interface shows.
pub(crate) fn asked_by(
    alloc: Global,
    own: Option<Mac>,
    begins: bool,
    passage: &Passage,
) -> Result<Asked, NoMemory>
    ensures { IfOk result (λ a. a ≡ asked_by own begins passage.now) }
{
    match passage.heading {
        Heading::In => match port_at(passage.end) {
            Some(port) => {
                let octets = Octets::from_slice(alloc, passage.octets.as_slice())?;
                Ok(Asked::Arrival(arrival(port, octets)))
            }
            None => handed(alloc, passage.octets.as_slice()),
        },
        Heading::Out => {
            let Some(frame) = own_frame(own, passage) else {
                return Ok(Asked::Nothing);
            };
            if !begins {
                return Ok(Asked::Nothing);
            }
            let event = own_asked(alloc, &frame)?;
            Ok(Asked::Own(event))
        }
    }
}
