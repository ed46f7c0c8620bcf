//! The numbers by which the reference knows frames of the ring.
//!
//! A device's counter starts anywhere, and the reference's at 0. So a frame of a station that a RedBox numbered comes round the ring
//! with the device's number, and the reference knows it by its own.
ghost use Rattle.std.specs.Prelude.{◌≡◌, ◌-◌, IfOk, List, nat_le, option_map, reverse};
ghost use Rattle.hsr_tag.specs.Seen.{classified};
ghost use Rattle.hsr_tag.specs.Tag.{tagged_spelling};
ghost use Rattle.hsr_playback.specs.Asked.{arrival};
ghost use Rattle.hsr_playback.specs.Known.{is_given, known_number, octets_known};

use hsr_frame::{Mac, NoMemory};
use hsr_node::{Carried, Event, Octets};
use hsr_tag::{EitherView, TaggedView, look_at};
use std::alloc::Global;

/// After so many microseconds a node has forgotten a frame (IEC 62439-3 clause 5.3).
const FORGET: u64 = 400_000;

/// A frame that a RedBox numbered: when, its source, the number that the device gave it and that which the reference did.
#[derive(Clone, Copy)]
pub(crate) struct Given {
    pub at: u64,
    pub source: Mac,
    pub device: u16,
    pub reference: u16,
}

/// Whether this frame has this source and number.
fn is_given(given: &Given, source: &Mac, number: u16) -> bool
    ensures { result ≡ is_given given.now source.now number }
{
    given.source == *source && given.device == number
}

/// Whether a node has forgotten at a moment what it saw at another, in microseconds.
fn is_forgotten(at: u64, seen: u64) -> bool
    ensures { result ≡ nat_le 400000 (at - seen) }
{
    at.saturating_sub(seen) >= FORGET
}

/// The number by which the reference knows a frame of this source and number that comes at this moment, in microseconds: its own,
/// where it numbered the frame, and hasn't forgotten it.
fn known_number(given: &[Given], at: u64, source: &Mac, number: u16) -> u16
    ensures { result ≡ known_number (reverse given.now) at source.now number }
{
    for j in 0..given.len() {
        let one = &given[given.len() - 1 - j];
        if is_forgotten(at, one.at) {
            return number;
        }
        if is_given(one, source, number) {
            return one.reference;
        }
    }
    number
}

/// A tagged frame with another number.
fn with_number(alloc: Global, frame: &TaggedView<'_>, seq: u16) -> Result<Octets, NoMemory>
    ensures { IfOk result (λ o. o ≡ tagged_spelling (record frame.now { seq = seq })) }
{
    let frame = TaggedView {
        dst: frame.dst,
        src: frame.src,
        vlan: frame.vlan,
        path: frame.path,
        size: frame.size,
        seq,
        kind: frame.kind,
        payload: frame.payload.copy(),
    };
    Octets::from_spelled(alloc, &frame.spell())
}

/// An arrival of octets at a port.
pub(crate) fn arrival(port: u8, octets: Octets) -> Event
    ensures { result ≡ arrival port octets }
{
    Event::Arrive {
        port,
        carried: Carried {
            probe: None,
            octets,
        },
    }
}

/// The arrival as the reference knows it, where that is by another number than it came with.
pub(crate) fn arrival_known(
    alloc: Global,
    given: &[Given],
    at: u64,
    port: u8,
    octets: &[u8],
) -> Result<Option<Event>, NoMemory>
    ensures { IfOk result (λ e. e ≡ option_map (arrival port)
        (octets_known (reverse given.now) at (classified octets.now))) }
{
    let Ok(seen) = look_at(octets) else {
        return Ok(None);
    };
    let EitherView::Tagged(frame) = seen.frame else {
        return Ok(None);
    };
    let number = known_number(given, at, &frame.src, frame.seq);
    if number == frame.seq {
        return Ok(None);
    }
    let octets = with_number(alloc, &frame, number)?;
    Ok(Some(arrival(port, octets)))
}
