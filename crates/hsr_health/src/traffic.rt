//! What came by the taps of a capture, and when.
ghost use Rattle.std.specs.Prelude.{◌≡◌, ◌-◌, length, slice_get, IfOk};
ghost use Rattle.hsr_health.specs.Whole.{IsBounded, IsInTime, IsTraffic, end_by, moment_or};

use crate::load::{Load, loads_of};
use hsr_capture_reader::{Capture, Interface, Losses, Packet};
use hsr_frame::NoMemory;
use hsr_frame_groups::Caught;
use hsr_packet_order::{Disorder, disorder_of, sort_by_time};
use hsr_taps::{Came, Choice, Tapped, looked_at, tap};
use std::alloc::Global;

/// The moment of the first of packets.
fn first_moment(packets: &[Packet<'_>]) -> u64
    ensures { result ≡ moment_or (slice_get packets.now 0) }
{
    match packets.get(0) {
        Some(first) => first.moment,
        None => 0,
    }
}

/// The moment of the last of packets, or a later end.
fn last_moment(packets: &[Packet<'_>], end: u64) -> u64
    ensures { result ≡ end_by end (slice_get packets.now (length packets.now - 1)) }
{
    match packets.get(packets.len().saturating_sub(1)) {
        Some(last) => last.moment.max(end),
        None => 0,
    }
}

/// Packets in the order of time; those of one moment stay as they stood.
fn in_time<'a>(packets: Vec<Packet<'a>>) -> Result<Vec<Packet<'a>>, NoMemory>
    ensures { IfOk result (λ after. IsInTime packets.entry.items after.items) }
{
    let mut packets = packets;
    sort_by_time(&mut packets)?;
    Ok(packets)
}

/// What stays of a capture: all but its packets.
#[derive(Drop)]
pub struct Outline<'a> {
    pub interfaces: Vec<Interface<'a>>,
    /// Of each interface what the capture itself lost there.
    pub losses: Vec<Losses>,
    /// How many packets there were.
    pub packets: usize,
    /// How far the file was out of the order of time.
    pub disorder: Disorder,
    /// The first packet's moment, in nanoseconds since 1970.
    pub start: u64,
    /// The moment of the last packet, or a later end that the file says.
    pub end: u64,
    /// Whether the file breaks off.
    pub is_short: bool,
}

/// What stays of a capture, and what came by its taps.
#[derive(Drop)]
pub(crate) struct Traffic<'a> {
    pub(crate) outline: Outline<'a>,
    pub(crate) tapped: Tapped<'a>,
    pub(crate) loads: Vec<Load>,
}

/// The same, with the copies among it.
#[derive(Drop)]
pub(crate) struct Arrived<'n, 'a> {
    pub(crate) traffic: Traffic<'n>,
    pub(crate) copies: Vec<Caught<'a>>,
}

/// What came by the taps of a capture.
pub(crate) fn traffic_of<'n, 'a>(
    alloc: Global,
    capture: Capture<'n, 'a>,
    choice: &Choice<'n>,
) -> Result<Arrived<'n, 'a>, NoMemory>
    requires { IsBounded capture }
    ensures { IfOk result (λ arrived. IsTraffic choice.now capture.entry arrived.traffic arrived.copies.items) }
{
    let Capture {
        interfaces,
        losses,
        packets,
        end,
        is_short,
    } = capture;
    let disorder = disorder_of(packets.as_slice());
    let many = packets.len();
    let sorted = in_time(packets)?;
    let by_number = interfaces.as_slice();
    let in_order = sorted.as_slice();
    // Loads need much room for themselves, so they come before the copies, which stay.
    let looked = looked_at(alloc, by_number, choice)?;
    let loads = loads_of(alloc, in_order, looked.as_slice())?;
    let start = first_moment(in_order);
    let end = last_moment(in_order, end);
    // The packets go as the copies come: nothing more is told of them, and they take more room than the copies.
    let Came { tapped, copies } = tap(alloc, by_number, sorted, choice)?;
    let outline = Outline {
        interfaces,
        losses,
        packets: many,
        disorder,
        start,
        end,
        is_short,
    };
    Ok(Arrived {
        traffic: Traffic {
            outline,
            tapped,
            loads,
        },
        copies,
    })
}
