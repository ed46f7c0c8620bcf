//! What a capture shows of a device.
ghost use Rattle.std.specs.Prelude.{◌≡◌, ◌-◌, IfOk};
ghost use Rattle.std.specs.List.{list_any};
ghost use Rattle.hsr_tap_device.specs.declared.device.End.{End};
ghost use Rattle.hsr_playback.specs.Letting.{has_in, has_out};
ghost use Rattle.hsr_tap_passages.specs.Faults.{Gives};
ghost use Rattle.hsr_tap_passages.specs.Interfaces.{shows_in, shows_out};
ghost use Rattle.hsr_tap_passages.specs.Shown.{count_at, counts, counts_of, end_by, kept_length, last_of, octets_of, passage_of, passages_of, shown_of, shown_view, start_of, tap_in, with_packet, with_tap};

use crate::fault::PassageFault;
use crate::heading::heading_of;
use crate::interfaces::{interface_taps, taps_of};
use hsr_capture_reader::{Interface, Packet};
use hsr_frame::{MAX_FRAME, NoMemory};
use hsr_node::Octets;
use hsr_playback::{Passage, Taps};
use hsr_tap_device::{Device, Tap, Times};
use std::alloc::Global;

/// What a capture shows of a device.
#[derive(Drop)]
pub struct Shown {
    /// What each interface is; none where it is left out.
    pub interfaces: Vec<Option<Tap>>,
    /// How many packets of each interface count.
    pub counts: Vec<u64>,
    pub taps: Taps,
    /// The packets that passed an end of the device, in the order of time.
    pub passages: Vec<Passage>,
    /// How long the capture is, in nanoseconds.
    pub length: u64,
    /// The last moment that counts, in nanoseconds since the capture began.
    pub end: u64,
}

/// The first packet's moment; 0 where there is none.
fn start_of(packets: &[Packet<'_>]) -> u64
    ensures { result ≡ start_of packets.now }
{
    match packets.first() {
        Some(first) => first.moment,
        None => 0,
    }
}

/// The last packet's moment, or a later end that the capture tells; 0 where there is no packet.
fn last_of(packets: &[Packet<'_>], told: u64) -> u64
    ensures { result ≡ last_of told packets.now }
{
    match packets.last() {
        Some(last) => last.moment.max(told),
        None => 0,
    }
}

/// The last moment that counts, in nanoseconds since the capture began.
fn end_of(times: &Times, length: u64) -> u64
    ensures { result ≡ end_by times.now.until length }
{
    match times.until {
        Some(until) => length.min(until.saturating_mul(1000).saturating_add(999)),
        None => length,
    }
}

/// Whether a moment counts, in nanoseconds since the capture began.
fn counts(times: &Times, end: u64, moment: u64) -> bool
    ensures { result ≡ counts times.now end moment }
{
    times.from <= moment / 1000 && moment <= end
}

/// How many packets of an interface count.
fn count_at(times: &Times, start: u64, end: u64, packets: &[Packet<'_>], interface: usize) -> u64
    ensures { result ≡ count_at times.now start end packets.now interface }
{
    packets
        .iter()
        .filter(|packet| {
            packet.interface() == interface
                && counts(times, end, packet.moment.saturating_sub(start))
        })
        .count() as u64
}

/// How many packets of each interface count.
fn counts_of(
    alloc: Global,
    interfaces: usize,
    times: &Times,
    start: u64,
    end: u64,
    packets: &[Packet<'_>],
) -> Result<Vec<u64>, NoMemory>
    ensures { IfOk result (λ counts. counts.items
        ≡ counts_of times.now start end packets.now interfaces) }
{
    let mut counts = Vec::new(alloc);
    for interface in 0..interfaces {
        counts.push(count_at(times, start, end, packets, interface))?;
    }
    Ok(counts)
}

/// How many octets are kept of a packet that was cut: all that it had, or one more than a frame has.
fn kept_length(packet: &Packet<'_>) -> usize
    ensures { result ≡ kept_length packet.now }
{
    let most = packet.octets.len().max(MAX_FRAME + 1);
    packet.length().min(most).max(packet.octets.len())
}

/// The octets of a packet, with zeros for those that weren't captured. Of one that is longer than a frame so many that it is still longer.
fn octets_of(alloc: Global, packet: &Packet<'_>) -> Result<Octets, NoMemory>
    ensures { IfOk result (λ octets. octets ≡ octets_of packet.now) }
{
    let mut octets = Vec::from_slice(alloc, packet.octets)?;
    octets.resize(kept_length(packet), 0)?;
    Ok(Octets::new(octets))
}

/// The passage of a packet at an interface.
fn passage_of(
    alloc: Global,
    tap: Tap,
    start: u64,
    packet: &Packet<'_>,
) -> Result<Passage, PassageFault>
    ensures { Gives (λ p. p) result (passage_of tap start packet.now) }
{
    let heading = heading_of(tap, packet)?;
    let octets = octets_of(alloc, packet)?;
    Ok(Passage {
        moment: packet.moment.saturating_sub(start),
        end: tap.end,
        heading,
        packet: packet.number(),
        octets,
        captured: packet.octets.len(),
    })
}

/// What the interface of a packet is.
fn tap_in(taps: &[Option<Tap>], interface: usize) -> Option<Tap>
    ensures { result ≡ tap_in taps.now interface }
{
    if interface < taps.len() {
        taps[interface]
    } else {
        None
    }
}

/// Puts the passage of a packet at an interface last, if that is an end of the device.
fn put_at(
    alloc: Global,
    passages: &mut Vec<Passage>,
    tap: Option<Tap>,
    start: u64,
    packet: &Packet<'_>,
) -> Result<(), PassageFault>
    ensures { Gives (λ _. passages.new.items) result
        (with_tap passages.old.items tap start packet.now) }
{
    let Some(tap) = tap else {
        return Ok(());
    };
    let passage = passage_of(alloc, tap, start, packet)?;
    passages.push(passage)?;
    Ok(())
}

/// Puts the passage of a packet last, if it passed an end of the device and counts.
fn put_packet(
    alloc: Global,
    passages: &mut Vec<Passage>,
    times: &Times,
    start: u64,
    end: u64,
    taps: &[Option<Tap>],
    packet: &Packet<'_>,
) -> Result<(), PassageFault>
    ensures { Gives (λ _. passages.new.items) result
        (with_packet times.now start end taps.now passages.old.items packet.now) }
{
    if !counts(times, end, packet.moment.saturating_sub(start)) {
        return Ok(());
    }
    let tap = tap_in(taps, packet.interface());
    put_at(alloc, passages, tap, start, packet)
}

/// The packets that passed an end of the device, and count.
#[tactic(auto, using(crate::proofs::Steps::passages_step, crate::proofs::Steps::passages_fail), unfolding(crate::specs::Shown::passages_of))]
fn passages_of(
    alloc: Global,
    times: &Times,
    start: u64,
    end: u64,
    taps: &[Option<Tap>],
    packets: &[Packet<'_>],
) -> Result<Vec<Passage>, PassageFault>
    ensures { Gives (λ v. v.items) result
        (passages_of times.now start end taps.now packets.now) }
{
    let mut passages = Vec::new(alloc);
    for packet in packets {
        put_packet(alloc, &mut passages, times, start, end, taps, packet)?;
    }
    Ok(passages)
}

/// What a capture shows of a device: its interfaces, its packets in the order of time, and the latest end that it says, as a moment. A fault
/// is the first in this order: an interface that is given is no Ethernet, by number; no interface has a name or number, in the order of the
/// names' octets; a packet whose flags tell no direction at an end that is given alone, in the order of time. `NoMemory` where room is refused.
#[tactic(auto, using(crate::proofs::Steps::fails_on), unfolding(crate::specs::Shown::shown_of))]
pub fn shown_of(
    alloc: Global,
    device: &Device,
    interfaces: &[Interface<'_>],
    packets: &[Packet<'_>],
    last: u64,
) -> Result<Shown, PassageFault>
    ensures value { Gives shown_view result
        (shown_of device.now interfaces.now packets.now last) }
    ensures ins { IfOk result (λ s. (end : End)
        → has_in s.taps end ≡ list_any (shows_in end) s.interfaces.items) }
    ensures outs { IfOk result (λ s. (end : End)
        → has_out s.taps end ≡ list_any (shows_out end) s.interfaces.items) }
{
    let taps = interface_taps(alloc, device.interfaces.as_slice(), interfaces)?;
    let times = &device.times;
    let start = start_of(packets);
    let length = last_of(packets, last).saturating_sub(start);
    let end = end_of(times, length);
    let counts = counts_of(alloc, interfaces.len(), times, start, end, packets)?;
    let passages = passages_of(alloc, times, start, end, taps.as_slice(), packets)?;
    Ok(Shown {
        taps: taps_of(taps.as_slice()),
        interfaces: taps,
        counts,
        passages,
        length,
        end,
    })
}
