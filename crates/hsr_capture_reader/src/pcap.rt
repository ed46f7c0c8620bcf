//! The older format, pcap (draft-ietf-opsawg-pcap).
ghost use Rattle.std.specs.Prelude.{◌≡◌, ◌+◌, ◌<◌, ◌≤◌, drop, length, take, Ok, Err, IfOk, IfErr, IfNone, IfSome};
ghost use Rattle.hsr_capture_reader.specs.declared.fault.CaptureFault.{CaptureFault};
ghost use Rattle.hsr_capture_reader.specs.declared.fault.ReadFault.TheVariants.{Refused};
ghost use Rattle.hsr_capture_reader.specs.Pcap.{captured_at, format_by, format_of, fraction_of, interface_of, kept_at, packets_past, pcap_of};
ghost use Rattle.hsr_capture_reader.specs.Numbers.{number32};
ghost use Rattle.hsr_capture_reader.specs.Reading.{Fails};
ghost use Rattle.hsr_capture_reader.specs.Rooms.{Reads};

use crate::clock::Clock;
use crate::fault::{CaptureFault, ReadFault};
use crate::fields::Interface;
use crate::numbers::ByteOrder;
use crate::options::{behind, front};
use crate::reading::{Reading, nothing_read, pushed, refused, with_interface};
use crate::rooms::Captured;
use std::alloc::Global;

/// What the magic number of a file says: its byte order, and whether fractions of a second are nanoseconds or microseconds.
#[derive(Clone, Copy)]
pub(crate) struct Format {
    pub(crate) order: ByteOrder,
    pub(crate) is_nano: bool,
}

/// The header of a file.
const HEADER: usize = 24;

/// The header of a packet.
const PACKET_HEADER: usize = 16;

/// The most octets of a packet that were captured.
const MOST_KEPT: u32 = 262_144;

/// The format that a magic number says.
fn format_by(magic: u32) -> Option<Format>
    ensures { result ≡ format_by magic }
{
    let (order, is_nano) = match magic {
        0xA1B2_C3D4 => (ByteOrder::Little, false),
        0xD4C3_B2A1 => (ByteOrder::Big, false),
        0xA1B2_3C4D => (ByteOrder::Little, true),
        0x4D3C_B2A1 => (ByteOrder::Big, true),
        _ => return None,
    };
    Some(Format { order, is_nano })
}

/// The format that the first octets of a file say.
pub(crate) fn format_of(octets: &[u8]) -> Option<Format>
    ensures { result ≡ format_of octets.now }
{
    if octets.len() < 4 {
        return None;
    }
    format_by(ByteOrder::Little.u32_at(octets, 0))
}

/// The interface of a file.
#[tactic(auto, unfolding(crate::specs::Pcap::interface_of))]
fn interface_of<'a>(fcs: u8, format: Format, octets: &[u8]) -> Interface<'a>
    requires { 24 ≤ length octets.now }
    ensures { result ≡ interface_of fcs format octets.now }
{
    let link = format.order.u32_at(octets, 20);
    Interface {
        name: b"",
        link: (link % 65536) as u16,
        snap: format.order.u32_at(octets, 16),
        clock: Clock {
            resolution: 9,
            offset: 0,
        },
        fcs: if link / 67_108_864 % 2 == 1 {
            (link / 268_435_456 * 2) as u8
        } else {
            fcs
        },
    }
}

/// How many octets were captured of the packet that stands first; nothing where the file breaks off before its end.
#[tactic(auto, unfolding(crate::specs::Pcap::kept_at))]
fn kept_at(order: ByteOrder, octets: &[u8]) -> Result<Option<usize>, CaptureFault>
    ensures value { result ≡ kept_at order octets.now }
    ensures room { IfOk result (λ s. IfSome s (λ kept. 16 + kept ≤ length octets.now)) }
{
    if octets.len() < PACKET_HEADER {
        return Ok(None);
    }
    let kept = order.u32_at(octets, 8);
    if kept > MOST_KEPT {
        return Err(CaptureFault::Packet);
    }
    if octets.len() < PACKET_HEADER + kept as usize {
        return Ok(None);
    }
    Ok(Some(kept as usize))
}

/// The same, of the packet at an offset in its file.
fn kept_there(offset: usize, order: ByteOrder, octets: &[u8]) -> Result<Option<usize>, ReadFault>
    ensures found { IfOk result (λ s. kept_at order octets.now ≡ Ok s) }
    ensures refused { IfErr result (λ e. (f : CaptureFault) × (kept_at order octets.now ≡ Err f)
        × (e ≡ Refused (record { offset = offset; fault = f }))) }
    ensures room { IfOk result (λ s. IfSome s (λ kept. 16 + kept ≤ length octets.now)) }
{
    match kept_at(order, octets) {
        Ok(kept) => Ok(kept),
        Err(fault) => Err(refused(offset, fault)),
    }
}

/// How many nanoseconds a fraction of a second counts.
fn fraction_of(format: Format) -> u64
    ensures value { result ≡ fraction_of format }
    ensures most { result ≤ 1000 }
{
    if format.is_nano { 1 } else { 1000 }
}

/// The packet that stands first.
#[tactic(auto, unfolding(crate::specs::Pcap::captured_at))]
fn captured_at<'a>(fcs: u8, format: Format, octets: &'a [u8]) -> Captured<'a>
    requires { 16 ≤ length octets.now }
    ensures value { result ≡ captured_at fcs format octets.now }
    ensures octets { result.octets ≡ take (number32 format.order octets.now 8) (drop 16 octets.now) }
    ensures fits { length result.octets ≤ number32 format.order octets.now 8 }
    ensures interface { result.interface ≡ 0 }
{
    let order = format.order;
    let seconds = u64::from(order.u32_at(octets, 0));
    let fraction = u64::from(order.u32_at(octets, 4));
    Captured {
        interface: 0,
        moment: seconds * 1_000_000_000 + fraction * fraction_of(format),
        way: None,
        fcs,
        octets: front(
            behind(octets, PACKET_HEADER),
            order.u32_at(octets, 8) as usize,
        ),
        wire: order.u32_at(octets, 12),
    }
}

/// A packet that stands first, at an offset of its file, with what was read before, and how many octets it has with its header;
/// where the file breaks off before its end, what was read.
#[tactic(auto, using(crate::proofs::PcapWalking::packets_go_on, crate::proofs::PcapWalking::packet_fails, crate::proofs::PcapWalking::packets_break_off, crate::proofs::PcapWalking::packet_is_refused, crate::proofs::Places::packet_stands))]
fn packet_told<'a>(
    reading: Reading<'a>,
    offset: usize,
    fcs: u8,
    format: Format,
    left: &'a [u8],
) -> Result<(Reading<'a>, Option<usize>), ReadFault>
    requires some { 0 < length left.now }
    requires left { left.now ≡ drop offset reading.file }
    requires behind { reading.reached ≤ offset }
    ensures goes_on { IfOk result (λ s. IfSome s.1 (λ n.
        packets_past 0 offset fcs format reading.entry.read left.now
        ≡ packets_past 0 (offset + n) fcs format s.0.read (drop n left.now))) }
    ensures room { IfOk result (λ s. IfSome s.1 (λ n. (0 < n) × (n ≤ length left.now))) }
    ensures ends { IfOk result (λ s. IfNone s.1
        (packets_past 0 offset fcs format reading.entry.read left.now ≡ Ok s.0.read)) }
    ensures fails { IfErr result (λ e.
        Fails e (packets_past 0 offset fcs format reading.entry.read left.now)) }
    ensures file { IfOk result (λ s. s.0.file ≡ reading.entry.file) }
    ensures reached { IfOk result (λ s. IfSome s.1 (λ n. s.0.reached ≤ offset + n)) }
{
    let mut reading = reading;
    let Some(kept) = kept_there(offset, format.order, left)? else {
        reading.is_short = true;
        return Ok((reading, None));
    };
    let captured = captured_at(fcs, format, left);
    let reading = pushed(reading, offset, offset + PACKET_HEADER, &captured)?;
    Ok((reading, Some(PACKET_HEADER + kept)))
}

/// The packets of a file, which stand behind its header.
#[tactic(auto, using(crate::proofs::PcapWalking::packets_are_over))]
fn packets_in<'a>(reading: Reading<'a>, fcs: u8, format: Format) -> Result<Reading<'a>, ReadFault>
    requires header { 24 ≤ length reading.file }
    requires nothing { reading.reached ≡ 0 }
    ensures value { Reads result (packets_past 0 24 fcs format reading.entry.read (drop 24 reading.entry.file)) }
    ensures file { IfOk result (λ next. next.file ≡ reading.entry.file) }
{
    let mut reading = reading;
    let mut offset = HEADER;
    let mut left = behind(reading.file, HEADER);
    while !left.is_empty() {
        let (next, taken) = packet_told(reading, offset, fcs, format, left)?;
        reading = next;
        let Some(taken) = taken else {
            return Ok(reading);
        };
        offset += taken;
        left = behind(left, taken);
    }
    Ok(reading)
}

/// What a file of this format tells; what its link type doesn't say of frame check sequences is given.
#[tactic(auto, unfolding(crate::specs::Pcap::pcap_of))]
pub(crate) fn pcap_of<'a>(
    alloc: Global,
    fcs: u8,
    format: Format,
    octets: &'a [u8],
) -> Result<Reading<'a>, ReadFault>
    requires { length octets.now ≤ 268435456 }
    ensures value { Reads result (pcap_of fcs format octets.now) }
    ensures file { IfOk result (λ reading. reading.file ≡ octets.now) }
{
    if octets.len() < HEADER {
        return Err(refused(0, CaptureFault::Header));
    }
    let interface = interface_of(fcs, format, octets);
    let fcs = interface.fcs;
    let reading = with_interface(nothing_read(alloc, octets), interface)?;
    packets_in(reading, fcs, format)
}
