//! How much came at an interface.
ghost use Rattle.std.specs.Prelude.{◌≡◌, ◌+◌, ◌-◌, ◌*◌, ◌<◌, ◌≤◌, ◌^◌, ◌++◌, ◌==◌, ◌∷◌, [], if◌then◌else◌, length, map, max, min, take, IfOk, OnOk};
ghost use Rattle.hsr_health.specs.Loads.{AreLoads, IsEndFrom, Rise, capped, load_by, load_if, load_of, own_packets, peak_of, weighed, weighed_at};
ghost use Rattle.hsr_taps.specs.Came.{AreInOrder};

use hsr_capture_reader::Packet;
use hsr_frame::NoMemory;
use std::alloc::Global;

/// How much came at an interface, in bits on the wire: of the whole time, and the most in a millisecond and in a second that begin with
/// a packet.
#[derive(Clone, Copy, Default, PartialEq, Eq)]
pub struct Load {
    pub all: u64,
    pub in_1ms: u64,
    pub in_1s: u64,
}

/// A packet's moment, and its bits on the wire.
#[derive(Clone, Copy, PartialEq, Eq)]
struct Weighed {
    at: u64,
    bits: u64,
}

/// The least octets of a frame, without its frame check sequence (IEEE 802.3 clause 4).
const LEAST: u64 = 60;

/// The preamble, the frame check sequence and the gap behind a frame, in octets.
const BESIDE: u64 = 24;

/// A millisecond and a second, in nanoseconds.
const MILLISECOND: u64 = 1_000_000;

const SECOND: u64 = 1_000_000_000;

/// The bits of a packet on the wire.
fn bits_of(length: usize) -> u64
    ensures { result ≡ min ((max length 60 + 24) * 8) (2 ^ 64 - 1) }
{
    (length as u64)
        .max(LEAST)
        .saturating_add(BESIDE)
        .saturating_mul(8)
}

/// A packet's moment, and its bits on the wire.
fn weigh(packet: &Packet<'_>) -> Weighed
    ensures { result ≡ weighed packet.now }
{
    Weighed {
        at: packet.moment,
        bits: bits_of(packet.length()),
    }
}

/// The same of the packet with an index; nothing where there is none.
fn weighed_at(packets: &[Packet<'_>], k: u32) -> Weighed
    ensures { result ≡ weighed_at packets.now k }
{
    match packets.get(k as usize) {
        None => Weighed { at: 0, bits: 0 },
        Some(packet) => weigh(packet),
    }
}

/// Puts the index of a packet behind others, if the packet came at an interface.
fn put_own(
    own: &mut Vec<u32>,
    packet: &Packet<'_>,
    k: u32,
    interface: usize,
) -> Result<(), NoMemory>
    ensures { OnOk result (own.new.items ≡ own.old.items ++ (if packet.now.interface == interface then k ∷ [] else [])) }
{
    if packet.interface() == interface {
        own.push(k)?;
    }
    Ok(())
}

/// The packets of an interface, by their indexes: a list of what they weigh would take four times as much room.
fn own_packets(
    alloc: Global,
    packets: &[Packet<'_>],
    interface: usize,
) -> Result<Vec<u32>, NoMemory>
    requires { length packets.now < 2 ^ 32 }
    ensures { IfOk result (λ own. map (weighed_at packets.now) own.items ≡ own_packets interface packets.now) }
{
    let mut own = Vec::new(alloc);
    for k in 0..packets.len() {
        put_own(&mut own, &packets[k], k as u32, interface)?;
    }
    Ok(own)
}

/// How far packets are summed: those before an index, and their sum. It has 128 bits, so that no capture fills it.
#[derive(Clone, Copy)]
struct Summed {
    end: usize,
    bits: u128,
}

/// With the packets from there on that came less than a time after a moment, of those with these indexes.
fn summed_until(packets: &[Packet<'_>], own: &[u32], before: Summed, at: u64, width: u64) -> Summed
    requires { before.end ≤ length own.now }
    ensures end { IsEndFrom (map (weighed_at packets.now) own.now) before.end at width result.end }
    ensures bits { load_of (map (weighed_at packets.now) own.now) < 2 ^ 128 → before.bits ≡ load_of (take before.end (map (weighed_at packets.now) own.now))
        → result.bits ≡ load_of (take result.end (map (weighed_at packets.now) own.now)) }
{
    let mut bits = before.bits;
    for k in before.end..own.len() {
        let next = weighed_at(packets, own[k]);
        if next.at.saturating_sub(at) >= width {
            return Summed { end: k, bits };
        }
        bits = bits.saturating_add(u128::from(next.bits));
    }
    Summed {
        end: own.len(),
        bits,
    }
}

/// The greatest sum in a time of so many nanoseconds that begins with a packet, of those with these indexes. Two sums go through the packets,
/// one to the end of the time and one to its begin, so that it takes no room.
fn peak_of(packets: &[Packet<'_>], own: &[u32], width: u64) -> u128
    requires time { Rise (map (weighed_at packets.now) own.now) }
    requires width { 0 < width }
    ensures { load_of (map (weighed_at packets.now) own.now) < 2 ^ 128 → result ≡ peak_of width (map (weighed_at packets.now) own.now) }
{
    let mut peak = 0u128;
    let mut before = 0u128;
    let mut summed = Summed { end: 0, bits: 0 };
    for i in 0..own.len() {
        let next = weighed_at(packets, own[i]);
        summed = summed_until(packets, own, summed, next.at, width);
        peak = peak.max(summed.bits.saturating_sub(before));
        before = before.saturating_add(u128::from(next.bits));
    }
    peak
}

/// The sum of the packets with these indexes.
fn sum_of(packets: &[Packet<'_>], own: &[u32]) -> u128
    ensures { load_of (map (weighed_at packets.now) own.now) < 2 ^ 128 → result ≡ load_of (map (weighed_at packets.now) own.now) }
{
    let mut sum = 0u128;
    for i in 0..own.len() {
        sum = sum.saturating_add(u128::from(weighed_at(packets, own[i]).bits));
    }
    sum
}

/// A number of 64 bits at most.
fn capped(n: u128) -> u64
    ensures { result ≡ capped n }
{
    n.min(u128::from(u64::MAX)) as u64
}

/// How much came by the packets with these indexes.
fn load_of(packets: &[Packet<'_>], own: &[u32]) -> Load
    requires { Rise (map (weighed_at packets.now) own.now) }
    ensures { load_of (map (weighed_at packets.now) own.now) < 2 ^ 128 → result ≡ load_by (map (weighed_at packets.now) own.now) }
{
    Load {
        all: capped(sum_of(packets, own)),
        in_1ms: capped(peak_of(packets, own, MILLISECOND)),
        in_1s: capped(peak_of(packets, own, SECOND)),
    }
}

/// How much came at an interface; nothing where it isn't looked at.
fn load_at(
    alloc: Global,
    packets: &[Packet<'_>],
    interface: usize,
    is_looked_at: bool,
) -> Result<Load, NoMemory>
    requires order { AreInOrder packets.now }
    requires few { length packets.now < 2 ^ 32 }
    ensures { IfOk result (λ load. load_of (own_packets interface packets.now) < 2 ^ 128 → load ≡ load_if is_looked_at (own_packets interface packets.now)) }
{
    if !is_looked_at {
        return Ok(Load::default());
    }
    let own = own_packets(alloc, packets, interface)?;
    Ok(load_of(packets, own.as_slice()))
}

/// How much came at each interface, by packets in the order of time; nothing at those that aren't looked at.
pub(crate) fn loads_of(
    alloc: Global,
    packets: &[Packet<'_>],
    looked_at: &[bool],
) -> Result<Vec<Load>, NoMemory>
    requires order { AreInOrder packets.now }
    requires few { length packets.now < 2 ^ 32 }
    ensures long { IfOk result (λ loads. length loads.items ≡ length looked_at.now) }
    ensures loads { IfOk result (λ loads. AreLoads looked_at.now packets.now loads.items) }
{
    let mut loads = Vec::new(alloc);
    for i in 0..looked_at.len() {
        loads.push(load_at(alloc, packets, i, looked_at[i])?)?;
    }
    Ok(loads)
}
