//! What the blocks of a pcapng file tell (draft-ietf-opsawg-pcapng, section 4).
ghost use Rattle.std.specs.Prelude.{◌≡◌, ◌+◌, ◌<◌, ◌≤◌, drop, length, take, IfOk, OnOk};
ghost use Rattle.std.specs.Option.{option_copied};
ghost use Rattle.hsr_capture_reader.specs.Pcapng.{captured_in, captured_there, captured_told, clock_in, counted, end_of, enhanced_told, fcs_in, flags_in, interface_in, interface_told, kept_in, name_in, noted, obsolete_told, options_in, section_told, simple_in, simple_told, snapped, stamp_at, stamped_told, statistics_told, sum_of, told, way_in};
ghost use Rattle.hsr_capture_reader.specs.Rooms.{Reads, StandAt};

use crate::blocks::{Block, HEAD, SECTION};
use crate::clock::Clock;
use crate::fault::{CaptureFault, ReadFault, Refusal};
use crate::fields::{Interface, Way};
use crate::numbers::{ByteOrder, in_halves};
use crate::options::{behind, front, octet_option, option_of, wide_option};
use crate::reading::{Reading, pushed, refused, with_interface};
use crate::rooms::Captured;

/// The most interfaces of a capture.
const MOST_INTERFACES: usize = 64;

/// What stands in front of the octets of a packet with a stamp, in its block's body.
const STAMPED_HEAD: usize = 20;

/// The same, of a packet without a stamp.
const SIMPLE_HEAD: usize = 4;

/// A section header.
#[tactic(auto, unfolding(crate::specs::Pcapng::section_told))]
fn section_told<'a>(reading: Reading<'a>, block: &Block<'a>) -> Result<Reading<'a>, ReadFault>
    ensures value { Reads result (section_told reading.entry.read block.now) }
    ensures file { IfOk result (λ next. next.file ≡ reading.entry.file) }
    ensures reached { IfOk result (λ next. next.reached ≡ reading.entry.reached) }
{
    if block.body.len() < 16 {
        return Err(refused(block.offset, CaptureFault::Block));
    }
    if block.order.u16_at(block.body, 4) != 1 {
        return Err(refused(block.offset, CaptureFault::Version));
    }
    let mut reading = reading;
    reading.earlier = reading.interfaces.len();
    Ok(reading)
}

/// The name of an interface, by its options.
fn name_in(order: ByteOrder, options: &[u8]) -> &[u8]
    ensures { result.now ≡ name_in order options.now }
{
    let name = option_of(order, 2, options).unwrap_or(b"");
    if name.is_empty() {
        option_of(order, 3, options).unwrap_or(b"")
    } else {
        name
    }
}

/// How an interface stamps its packets, by its options.
fn clock_in(order: ByteOrder, options: &[u8]) -> Clock
    ensures { result ≡ clock_in order options.now }
{
    Clock {
        resolution: octet_option(order, 9, options).unwrap_or(6),
        offset: wide_option(order, 14, options).unwrap_or(0),
    }
}

/// The interface that a block describes.
#[tactic(auto, unfolding(crate::specs::Pcapng::interface_in))]
fn interface_in<'a>(fcs: u8, block: &Block<'a>) -> Interface<'a>
    requires { 8 ≤ length block.now.body }
    ensures { result ≡ interface_in fcs block.now }
{
    let (order, body) = (block.order, block.body);
    let options = behind(body, 8);
    Interface {
        name: name_in(order, options),
        link: order.u16_at(body, 0),
        snap: order.u32_at(body, 4),
        clock: clock_in(order, options),
        fcs: octet_option(order, 13, options).unwrap_or(fcs),
    }
}

/// The description of an interface.
#[tactic(auto, unfolding(crate::specs::Pcapng::interface_told))]
fn interface_told<'a>(
    fcs: u8,
    reading: Reading<'a>,
    block: &Block<'a>,
) -> Result<Reading<'a>, ReadFault>
    ensures value { Reads result (interface_told fcs reading.entry.read block.now) }
    ensures file { IfOk result (λ next. next.file ≡ reading.entry.file) }
    ensures reached { IfOk result (λ next. next.reached ≡ reading.entry.reached) }
{
    if block.body.len() < 8 {
        return Err(refused(block.offset, CaptureFault::Block));
    }
    if reading.interfaces.len() >= MOST_INTERFACES {
        return Err(refused(0, CaptureFault::Interfaces));
    }
    with_interface(reading, interface_in(fcs, block))
}

/// A packet's flags, by its options.
fn flags_in(order: ByteOrder, options: &[u8]) -> u32
    ensures { result ≡ flags_in order options.now }
{
    match option_of(order, 2, options) {
        Some(value) if value.len() >= 4 => order.u32_at(value, 0),
        _ => 0,
    }
}

/// The direction that flags say.
fn way_in(flags: u32) -> Option<Way>
    ensures { result ≡ way_in flags }
{
    match flags % 4 {
        1 => Some(Way::In),
        2 => Some(Way::Out),
        _ => None,
    }
}

/// How many octets of a packet are its frame check sequence, by its flags or else by its interface.
fn fcs_in(flags: u32, fcs: u8) -> u8
    ensures { result ≡ fcs_in flags fcs }
{
    match flags / 32 % 16 {
        0 => fcs,
        said => said as u8,
    }
}

/// A stamp in two halves, the high one first.
fn stamp_at(order: ByteOrder, octets: &[u8], at: usize) -> u64
    requires { at + 7 < length octets.now }
    ensures { result ≡ stamp_at order octets.now at }
{
    in_halves(order.u32_at(octets, at), order.u32_at(octets, at + 4))
}

/// How many octets of a packet stand in its block.
fn kept_in(block: &Block<'_>) -> u32
    requires { 20 ≤ length block.now.body }
    ensures { result ≡ kept_in block.now }
{
    block.order.u32_at(block.body, 12)
}

/// The options of a packet's block.
fn options_in<'a>(block: &Block<'a>) -> &'a [u8]
    requires { 20 ≤ length block.now.body }
    ensures { result.now ≡ options_in block.now }
{
    let padded = (kept_in(block) as usize + 3) / 4 * 4;
    behind(behind(block.body, STAMPED_HEAD), padded)
}

/// The packet of a block, at this interface.
#[tactic(auto, unfolding(crate::specs::Pcapng::captured_in))]
fn captured_in<'a>(block: &Block<'a>, number: usize, interface: &Interface<'_>) -> Captured<'a>
    requires { 20 ≤ length block.now.body }
    ensures value { result ≡ captured_in block.now number interface.now }
    ensures octets { result.octets ≡ take (kept_in block.now) (drop 20 block.now.body) }
    ensures fits { 20 + length result.octets ≤ length block.now.body }
    ensures interface { result.interface ≡ number }
{
    let flags = flags_in(block.order, options_in(block));
    Captured {
        interface: number,
        moment: interface.clock.moment(stamp_at(block.order, block.body, 4)),
        way: way_in(flags),
        fcs: fcs_in(flags, interface.fcs),
        octets: front(behind(block.body, STAMPED_HEAD), kept_in(block) as usize),
        wire: block.order.u32_at(block.body, 16),
    }
}

/// With a packet's stamp, and with what it says was lost at its interface.
#[tactic(auto, unfolding(crate::specs::Pcapng::noted))]
fn noted<'a>(reading: Reading<'a>, block: &Block<'a>, number: usize, moment: u64) -> Reading<'a>
    requires body { 20 ≤ length block.now.body }
    requires number { number < length reading.read.interfaces }
    ensures value { result.read ≡ noted reading.entry.read block.now number moment }
    ensures file { result.file ≡ reading.entry.file }
    ensures reached { result.reached ≡ reading.entry.reached }
{
    let mut reading = reading;
    reading.stamp = moment;
    let losses = reading.losses[number];
    reading.losses[number] = losses.with_dropped(wide_option(block.order, 4, options_in(block)));
    reading
}

/// A packet with a stamp that was read.
#[tactic(auto, unfolding(crate::specs::Pcapng::captured_told))]
fn captured_told<'a>(
    reading: Reading<'a>,
    block: &Block<'a>,
    number: usize,
    captured: Captured<'a>,
) -> Result<Reading<'a>, ReadFault>
    requires body { 20 ≤ length block.now.body }
    requires number { number < length reading.read.interfaces }
    requires stands { StandAt reading.file (block.now.offset + 28) captured.octets }
    requires fits { 20 + length captured.octets ≤ length block.now.body }
    requires interface { captured.interface < 64 }
    requires behind { reading.reached ≤ block.now.offset + 8 }
    ensures value { Reads result (captured_told reading.entry.read block.now number captured.entry) }
    ensures file { IfOk result (λ next. next.file ≡ reading.entry.file) }
    ensures reached { IfOk result (λ next. next.reached ≤ block.now.offset + 8 + length block.now.body) }
{
    let reading = noted(reading, block, number, captured.moment);
    let at = block.offset + HEAD + STAMPED_HEAD;
    pushed(reading, block.offset, at, &captured)
}

/// The packet of a block, of the interface with this number in the capture.
#[tactic(auto, unfolding(crate::specs::Pcapng::captured_there))]
fn captured_there<'a>(
    interfaces: &[Interface<'_>],
    block: &Block<'a>,
    number: usize,
) -> Result<Captured<'a>, Refusal>
    requires { 20 ≤ length block.now.body }
    ensures value { result ≡ captured_there interfaces.now block.now number }
    ensures there { OnOk result (number < length interfaces.now) }
    ensures octets { IfOk result (λ captured. captured.octets ≡ take (kept_in block.now) (drop 20 block.now.body)) }
    ensures fits { IfOk result (λ captured. 20 + length captured.octets ≤ length block.now.body) }
    ensures interface { IfOk result (λ captured. captured.interface ≡ number) }
{
    let offset = block.offset;
    let Some(interface) = interfaces.get(number) else {
        return Err(Refusal {
            offset,
            fault: CaptureFault::Interface,
        });
    };
    if block.body.len() - STAMPED_HEAD < kept_in(block) as usize {
        return Err(Refusal {
            offset,
            fault: CaptureFault::Packet,
        });
    }
    Ok(captured_in(block, number, interface))
}

/// A packet with a stamp, of the interface with this number in its section.
#[tactic(auto, using(crate::proofs::Places::captured_stands), unfolding(crate::specs::Pcapng::stamped_told))]
fn stamped_told<'a>(
    reading: Reading<'a>,
    block: &Block<'a>,
    number: u32,
) -> Result<Reading<'a>, ReadFault>
    requires body { 20 ≤ length block.now.body }
    requires stands { StandAt reading.file (block.now.offset + 8) block.now.body }
    requires behind { reading.reached ≤ block.now.offset + 8 }
    ensures value { Reads result (stamped_told reading.entry.read block.now number) }
    ensures file { IfOk result (λ next. next.file ≡ reading.entry.file) }
    ensures reached { IfOk result (λ next. next.reached ≤ block.now.offset + 8 + length block.now.body) }
{
    let number = reading.earlier + number as usize;
    let captured = captured_there(reading.interfaces.as_slice(), block, number)?;
    captured_told(reading, block, number, captured)
}

/// An enhanced packet.
#[tactic(auto, unfolding(crate::specs::Pcapng::enhanced_told))]
fn enhanced_told<'a>(reading: Reading<'a>, block: &Block<'a>) -> Result<Reading<'a>, ReadFault>
    requires stands { StandAt reading.file (block.now.offset + 8) block.now.body }
    requires behind { reading.reached ≤ block.now.offset + 8 }
    ensures value { Reads result (enhanced_told reading.entry.read block.now) }
    ensures file { IfOk result (λ next. next.file ≡ reading.entry.file) }
    ensures reached { IfOk result (λ next. next.reached ≤ block.now.offset + 8 + length block.now.body) }
{
    if block.body.len() < STAMPED_HEAD {
        return Err(refused(block.offset, CaptureFault::Block));
    }
    stamped_told(reading, block, block.order.u32_at(block.body, 0))
}

/// An obsolete packet.
#[tactic(auto, unfolding(crate::specs::Pcapng::obsolete_told))]
fn obsolete_told<'a>(reading: Reading<'a>, block: &Block<'a>) -> Result<Reading<'a>, ReadFault>
    requires stands { StandAt reading.file (block.now.offset + 8) block.now.body }
    requires behind { reading.reached ≤ block.now.offset + 8 }
    ensures value { Reads result (obsolete_told reading.entry.read block.now) }
    ensures file { IfOk result (λ next. next.file ≡ reading.entry.file) }
    ensures reached { IfOk result (λ next. next.reached ≤ block.now.offset + 8 + length block.now.body) }
{
    if block.body.len() < STAMPED_HEAD {
        return Err(refused(block.offset, CaptureFault::Block));
    }
    let number = block.order.u16_at(block.body, 0);
    stamped_told(reading, block, u32::from(number))
}

/// How many octets of a packet were captured.
fn snapped(snap: u32, wire: u32) -> usize
    ensures { result ≡ snapped snap wire }
{
    if snap == 0 {
        wire as usize
    } else {
        snap.min(wire) as usize
    }
}

/// The packet of a simple block, at its section's first interface.
fn simple_in<'a>(
    earlier: usize,
    stamp: u64,
    block: &Block<'a>,
    interface: &Interface<'_>,
) -> Captured<'a>
    requires { 4 ≤ length block.now.body }
    ensures value { result ≡ simple_in earlier stamp block.now interface.now }
    ensures fits { 4 + length result.octets ≤ length block.now.body }
{
    let wire = block.order.u32_at(block.body, 0);
    Captured {
        interface: earlier,
        moment: stamp,
        way: None,
        fcs: interface.fcs,
        octets: front(behind(block.body, 4), snapped(interface.snap, wire)),
        wire,
    }
}

/// A simple packet.
#[tactic(auto, using(crate::proofs::Places::captured_stands), unfolding(crate::specs::Pcapng::simple_told))]
fn simple_told<'a>(reading: Reading<'a>, block: &Block<'a>) -> Result<Reading<'a>, ReadFault>
    requires stands { StandAt reading.file (block.now.offset + 8) block.now.body }
    requires behind { reading.reached ≤ block.now.offset + 8 }
    ensures value { Reads result (simple_told reading.entry.read block.now) }
    ensures file { IfOk result (λ next. next.file ≡ reading.entry.file) }
    ensures reached { IfOk result (λ next. next.reached ≤ block.now.offset + 8 + length block.now.body) }
{
    if block.body.len() < 4 {
        return Err(refused(block.offset, CaptureFault::Block));
    }
    let Some(interface) = reading.interfaces.get(reading.earlier) else {
        return Err(refused(block.offset, CaptureFault::Interface));
    };
    let captured = simple_in(reading.earlier, reading.stamp, block, interface);
    let at = block.offset + HEAD + SIMPLE_HEAD;
    pushed(reading, block.offset, at, &captured)
}

/// When a capture ended, by what statistics say; 0 where they don't.
fn end_of(order: ByteOrder, clock: Clock, value: Option<&[u8]>) -> u64
    ensures { result ≡ end_of order clock (option_copied value.entry) }
{
    match value {
        Some(value) if value.len() == 8 => clock.moment(stamp_at(order, value, 0)),
        _ => 0,
    }
}

/// With what statistics say of an interface.
#[tactic(auto, unfolding(crate::specs::Pcapng::counted))]
fn counted<'a>(reading: Reading<'a>, block: &Block<'a>, number: usize, clock: Clock) -> Reading<'a>
    requires { number < length reading.read.interfaces }
    ensures value { result.read ≡ counted reading.entry.read block.now number clock }
    ensures file { result.file ≡ reading.entry.file }
    ensures reached { result.reached ≡ reading.entry.reached }
{
    let mut reading = reading;
    let options = behind(block.body, 12);
    let dropped = sum_of(
        wide_option(block.order, 5, options),
        wide_option(block.order, 7, options),
    );
    let losses = reading.losses[number];
    reading.losses[number] = losses.counted(dropped);
    let end = end_of(block.order, clock, option_of(block.order, 3, options));
    reading.end = reading.end.max(end);
    reading
}

/// What was lost at an interface and behind it, together.
fn sum_of(at: Option<u64>, behind: Option<u64>) -> Option<u64>
    ensures { result ≡ sum_of at behind }
{
    match (at, behind) {
        (Some(at), Some(behind)) => Some(at.saturating_add(behind)),
        (None, behind) => behind,
        (at, None) => at,
    }
}

/// The statistics of an interface.
#[tactic(auto, unfolding(crate::specs::Pcapng::statistics_told))]
fn statistics_told<'a>(reading: Reading<'a>, block: &Block<'a>) -> Result<Reading<'a>, ReadFault>
    ensures value { Reads result (statistics_told reading.entry.read block.now) }
    ensures file { IfOk result (λ next. next.file ≡ reading.entry.file) }
    ensures reached { IfOk result (λ next. next.reached ≡ reading.entry.reached) }
{
    if block.body.len() < 12 {
        return Err(refused(block.offset, CaptureFault::Block));
    }
    let number = reading.earlier + block.order.u32_at(block.body, 0) as usize;
    let Some(interface) = reading.interfaces.get(number) else {
        return Ok(reading);
    };
    let clock = interface.clock;
    Ok(counted(reading, block, number, clock))
}

/// Any block; one that isn't known is passed over.
#[tactic(auto, unfolding(crate::specs::Pcapng::told))]
pub(crate) fn told<'a>(
    fcs: u8,
    reading: Reading<'a>,
    block: &Block<'a>,
) -> Result<Reading<'a>, ReadFault>
    requires stands { StandAt reading.file (block.now.offset + 8) block.now.body }
    requires behind { reading.reached ≤ block.now.offset + 8 }
    ensures value { Reads result (told fcs reading.entry.read block.now) }
    ensures file { IfOk result (λ next. next.file ≡ reading.entry.file) }
    ensures reached { IfOk result (λ next. next.reached ≤ block.now.offset + 8 + length block.now.body) }
{
    match block.block_type {
        SECTION => section_told(reading, block),
        1 => interface_told(fcs, reading, block),
        2 => obsolete_told(reading, block),
        3 => simple_told(reading, block),
        5 => statistics_told(reading, block),
        6 => enhanced_told(reading, block),
        _ => Ok(reading),
    }
}
