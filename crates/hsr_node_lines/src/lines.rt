//! The lines of a whole capture.
ghost use Rattle.std.specs.Prelude.{◌≡◌, option_map};
ghost use Rattle.hsr_node_lines.specs.Faults.{Gives};
ghost use Rattle.hsr_node_lines.specs.Lines.{as_danh, danh_by, danh_of, from_of, hands_down, has_host, is_host_seen, is_until, lines_of, moment_in, nothing_told, packet_told, scene_of, start_of, told_at, told_from, until_of};

use crate::fault::LinesFault;
use crate::own::Danh;
use crate::passage::passage_of;
use crate::taps::taps_of;
use crate::told::{Told, nothing_told, passed};
use hsr_capture_reader::{Interface, Packet};
use hsr_frame::Mac;
use hsr_node::Role;
use hsr_tap_device::{Device, End, Named, Passing, Tap};
use std::alloc::Global;
use std::marker::Model;

/// What decides which lines there are.
#[derive(Drop)]
struct Scene {
    /// What each interface is to the device, by number.
    taps: Vec<Option<Tap>>,
    /// The first packet's moment, in nanoseconds.
    start: u64,
    /// From when until when packets count, both included, in microseconds since then.
    from: u64,
    until: Option<u64>,
    /// The device, if one is given.
    danh: Option<Danh>,
}

impl Model for Scene {
    ghost use Rattle.hsr_node_lines.specs.Lines.{SceneFields};

    ghost Value = { SceneFields };

    ghost view = { λ s. record { taps = s.taps.items; start = s.start; from = s.from; until = s.until; danh = s.danh } };
}

/// The lines of a capture, and how many packets at the device's ends gave none.
#[derive(Drop)]
pub struct Lines {
    pub text: Vec<u8>,
    pub skipped: u64,
}

impl Model for Lines {
    ghost use Rattle.hsr_node_lines.specs.Lines.{LinesFields};

    ghost Value = { LinesFields };

    ghost view = { λ l. record { text = l.text.items; skipped = l.skipped } };
}

/// Refuses a device that is no DANH.
fn as_danh(device: Option<&Device>) -> Result<(), LinesFault>
    ensures { result ≡ as_danh (option_map (λ d. d.now) device.entry) }
{
    match device {
        Some(device) => match device.owner.role {
            Role::Danh => Ok(()),
            Role::RedBox | Role::QuadBox | Role::Station => Err(LinesFault::Role),
        },
        None => Ok(()),
    }
}

/// Whether what the host sends is seen at an interface.
fn hands_down(tap: Option<Tap>) -> bool
    ensures { result ≡ hands_down tap }
{
    match tap {
        Some(tap) => tap.end == End::Up && tap.passing != Passing::Out,
        None => false,
    }
}

/// Whether what the host sends is seen at one of the interfaces.
fn is_host_seen(taps: &[Option<Tap>]) -> bool
    ensures { result ≡ is_host_seen taps.now }
{
    taps.iter().any(|tap| hands_down(*tap))
}

/// Whether all that the host sends is in the capture, as is said, or else as the interfaces tell.
fn has_host(said: Option<bool>, taps: &[Option<Tap>]) -> bool
    ensures { result ≡ has_host said taps.now }
{
    match said {
        Some(said) => said,
        None => is_host_seen(taps),
    }
}

/// The device with this address, if it has one.
fn danh_by(device: &Device, mac: Option<Mac>, taps: &[Option<Tap>]) -> Option<Danh>
    ensures { result ≡ danh_by device.now mac taps.now }
{
    let mac = mac?;
    Some(Danh {
        mac,
        has_host: has_host(device.host, taps),
        within: device.times.within,
    })
}

/// The device, if one is given.
fn danh_of(device: Option<&Device>, taps: &[Option<Tap>]) -> Option<Danh>
    ensures { result ≡ danh_of (option_map (λ d. d.now) device.entry) taps.now }
{
    match device {
        Some(device) => danh_by(device, device.owner.mac, taps),
        None => None,
    }
}

/// What a document says of interfaces.
fn named_of<'a>(device: Option<&'a Device>) -> Option<&'a [Named]>
    ensures { option_map (λ s. s.now) result
        ≡ option_map (λ d. d.interfaces) (option_map (λ d. d.now) device.entry) }
{
    match device {
        Some(device) => Some(device.interfaces.as_slice()),
        None => None,
    }
}

/// The moment from which packets count.
fn from_of(device: Option<&Device>) -> u64
    ensures { result ≡ from_of (option_map (λ d. d.now) device.entry) }
{
    match device {
        Some(device) => device.times.from,
        None => 0,
    }
}

/// The moment until which packets count, if there is one.
fn until_of(device: Option<&Device>) -> Option<u64>
    ensures { result ≡ until_of (option_map (λ d. d.now) device.entry) }
{
    match device {
        Some(device) => device.times.until,
        None => None,
    }
}

/// What decides which lines there are, of a capture that begins at a moment.
#[tactic(auto, using(crate::proofs::Steps::fails_exact, crate::proofs::Steps::fails_on), unfolding(crate::specs::Lines::scene_of))]
fn scene_of(
    alloc: Global,
    device: Option<&Device>,
    interfaces: &[Interface<'_>],
    start: u64,
) -> Result<Scene, LinesFault>
    ensures { Gives (λ s. s) result (scene_of (option_map (λ d. d.now) device.entry) interfaces.now start) }
{
    as_danh(device)?;
    let taps = taps_of(alloc, named_of(device), interfaces)?;
    let danh = danh_of(device, taps.as_slice());
    Ok(Scene {
        taps,
        start,
        from: from_of(device),
        until: until_of(device),
        danh,
    })
}

/// The first packet's moment.
fn start_of(packets: &[Packet<'_>]) -> u64
    ensures { result ≡ start_of packets.now }
{
    match packets {
        [first, ..] => first.moment,
        [] => 0,
    }
}

/// Microseconds since the first packet.
fn moment_in(scene: &Scene, packet: &Packet<'_>) -> u64
    ensures { result ≡ moment_in scene.now packet.now }
{
    packet.moment.saturating_sub(scene.start) / 1000
}

/// Whether a moment is before the end that is given, or at it.
fn is_until(at: u64, until: Option<u64>) -> bool
    ensures { result ≡ is_until at until }
{
    match until {
        Some(until) => at <= until,
        None => true,
    }
}

/// Behind one more packet, at a moment.
#[tactic(auto, using(crate::proofs::Steps::fails_exact))]
fn told_at(
    alloc: Global,
    scene: &Scene,
    told: Told,
    at: u64,
    packet: &Packet<'_>,
) -> Result<Told, LinesFault>
    ensures { Gives (λ t. t) result (told_at scene.now told at packet.now) }
{
    if at < scene.from || !is_until(at, scene.until) {
        return Ok(told);
    }
    let passage = passage_of(scene.taps.as_slice(), packet)?;
    Ok(passed(alloc, scene.danh.as_ref(), told, at, passage, packet)?)
}

/// Behind one more packet.
fn packet_told(
    alloc: Global,
    scene: &Scene,
    told: Told,
    packet: &Packet<'_>,
) -> Result<Told, LinesFault>
    ensures { Gives (λ t. t) result (packet_told scene.now told packet.now) }
{
    told_at(alloc, scene, told, moment_in(scene, packet), packet)
}

/// What is told of all packets.
#[tactic(auto, using(crate::proofs::Steps::told_step, crate::proofs::Steps::told_fail))]
fn told_of(alloc: Global, scene: &Scene, packets: &[Packet<'_>]) -> Result<Told, LinesFault>
    ensures { Gives (λ t. t) result (told_from scene.now nothing_told packets.now) }
{
    let mut told = nothing_told(alloc)?;
    for packet in packets {
        told = packet_told(alloc, scene, told, packet)?;
    }
    Ok(told)
}

/// The lines of packets in the order of time: what came in at a port of the device, what its host sent, and what it sent itself. Without a
/// device, what came in at ports A and B. `Role` where the device is no DANH; then `Link`, `NoSuchName` where its interfaces aren't
/// those of the capture; then `NoDirection` of the first packet whose flags don't tell its way, where they have to.
#[tactic(auto, using(crate::proofs::Steps::fails_exact, crate::proofs::Steps::fails_on), unfolding(crate::specs::Lines::lines_of))]
pub fn lines_of(
    alloc: Global,
    device: Option<&Device>,
    interfaces: &[Interface<'_>],
    packets: &[Packet<'_>],
) -> Result<Lines, LinesFault>
    ensures { Gives (λ l. l) result (lines_of (option_map (λ d. d.now) device.entry) interfaces.now packets.now) }
{
    let scene = scene_of(alloc, device, interfaces, start_of(packets))?;
    let told = told_of(alloc, &scene, packets)?;
    let Told {
        text,
        skipped,
        begun: _,
        handed: _,
    } = told;
    Ok(Lines { text, skipped })
}
