//! What was told of a capture so far, and what it is behind one more packet.
ghost use Rattle.std.specs.Prelude.{◌≡◌, IfOk, Ok, Some, option_map};
ghost use Rattle.hsr_frame_copies.specs.Contents.{filled};
ghost use Rattle.hsr_tag.specs.Seen.{classified};
ghost use Rattle.hsr_node_lines.specs.Spelled.{line_text};
ghost use Rattle.hsr_node_lines.specs.Lines.{arrived, begun_by, came, handed_down, is_life, left, left_by, none_begun, nothing_told, passed, port_of, send_of, skips, went, with_text, with_texts};

use crate::own::{Danh, Handed, begins_send, note_handed, set_begun};
use crate::passage::{Passage, is_up};
use crate::spelling::{Sending, arrive_line, life_line, send_line};
use hsr_capture_reader::Packet;
use hsr_frame::{NoMemory, RingPort, is_supervision};
use hsr_frame_copies::{Copy, copy_of};
use hsr_node::Octets;
use hsr_tag::{EitherView, SeenView, look_at};
use hsr_tap_device::End;
use hsr_text::{put, put_octets};
use std::alloc::Global;
use std::marker::Model;

/// The lines so far, and what has to be remembered for those that follow.
#[derive(Drop)]
pub(crate) struct Told {
    pub(crate) text: Vec<u8>,
    /// How many packets gave no line.
    pub(crate) skipped: u64,
    /// When each number of the device was begun last, in microseconds.
    pub(crate) begun: Vec<Option<u64>>,
    /// The latest supervision frames that the host handed down.
    pub(crate) handed: Vec<Handed>,
}

impl Model for Told {
    ghost use Rattle.hsr_node_lines.specs.Lines.{ToldFields};

    ghost Value = { ToldFields };

    ghost view = { λ t. record { text = t.text.items; skipped = t.skipped; begun = t.begun.items; handed = t.handed.items } };
}

/// The most octets of a line.
const LONGEST_LINE: usize = 4096;

/// The most octets of a packet that may have a line: two digits of each stand in it.
const LONGEST_PACKET: usize = 2048;

/// How many numbers there are.
const NUMBERS: usize = 65536;

/// None of the numbers was begun.
#[tactic(auto, unfolding(crate::specs::Lines::none_begun))]
fn none_begun(alloc: Global) -> Result<Vec<Option<u64>>, NoMemory>
    ensures { IfOk result (λ begun. begun.items ≡ none_begun) }
{
    let mut begun = Vec::new(alloc);
    begun.resize(NUMBERS, None)?;
    Ok(begun)
}

/// Nothing was told yet.
pub(crate) fn nothing_told(alloc: Global) -> Result<Told, NoMemory>
    ensures { IfOk result (λ told. told ≡ nothing_told) }
{
    Ok(Told {
        text: Vec::new(alloc),
        skipped: 0,
        begun: none_begun(alloc)?,
        handed: Vec::new(alloc),
    })
}

/// With one more packet that gave no line.
fn skips(told: Told) -> Told
    ensures { result ≡ skips told }
{
    let mut told = told;
    told.skipped = told.skipped.saturating_add(1);
    told
}

/// With one more line, unless it is too long.
fn with_text(told: Told, line: &[u8]) -> Result<Told, NoMemory>
    ensures { IfOk result (λ after. after ≡ with_text told line.now) }
{
    if line.len() > LONGEST_LINE {
        return Ok(skips(told));
    }
    let mut told = told;
    put_octets(&mut told.text, line)?;
    put(&mut told.text, "\n")?;
    Ok(told)
}

/// With the line of one more packet, if it gave one.
fn with_line(told: Told, line: Option<Vec<u8>>) -> Result<Told, NoMemory>
    ensures { IfOk result (λ after. after ≡ with_texts told (option_map (λ v. v.items) line)) }
{
    match line {
        Some(line) => with_text(told, line.as_slice()),
        None => Ok(skips(told)),
    }
}

/// The line that asks to send a frame.
fn line_of_frame(alloc: Global, at: u64, seen: &SeenView<'_>) -> Result<Vec<u8>, NoMemory>
    ensures { IfOk result (λ line. option_map line_text (send_of at (Ok seen.now)) ≡ Some line.items) }
{
    match &seen.frame {
        EitherView::Plain(frame) => {
            let sent = Sending {
                dst: frame.dst,
                kind: frame.kind,
                payload: frame.payload.as_slice(),
                vlan: frame.vlan,
            };
            send_line(alloc, at, &sent)
        }
        EitherView::Tagged(frame) => {
            let sent = Sending {
                dst: frame.dst,
                kind: frame.kind,
                payload: frame.payload.as_slice(),
                vlan: frame.vlan,
            };
            send_line(alloc, at, &sent)
        }
    }
}

/// The line that asks to send the frame that octets are, if they are one.
fn line_of_send(alloc: Global, at: u64, octets: &[u8]) -> Result<Option<Vec<u8>>, NoMemory>
    ensures { IfOk result (λ line. option_map (λ v. v.items) line
        ≡ option_map line_text (send_of at (classified octets.now))) }
{
    match look_at(octets) {
        Ok(seen) => Ok(Some(line_of_frame(alloc, at, &seen)?)),
        Err(_) => Ok(None),
    }
}

/// A ring port of a DANH: A, or else B.
fn port_of(end: End) -> RingPort
    ensures { result ≡ port_of end }
{
    match end {
        End::B => RingPort::B,
        End::A | End::C | End::D | End::I | End::Up => RingPort::A,
    }
}

/// Behind octets that came in at a port.
fn arrived(alloc: Global, told: Told, at: u64, end: End, octets: &[u8]) -> Result<Told, NoMemory>
    ensures { IfOk result (λ after. after ≡ arrived told at end octets.now) }
{
    let line = arrive_line(alloc, at, port_of(end), octets)?;
    with_line(told, Some(line))
}

/// Whether octets are a supervision frame without a tag.
fn is_life(octets: &[u8]) -> bool
    ensures { result ≡ is_life (classified octets.now) }
{
    match look_at(octets) {
        Ok(seen) => match &seen.frame {
            EitherView::Plain(frame) => is_supervision(frame.dst, frame.kind),
            EitherView::Tagged(_) => false,
        },
        Err(_) => false,
    }
}

/// Behind octets that the host handed down.
fn handed_down(alloc: Global, told: Told, at: u64, octets: Vec<u8>) -> Result<Told, NoMemory>
    ensures { IfOk result (λ after. after ≡ handed_down told at octets.items) }
{
    let line = line_of_send(alloc, at, octets.as_slice())?;
    let mut told = with_line(told, line)?;
    if is_life(octets.as_slice()) {
        let octets = Octets::new(octets);
        note_handed(&mut told.handed, Handed { at, octets })?;
    }
    Ok(told)
}

/// The line of the send that a copy begins: of supervision the node's own.
fn begun_line(
    alloc: Global,
    at: u64,
    copy: &Copy<'_>,
    octets: &[u8],
) -> Result<Option<Vec<u8>>, NoMemory>
    ensures { IfOk result (λ line. option_map (λ v. v.items) line
        ≡ option_map line_text (begun_by at copy.now octets.now)) }
{
    if copy.is_supervision() {
        return Ok(Some(life_line(alloc, at)?));
    }
    line_of_send(alloc, at, octets)
}

/// Behind a copy that left by a port.
fn left_by(
    alloc: Global,
    danh: &Danh,
    told: Told,
    at: u64,
    copy: &Copy<'_>,
    octets: &[u8],
) -> Result<Told, NoMemory>
    ensures { IfOk result (λ after. after ≡ left_by danh.now told at (Ok copy.now) octets.now) }
{
    let begun = told.begun.as_slice();
    let handed = told.handed.as_slice();
    if !begins_send(alloc, danh, begun, handed, at, copy, octets)? {
        return Ok(told);
    }
    let line = begun_line(alloc, at, copy, octets)?;
    let mut told = with_line(told, line)?;
    set_begun(told.begun.as_mut_slice(), copy.seq, at);
    Ok(told)
}

/// The octets of a packet, with zeros for those that weren't captured.
#[tactic(auto, using(crate::proofs::Filled::whole_filled))]
fn filled(alloc: Global, packet: &Packet<'_>) -> Result<Vec<u8>, NoMemory>
    ensures { IfOk result (λ octets. octets.items ≡ filled packet.now) }
{
    let mut octets = Vec::from_slice(alloc, packet.octets)?;
    if octets.len() < packet.length() {
        octets.resize(packet.length(), 0)?;
    }
    Ok(octets)
}

/// Behind a packet that left by a port.
fn left(
    alloc: Global,
    danh: Option<&Danh>,
    told: Told,
    at: u64,
    packet: &Packet<'_>,
) -> Result<Told, NoMemory>
    ensures { IfOk result (λ after. after ≡ left (option_map (λ d. d.now) danh.entry) told at packet.now) }
{
    let Some(danh) = danh else {
        return Ok(told);
    };
    let Ok(copy) = copy_of(packet) else {
        return Ok(told);
    };
    let octets = filled(alloc, packet)?;
    left_by(alloc, danh, told, at, &copy, octets.as_slice())
}

/// Behind a packet that came in.
fn came(alloc: Global, told: Told, at: u64, end: End, packet: &Packet<'_>) -> Result<Told, NoMemory>
    ensures { IfOk result (λ after. after ≡ came told at end packet.now) }
{
    let octets = filled(alloc, packet)?;
    if is_up(end) {
        return handed_down(alloc, told, at, octets);
    }
    arrived(alloc, told, at, end, octets.as_slice())
}

/// Behind a packet that left.
fn went(
    alloc: Global,
    danh: Option<&Danh>,
    told: Told,
    at: u64,
    end: End,
    packet: &Packet<'_>,
) -> Result<Told, NoMemory>
    ensures { IfOk result (λ after. after ≡ went (option_map (λ d. d.now) danh.entry) told at end packet.now) }
{
    if is_up(end) {
        return Ok(told);
    }
    left(alloc, danh, told, at, packet)
}

/// Behind a packet that passed the device there. One that is too long for any line is neither read nor filled.
pub(crate) fn passed(
    alloc: Global,
    danh: Option<&Danh>,
    told: Told,
    at: u64,
    passage: Option<Passage>,
    packet: &Packet<'_>,
) -> Result<Told, NoMemory>
    ensures { IfOk result (λ after. after ≡ passed (option_map (λ d. d.now) danh.entry) told at passage packet.now) }
{
    let Some(passage) = passage else {
        return Ok(told);
    };
    let is_short = packet.length() <= LONGEST_PACKET;
    if passage.is_in {
        if is_short {
            return came(alloc, told, at, passage.end, packet);
        }
        return Ok(skips(told));
    }
    if is_short {
        return went(alloc, danh, told, at, passage.end, packet);
    }
    Ok(told)
}
