//! Streams, events and moves of a plan in words.
ghost use Rattle.std.specs.Prelude.{◌≡◌};
ghost use Rattle.hsr_plan_report.specs.Report.{rate_of};

use hsr_frame::NoMemory;
use hsr_page::{put_grouped, put_moment};
use hsr_plan_text::{
    Deed, Event, Framing, Kind, LinkEnd, Moves, Pace, Stream, Switching, Target, Timing, Transfer,
    Wire, Word,
};
use hsr_text::{put, put_hex, put_mac, put_number, put_octets};
use std::alloc::Global;

/// Puts names last, with commas between.
pub(crate) fn put_words(text: &mut Vec<u8>, words: &[Word]) -> Result<(), NoMemory> {
    for (at, word) in words.iter().enumerate() {
        if at > 0 {
            put(text, ", ")?;
        }
        put_octets(text, word.as_bytes())?;
    }
    Ok(())
}

/// Puts whom a stream is for last: its target, and who needs it, where that is said.
pub(crate) fn put_target(
    alloc: Global,
    text: &mut Vec<u8>,
    stream: &Stream,
) -> Result<(), NoMemory> {
    match &stream.framing.target {
        Target::Named(word) => put_octets(text, word.as_bytes())?,
        Target::Address(mac) => put_mac(alloc, text, *mac)?,
    }
    if !stream.receivers.is_empty() {
        put(text, " for ")?;
        put_words(text, stream.receivers.as_slice())?;
    }
    Ok(())
}

/// Puts what a stream's frames are last.
fn put_frames(text: &mut Vec<u8>, framing: &Framing) -> Result<(), NoMemory> {
    match framing.kind {
        Kind::Goose => put(text, "GOOSE")?,
        Kind::SampledValues => put(text, "sampled values")?,
        Kind::Number(number) => {
            put(text, "type ")?;
            put_hex(text, number.to_be_bytes().as_slice())?;
        }
    }
    // A size that isn't said is as much as the rest of the frame asks for.
    if framing.size != 0 {
        put(text, ", ")?;
        put_grouped(text, framing.size as u64)?;
        put(text, " octets")?;
    }
    if let Some(tag) = framing.tag {
        // The control information of a tag: three bits of priority, one that isn't used, and twelve of the number (IEEE 802.1Q clause 9.6).
        put(text, ", VLAN ")?;
        put_number(text, u64::from(tag & 0x0FFF))?;
        put(text, " priority ")?;
        put_number(text, u64::from(tag >> 13))?;
    }
    Ok(())
}

/// Puts how gaps follow each other last.
fn put_gaps(text: &mut Vec<u8>, every: u64, grow: u64, most: u64) -> Result<(), NoMemory> {
    put(text, "every ")?;
    put_moment(text, every)?;
    if grow > 1 {
        put(text, ", then each gap ")?;
        put_grouped(text, grow)?;
        put(text, " times as long as the one before, up to ")?;
        put_moment(text, most)?;
    }
    Ok(())
}

/// Puts how often a stream sends last.
fn put_pace(text: &mut Vec<u8>, timing: &Timing) -> Result<(), NoMemory> {
    match (timing.pace, timing.count) {
        (_, Some(1)) => put(text, "once"),
        (Pace::Gaps { every, grow, most }, _) => put_gaps(text, every, grow, most),
        (Pace::Samples(rate), _) => {
            put_grouped(text, rate.per_second())?;
            put(text, " samples a second, ")?;
            put_grouped(text, u64::from(timing.asdus))?;
            put(text, " in a frame")
        }
    }
}

/// Puts what a stream sends and how often last.
pub(crate) fn put_stream(text: &mut Vec<u8>, stream: &Stream) -> Result<(), NoMemory> {
    put_frames(text, &stream.framing)?;
    put(text, ", ")?;
    put_pace(text, &stream.timing)
}

// ---- events

/// Puts an end of a link last.
fn put_end(text: &mut Vec<u8>, end: &LinkEnd) -> Result<(), NoMemory> {
    put_octets(text, end.name.as_bytes())?;
    if let Some(letter) = end.letter {
        put(text, ".")?;
        text.push(letter)?;
    }
    Ok(())
}

/// Puts what becomes of a link last.
fn put_link(
    text: &mut Vec<u8>,
    first: &LinkEnd,
    second: &LinkEnd,
    what: &str,
) -> Result<(), NoMemory> {
    put(text, "the link ")?;
    put_end(text, first)?;
    put(text, " to ")?;
    put_end(text, second)?;
    put(text, what)
}

/// Puts what happens in an event last.
pub(crate) fn put_event(text: &mut Vec<u8>, event: &Event) -> Result<(), NoMemory> {
    match &event.deed {
        Deed::Cut { first, second } => put_link(text, first, second, " is cut"),
        Deed::Mend { first, second } => put_link(text, first, second, " is mended"),
        Deed::Off(name) => {
            put_octets(text, name.as_bytes())?;
            put(text, " goes off")
        }
        Deed::On(name) => {
            put_octets(text, name.as_bytes())?;
            put(text, " comes on")
        }
    }
}

// ---- moves

/// Puts how copies go over wires last.
fn put_wire(text: &mut Vec<u8>, wire: Wire) -> Result<(), NoMemory> {
    put(
        text,
        "each direction of a link carries one frame at a time, at ",
    )?;
    put_grouped(text, wire.rate)?;
    put(text, " Mbit/s, and a node keeps a frame for ")?;
    put_grouped(text, wire.residence)?;
    put(
        text,
        match wire.switching {
            Switching::Store => " µs once it is there as a whole",
            Switching::Cut => {
                " µs once its first 22 octets are there, where the way on is free, else once it is there as a whole"
            }
        },
    )
}

/// Puts how copies move last.
pub(crate) fn put_moves(text: &mut Vec<u8>, moves: Moves) -> Result<(), NoMemory> {
    match moves {
        Moves::EachSendDrains => put(
            text,
            "all copies of a send are at their ends before the next send, so they take no time",
        ),
        Moves::EachMomentDrains => put(
            text,
            "all copies are at their ends before the next moment, so they take no time",
        ),
        Moves::Timed(Transfer::Hop(us)) => {
            put(text, "each link takes ")?;
            put_grouped(text, us)?;
            put(text, " µs")
        }
        Moves::Timed(Transfer::Wire(wire)) => put_wire(text, wire),
    }
}

/// What a direction of a link carries, in kbit/s: as the plan says of its wires, else 100 Mbit/s (IEEE 802.3 clause 24).
pub(crate) fn rate_of(moves: Moves) -> u64
    ensures { result ≡ rate_of moves }
{
    match moves {
        Moves::Timed(Transfer::Wire(wire)) => wire.rate.saturating_mul(1000),
        _ => 100_000,
    }
}
