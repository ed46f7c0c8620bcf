//! The copies that the reference lets out.
ghost use Rattle.std.specs.Prelude.{◌≡◌, ◌++◌, OnOk};
ghost use Rattle.hsr_playback.specs.Letting.{copies_by, copies_of, copy_at, copy_by, is_life, is_numbered, kept_of, number_that_came, octets_by};
ghost use Rattle.hsr_playback.specs.Passages.{is_unknown, unknown, us};

use crate::asked::port_at;
use crate::passage::Passage;
use crate::taps::Taps;
use hsr_frame::NoMemory;
use hsr_node::{Event, Octets, Outcome, Place, spelled_out, spelled_up};
use hsr_tag::{EitherView, Spelled, look_at};
use hsr_tap_device::End;
use std::alloc::Global;
use std::marker::Model;

/// A copy that the reference lets out.
#[derive(Drop)]
pub struct Expected {
    pub out: End,
    /// When what caused it passed, in nanoseconds since the capture began.
    pub moment: u64,
    /// By which end that came; none where the device sent it by itself.
    pub by: Option<End>,
    /// The packet that caused it, and the index of its passage.
    pub packet: u32,
    pub cause: usize,
    pub octets: Octets,
    /// How many of its octets are known, as those of what caused it were captured.
    pub kept: usize,
    /// Whether it has a number of the device's own counter.
    pub is_numbered: bool,
    /// Whether it has a supervision number of the device's own.
    pub is_life: bool,
    /// The number of the tagged frame that came.
    pub number: Option<u16>,
}

impl Expected {
    /// Its moment in microseconds, rounded down.
    pub fn at(&self) -> u64
        ensures { result ≡ us self.now.moment }
    {
        self.moment / 1000
    }

    /// Whether octets at its end aren't known.
    pub fn is_cut(&self) -> bool
        ensures { result ≡ is_unknown self.now }
    {
        self.kept < self.octets.as_slice().len()
    }

    /// How many octets at its end aren't known.
    pub fn unknown(&self) -> usize
        ensures { result ≡ unknown self.now }
    {
        self.octets.as_slice().len().saturating_sub(self.kept)
    }
}

/// The ends by which what came leaves, and those by which a node's own frames do.
const ENDS: [End; 6] = [End::Up, End::I, End::A, End::B, End::C, End::D];

const OWN_ENDS: [End; 3] = [End::A, End::B, End::I];

/// The octets that leave by an end after an event, if some do.
fn octets_by<'a>(
    place: &Place,
    event: &'a Event,
    outcome: &Outcome,
    end: End,
) -> Option<Spelled<'a>>
    ensures { result ≡ octets_by place.now event.now outcome.now end }
{
    // A QuadBox's C has the number of a RedBox's interlink.
    if !end.is_of(place.role()) {
        return None;
    }
    match port_at(end) {
        Some(port) => spelled_out(place, event, outcome, port),
        None => spelled_up(event, outcome),
    }
}

/// The number of the tagged frame that came in an event.
fn number_that_came(event: &Event) -> Option<u16>
    ensures { result ≡ number_that_came event.now }
{
    let Event::Arrive { carried, .. } = event else {
        return None;
    };
    let Ok(seen) = look_at(carried.octets.as_slice()) else {
        return None;
    };
    match seen.frame {
        EitherView::Tagged(frame) => Some(frame.seq),
        EitherView::Plain(_) => None,
    }
}

/// Whether a copy at an end has a number of the node's own counter.
fn is_numbered(outcome: &Outcome, end: End) -> bool
    ensures { result ≡ is_numbered outcome.now end }
{
    outcome.number().is_some() && end.has_lane()
}

/// Whether supervision was sent.
pub(crate) fn is_life(outcome: &Outcome) -> bool
    ensures { result ≡ is_life outcome.now }
{
    match outcome {
        Outcome::Life { .. } => true,
        _ => false,
    }
}

/// How many octets of a copy are known: those that weren't captured of what caused it are at its end. Supervision is formed anew.
fn kept_of(event: &Event, passage: &Passage, octets: &[u8]) -> usize
    ensures { result ≡ kept_of event.now passage.now octets.now }
{
    match event {
        Event::Supervise(_) => octets.len(),
        _ => octets.len().saturating_sub(passage.missing()),
    }
}

/// What copies come from: a passage by its index, and the end by which it came; none where the device sent by itself.
#[derive(Drop)]
pub(crate) struct Source<'a> {
    pub passage: &'a Passage,
    pub index: usize,
    pub by: Option<End>,
}

impl<'a> Model for Source<'a> {
    ghost use Rattle.hsr_playback.specs.Letting.{From};

    ghost Value = { From };

    ghost view = { λ s. record { passage = s.passage.now; index = s.index; by = s.by } };
}

/// The copy of these octets that leaves by an end.
fn copy_by(
    source: &Source<'_>,
    event: &Event,
    outcome: &Outcome,
    out: End,
    octets: Octets,
) -> Expected
    ensures { result ≡ copy_by source.now event.now outcome.now out octets }
{
    let passage = source.passage;
    Expected {
        out,
        moment: passage.moment,
        by: source.by,
        packet: passage.packet,
        cause: source.index,
        kept: kept_of(event, passage, octets.as_slice()),
        octets,
        is_numbered: is_numbered(outcome, out),
        is_life: is_life(outcome) && out.has_lane(),
        number: number_that_came(event),
    }
}

/// Puts the copy last that leaves by an end, if that is tapped and one does.
fn put_copy(
    alloc: Global,
    expected: &mut Vec<Expected>,
    taps: &Taps,
    place: &Place,
    source: &Source<'_>,
    event: &Event,
    outcome: &Outcome,
    end: End,
) -> Result<(), NoMemory>
    ensures { OnOk result (expected.new.items ≡ expected.old.items
        ++ copy_at taps.now place.now source.now event.now outcome.now end) }
{
    if !taps.has_out(end) {
        return Ok(());
    }
    match octets_by(place, event, outcome, end) {
        Some(spelled) => {
            let octets = Octets::from_spelled(alloc, &spelled)?;
            expected.push(copy_by(source, event, outcome, end, octets))?;
            Ok(())
        }
        None => Ok(()),
    }
}

/// Puts the copies last that leave by those of some ends that are tapped.
#[tactic(auto, using(crate::proofs::Copied::copies_all))]
fn put_by(
    alloc: Global,
    expected: &mut Vec<Expected>,
    ends: &[End],
    taps: &Taps,
    place: &Place,
    source: &Source<'_>,
    event: &Event,
    outcome: &Outcome,
) -> Result<(), NoMemory>
    ensures { OnOk result (expected.new.items ≡ expected.old.items
        ++ copies_by taps.now place.now source.now event.now outcome.now ends.now) }
{
    for end in ends {
        put_copy(alloc, expected, taps, place, source, event, outcome, *end)?;
    }
    Ok(())
}

/// Puts the copies last that leave by tapped ends after an event that a passage asked for. `NoMemory` where room is refused.
pub(crate) fn put_copies(
    alloc: Global,
    expected: &mut Vec<Expected>,
    taps: &Taps,
    place: &Place,
    source: &Source<'_>,
    event: &Event,
    outcome: &Outcome,
) -> Result<(), NoMemory>
    ensures { OnOk result (expected.new.items ≡ expected.old.items
        ++ copies_of taps.now place.now source.now event.now outcome.now) }
{
    match event {
        Event::Arrive { .. } => {
            put_by(alloc, expected, &ENDS, taps, place, source, event, outcome)
        }
        _ => put_by(
            alloc, expected, &OWN_ENDS, taps, place, source, event, outcome,
        ),
    }
}
