//! What copies tell by their payloads: which are of one frame, what is counted of each, and what supervision says. All else is told without,
//! so that packets may go before it is.
ghost use Rattle.std.specs.Prelude.{◌≡◌, map, slice_get, IfOk};
ghost use Rattle.std.specs.List.{range_with_len};
ghost use Rattle.hsr_health.specs.Counted.{mark_but_late};
ghost use Rattle.hsr_health.specs.Whole.{AreCaught, AreContents, is_lane, lanes_of};
ghost use Rattle.hsr_sightings.specs.Frames.{begins};
ghost use Rattle.hsr_sightings.specs.Read.{AreRead, TellsEach};
ghost use Rattle.hsr_taps.specs.Directions.{interface_of};
ghost use Rattle.hsr_taps.specs.Tallies.{is_at};

use crate::marks::{Marks, marks_of};
use hsr_frame::NoMemory;
use hsr_frame_groups::{Caught, frames_of};
use hsr_heard::{Hearing, hearing_of};
use hsr_sightings::{Ring, begins_of, clashes_of};
use hsr_taps::{DIRECTIONS, Taps, interface_of};
use std::alloc::Global;

/// Whether the copies of a direction are told apart by lane.
fn is_lane(taps: &[Taps], direction: usize) -> bool
    ensures { result ≡ is_lane (slice_get taps.now (interface_of direction)) }
{
    match taps.get(interface_of(direction)) {
        Some(Taps::Both) => true,
        _ => false,
    }
}

/// Of each direction whether its copies are told apart by lane.
fn by_lane(alloc: Global, taps: &[Taps]) -> Result<Vec<bool>, NoMemory>
    ensures { IfOk result (λ lanes. lanes.items ≡ map (λ d. is_lane (slice_get taps.now (interface_of d))) (range_with_len 0 320)) }
{
    let mut lanes = Vec::new(alloc);
    for d in 0..DIRECTIONS {
        lanes.push(is_lane(taps, d))?;
    }
    Ok(lanes)
}

/// Of each copy the one that began its frame, and what is counted of it, but whether it is late; and what supervision frames say.
#[derive(Drop)]
pub(crate) struct Contents {
    pub(crate) firsts: Vec<u32>,
    pub(crate) marks: Vec<Marks>,
    pub(crate) hearing: Hearing,
}

/// What is counted of each copy, but whether it is late, by whether it begins a frame.
fn first_marks(
    alloc: Global,
    ring: &Ring<'_>,
    copies: &[Caught<'_>],
    taps: &[Taps],
    firsts: &[u32],
    began: &[bool],
) -> Result<Vec<Marks>, NoMemory>
    requires read { AreRead copies.now firsts.now }
    requires began { TellsEach begins copies.now began.now }
    ensures { IfOk result (λ marks. TellsEach (mark_but_late (is_at (lanes_of taps.now)) ring.now) copies.now marks.items) }
{
    let clashes = clashes_of(alloc, copies, firsts)?;
    let lanes = by_lane(alloc, taps)?;
    let differs = clashes.as_slice();
    let is_by_lane = lanes.as_slice();
    let marks = marks_of(alloc, ring, copies, began, differs, is_by_lane)?;
    Ok(marks)
}

/// What the copies of a capture tell by their payloads. The list of those that begin frames goes here: from now on an octet of each copy says
/// that and more.
pub(crate) fn contents_of(
    alloc: Global,
    ring: &Ring<'_>,
    copies: &[Caught<'_>],
    taps: &[Taps],
) -> Result<Contents, NoMemory>
    requires { AreCaught ring.now copies.now }
    ensures { IfOk result (AreContents ring.now copies.now taps.now) }
{
    let firsts = frames_of(alloc, copies)?;
    let by_first = firsts.as_slice();
    let began = begins_of(alloc, copies, by_first)?;
    let begun = began.as_slice();
    let hearing = hearing_of(alloc, ring, copies, begun)?;
    let marks = first_marks(alloc, ring, copies, taps, by_first, begun)?;
    Ok(Contents {
        firsts,
        marks,
        hearing,
    })
}
