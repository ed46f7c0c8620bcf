//! What is told of points and of directions.
ghost use Rattle.std.specs.Prelude.{◌≡◌, if◌then◌else◌, List, max, map, IfOk};
ghost use Rattle.hsr_health.specs.Counted.{AreSources};
ghost use Rattle.hsr_health.specs.Told.{IsGreatest, is_greater};
ghost use Rattle.hsr_health.specs.Whole.{AreCaught, IsMeasured, IsSeen, greatest};
ghost use Rattle.hsr_taps.specs.declared.direction.Taps as the_taps;

use crate::broken::{Span, both_ways_of, spans_of};
use crate::directions::{DirectionNumbers, PointNumbers, directions_of, points_told};
use crate::seen::Seen;
use crate::sources::Sources;
use hsr_frame::NoMemory;
use hsr_frame_groups::Noted;
use hsr_sightings::{Crowd, Ring, crowds_of, needed_of};
use std::alloc::Global;

/// The greatest number.
pub(crate) fn greatest(numbers: &[u64]) -> u64
    ensures { result ≡ greatest numbers.now }
{
    let mut most = 0u64;
    for n in numbers {
        most = most.max(*n);
    }
    most
}

/// The greater of two crowds, the first where both are as great.
fn greater(most: Crowd, crowd: &Crowd) -> Crowd
    ensures frames { result.frames ≡ max most.frames crowd.now.frames }
    ensures greater { result ≡ (if is_greater crowd.now most then crowd.now else most) }
{
    let is_earlier = crowd.frames == most.frames && crowd.first < most.first;
    if crowd.frames > most.frames || is_earlier {
        *crowd
    } else {
        most
    }
}

/// The greatest crowd, of several the first in time.
fn greatest_crowd(crowds: &[Crowd]) -> Crowd
    ensures frames { result.frames ≡ greatest (map (λ crowd. crowd.frames) crowds.now) }
    ensures greatest { IsGreatest crowds.now result }
{
    let mut most = Crowd::default();
    for crowd in crowds {
        most = greater(most, crowd);
    }
    most
}

/// What is told of points and directions.
#[derive(Drop)]
pub(crate) struct Measured {
    pub(crate) both: Vec<bool>,
    pub(crate) spans: Vec<Span>,
    pub(crate) needed: Vec<u64>,
    pub(crate) crowd: Crowd,
    pub(crate) directions: Vec<DirectionNumbers>,
    pub(crate) points: Vec<PointNumbers>,
}

/// What is told of so many points, and of directions.
pub(crate) fn measured_of(
    alloc: Global,
    ring: &Ring<'_>,
    copies: &[Noted],
    sources: &Sources,
    seen: &Seen,
    many: usize,
) -> Result<Measured, NoMemory>
    requires caught { AreCaught ring.now copies.now }
    requires sources { AreSources copies.now sources.now.macs.items sources.now.of_copy.items }
    requires seen { (taps : List the_taps.Taps) × IsSeen ring.now copies.now taps seen.now }
    ensures { IfOk result (λ measured. IsMeasured ring.now copies.now sources.now many measured) }
{
    let all = seen.sightings.all.as_slice();
    let numbers = seen.sightings.of_copy.as_slice();
    let of_copy = sources.of_copy.as_slice();
    let both = both_ways_of(alloc, ring, copies, many)?;
    let macs = sources.macs.as_slice();
    let sees = both.as_slice();
    let spans = spans_of(alloc, ring, copies, of_copy, macs, all, sees)?;
    let needed = needed_of(alloc, ring, copies, all, numbers, many)?;
    let demand = needed.as_slice();
    let crowds = crowds_of(alloc, ring, copies, all, numbers, many)?;
    let carried = &seen.carried;
    let marks = seen.marks.as_slice();
    let passed = seen.overtaken.as_slice();
    let directions = directions_of(alloc, ring, copies, carried, marks, all, passed, many)?;
    let points = points_told(alloc, all, sees, demand)?;
    Ok(Measured {
        both,
        spans,
        needed,
        crowd: greatest_crowd(crowds.as_slice()),
        directions,
        points,
    })
}
