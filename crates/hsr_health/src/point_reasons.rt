//! The reasons that speak of points.
ghost use Rattle.std.specs.Prelude.{◌≡◌, ◌&&◌, ℕ, List, not, length, map, reverse, slice_get, IfOk, Some};
ghost use Rattle.std.specs.List.{range_with_len};
ghost use Rattle.hsr_frame.specs.Address.{is_group};
ghost use Rattle.hsr_frame_groups.specs.Frames.{CaughtFields};
ghost use Rattle.hsr_health.specs.Told.{IsFirstAt, IsOfFrames, IsOfPoints, IsToldWith, is_one_sided, is_kept_one_way, is_one_way_among, saw_group, spot_of};
ghost use Rattle.hsr_health.specs.What.{alone_what, kept_alone_what, way_what};
ghost use Rattle.hsr_health.specs.declared.reason.Word.TheVariants as the_word;
ghost use Rattle.hsr_sightings.specs.Read.{AreSightings};
ghost use Rattle.hsr_sightings.specs.Ring.{is_at, point_of};
ghost use Rattle.hsr_sightings.specs.Sightings.{sees_both_ways, sightings};
ghost use Rattle.hsr_sightings.specs.Fields as the_sighting;
ghost use Rattle.hsr_taps.specs.Tallies.{is_at as is_in};

use crate::copy_reasons::{count_of, first_of, spot_of};
use crate::reason::{Reason, What, Word};
use hsr_frame::NoMemory;
use hsr_frame_groups::Noted;
use hsr_sightings::{Fate, Ring, Sighting, fate_of};
use std::alloc::Global;

/// Whether a copy is of a group frame at a point.
fn is_group_at(ring: &Ring<'_>, caught: &Noted, point: usize) -> bool
    ensures { result ≡ (is_at ring.now point caught.now && is_group caught.now.copy.dst) }
{
    ring.point_of(caught) == point && caught.is_to_group()
}

/// Whether a point saw a group frame.
fn saw_group(ring: &Ring<'_>, copies: &[Noted], point: usize) -> bool
    ensures { result ≡ saw_group ring.now copies.now point }
{
    for caught in copies {
        if is_group_at(ring, caught, point) {
            return true;
        }
    }
    false
}

/// Whether a point saw group frames on one way alone, by whether it saw them on both ways.
fn is_one_sided(ring: &Ring<'_>, copies: &[Noted], point: usize, sees_both: bool) -> bool
    ensures { result ≡ (saw_group ring.now copies.now point && not sees_both) }
{
    saw_group(ring, copies, point) && !sees_both
}

/// Of each point whether it saw group frames on one way alone, by whether it saw them on both ways.
fn one_sided_of(
    alloc: Global,
    ring: &Ring<'_>,
    copies: &[Noted],
    both: &[bool],
) -> Result<Vec<bool>, NoMemory>
    requires { both.now ≡ map (sees_both_ways ring.now copies.now) (range_with_len 0 (length both.now)) }
    ensures { IfOk result (λ flags. flags.items ≡ map (is_one_sided ring.now copies.now) (range_with_len 0 (length both.now))) }
{
    let mut flags = Vec::new(alloc);
    for point in 0..both.len() {
        flags.push(is_one_sided(ring, copies, point, both[point]))?;
    }
    Ok(flags)
}

/// Whether a copy is of a group frame at one of the points that are set.
fn is_at_one_sided(ring: &Ring<'_>, caught: &Noted, flags: &[bool]) -> bool
    ensures { result ≡ (is_in flags.now (point_of ring.now caught.now) && is_group caught.now.copy.dst) }
{
    flags.get(ring.point_of(caught)).copied().unwrap_or(false) && caught.is_to_group()
}

/// The first copy of a group frame at one of the points that are set, by its index.
fn first_one_sided(ring: &Ring<'_>, copies: &[Noted], flags: &[bool]) -> Option<usize>
    ensures { IsFirstAt (λ c. is_in flags.now (point_of ring.now c) && is_group c.copy.dst) copies.now result }
{
    for i in 0..copies.len() {
        if is_at_one_sided(ring, &copies[i], flags) {
            return Some(i);
        }
    }
    None
}

/// The reason that counts points which saw group frames on one way alone, of which the first saw the copy at an index.
fn one_sided_at(ring: &Ring<'_>, copies: &[Noted], first: usize, count: u64) -> Option<Reason>
    ensures { (c : CaughtFields) → slice_get copies.now first ≡ Some c → IsToldWith the_word.OneSided count (Some (spot_of c)) (way_what ring.now c) result }
{
    let caught = copies.get(first)?;
    Some(Reason {
        word: Word::OneSided,
        count,
        spot: Some(spot_of(caught)),
        what: What::Way {
            point: ring.point_of(caught),
            way: ring.way_of(caught),
        },
    })
}

/// Points that saw group frames on one way alone, by whether they saw them on both ways.
pub(crate) fn one_sided_reason(
    alloc: Global,
    ring: &Ring<'_>,
    copies: &[Noted],
    both: &[bool],
) -> Result<Option<Reason>, NoMemory>
    requires { both.now ≡ map (sees_both_ways ring.now copies.now) (range_with_len 0 (length both.now)) }
    ensures { IfOk result (IsOfPoints ring.now copies.now (length both.now)) }
{
    let flags = one_sided_of(alloc, ring, copies, both)?;
    match first_one_sided(ring, copies, flags.as_slice()) {
        None => Ok(None),
        Some(first) => Ok(one_sided_at(ring, copies, first, count_of(flags.as_slice()))),
    }
}

/// Whether a frame is a group frame that came one way alone, at a point that sees both.
fn is_one_way(ring: &Ring<'_>, copies: &[Noted], both: &[bool], seen: &Sighting) -> bool
    ensures { result ≡ is_kept_one_way ring.now copies.now both.now seen.now }
{
    match copies.get(seen.first() as usize) {
        None => false,
        Some(caught) => {
            caught.is_to_group()
                && fate_of(ring, seen) == Fate::Once
                && both.get(seen.point()).copied().unwrap_or(false)
        }
    }
}

/// Of each frame at a point whether it is such.
fn one_way_of(
    alloc: Global,
    ring: &Ring<'_>,
    copies: &[Noted],
    both: &[bool],
    all: &[Sighting],
) -> Result<Vec<bool>, NoMemory>
    ensures { IfOk result (λ flags. flags.items ≡ map (is_kept_one_way ring.now copies.now both.now) all.now) }
{
    let mut flags = Vec::new(alloc);
    for seen in all {
        flags.push(is_one_way(ring, copies, both, seen))?;
    }
    Ok(flags)
}

/// The reason that counts group frames which came one way alone, of which the first is at an index.
fn one_way_at(copies: &[Noted], all: &[Sighting], first: usize, count: u64) -> Option<Reason>
    ensures { (seen : the_sighting.Sighting) (c : CaughtFields) → slice_get all.now first ≡ Some seen → slice_get copies.now seen.first ≡ Some c
        → IsToldWith the_word.OneWay count (Some (spot_of c)) (kept_alone_what seen c) result }
{
    let seen = all.get(first)?;
    let caught = copies.get(seen.first() as usize)?;
    Some(Reason {
        word: Word::OneWay,
        count,
        spot: Some(spot_of(caught)),
        what: What::Alone {
            point: seen.point(),
            source: caught.source(),
            number: caught.seq(),
            way: seen.way(),
        },
    })
}

/// Group frames that came one way alone, at points that see both.
pub(crate) fn one_way_reason(
    alloc: Global,
    ring: &Ring<'_>,
    copies: &[Noted],
    both: &[bool],
    all: &[Sighting],
) -> Result<Option<Reason>, NoMemory>
    requires { both.now ≡ map (sees_both_ways ring.now copies.now) (range_with_len 0 (length both.now)) }
    ensures { IfOk result (λ reason. (numbers : List ℕ) → AreSightings ring.now copies.now all.now numbers
        → IsOfFrames the_word.OneWay (is_one_way_among ring.now copies.now (length both.now)) (alone_what ring.now) (sightings ring.now (reverse copies.now)) reason) }
{
    let flags = one_way_of(alloc, ring, copies, both, all)?;
    match first_of(flags.as_slice()) {
        None => Ok(None),
        Some(first) => Ok(one_way_at(copies, all, first, count_of(flags.as_slice()))),
    }
}
