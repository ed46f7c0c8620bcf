//! What is told of points and of directions.
ghost use Rattle.std.specs.Prelude.{◌≡◌, ◌≤◌, ℕ, Bool, List, length, map, reverse, slice_get, unwrap_or, IfOk, Some};
ghost use Rattle.std.specs.List.{range_with_len};
ghost use Rattle.hsr_frame_groups.specs.Frames.{CaughtFields};
ghost use Rattle.hsr_health.specs.Counted.{AreBegun, AreBesides, AreDirected, AreDirections, AreJoined, AreOfPoints, ArePassed, HaveNoOvertaken, beside_at, beside_with, changed, direction_with, is_fate, is_judged, mark_of, no_beside, no_direction, one_more, other_way, overtaken_more, overtaken_put, with_beside};
ghost use Rattle.hsr_health.specs.declared.directions.Beside as the_beside;
ghost use Rattle.hsr_health.specs.declared.directions.DirectionNumbers as the_numbers;
ghost use Rattle.hsr_sightings.specs.Again.{IsCarried};
ghost use Rattle.hsr_sightings.specs.Copies.{times_before};
ghost use Rattle.hsr_sightings.specs.Read.{AreNeeded, AreOvertaken, AreSightings, TellsEach};
ghost use Rattle.hsr_sightings.specs.Ring as the_ring;
ghost use Rattle.hsr_sightings.specs.Seen.{fate_of};
ghost use Rattle.hsr_sightings.specs.Sightings.{sees_both_ways};

use crate::broken::came_by;
use crate::counts::more_if;
use crate::marks::Marks;
use hsr_frame::NoMemory;
use hsr_frame_groups::Noted;
use hsr_sightings::{Carried, Fate, Overtaken, Ring, Sighting, fate_of};
use hsr_taps::DIRECTIONS;
use std::alloc::Global;

/// What is told of a point.
#[derive(Clone, Copy, Default)]
pub struct PointNumbers {
    pub frames: u64,
    /// Whether its directions carried group frames by both ways.
    pub both_ways: bool,
    pub needed: u64,
}

/// What is told of a direction.
#[derive(Clone, Copy, Default)]
pub struct DirectionNumbers {
    /// Copies of frames that it had carried before, and the most copies of a frame.
    pub again: u64,
    pub most: u64,
    pub overtaken: u64,
    pub late: u64,
    /// Group frames that the point's other way had, and how many of them this way hadn't.
    pub others: u64,
    pub alone: u64,
}

/// With one more copy, by how often its direction carried its frame before.
fn with(numbers: DirectionNumbers, carried: u8, is_late: bool) -> DirectionNumbers
    ensures { result ≡ direction_with carried is_late numbers }
{
    DirectionNumbers {
        again: more_if(numbers.again, carried >= 1),
        late: more_if(numbers.late, is_late),
        ..numbers
    }
}

/// Nothing is told yet of so many directions.
fn no_directions(alloc: Global, many: usize) -> Result<Vec<DirectionNumbers>, NoMemory>
    ensures long { IfOk result (λ all. length all.items ≡ many) }
    ensures none { IfOk result (λ all. (direction : ℕ) (own : the_numbers.DirectionNumbers) → slice_get all.items direction ≡ Some own → own ≡ no_direction) }
{
    let all = vec![in alloc; DirectionNumbers::default(); many]?;
    Ok(all)
}

/// The direction of a copy.
fn direction_of(caught: &Noted) -> usize
    ensures { result ≡ caught.now.direction }
{
    caught.direction()
}

/// Counts a copy of a direction, if that is among them.
fn put_copy(all: &mut Vec<DirectionNumbers>, caught: &Noted, carried: u8, marks: Marks)
    ensures long { length all.new.items ≡ length all.old.items }
    ensures all { all.new.items ≡ changed (direction_with carried marks.is_late) caught.now.direction all.old.items }
{
    let direction = direction_of(caught);
    if direction < all.len() {
        all[direction] = with(all[direction], carried, marks.is_late());
    }
}

/// Counts the copies of each direction.
fn put_copies(all: &mut Vec<DirectionNumbers>, copies: &[Noted], carried: &[u8], marks: &[Marks])
    requires carried { length carried.now ≡ length copies.now }
    requires marks { length marks.now ≡ length copies.now }
    ensures long { length all.new.items ≡ length all.old.items }
    ensures all { (is_by_lane : ℕ → Bool) (ring : the_ring.Ring) → TellsEach times_before copies.now carried.now
        → TellsEach (mark_of is_by_lane ring) copies.now marks.now → AreDirected ring copies.now 0 all.old.items → AreDirected ring copies.now (length copies.now) all.new.items }
{
    for i in 0..copies.len() {
        put_copy(all, &copies[i], carried[i], marks[i]);
    }
}

/// With one more copy that was overtaken.
fn overtaken_more(numbers: DirectionNumbers) -> DirectionNumbers
    ensures { result ≡ overtaken_more numbers }
{
    DirectionNumbers {
        overtaken: numbers.overtaken.saturating_add(1),
        ..numbers
    }
}

/// Counts a copy that was overtaken in a direction, if that is among them.
fn count_overtaken(all: &mut Vec<DirectionNumbers>, direction: usize)
    ensures long { length all.new.items ≡ length all.old.items }
    ensures all { all.new.items ≡ changed overtaken_more direction all.old.items }
{
    if direction < all.len() {
        all[direction] = overtaken_more(all[direction]);
    }
}

/// Counts a copy that was overtaken, by its index.
fn put_overtaken(all: &mut Vec<DirectionNumbers>, copies: &[Noted], copy: u32)
    ensures long { length all.new.items ≡ length all.old.items }
    ensures all { all.new.items ≡ overtaken_put (slice_get copies.now copy) all.old.items }
{
    if let Some(caught) = copies.get(copy as usize) {
        count_overtaken(all, direction_of(caught));
    }
}

/// Counts the copies that were overtaken.
fn put_all_overtaken(all: &mut Vec<DirectionNumbers>, copies: &[Noted], overtaken: &[Overtaken])
    ensures long { length all.new.items ≡ length all.old.items }
    ensures all { HaveNoOvertaken all.old.items → ArePassed copies.now overtaken.now all.old.items all.new.items }
{
    for i in 0..overtaken.len() {
        put_overtaken(all, copies, overtaken[i].copy);
    }
}

/// Group frames that one way of a point had, and how many of them the other way hadn't.
#[derive(Clone, Copy, Default)]
struct Beside {
    others: u64,
    alone: u64,
}

/// With a frame, if the other way had it.
fn with_other(before: Beside, had: bool, came_too: bool) -> Beside
    ensures { result ≡ beside_with had came_too before }
{
    Beside {
        others: more_if(before.others, had),
        alone: more_if(before.alone, had && !came_too),
    }
}

/// Counts a frame at a point, if that is among them and the other way had it.
fn put_beside(all: &mut Vec<Beside>, point: usize, had: bool, came_too: bool)
    ensures long { length all.new.items ≡ length all.old.items }
    ensures all { all.new.items ≡ changed (beside_with had came_too) point all.old.items }
{
    if point < all.len() {
        all[point] = with_other(all[point], had, came_too);
    }
}

/// Whether a frame came one way alone at an edge of the capture.
fn is_open(ring: &Ring<'_>, seen: &Sighting) -> bool
    ensures { result ≡ is_fate 3 (fate_of ring.now seen.now) }
{
    match fate_of(ring, seen) {
        Fate::Open => true,
        _ => false,
    }
}

/// Whether a frame to a group was judged, and came one way.
fn is_judged(ring: &Ring<'_>, copies: &[Noted], seen: &Sighting, way: u8) -> bool
    ensures { result ≡ is_judged ring.now copies.now way seen.now }
{
    match copies.get(seen.first() as usize) {
        None => false,
        Some(caught) => caught.is_to_group() && !is_open(ring, seen) && came_by(seen, way),
    }
}

/// No frames yet, of so many points.
fn no_besides(alloc: Global, points: usize) -> Result<Vec<Beside>, NoMemory>
    ensures long { IfOk result (λ all. length all.items ≡ points) }
    ensures none { IfOk result (λ all. (point : ℕ) (own : the_beside.Beside) → slice_get all.items point ≡ Some own → own ≡ no_beside) }
{
    let all = vec![in alloc; Beside::default(); points]?;
    Ok(all)
}

/// Of one way of each point, what the other way had.
fn besides_of(
    alloc: Global,
    ring: &Ring<'_>,
    copies: &[Noted],
    sightings: &[Sighting],
    points: usize,
    way: u8,
) -> Result<Vec<Beside>, NoMemory>
    ensures long { IfOk result (λ all. length all.items ≡ points) }
    ensures all { IfOk result (λ all. AreBesides ring.now copies.now way sightings.now all.items) }
{
    let mut all = no_besides(alloc, points)?;
    let other = other_way(way);
    for i in 0..sightings.len() {
        let seen = &sightings[i];
        let had = is_judged(ring, copies, seen, other);
        let came_too = came_by(seen, way);
        put_beside(&mut all, seen.point(), had, came_too);
    }
    Ok(all)
}

/// The other way.
fn other_way(way: u8) -> u8
    ensures { result ≡ other_way way }
{
    if way == 0 { 1 } else { 0 }
}

/// What the other way had, at a point.
fn beside_in(all: &[Beside], point: usize) -> Beside
    ensures { result ≡ unwrap_or (slice_get all.now point) no_beside }
{
    match all.get(point) {
        None => Beside::default(),
        Some(own) => *own,
    }
}

/// What the other way of a direction had at its point.
fn beside_at(ring: &Ring<'_>, way_0: &[Beside], way_1: &[Beside], direction: usize) -> Beside
    ensures { result ≡ beside_at ring.now way_0.now way_1.now direction }
{
    let point = ring.points.get(direction).copied().unwrap_or(0);
    let way = ring.ways.get(direction).copied().unwrap_or(0);
    if way == 0 {
        beside_in(way_0, point)
    } else {
        beside_in(way_1, point)
    }
}

/// With what the other way had, and the most copies of a frame.
fn with_beside(numbers: DirectionNumbers, beside: Beside, most: u64) -> DirectionNumbers
    ensures { result ≡ with_beside beside most numbers }
{
    DirectionNumbers {
        most,
        others: beside.others,
        alone: beside.alone,
        ..numbers
    }
}

/// What is told of each direction, with what the other ways had, and the most copies of a frame.
fn joined(
    alloc: Global,
    ring: &Ring<'_>,
    all: &[DirectionNumbers],
    way_0: &[Beside],
    way_1: &[Beside],
    most: &[u64],
) -> Result<Vec<DirectionNumbers>, NoMemory>
    requires { length all.now ≤ length most.now }
    ensures long { IfOk result (λ new. length new.items ≡ length all.now) }
    ensures all { IfOk result (λ new. AreJoined ring.now way_0.now way_1.now most.now all.now new.items) }
{
    let mut new = Vec::new(alloc);
    for d in 0..all.len() {
        let beside = beside_at(ring, way_0, way_1, d);
        new.push(with_beside(all[d], beside, most[d]))?;
    }
    Ok(new)
}

/// What is told of each direction.
pub(crate) fn directions_of(
    alloc: Global,
    ring: &Ring<'_>,
    copies: &[Noted],
    carried: &Carried,
    marks: &[Marks],
    sightings: &[Sighting],
    overtaken: &[Overtaken],
    points: usize,
) -> Result<Vec<DirectionNumbers>, NoMemory>
    requires carried { IsCarried copies.now carried.now }
    requires marks { length marks.now ≡ length copies.now }
    ensures long { IfOk result (λ all. length all.items ≡ 320) }
    ensures directions { IfOk result (λ all. (is_by_lane : ℕ → Bool) (numbers : List ℕ) → TellsEach (mark_of is_by_lane ring.now) copies.now marks.now
        → AreSightings ring.now copies.now sightings.now numbers → AreOvertaken copies.now overtaken.now → AreDirections ring.now points (reverse copies.now) all.items) }
{
    let mut all = no_directions(alloc, DIRECTIONS)?;
    put_copies(&mut all, copies, carried.times.as_slice(), marks);
    put_all_overtaken(&mut all, copies, overtaken);
    let way_0 = besides_of(alloc, ring, copies, sightings, points, 0)?;
    let way_1 = besides_of(alloc, ring, copies, sightings, points, 1)?;
    let told = joined(
        alloc,
        ring,
        all.as_slice(),
        way_0.as_slice(),
        way_1.as_slice(),
        carried.most.as_slice(),
    )?;
    Ok(told)
}

/// Counts one more frame at a point, if that is among them.
fn count_point(begun: &mut Vec<u64>, point: usize)
    ensures long { length begun.new.items ≡ length begun.old.items }
    ensures begun { begun.new.items ≡ changed one_more point begun.old.items }
{
    if point < begun.len() {
        begun[point] = begun[point].saturating_add(1);
    }
}

/// How many frames began at each point.
fn begun_of(alloc: Global, sightings: &[Sighting], points: usize) -> Result<Vec<u64>, NoMemory>
    ensures long { IfOk result (λ begun. length begun.items ≡ points) }
    ensures begun { IfOk result (λ begun. AreBegun sightings.now begun.items) }
{
    let mut begun = vec![in alloc; 0u64; points]?;
    for i in 0..sightings.len() {
        count_point(&mut begun, sightings[i].point());
    }
    Ok(begun)
}

/// What is told of each point.
pub(crate) fn points_told(
    alloc: Global,
    sightings: &[Sighting],
    both: &[bool],
    needed: &[u64],
) -> Result<Vec<PointNumbers>, NoMemory>
    requires { length needed.now ≡ length both.now }
    ensures long { IfOk result (λ points. length points.items ≡ length both.now) }
    ensures points { IfOk result (λ points. (ring : the_ring.Ring) (copies : List CaughtFields) (numbers : List ℕ) → AreSightings ring copies sightings.now numbers
        → both.now ≡ map (sees_both_ways ring copies) (range_with_len 0 (length both.now)) → AreNeeded ring copies needed.now → AreOfPoints ring copies points.items) }
{
    let begun = begun_of(alloc, sightings, both.len())?;
    let mut points = Vec::new(alloc);
    for k in 0..both.len() {
        points.push(PointNumbers {
            frames: begun[k],
            both_ways: both[k],
            needed: needed[k],
        })?;
    }
    Ok(points)
}
