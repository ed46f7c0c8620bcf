//! A frame as a point saw it, in the whole capture.
ghost use Rattle.std.specs.Prelude.{◌≡◌, ◌+◌, ◌-◌, ◌<◌, ◌^◌, ◌++◌, ◌∷◌, [], ℕ, List, if◌then◌else◌, length, min, None, slice_get, slice_index, slice_set, IfOk, OnOk, Some};
ghost use Rattle.hsr_sightings.specs.Copies.{times_before};
ghost use Rattle.hsr_sightings.specs.Finding.{AreFound, IsPreviousSighting};
ghost use Rattle.hsr_sightings.specs.Read.{AreRead, AreSightings, HasPlaces, HasWays, TellsEach};
ghost use Rattle.hsr_sightings.specs.Ring.{point_of, way_of};
ghost use Rattle.hsr_sightings.specs.Seen.{IsSoonAfter, begun, came_both, fate_of, is_edge, joined, key_by, sighting_keyed, skew_of, way_of_seen, with_copy};
ghost use Rattle.hsr_sightings.specs.Fields.{Sighting};

use crate::ring::{FORGET_TIME, Ring};
use hsr_frame::NoMemory;
use hsr_frame_groups::{FRAME_TIME, Noted};
use hsr_recent_table::{Keyed, Previous};
use std::alloc::Global;
use std::marker::Model;

/// How many points there may be, as numbers.
const POINTS: u64 = 64;

/// A frame as a point saw it. Its first copy came one way, so that one other moment is enough, and that comes less than the time of a
/// frame later, so that 32 bits have room for it: it takes 24 octets, half of what it took with a moment for each way, and a large
/// capture has a list of a million.
#[derive(Drop)]
pub struct Sighting {
    at: u64,
    /// From that moment to the first copy on the other way, in nanoseconds; 0 where there is none.
    skew: u32,
    order: u32,
    first: u32,
    point: u8,
    /// Whether the first copy came on way 1.
    is_1_first: bool,
    has_other: bool,
    is_more: bool,
}

impl Model for Sighting {
    ghost use Rattle.std.specs.Prelude.{◌+◌, ◌<◌, ◌^◌, if◌then◌else◌, Some, None};
    ghost use Rattle.hsr_sightings.specs.Fields.{Sighting};

    ghost Value = { Sighting };

    ghost view = { λ s. record {
      first = s.first;
      at = s.at;
      point = s.point;
      order = s.order;
      by_0 = if s.is_1_first then (if s.has_other then Some (s.at + s.skew) else None) else Some s.at;
      by_1 = if s.is_1_first then Some s.at else (if s.has_other then Some (s.at + s.skew) else None);
      is_more = s.is_more;
    } };

    ghost invariant = { λ s. s.at + s.skew < 2 ^ 64 };
}

/// All sightings in the order of their first copies, and of each copy the index of its sighting.
#[derive(Drop)]
pub struct Sightings {
    pub all: Vec<Sighting>,
    pub of_copy: Vec<u32>,
}

/// What became of a frame at a point.
#[derive(Clone, Copy, PartialEq, Eq)]
pub enum Fate {
    /// It came on both ways, and no direction carried it twice.
    Twice,
    /// It came on one way alone.
    Once,
    /// A direction carried it more than once.
    More,
    /// It came on one way alone at an edge of the capture, so its other copy may be outside.
    Open,
}

/// A moment, if it is there.
fn moment_if(is_there: bool, moment: u64) -> Option<u64>
    ensures { result ≡ (if is_there then Some moment else None) }
{
    if is_there { Some(moment) } else { None }
}

impl Sighting {
    /// The index of its first copy at its point.
    pub fn first(&self) -> u32
        ensures { result ≡ self.now.first }
    {
        self.first
    }

    /// The moment of its first copy at its point.
    pub fn at(&self) -> u64
        ensures { result ≡ self.now.at }
    {
        self.at
    }

    /// Its point.
    pub fn point(&self) -> usize
        ensures { result ≡ self.now.point }
    {
        usize::from(self.point)
    }

    /// How many frames began at its point before it.
    pub fn order(&self) -> u64
        ensures { result ≡ self.now.order }
    {
        u64::from(self.order)
    }

    /// The moment of its first copy on way 0.
    pub fn by_0(&self) -> Option<u64>
        ensures { result ≡ self.now.by_0 }
    {
        if self.is_1_first {
            moment_if(self.has_other, self.at + u64::from(self.skew))
        } else {
            Some(self.at)
        }
    }

    /// The moment of its first copy on way 1.
    pub fn by_1(&self) -> Option<u64>
        ensures { result ≡ self.now.by_1 }
    {
        if self.is_1_first {
            Some(self.at)
        } else {
            moment_if(self.has_other, self.at + u64::from(self.skew))
        }
    }

    /// The same.
    pub fn copied(&self) -> Sighting
        ensures { result ≡ self.now }
    {
        Sighting {
            at: self.at,
            skew: self.skew,
            order: self.order,
            first: self.first,
            point: self.point,
            is_1_first: self.is_1_first,
            has_other: self.has_other,
            is_more: self.is_more,
        }
    }

    /// Whether it came on both ways.
    pub fn came_both_ways(&self) -> bool
        ensures { result ≡ came_both self.now }
    {
        self.has_other
    }

    /// The way that it came by, the first of both.
    pub fn way(&self) -> u8
        ensures { result ≡ way_of_seen self.now }
    {
        if self.is_1_first && !self.has_other {
            1
        } else {
            0
        }
    }

    /// With a copy that came one way.
    fn with(&self, way: u8, at: u64, is_again: bool) -> Sighting
        requires way { way < 2 }
        requires soon { IsSoonAfter self.now at }
        ensures { result ≡ with_copy self.now way at is_again }
    {
        let is_known = self.has_other || (way == 1) == self.is_1_first;
        let mut seen = self.copied();
        seen.is_more = self.is_more || is_again;
        if !is_known {
            seen.skew = (at - self.at) as u32;
            seen.has_other = true;
        }
        seen
    }
}

/// Whether a moment is less than 400 ms after the first packet or before the end.
fn is_at_edge(ring: &Ring<'_>, at: u64) -> bool
    ensures { result ≡ is_edge ring.now at }
{
    !ring.is_whole
        && (at.saturating_sub(ring.start) < FORGET_TIME
            || ring.end.saturating_sub(at) < FORGET_TIME)
}

/// What became of a frame at a point.
pub fn fate_of(ring: &Ring<'_>, seen: &Sighting) -> Fate
    ensures { result ≡ fate_of ring.now seen.now }
{
    if seen.is_more {
        Fate::More
    } else if seen.came_both_ways() {
        Fate::Twice
    } else if is_at_edge(ring, seen.at()) {
        Fate::Open
    } else {
        Fate::Once
    }
}

/// From the first copy on one way to the first copy on the other, in nanoseconds.
pub fn skew_of(seen: &Sighting) -> Option<u64>
    ensures { result ≡ skew_of seen.now }
{
    match (seen.by_0(), seen.by_1()) {
        (Some(a), Some(b)) => Some(a.abs_diff(b)),
        _ => None,
    }
}

/// A frame at a point, as one number.
fn key_of(first: u32, point: usize) -> u64
    requires { point < 64 }
    ensures { result ≡ key_by first point }
{
    u64::from(first) * POINTS + point as u64
}

/// The moment of a copy, and its frame and its point as one number.
fn keyed(ring: &Ring<'_>, caught: &Noted, first: u32) -> Keyed
    requires { HasPlaces ring.now }
    ensures { result ≡ sighting_keyed ring.now first caught.now }
{
    Keyed {
        at: caught.at(),
        key: key_of(first, ring.point_of(caught)),
    }
}

/// A sighting that begins with a copy, by how often its direction carried its frame before.
fn begun(ring: &Ring<'_>, caught: &Noted, carried: u8, i: u32, order: u32) -> Sighting
    requires point { point_of ring.now caught.now < 64 }
    requires way { way_of ring.now caught.now < 2 }
    ensures { result ≡ joined ring.now caught.now carried (begun caught.now i (point_of ring.now caught.now) order) }
{
    Sighting {
        at: caught.at(),
        skew: 0,
        order,
        first: i,
        point: ring.point_of(caught) as u8,
        is_1_first: ring.way_of(caught) == 1,
        has_other: false,
        is_more: carried > 0,
    }
}

/// A sighting with a copy, by how often its direction carried its frame before.
fn joined(ring: &Ring<'_>, caught: &Noted, carried: u8, seen: &Sighting) -> Sighting
    requires way { way_of ring.now caught.now < 2 }
    requires soon { IsSoonAfter seen.now caught.now.at }
    ensures { result ≡ joined ring.now caught.now carried seen.now }
{
    seen.with(ring.way_of(caught), caught.at(), carried > 0)
}

/// The sightings of the copies so far.
#[derive(Drop)]
struct Found {
    all: Vec<Sighting>,
    /// Of each copy so far the number of its sighting, and of each copy that is left the one that began its frame.
    of_copy: Vec<u32>,
    /// How many began at each point.
    begun: Vec<u32>,
}

/// Counts a frame that begins at a point, and tells how many began there before.
fn next_at(begun: &mut Vec<u32>, point: usize) -> u32
    requires { point < length begun.old.items }
    ensures order { result ≡ slice_index begun.old.items point }
    ensures counts { begun.new.items ≡ slice_set begun.old.items point (min (slice_index begun.old.items point + 1) (2 ^ 32 - 1)) }
{
    let order = begun[point];
    begun[point] = order.saturating_add(1);
    order
}

/// Puts the sighting that the copy at an index begins.
fn put_begun(
    found: &mut Found,
    ring: &Ring<'_>,
    caught: &Noted,
    i: u32,
    carried: u8,
) -> Result<(), NoMemory>
    requires point { point_of ring.now caught.now < length found.old.begun.items }
    requires place { point_of ring.now caught.now < 64 }
    requires way { way_of ring.now caught.now < 2 }
    requires few { length found.old.all.items < 2 ^ 32 }
    requires room { i < length found.old.of_copy.items }
    ensures all { OnOk result (found.new.all.items ≡ found.old.all.items
        ++ joined ring.now caught.now carried (begun caught.now i (point_of ring.now caught.now) (slice_index found.old.begun.items (point_of ring.now caught.now))) ∷ []) }
    ensures of_copy { OnOk result (found.new.of_copy.items ≡ slice_set found.old.of_copy.items i (length found.old.all.items)) }
    ensures counts { OnOk result (found.new.begun.items
        ≡ slice_set found.old.begun.items (point_of ring.now caught.now) (min (slice_index found.old.begun.items (point_of ring.now caught.now) + 1) (2 ^ 32 - 1))) }
{
    let order = next_at(&mut found.begun, ring.point_of(caught));
    let number = found.all.len() as u32;
    let seen = begun(ring, caught, carried, i, order);
    found.all.push(seen)?;
    found.of_copy[i as usize] = number;
    Ok(())
}

/// Puts the copy at an index into the sighting with a number.
fn put_joined(found: &mut Found, ring: &Ring<'_>, caught: &Noted, i: u32, number: u32, carried: u8)
    requires number { number < length found.old.all.items }
    requires room { i < length found.old.of_copy.items }
    requires way { way_of ring.now caught.now < 2 }
    requires soon { (seen : Sighting) → slice_get found.old.all.items number ≡ Some seen → IsSoonAfter seen caught.now.at }
    ensures all { (seen : Sighting) → slice_get found.old.all.items number ≡ Some seen
        → found.new.all.items ≡ slice_set found.old.all.items number (joined ring.now caught.now carried seen) }
    ensures of_copy { found.new.of_copy.items ≡ slice_set found.old.of_copy.items i number }
    ensures counts { found.new.begun.items ≡ found.old.begun.items }
{
    let place = number as usize;
    let seen = joined(ring, caught, carried, &found.all[place]);
    found.all[place] = seen;
    found.of_copy[i as usize] = number;
}

/// Puts the copy at an index, by the previous copy of its frame at its point.
fn put_copy(
    found: &mut Found,
    ring: &Ring<'_>,
    copies: &[Noted],
    carried: &[u8],
    previous: Option<u32>,
    i: usize,
) -> Result<(), NoMemory>
    requires read { (firsts : List ℕ) × AreRead copies.now firsts }
    requires carried { TellsEach times_before copies.now carried.now }
    requires places { HasPlaces ring.now }
    requires ways { HasWays ring.now }
    requires below { i < length copies.now }
    requires found { AreFound ring.now copies.now i found.old.all.items found.old.of_copy.items found.old.begun.items }
    requires previous { IsPreviousSighting ring.now copies.now i previous }
    ensures found { OnOk result (AreFound ring.now copies.now (i + 1) found.new.all.items found.new.of_copy.items found.new.begun.items) }
    ensures left { OnOk result ((k : ℕ) → i < k → slice_get found.new.of_copy.items k ≡ slice_get found.old.of_copy.items k) }
{
    let caught = &copies[i];
    match previous {
        None => put_begun(found, ring, caught, i as u32, carried[i]),
        Some(j) => {
            let number = found.of_copy[j as usize];
            put_joined(found, ring, caught, i as u32, number, carried[i]);
            Ok(())
        }
    }
}

/// Each frame at each point that saw it, by the copy that began the frame and by how often its direction carried it before, of each copy.
/// The list of those that began frames goes here: the number of a copy's sighting takes the room of the entry that was read.
pub fn sightings_of(
    alloc: Global,
    ring: &Ring<'_>,
    copies: &[Noted],
    firsts: Vec<u32>,
    carried: &[u8],
) -> Result<Sightings, NoMemory>
    requires read { AreRead copies.now firsts.items }
    requires carried { TellsEach times_before copies.now carried.now }
    requires places { HasPlaces ring.now }
    requires ways { HasWays ring.now }
    ensures { IfOk result (λ found. AreSightings ring.now copies.now found.all.items found.of_copy.items) }
{
    let mut previous = Previous::new(alloc, FRAME_TIME);
    // Room is taken for as many sightings as copies, at once, as it is used page by page.
    let mut found = Found {
        all: Vec::with_capacity(alloc, copies.len())?,
        of_copy: firsts,
        begun: vec![in alloc; 0u32; POINTS as usize]?,
    };
    for i in 0..copies.len() {
        let own = previous.next(alloc, keyed(ring, &copies[i], found.of_copy[i]), i as u32)?;
        put_copy(&mut found, ring, copies, carried, own, i)?;
    }
    Ok(Sightings {
        all: found.all,
        of_copy: found.of_copy,
    })
}
