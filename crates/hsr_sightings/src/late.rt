//! Copies of frames that nodes have forgotten, and how many frames a table has to hold.
ghost use Rattle.std.specs.Prelude.{◌≡◌, ◌+◌, ◌-◌, ◌<◌, ◌≤◌, ◌^◌, ◌&&◌, ℕ, length, map, max, nat_le, slice_get, slice_index, IfOk, OnOk, Some};
ghost use Rattle.hsr_frame_groups.specs.Frames.{AreInTime, CaughtFields, past_of};
ghost use Rattle.hsr_sightings.specs.Copies.{begins_there, is_late};
ghost use Rattle.hsr_sightings.specs.Crowding.{IsCrowding, IsRecentFrom, begun_by, moment_in};
ghost use Rattle.hsr_sightings.specs.Demand.{at_least, begun_with, needed_with, one_more};
ghost use Rattle.hsr_sightings.specs.Read.{AreCrowds, AreNeeded, AreSightings, HaveOwnNumbers, IsCrowd, TellsEach};
ghost use Rattle.hsr_sightings.specs.Ring.{forget_time, is_at};
ghost use Rattle.hsr_sightings.specs.Fields as the_sighting;

use crate::ring::{FORGET_TIME, Ring};
use crate::sighting::Sighting;
use hsr_frame::NoMemory;
use hsr_frame_groups::Noted;
use std::alloc::Global;

/// Whether a copy comes so long after its frame's first copy at its point that nodes have forgotten it.
pub fn is_late(seen: &Sighting, caught: &Noted) -> bool
    ensures { result ≡ nat_le forget_time (caught.now.at - seen.now.at) }
{
    caught.at().saturating_sub(seen.at()) >= FORGET_TIME
}

/// Whether a copy comes so long after the first copy of its sighting, which is told by its number.
fn late_at(sightings: &[Sighting], number: u32, caught: &Noted) -> bool
    ensures { (seen : the_sighting.Sighting) → slice_get sightings.now number ≡ Some seen
        → result ≡ nat_le forget_time (caught.now.at - seen.at) }
{
    match sightings.get(number as usize) {
        None => false,
        Some(seen) => is_late(seen, caught),
    }
}

/// Of each copy, whether nodes have forgotten its frame.
pub fn lates_of(
    alloc: Global,
    copies: &[Noted],
    sightings: &[Sighting],
    of_copy: &[u32],
) -> Result<Vec<bool>, NoMemory>
    requires { length of_copy.now ≡ length copies.now }
    ensures { IfOk result (λ told. (ring : Rattle.hsr_sightings.specs.Ring.Ring) → AreSightings ring copies.now sightings.now of_copy.now
        → TellsEach (is_late ring) copies.now told.items) }
{
    let mut told = Vec::new(alloc);
    for i in 0..copies.len() {
        told.push(late_at(sightings, of_copy[i], &copies[i]))?;
    }
    Ok(told)
}

/// Of each point how many frames began there, and the most that were needed.
#[derive(Drop)]
struct Demand {
    begun: Vec<u64>,
    most: Vec<u64>,
}

/// Counts one more frame at a point, if that is among them.
fn put_one(counts: &mut Vec<u64>, point: usize)
    ensures long { length counts.new.items ≡ length counts.old.items }
    ensures counts { counts.new.items ≡ one_more counts.old.items point }
{
    if point < counts.len() {
        counts[point] = counts[point].saturating_add(1);
    }
}

/// Notes that so many were needed at a point, if that is among them.
fn put_least(most: &mut Vec<u64>, point: usize, count: u64)
    ensures long { length most.new.items ≡ length most.old.items }
    ensures most { most.new.items ≡ at_least most.old.items point count }
{
    if point < most.len() {
        most[point] = most[point].max(count);
    }
}

/// How many frames there are at a point.
fn count_at(counts: &[u64], point: usize) -> u64
    ensures { result ≡ slice_index counts.now point }
{
    counts.get(point).copied().unwrap_or(0)
}

/// Counts the copy at an index.
fn put_copy(demand: &mut Demand, seen: &Sighting, caught: &Noted, i: usize)
    ensures begun { demand.new.begun.items ≡ begun_with demand.old.begun.items seen.now i }
    ensures most { demand.new.most.items ≡ needed_with demand.old.begun.items demand.old.most.items seen.now caught.now.at i }
    ensures long { length demand.new.begun.items ≡ length demand.old.begun.items }
{
    if seen.first() as usize == i {
        put_one(&mut demand.begun, seen.point());
    } else if !is_late(seen, caught) {
        let count = count_at(demand.begun.as_slice(), seen.point()).saturating_sub(seen.order());
        put_least(&mut demand.most, seen.point(), count);
    }
}

/// For each point: the most frames, over its copies but the first of a frame, less than 400 ms after that, that began from that one on,
/// both included.
pub fn needed_of(
    alloc: Global,
    ring: &Ring<'_>,
    copies: &[Noted],
    sightings: &[Sighting],
    of_copy: &[u32],
    points: usize,
) -> Result<Vec<u64>, NoMemory>
    requires numbers { HaveOwnNumbers copies.now }
    requires sightings { AreSightings ring.now copies.now sightings.now of_copy.now }
    ensures long { IfOk result (λ needed. length needed.items ≡ points) }
    ensures needed { IfOk result (λ needed. AreNeeded ring.now copies.now needed.items) }
{
    let mut demand = Demand {
        begun: vec![in alloc; 0u64; points]?,
        most: vec![in alloc; 0u64; points]?,
    };
    for i in 0..copies.len() {
        let number = of_copy[i] as usize;
        put_copy(&mut demand, &sightings[number], &copies[i], i);
    }
    Ok(demand.most)
}

/// The most frames that began at a point in any 400 ms, and where these begin.
#[derive(Clone, Copy, Default, PartialEq, Eq)]
pub struct Crowd {
    pub frames: usize,
    /// The index of the copy that begins the fullest 400 ms.
    pub first: u32,
}

/// The moment of a copy, by its index.
fn moment_at(copies: &[Noted], copy: u32) -> u64
    ensures { result ≡ moment_in (slice_get copies.now copy) }
{
    match copies.get(copy as usize) {
        None => 0,
        Some(caught) => caught.at(),
    }
}

/// The first frame from an index on that began less than 400 ms before a moment, by its index; frames are told by their copies.
fn recent_from(copies: &[Noted], things: &[u32], from: usize, at: u64) -> usize
    requires { from ≤ length things.now }
    ensures { IsRecentFrom (map (begun_by copies.now) things.now) from at result }
{
    for k in from..things.len() {
        if at.saturating_sub(moment_at(copies, things[k])) < FORGET_TIME {
            return k;
        }
    }
    things.len()
}

/// The greater crowd: that so far, or that of the frames from an index on.
fn greater(most: Crowd, things: &[u32], from: usize) -> Crowd
    requires { from < length things.now }
    ensures frames { result.frames ≡ max (length things.now - from) most.frames }
    ensures kept { length things.now - from ≤ most.frames → result ≡ most }
    ensures first { most.frames < length things.now - from → (k : ℕ) → slice_get things.now from ≡ Some k → result.first ≡ k }
{
    let frames = things.len() - from;
    if frames > most.frames {
        Crowd {
            frames,
            first: things[from],
        }
    } else {
        most
    }
}

/// The frames that began at a point so far, in the order of time, by their copies: those in front of a place are forgotten.
#[derive(Drop)]
struct Crowding {
    things: Vec<u32>,
    from: usize,
    most: Crowd,
}

/// Puts the copy at an index, if it begins a frame at the point.
fn put_begun(
    crowding: &mut Crowding,
    copies: &[Noted],
    i: u32,
    begins: bool,
) -> Result<(), NoMemory>
    requires time { AreInTime copies.now }
    requires below { i < length copies.now }
    requires within { crowding.old.from ≤ length crowding.old.things.items }
    ensures { OnOk result ((ring : Rattle.hsr_sightings.specs.Ring.Ring) (point : ℕ) → IsCrowding ring copies.now point i (map (begun_by copies.now) crowding.old.things.items) crowding.old.from crowding.old.most
        → ((c : CaughtFields) → slice_get copies.now i ≡ Some c → begins ≡ (is_at ring point c && begins_there ring (past_of copies.now i) c))
        → IsCrowding ring copies.now point (i + 1) (map (begun_by copies.now) crowding.new.things.items) crowding.new.from crowding.new.most) }
{
    if !begins {
        return Ok(());
    }
    let at = copies[i as usize].at();
    crowding.things.push(i)?;
    crowding.from = recent_from(copies, crowding.things.as_slice(), crowding.from, at);
    crowding.most = greater(crowding.most, crowding.things.as_slice(), crowding.from);
    Ok(())
}

/// Whether the copy at an index begins a frame at a point.
fn begins_at(
    ring: &Ring<'_>,
    copies: &[Noted],
    sightings: &[Sighting],
    of_copy: &[u32],
    point: usize,
    i: usize,
) -> bool
    requires sightings { AreSightings ring.now copies.now sightings.now of_copy.now }
    requires below { i < length copies.now }
    ensures { (c : CaughtFields) → slice_get copies.now i ≡ Some c → result ≡ (is_at ring.now point c && begins_there ring.now (past_of copies.now i) c) }
{
    let seen = &sightings[of_copy[i] as usize];
    ring.point_of(&copies[i]) == point && seen.first() as usize == i
}

/// The crowd of a point.
fn crowd_of(
    alloc: Global,
    ring: &Ring<'_>,
    copies: &[Noted],
    sightings: &[Sighting],
    of_copy: &[u32],
    point: usize,
) -> Result<Crowd, NoMemory>
    requires time { AreInTime copies.now }
    requires few { length copies.now < 2 ^ 32 }
    requires sightings { AreSightings ring.now copies.now sightings.now of_copy.now }
    ensures { IfOk result (λ found. IsCrowd ring.now copies.now point found) }
{
    let mut crowding = Crowding {
        things: Vec::new(alloc),
        from: 0,
        most: Crowd::default(),
    };
    for i in 0..copies.len() {
        let begins = begins_at(ring, copies, sightings, of_copy, point, i);
        put_begun(&mut crowding, copies, i as u32, begins)?;
    }
    Ok(crowding.most)
}

/// The crowd of each point.
pub fn crowds_of(
    alloc: Global,
    ring: &Ring<'_>,
    copies: &[Noted],
    sightings: &[Sighting],
    of_copy: &[u32],
    points: usize,
) -> Result<Vec<Crowd>, NoMemory>
    requires time { AreInTime copies.now }
    requires few { length copies.now < 2 ^ 32 }
    requires sightings { AreSightings ring.now copies.now sightings.now of_copy.now }
    ensures long { IfOk result (λ crowds. length crowds.items ≡ points) }
    ensures crowds { IfOk result (λ crowds. AreCrowds ring.now copies.now crowds.items) }
{
    let mut crowds = Vec::new(alloc);
    for point in 0..points {
        crowds.push(crowd_of(alloc, ring, copies, sightings, of_copy, point)?)?;
    }
    Ok(crowds)
}
