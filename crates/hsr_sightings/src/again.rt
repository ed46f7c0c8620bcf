//! How often a direction carried a frame.
ghost use Rattle.std.specs.Prelude.{◌≡◌, ◌+◌, ◌<◌, ℕ, List, length, map, max, min, reverse, slice_index, slice_set, IfOk};
ghost use Rattle.hsr_sightings.specs.Again.{AreMost, IsCarried, IsCountedBy, carried_keyed};
ghost use Rattle.hsr_sightings.specs.Copies.{carried_before};
ghost use Rattle.hsr_sightings.specs.Keys.{carried_key};
ghost use Rattle.hsr_sightings.specs.Read.{AreRead, TellsEach};

use hsr_frame::NoMemory;
use hsr_frame_groups::{FRAME_TIME, Noted};
use hsr_recent_table::{Keyed, Previous};
use std::alloc::Global;

/// How many directions there may be, as numbers.
const DIRECTIONS: u64 = 512;

/// A frame in a direction, as one number.
fn key_of(first: u32, direction: usize) -> u64
    requires { direction < 512 }
    ensures { result ≡ carried_key first direction }
{
    u64::from(first) * DIRECTIONS + direction as u64
}

/// The moment of a copy, and its frame and its direction as one number.
fn keyed(caught: &Noted, first: u32) -> Keyed
    requires { caught.now.direction < 512 }
    ensures { result ≡ carried_keyed first caught.now }
{
    Keyed {
        at: caught.at(),
        key: key_of(first, caught.direction()),
    }
}

/// One more than of the previous thing; none where there is none.
fn count_by(counts: &[u32], found: Option<u32>) -> u32
    ensures { IsCountedBy counts.now found result }
{
    match found {
        None => 0,
        Some(j) => counts
            .get(j as usize)
            .copied()
            .unwrap_or(0)
            .saturating_add(1),
    }
}

/// Of each copy, how often its direction carried its frame before: once more than the previous copy of both.
fn counts_of(alloc: Global, copies: &[Noted], firsts: &[u32]) -> Result<Vec<u32>, NoMemory>
    requires { AreRead copies.now firsts.now }
    ensures { IfOk result (λ counts. TellsEach carried_before copies.now counts.items) }
{
    let mut previous = Previous::new(alloc, FRAME_TIME);
    let mut counts = Vec::with_capacity(alloc, copies.len())?;
    for i in 0..copies.len() {
        let found = previous.next(alloc, keyed(&copies[i], firsts[i]), i as u32)?;
        let count = count_by(counts.as_slice(), found);
        counts.push(count)?;
    }
    Ok(counts)
}

/// Notes that a direction carried a frame once more than so often.
fn put_most(most: &mut Vec<u64>, direction: usize, count: u32)
    requires { direction < length most.old.items }
    ensures { most.new.items ≡ slice_set most.old.items direction (max (count + 1) (slice_index most.old.items direction)) }
{
    most[direction] = (u64::from(count) + 1).max(most[direction]);
}

/// Of each direction, the most copies of a frame.
fn most_of(alloc: Global, copies: &[Noted], counts: &[u32]) -> Result<Vec<u64>, NoMemory>
    requires read { (firsts : List ℕ) × AreRead copies.now firsts }
    requires counts { TellsEach carried_before copies.now counts.now }
    ensures long { IfOk result (λ most. length most.items ≡ 512) }
    ensures most { IfOk result (λ most. AreMost (reverse copies.now) most.items) }
{
    let mut most = vec![in alloc; 0u64; DIRECTIONS as usize]?;
    for i in 0..copies.len() {
        put_most(&mut most, copies[i].direction(), counts[i]);
    }
    Ok(most)
}

/// The same counts in one octet each: 255 for more.
fn times_of(alloc: Global, counts: &[u32]) -> Result<Vec<u8>, NoMemory>
    ensures { IfOk result (λ times. times.items ≡ map (λ n. min n 255) counts.now) }
{
    let mut times = Vec::with_capacity(alloc, counts.len())?;
    for i in 0..counts.len() {
        times.push(counts[i].min(255) as u8)?;
    }
    Ok(times)
}

/// How often directions carried frames.
#[derive(Drop)]
pub struct Carried {
    /// Of each copy, how often its direction carried its frame before; 255 for more. One octet each, as it is kept for long, and who reads
    /// it asks for three times at most.
    pub times: Vec<u8>,
    /// Of each direction, the most copies of a frame.
    pub most: Vec<u64>,
}

/// How often directions carried frames: of each copy as one octet, and of each of 512 directions the most.
pub fn carried_of(alloc: Global, copies: &[Noted], firsts: &[u32]) -> Result<Carried, NoMemory>
    requires { AreRead copies.now firsts.now }
    ensures { IfOk result (IsCarried copies.now) }
{
    let counts = counts_of(alloc, copies, firsts)?;
    let most = most_of(alloc, copies, counts.as_slice())?;
    let times = times_of(alloc, counts.as_slice())?;
    Ok(Carried { times, most })
}
