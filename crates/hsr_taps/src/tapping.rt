//! The copies and the strays of a capture.
ghost use Rattle.std.specs.Prelude.{◌≡◌, ℕ, ◌+◌, ◌%◌, ◌<◌, ◌≤◌, ◌^◌, ◌++◌, ◌∷◌, [], List, Bool, length, map, option_to_list, reverse, slice_get, IfOk, IsSome, OnOk};
ghost use Rattle.hsr_frame_groups.specs.Frames.{CaughtFields};
ghost use Rattle.hsr_taps.specs.Came.{AreInOrder, AreLaneCounts, ArePackets, ArePointsOf, IsTapped, AreSumsBy, AreTalliesBy, AreWaysBy, caught_in, copies_in, owner_by, stray_in, strays_in, tally_if, taps_at, way_by};
ghost use Rattle.hsr_taps.specs.Directions.{interface_of};
ghost use Rattle.hsr_taps.specs.Tallies.{HaveRoom, taps_by};

use crate::choice::{Choice, TapsAsked};
use crate::direction::{DIRECTIONS, Taps, direction_of, interface_of};
use crate::points::{Point, points_of};
use crate::tally::{Tally, is_at, looked_at, tallies_of};
use hsr_capture_reader::{Interface, Packet, give_back};
use hsr_frame::NoMemory;
use hsr_frame_copies::{NoCopy, copy_of, size_of};
use hsr_frame_groups::Caught;
use std::alloc::Global;

/// A packet that is no copy of a tagged frame.
#[derive(Clone, Copy, PartialEq, Eq)]
pub struct Stray {
    pub at: u64,
    pub packet: u32,
    pub interface: usize,
    pub what: NoCopy,
}

/// What came by the taps of a capture.
#[derive(Drop)]
pub struct Tapped<'a> {
    /// What came at each interface; none where it isn't looked at.
    pub tallies: Vec<Option<Tally>>,
    /// How the directions of each interface are told apart.
    pub taps: Vec<Taps>,
    pub points: Vec<Point<'a>>,
    /// The packets that are no copies of tagged frames.
    pub strays: Vec<Stray>,
    /// Of each direction, the point that it belongs to.
    pub point_of: Vec<usize>,
    /// Of each direction, the lane that most of its copies have.
    pub way_of: Vec<u8>,
    /// Of each direction, how many copies came by it.
    pub carried: Vec<u64>,
}

/// What came by the taps of a capture, and the copies of tagged frames, in the order of time.
#[derive(Drop)]
pub struct Came<'n, 'a> {
    pub tapped: Tapped<'n>,
    pub copies: Vec<Caught<'a>>,
}

/// How the directions of each interface are told apart.
fn taps_of(alloc: Global, asked: TapsAsked, tallies: &[Tally]) -> Result<Vec<Taps>, NoMemory>
    requires { HaveRoom tallies.now }
    ensures { IfOk result (λ taps. taps.items ≡ map (taps_by asked) tallies.now) }
{
    let mut taps = Vec::new(alloc);
    for tally in tallies {
        taps.push(tally.taps(asked))?;
    }
    Ok(taps)
}

/// The taps of a packet's interface, if it is looked at.
fn taps_at(looked_at: &[bool], taps: &[Taps], packet: &Packet<'_>) -> Option<Taps>
    ensures { result ≡ taps_at looked_at.now taps.now packet.now }
{
    if is_at(looked_at, packet.interface()) {
        taps.get(packet.interface()).copied()
    } else {
        None
    }
}

/// The copies and the strays among packets.
#[derive(Drop)]
struct SortedOut<'a> {
    copies: Vec<Caught<'a>>,
    strays: Vec<Stray>,
}

/// Puts a packet among the copies or the strays, if its interface is looked at.
fn put_packet<'a>(
    sorted: &mut SortedOut<'a>,
    taps: Option<Taps>,
    packet: &Packet<'a>,
) -> Result<(), NoMemory>
    requires { IsSome taps → packet.now.interface < 64 }
    ensures copies { OnOk result (sorted.new.copies.items ≡ sorted.old.copies.items ++ option_to_list (caught_in packet.now taps)) }
    ensures strays { OnOk result (sorted.new.strays.items ≡ sorted.old.strays.items ++ option_to_list (stray_in packet.now taps)) }
{
    let Some(taps) = taps else {
        return Ok(());
    };
    match copy_of(packet) {
        Ok(copy) => sorted.copies.push(Caught::new(
            packet.moment,
            packet.number(),
            direction_of(packet.interface(), taps, packet.way(), copy.path),
            packet.octets,
            size_of(packet),
        ))?,
        Err(what) => sorted.strays.push(Stray {
            at: packet.moment,
            packet: packet.number(),
            interface: packet.interface(),
            what,
        })?,
    }
    Ok(())
}

/// The copies and the strays among packets, the last first, so that the packets go as the copies come: a large capture has room for one of
/// both lists. The copies' room is taken at once, as it is used page by page.
fn sorted_back<'a>(
    alloc: Global,
    packets: Vec<Packet<'a>>,
    looked_at: &[bool],
    taps: &[Taps],
) -> Result<SortedOut<'a>, NoMemory>
    requires { length taps.now ≤ 64 }
    ensures copies { IfOk result (λ sorted. reverse sorted.copies.items ≡ copies_in looked_at.now taps.now packets.entry.items) }
    ensures strays { IfOk result (λ sorted. reverse sorted.strays.items ≡ strays_in looked_at.now taps.now packets.entry.items) }
{
    let mut left = packets;
    let mut sorted = SortedOut {
        copies: Vec::with_capacity(alloc, left.len())?,
        strays: Vec::new(alloc),
    };
    while let Some(packet) = left.pop() {
        put_packet(&mut sorted, taps_at(looked_at, taps, &packet), &packet)?;
        give_back(&mut left);
    }
    Ok(sorted)
}

/// The copies and the strays among packets.
fn sorted_out<'a>(
    alloc: Global,
    packets: Vec<Packet<'a>>,
    looked_at: &[bool],
    taps: &[Taps],
) -> Result<SortedOut<'a>, NoMemory>
    requires { length taps.now ≤ 64 }
    ensures copies { IfOk result (λ sorted. sorted.copies.items ≡ copies_in looked_at.now taps.now packets.entry.items) }
    ensures strays { IfOk result (λ sorted. sorted.strays.items ≡ strays_in looked_at.now taps.now packets.entry.items) }
{
    let mut sorted = sorted_back(alloc, packets, looked_at, taps)?;
    sorted.copies.reverse();
    sorted.strays.reverse();
    Ok(sorted)
}

/// The point of a direction, by those of the interfaces; the first one where its interface has none.
fn owner_of(owners: &[Option<usize>], direction: usize) -> usize
    ensures { result ≡ owner_by (slice_get owners.now (interface_of direction)) }
{
    match owners.get(interface_of(direction)) {
        Some(Some(point)) => *point,
        _ => 0,
    }
}

/// The point of each direction, by those of the interfaces.
fn points_by_direction(alloc: Global, owners: &[Option<usize>]) -> Result<Vec<usize>, NoMemory>
    ensures long { IfOk result (λ points. length points.items ≡ 320) }
    ensures points { IfOk result (λ points. ArePointsOf owners.now points.items) }
{
    let mut points = Vec::new(alloc);
    for direction in 0..DIRECTIONS {
        points.push(owner_of(owners, direction))?;
    }
    Ok(points)
}

/// Counts a copy at its direction.
fn count_at(counts: &mut Vec<u64>, caught: &Caught<'_>)
    ensures long { length counts.new.items ≡ length counts.old.items }
    ensures counts { (lane : ℕ) (copies : List CaughtFields) → length copies < 2 ^ 63 → caught.now.copy.path % 2 ≡ lane → AreLaneCounts lane copies counts.old.items
        → AreLaneCounts lane (copies ++ caught.now ∷ []) counts.new.items }
{
    let direction = caught.direction();
    if direction < counts.len() {
        counts[direction] = counts[direction].saturating_add(1);
    }
}

/// Counts a copy at its direction, if its path has a lane.
fn count_copy(counts: &mut Vec<u64>, lane: u8, caught: &Caught<'_>)
    ensures long { length counts.new.items ≡ length counts.old.items }
    ensures counts { (copies : List CaughtFields) → length copies < 2 ^ 63 → AreLaneCounts lane copies counts.old.items
        → AreLaneCounts lane (copies ++ caught.now ∷ []) counts.new.items }
{
    if caught.copy().path % 2 == lane {
        count_at(counts, caught);
    }
}

/// How many copies each direction has with a lane.
fn lanes_of(alloc: Global, copies: &[Caught<'_>], lane: u8) -> Result<Vec<u64>, NoMemory>
    requires { length copies.now < 2 ^ 63 }
    ensures long { IfOk result (λ counts. length counts.items ≡ 320) }
    ensures counts { IfOk result (λ counts. AreLaneCounts lane copies.now counts.items) }
{
    let mut counts = vec![in alloc; 0u64; DIRECTIONS]?;
    for caught in copies {
        count_copy(&mut counts, lane, caught);
    }
    Ok(counts)
}

/// The lane that most copies of a direction have; that of port A where both have as many.
fn way_by(lane_a: u64, lane_b: u64) -> u8
    ensures { result ≡ way_by lane_a lane_b }
{
    if lane_b > lane_a { 1 } else { 0 }
}

/// The lane that most copies of each direction have.
fn ways_of(alloc: Global, lane_a: &[u64], lane_b: &[u64]) -> Result<Vec<u8>, NoMemory>
    requires { length lane_a.now ≡ length lane_b.now }
    ensures long { IfOk result (λ ways. length ways.items ≡ length lane_a.now) }
    ensures ways { IfOk result (λ ways. AreWaysBy lane_a.now lane_b.now ways.items) }
{
    let mut ways = Vec::new(alloc);
    for direction in 0..lane_a.len() {
        ways.push(way_by(lane_a[direction], lane_b[direction]))?;
    }
    Ok(ways)
}

/// How many copies each direction has.
fn sums_of(alloc: Global, lane_a: &[u64], lane_b: &[u64]) -> Result<Vec<u64>, NoMemory>
    requires { length lane_a.now ≡ length lane_b.now }
    ensures long { IfOk result (λ sums. length sums.items ≡ length lane_a.now) }
    ensures sums { IfOk result (λ sums. AreSumsBy lane_a.now lane_b.now sums.items) }
{
    let mut sums = Vec::new(alloc);
    for direction in 0..lane_a.len() {
        sums.push(lane_a[direction].saturating_add(lane_b[direction]))?;
    }
    Ok(sums)
}

/// The tally of an interface, if that is looked at.
fn tally_if(is_looked: bool, tally: Tally) -> Option<Tally>
    ensures { result ≡ tally_if is_looked tally }
{
    if is_looked { Some(tally) } else { None }
}

/// The tallies of the interfaces that are looked at.
fn tallies_if(
    alloc: Global,
    looked_at: &[bool],
    tallies: &[Tally],
) -> Result<Vec<Option<Tally>>, NoMemory>
    requires { length looked_at.now ≡ length tallies.now }
    ensures long { IfOk result (λ all. length all.items ≡ length looked_at.now) }
    ensures tallies { IfOk result (λ all. AreTalliesBy looked_at.now tallies.now all.items) }
{
    let mut all = Vec::new(alloc);
    for i in 0..looked_at.len() {
        all.push(tally_if(looked_at[i], tallies[i]))?;
    }
    Ok(all)
}

/// What came by the taps of a capture, whose packets are in the order of time; they go. `NoMemory` where room is refused.
pub fn tap<'n, 'a>(
    alloc: Global,
    interfaces: &[Interface<'n>],
    packets: Vec<Packet<'a>>,
    choice: &Choice<'n>,
) -> Result<Came<'n, 'a>, NoMemory>
    requires interfaces { length interfaces.now ≤ 64 }
    requires packets { length packets.items < 2 ^ 32 }
    requires numbers { ArePackets packets.items }
    requires time { AreInOrder packets.items }
    ensures { IfOk result (λ came. (looked : List Bool) × IsTapped choice.now interfaces.now packets.entry.items looked came.tapped came.copies.items) }
{
    let looked = looked_at(alloc, interfaces, choice)?;
    let looked_at = looked.as_slice();
    let tallies = tallies_of(alloc, packets.as_slice(), looked_at)?;
    let counted = tallies.as_slice();
    let taps = taps_of(alloc, choice.taps, counted)?;
    let by_interface = taps.as_slice();
    let named = points_of(alloc, choice, interfaces, looked_at)?;
    let owners = named.owners.as_slice();
    let sorted = sorted_out(alloc, packets, looked_at, by_interface)?;
    let copies = sorted.copies.as_slice();
    let in_a = lanes_of(alloc, copies, 0)?;
    let lane_a = in_a.as_slice();
    let in_b = lanes_of(alloc, copies, 1)?;
    let lane_b = in_b.as_slice();
    let told = tallies_if(alloc, looked_at, counted)?;
    let point_of = points_by_direction(alloc, owners)?;
    let way_of = ways_of(alloc, lane_a, lane_b)?;
    let carried = sums_of(alloc, lane_a, lane_b)?;
    Ok(Came {
        tapped: Tapped {
            tallies: told,
            taps,
            points: named.points,
            strays: sorted.strays,
            point_of,
            way_of,
            carried,
        },
        copies: sorted.copies,
    })
}
