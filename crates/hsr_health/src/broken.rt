//! When group frames came one way alone: the ring is open between those that came by the one way and those that came by the other.
ghost use Rattle.std.specs.Prelude.{◌≡◌, ◌++◌, ◌∷◌, ◌||◌, [], ℕ, Bool, List, false, true, filter, if◌then◌else◌, length, map, nat_eq, replicate, slice_get, slice_index, IfOk, OnOk, Some};
ghost use Rattle.std.specs.List.{list_any, range_with_len};
ghost use Rattle.hsr_frame.specs.Address.{is_among};
ghost use Rattle.hsr_health.specs.Broken.{AreMarked, AreRuns, AreTested, IsClosed, IsEnded, IsStep, IsStepIf, IsTestOf, IsTold, Run, grown, is_marked, is_over, is_seen, is_thin_by, kept, kept_at, runs_at, runs_if, runs_of};
ghost use Rattle.hsr_health.specs.Counted.{AreSources, changed, is_fate, kept_by};
ghost use Rattle.hsr_sightings.specs.Read.{AreSightings};
ghost use Rattle.hsr_sightings.specs.Seen.{fate_of};
ghost use Rattle.hsr_sightings.specs.Sightings.{sees_both_ways};
ghost use Rattle.hsr_sightings.specs.Fields as the_sighting;
ghost use Rattle.hsr_health.specs.declared.broken.Span as the_span;

use crate::counts::source_of;
use hsr_frame::{Mac, NoMemory};
use hsr_frame_groups::Noted;
use hsr_sightings::{Fate, Ring, Sighting, fate_of};
use std::alloc::Global;

/// A run of group frames that came one way alone at a point, by their first copies: no group frame of its sources came both ways.
#[derive(Drop)]
pub struct Span {
    pub point: usize,
    /// The moments of its first and its last frame.
    pub first: u64,
    pub last: u64,
    pub frames: u64,
    /// The sources that came by each way alone, in the order of addresses.
    pub by_0: Vec<Mac>,
    pub by_1: Vec<Mac>,
}

/// A run that goes on: its frames in the order of time, and of each source whether it is one of theirs.
#[derive(Drop)]
struct Going {
    seen: Vec<Sighting>,
    is_of: Vec<bool>,
}

/// One of both.
fn either(a: bool, b: bool) -> bool
    ensures { result ≡ (a || b) }
{
    if a { true } else { b }
}

/// Marks a source, if it is so and the source is among them.
fn put_mark(marks: &mut Vec<bool>, source: usize, is_so: bool)
    ensures long { length marks.new.items ≡ length marks.old.items }
    ensures marks { marks.new.items ≡ changed (λ own. own || is_so) source marks.old.items }
{
    if source < marks.len() {
        marks[source] = either(marks[source], is_so);
    }
}

/// Whether a frame came one way.
pub(crate) fn came_by(seen: &Sighting, way: u8) -> bool
    ensures { result ≡ kept_by way seen.now }
{
    if way == 0 {
        seen.by_0().is_some()
    } else {
        seen.by_1().is_some()
    }
}

/// Of each of so many sources whether one of these frames is its and came one way.
fn marks_by(
    alloc: Global,
    of_copy: &[u16],
    seen: &[Sighting],
    many: usize,
    way: u8,
) -> Result<Vec<bool>, NoMemory>
    ensures long { IfOk result (λ marks. length marks.items ≡ many) }
    ensures marks { IfOk result (λ marks. AreMarked of_copy.now way seen.now marks.items) }
{
    let mut marks = vec![in alloc; false; many]?;
    for i in 0..seen.len() {
        let own = &seen[i];
        let source = source_of(of_copy, own.first());
        put_mark(&mut marks, source, came_by(own, way));
    }
    Ok(marks)
}

/// Puts an address behind others, if it is so.
fn put_if(those: &mut Vec<Mac>, mac: Mac, is_so: bool) -> Result<(), NoMemory>
    ensures { OnOk result (those.new.items ≡ those.old.items ++ (if is_so then mac ∷ [] else [])) }
{
    if is_so {
        those.push(mac)?;
    }
    Ok(())
}

/// The addresses that are marked.
fn those_of(alloc: Global, macs: &[Mac], marks: &[bool]) -> Result<Vec<Mac>, NoMemory>
    requires { length marks.now ≡ length macs.now }
    ensures { IfOk result (λ those. (test : List ℕ → Bool) → AreTested macs.now marks.now test → those.items ≡ filter test macs.now) }
{
    let mut those = Vec::new(alloc);
    for k in 0..macs.len() {
        put_if(&mut those, macs[k], marks[k])?;
    }
    Ok(those)
}

/// The sources of which one of these frames came one way.
fn those_by(
    alloc: Global,
    macs: &[Mac],
    of_copy: &[u16],
    seen: &[Sighting],
    way: u8,
) -> Result<Vec<Mac>, NoMemory>
    ensures { IfOk result (λ those. (test : List ℕ → Bool) → IsTestOf macs.now (is_marked of_copy.now way seen.now) test → those.items ≡ filter test macs.now) }
{
    let marks = marks_by(alloc, of_copy, seen, macs.len(), way)?;
    let those = those_of(alloc, macs, marks.as_slice())?;
    Ok(those)
}

/// The moment of a frame, by its index.
fn moment_at(seen: &[Sighting], k: usize) -> u64
    ensures { (s : the_sighting.Sighting) → slice_get seen.now k ≡ Some s → result ≡ s.at }
{
    match seen.get(k) {
        None => 0,
        Some(own) => own.at(),
    }
}

/// A run, by its frames in the order of time.
fn told_of(
    alloc: Global,
    macs: &[Mac],
    of_copy: &[u16],
    point: usize,
    seen: &[Sighting],
) -> Result<Span, NoMemory>
    ensures { IfOk result (λ told. IsTold macs.now of_copy.now point seen.now told) }
{
    let by_0 = those_by(alloc, macs, of_copy, seen, 0)?;
    let by_1 = those_by(alloc, macs, of_copy, seen, 1)?;
    Ok(Span {
        point,
        first: moment_at(seen, 0),
        last: moment_at(seen, seen.len().saturating_sub(1)),
        frames: seen.len() as u64,
        by_0,
        by_1,
    })
}

/// No run goes on, of so many sources.
fn no_run(alloc: Global, many: usize) -> Result<Going, NoMemory>
    ensures seen { IfOk result (λ going. going.seen.items ≡ []) }
    ensures is_of { IfOk result (λ going. going.is_of.items ≡ replicate many false) }
{
    let is_of = vec![in alloc; false; many]?;
    Ok(Going {
        seen: Vec::new(alloc),
        is_of,
    })
}

/// Goes on with a run.
fn grow(going: &mut Going, of_copy: &[u16], seen: &Sighting) -> Result<(), NoMemory>
    ensures seen { OnOk result (going.new.seen.items ≡ going.old.seen.items ++ seen.now ∷ []) }
    ensures is_of { OnOk result (going.new.is_of.items ≡ changed (λ own. own || true) (slice_index of_copy.now seen.now.first) going.old.is_of.items) }
{
    going.seen.push(seen.copied())?;
    put_mark(&mut going.is_of, source_of(of_copy, seen.first()), true);
    Ok(())
}

/// Puts a run behind those that ended.
fn put_run(
    spans: &mut Vec<Span>,
    alloc: Global,
    macs: &[Mac],
    of_copy: &[u16],
    point: usize,
    seen: &[Sighting],
) -> Result<(), NoMemory>
    ensures { OnOk result ((told : the_span.Span) × IsTold macs.now of_copy.now point seen.now told × (spans.new.items ≡ spans.old.items ++ told ∷ [])) }
{
    let told = told_of(alloc, macs, of_copy, point, seen)?;
    spans.push(told)?;
    Ok(())
}

/// Ends the run that goes on.
fn end_run(
    spans: &mut Vec<Span>,
    going: &mut Going,
    alloc: Global,
    macs: &[Mac],
    of_copy: &[u16],
    point: usize,
) -> Result<(), NoMemory>
    ensures { OnOk result (IsEnded macs.now of_copy.now point (kept spans.old.items going.old) (kept spans.new.items going.new)) }
{
    put_run(spans, alloc, macs, of_copy, point, going.seen.as_slice())?;
    *going = no_run(alloc, macs.len())?;
    Ok(())
}

/// Whether a frame to a group was seen at a point.
fn is_at(copies: &[Noted], point: usize, seen: &Sighting) -> bool
    ensures { result ≡ kept_at copies.now point seen.now }
{
    match copies.get(seen.first() as usize) {
        None => false,
        Some(caught) => caught.is_to_group() && seen.point() == point,
    }
}

/// Whether a frame came one way alone.
fn is_once(ring: &Ring<'_>, seen: &Sighting) -> bool
    ensures { result ≡ is_fate 1 (fate_of ring.now seen.now) }
{
    match fate_of(ring, seen) {
        Fate::Once => true,
        _ => false,
    }
}

/// Whether a frame of a run's source came both ways.
fn is_over(of_copy: &[u16], is_of: &[bool], seen: &Sighting) -> bool
    ensures { result ≡ is_over of_copy.now is_of.now seen.now }
{
    let is_own = is_of
        .get(source_of(of_copy, seen.first()))
        .copied()
        .unwrap_or(false);
    seen.came_both_ways() && is_own
}

/// Puts a frame to a group.
fn put_group(
    spans: &mut Vec<Span>,
    going: &mut Going,
    alloc: Global,
    ring: &Ring<'_>,
    of_copy: &[u16],
    macs: &[Mac],
    point: usize,
    seen: &Sighting,
) -> Result<(), NoMemory>
    ensures { OnOk result (IsStep macs.now of_copy.now point seen.now (is_fate 1 (fate_of ring.now seen.now)) (is_over of_copy.now going.old.is_of.items seen.now)
        (kept spans.old.items going.old) (kept spans.new.items going.new)) }
{
    if is_once(ring, seen) {
        grow(going, of_copy, seen)?;
        return Ok(());
    }
    if is_over(of_copy, going.is_of.as_slice(), seen) {
        end_run(spans, going, alloc, macs, of_copy, point)?;
        return Ok(());
    }
    Ok(())
}

/// Puts a frame, if it is one to a group at the point.
fn put_seen(
    spans: &mut Vec<Span>,
    going: &mut Going,
    alloc: Global,
    ring: &Ring<'_>,
    copies: &[Noted],
    of_copy: &[u16],
    macs: &[Mac],
    point: usize,
    seen: &Sighting,
) -> Result<(), NoMemory>
    ensures { OnOk result (IsStepIf (kept_at copies.now point seen.now)
        (IsStep macs.now of_copy.now point seen.now (is_fate 1 (fate_of ring.now seen.now)) (is_over of_copy.now going.old.is_of.items seen.now)
        (kept spans.old.items going.old) (kept spans.new.items going.new)) (kept spans.old.items going.old) (kept spans.new.items going.new)) }
{
    if is_at(copies, point, seen) {
        put_group(spans, going, alloc, ring, of_copy, macs, point, seen)?;
        return Ok(());
    }
    Ok(())
}

/// Whether no run goes on.
fn is_at_rest(going: &Going) -> bool
    ensures { result ≡ nat_eq (length going.now.seen.items) 0 }
{
    going.seen.is_empty()
}

/// Puts the run that goes on at the end behind those that ended.
fn close(
    spans: &mut Vec<Span>,
    alloc: Global,
    macs: &[Mac],
    of_copy: &[u16],
    point: usize,
    going: &Going,
) -> Result<(), NoMemory>
    ensures { OnOk result (IsClosed macs.now of_copy.now point (nat_eq (length going.now.seen.items) 0) (kept spans.old.items going.now) spans.new.items) }
{
    if is_at_rest(going) {
        return Ok(());
    }
    put_run(spans, alloc, macs, of_copy, point, going.seen.as_slice())?;
    Ok(())
}

/// Puts the runs of a point behind others, in the order of time.
fn put_runs(
    spans: &mut Vec<Span>,
    alloc: Global,
    ring: &Ring<'_>,
    copies: &[Noted],
    of_copy: &[u16],
    macs: &[Mac],
    sightings: &[Sighting],
    point: usize,
) -> Result<(), NoMemory>
    ensures { OnOk result ((numbers : List ℕ) (before : List Run) → AreSources copies.now macs.now of_copy.now → AreSightings ring.now copies.now sightings.now numbers
        → AreRuns ring.now macs.now before spans.old.items → AreRuns ring.now macs.now (before ++ runs_at ring.now copies.now point) spans.new.items) }
{
    let mut going = no_run(alloc, macs.len())?;
    for i in 0..sightings.len() {
        put_seen(
            spans,
            &mut going,
            alloc,
            ring,
            copies,
            of_copy,
            macs,
            point,
            &sightings[i],
        )?;
    }
    close(spans, alloc, macs, of_copy, point, &going)?;
    Ok(())
}

/// Puts the runs of a point behind others, if it sees both ways.
fn put_runs_if(
    spans: &mut Vec<Span>,
    alloc: Global,
    ring: &Ring<'_>,
    copies: &[Noted],
    of_copy: &[u16],
    macs: &[Mac],
    sightings: &[Sighting],
    point: usize,
    sees_both: bool,
) -> Result<(), NoMemory>
    ensures { OnOk result ((numbers : List ℕ) (before : List Run) → AreSources copies.now macs.now of_copy.now → AreSightings ring.now copies.now sightings.now numbers
        → AreRuns ring.now macs.now before spans.old.items → AreRuns ring.now macs.now (before ++ runs_if ring.now copies.now point sees_both) spans.new.items) }
{
    if sees_both {
        put_runs(spans, alloc, ring, copies, of_copy, macs, sightings, point)?;
        return Ok(());
    }
    Ok(())
}

/// Whether a copy is of a group frame at a point, and came one way.
fn is_seen(ring: &Ring<'_>, caught: &Noted, point: usize, way: u8) -> bool
    ensures { result ≡ is_seen ring.now point way caught.now }
{
    ring.point_of(caught) == point && ring.way_of(caught) == way && caught.is_to_group()
}

/// Whether the directions of a point carried group frames one way.
fn sees(ring: &Ring<'_>, copies: &[Noted], point: usize, way: u8) -> bool
    ensures { result ≡ list_any (is_seen ring.now point way) copies.now }
{
    for caught in copies {
        if is_seen(ring, caught, point, way) {
            return true;
        }
    }
    false
}

/// Whether the directions of a point carried group frames by both ways.
fn sees_both_ways(ring: &Ring<'_>, copies: &[Noted], point: usize) -> bool
    ensures { result ≡ sees_both_ways ring.now copies.now point }
{
    sees(ring, copies, point, 0) && sees(ring, copies, point, 1)
}

/// Of each point whether its directions carried group frames by both ways.
pub(crate) fn both_ways_of(
    alloc: Global,
    ring: &Ring<'_>,
    copies: &[Noted],
    points: usize,
) -> Result<Vec<bool>, NoMemory>
    ensures { IfOk result (λ both. both.items ≡ map (sees_both_ways ring.now copies.now) (range_with_len 0 points)) }
{
    let mut both = Vec::new(alloc);
    for point in 0..points {
        both.push(sees_both_ways(ring, copies, point))?;
    }
    Ok(both)
}

/// The runs of each point that sees both ways, point by point.
pub(crate) fn spans_of(
    alloc: Global,
    ring: &Ring<'_>,
    copies: &[Noted],
    of_copy: &[u16],
    macs: &[Mac],
    sightings: &[Sighting],
    both: &[bool],
) -> Result<Vec<Span>, NoMemory>
    ensures { IfOk result (λ spans. (numbers : List ℕ) → AreSources copies.now macs.now of_copy.now → AreSightings ring.now copies.now sightings.now numbers
        → both.now ≡ map (sees_both_ways ring.now copies.now) (range_with_len 0 (length both.now)) → AreRuns ring.now macs.now (runs_of ring.now copies.now (length both.now)) spans.items) }
{
    let mut spans = Vec::new(alloc);
    for point in 0..both.len() {
        put_runs_if(
            &mut spans,
            alloc,
            ring,
            copies,
            of_copy,
            macs,
            sightings,
            point,
            both[point],
        )?;
    }
    Ok(spans)
}

/// Whether a run tells of no break: a source came by both ways, or none came by one. There frames were lost here and there.
pub fn is_thin(span: &Span) -> bool
    ensures { result ≡ is_thin_by span.now.by_0.items span.now.by_1.items }
{
    span.by_0.is_empty()
        || span.by_1.is_empty()
        || is_any_among(span.by_0.as_slice(), span.by_1.as_slice())
}

/// Whether one of these addresses is among others.
fn is_any_among(macs: &[Mac], others: &[Mac]) -> bool
    ensures { result ≡ list_any (λ mac. is_among others.now mac) macs.now }
{
    for mac in macs {
        if mac.is_among(others) {
            return true;
        }
    }
    false
}
