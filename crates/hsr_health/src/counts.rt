//! What is counted of each source.
ghost use Rattle.std.specs.Prelude.{◌≡◌, ◌++◌, ℕ, Bool, List, filter_map, length, option_to_list, reverse, slice_get, slice_index, IfOk, OnOk, Some};
ghost use Rattle.hsr_frame.specs.Address.{is_group};
ghost use Rattle.hsr_frame_groups.specs.Frames.{CaughtFields};
ghost use Rattle.hsr_health.specs.Counted.{AreCounted, AreFated, AreOfSources, AreSkewed, AreSources, HaveNoFates, changed, counts_with, fates_with, mark_of, more_if, no_counts, told_by, with_fate, with_skew};
ghost use Rattle.hsr_spread.specs.Spreads.{AreSpreads, AreTold, many_of};
ghost use Rattle.hsr_spread.specs.declared.spread.Told as the_told;
ghost use Rattle.hsr_health.specs.declared.counts.Counts as the_counts;
ghost use Rattle.hsr_sightings.specs.Read.{AreSightings, TellsEach};
ghost use Rattle.hsr_sightings.specs.Ring as the_ring;
ghost use Rattle.hsr_sightings.specs.Seen.{fate_of};

use crate::marks::Marks;
use hsr_frame::NoMemory;
use hsr_frame_groups::Noted;
use hsr_sightings::{Fate, Ring, Sighting, fate_of, skew_of};
use hsr_spread::{Amounts, Spread, Told};
use std::alloc::Global;

/// How many frames had each fate, once for each point that saw them.
#[derive(Clone, Copy, Default, PartialEq, Eq)]
pub struct Fates {
    pub twice: u64,
    pub once: u64,
    pub more: u64,
    pub open: u64,
}

impl Fates {
    /// With one more.
    pub(crate) fn with(self, fate: Fate) -> Fates
        ensures { result ≡ fates_with self fate }
    {
        let mut fates = self;
        match fate {
            Fate::Twice => fates.twice = fates.twice.saturating_add(1),
            Fate::Once => fates.once = fates.once.saturating_add(1),
            Fate::More => fates.more = fates.more.saturating_add(1),
            Fate::Open => fates.open = fates.open.saturating_add(1),
        }
        fates
    }
}

/// What is counted of a source.
#[derive(Clone, Copy, Default)]
pub struct Counts {
    pub frames: u64,
    /// The numbers of its first and its last frame.
    pub first: u16,
    pub last: u16,
    pub clashes: u64,
    pub late: u64,
    pub size: u64,
    pub lane: u64,
    /// Its frames to groups, and to single addresses.
    pub group: Fates,
    pub single: Fates,
    /// In microseconds.
    pub skew: Option<Spread>,
    /// Its supervision frames: those that can be read, and those that can't.
    pub lives: u64,
    pub unreadable: u64,
}

/// One more, if it is so.
pub(crate) fn more_if(count: u64, is_so: bool) -> u64
    ensures { result ≡ more_if count is_so }
{
    if is_so {
        count.saturating_add(1)
    } else {
        count
    }
}

/// With one more copy.
fn with(counts: Counts, marks: Marks, number: u16) -> Counts
    ensures { result ≡ counts_with counts marks number }
{
    let begins = marks.begins();
    let first = if begins && counts.frames == 0 {
        number
    } else {
        counts.first
    };
    let last = if begins { number } else { counts.last };
    Counts {
        frames: more_if(counts.frames, begins),
        first,
        last,
        clashes: more_if(counts.clashes, marks.is_clash()),
        late: more_if(counts.late, marks.is_late()),
        size: more_if(counts.size, marks.is_wrong_size()),
        lane: more_if(counts.lane, marks.is_wrong_lane()),
        ..counts
    }
}

/// The source of a copy.
pub(crate) fn source_of(of_copy: &[u16], copy: u32) -> usize
    ensures { result ≡ slice_index of_copy.now copy }
{
    of_copy.get(copy as usize).copied().unwrap_or(0) as usize
}

/// With one more copy, by its number.
fn with_copy(counts: Counts, marks: Marks, caught: &Noted) -> Counts
    ensures { result ≡ counts_with counts marks caught.now.copy.seq }
{
    with(counts, marks, caught.seq())
}

/// Counts a copy of a source, if that is among them.
fn count_copy(counts: &mut Vec<Counts>, source: usize, marks: Marks, caught: &Noted)
    ensures long { length counts.new.items ≡ length counts.old.items }
    ensures counts { counts.new.items ≡ changed (λ own. counts_with own marks caught.now.copy.seq) source counts.old.items }
{
    if source < counts.len() {
        counts[source] = with_copy(counts[source], marks, caught);
    }
}

/// Counts the copies of each source.
fn count_copies(counts: &mut Vec<Counts>, copies: &[Noted], of_copy: &[u16], marks: &[Marks])
    requires sources { length of_copy.now ≡ length copies.now }
    requires marks { length marks.now ≡ length copies.now }
    ensures long { length counts.new.items ≡ length counts.old.items }
    ensures counts { (is_by_lane : ℕ → Bool) (ring : the_ring.Ring) (macs : List (List ℕ)) → TellsEach (mark_of is_by_lane ring) copies.now marks.now
        → AreSources copies.now macs of_copy.now → AreCounted is_by_lane ring copies.now macs 0 counts.old.items
        → AreCounted is_by_lane ring copies.now macs (length copies.now) counts.new.items }
{
    for i in 0..copies.len() {
        count_copy(counts, of_copy[i] as usize, marks[i], &copies[i]);
    }
}

/// With what became of one more frame.
fn with_fate(counts: Counts, to_group: bool, fate: Fate) -> Counts
    ensures { result ≡ with_fate fate to_group counts }
{
    if to_group {
        Counts {
            group: counts.group.with(fate),
            ..counts
        }
    } else {
        Counts {
            single: counts.single.with(fate),
            ..counts
        }
    }
}

/// Counts what became of a frame of a source, if that is among them.
fn count_fate(counts: &mut Vec<Counts>, source: usize, to_group: bool, fate: Fate)
    ensures long { length counts.new.items ≡ length counts.old.items }
    ensures counts { counts.new.items ≡ changed (with_fate fate to_group) source counts.old.items }
{
    if source < counts.len() {
        counts[source] = with_fate(counts[source], to_group, fate);
    }
}

/// Counts what became of a frame at a point.
fn count_sighting(
    counts: &mut Vec<Counts>,
    ring: &Ring<'_>,
    copies: &[Noted],
    of_copy: &[u16],
    seen: &Sighting,
)
    ensures long { length counts.new.items ≡ length counts.old.items }
    ensures counts { (c : CaughtFields) → slice_get copies.now seen.now.first ≡ Some c
        → counts.new.items ≡ changed (with_fate (fate_of ring.now seen.now) (is_group c.copy.dst)) (slice_index of_copy.now seen.now.first) counts.old.items }
{
    if let Some(caught) = copies.get(seen.first() as usize) {
        let source = source_of(of_copy, seen.first());
        count_fate(counts, source, caught.is_to_group(), fate_of(ring, seen));
    }
}

/// Counts what became of the frames of each source.
fn count_fates(
    counts: &mut Vec<Counts>,
    ring: &Ring<'_>,
    copies: &[Noted],
    of_copy: &[u16],
    sightings: &[Sighting],
)
    ensures long { length counts.new.items ≡ length counts.old.items }
    ensures counts { (macs : List (List ℕ)) (numbers : List ℕ) → AreSources copies.now macs of_copy.now → AreSightings ring.now copies.now sightings.now numbers
        → HaveNoFates macs counts.old.items → AreFated ring.now copies.now macs counts.old.items sightings.now counts.new.items }
{
    for i in 0..sightings.len() {
        count_sighting(counts, ring, copies, of_copy, &sightings[i]);
    }
}

/// What is told of a sighting's source: its skew in microseconds, if it has one.
fn told_of(of_copy: &[u16], seen: &Sighting) -> Option<Told>
    ensures { result ≡ told_by of_copy.now seen.now }
{
    match skew_of(seen) {
        None => None,
        Some(skew) => Some(Told {
            of: source_of(of_copy, seen.first()),
            amount: skew / 1000,
        }),
    }
}

/// Puts what is told behind others, if there is something.
fn put_told(all: &mut Amounts, told: Option<Told>) -> Result<(), NoMemory>
    ensures many { many_of all.new ≡ many_of all.old }
    ensures told { OnOk result ((before : List the_told.Told) → AreTold before all.old → AreTold (before ++ option_to_list told) all.new) }
{
    if let Some(one) = told {
        all.put(one)?;
    }
    Ok(())
}

/// The skews of all sightings, each with those of its source.
fn all_skews(
    alloc: Global,
    of_copy: &[u16],
    sightings: &[Sighting],
    many: usize,
) -> Result<Amounts, NoMemory>
    ensures many { IfOk result (λ all. many_of all ≡ many) }
    ensures told { IfOk result (AreTold (filter_map (told_by of_copy.now) sightings.now)) }
{
    let mut all = Amounts::new(alloc, many)?;
    for seen in sightings {
        put_told(&mut all, told_of(of_copy, seen))?;
    }
    Ok(all)
}

/// The skews of each source.
fn skews_of(
    alloc: Global,
    of_copy: &[u16],
    sightings: &[Sighting],
    many: usize,
) -> Result<Vec<Option<Spread>>, NoMemory>
    ensures long { IfOk result (λ spreads. length spreads.items ≡ many) }
    ensures spreads { IfOk result (λ spreads. AreSpreads (filter_map (told_by of_copy.now) sightings.now) spreads.items) }
{
    let all = all_skews(alloc, of_copy, sightings, many)?;
    let spreads = all.spreads(alloc)?;
    Ok(spreads)
}

/// Nothing is counted yet of so many sources.
pub(crate) fn no_counts(alloc: Global, many: usize) -> Result<Vec<Counts>, NoMemory>
    ensures long { IfOk result (λ counts. length counts.items ≡ many) }
    ensures none { IfOk result (λ counts. (k : ℕ) (own : the_counts.Counts) → slice_get counts.items k ≡ Some own → own ≡ no_counts) }
{
    let counts = vec![in alloc; Counts::default(); many]?;
    Ok(counts)
}

/// With a skew.
fn with_skew(counts: Counts, skew: Option<Spread>) -> Counts
    ensures { result ≡ with_skew skew counts }
{
    Counts { skew, ..counts }
}

/// Counts with skews.
fn with_skews(
    alloc: Global,
    counts: &[Counts],
    skews: &[Option<Spread>],
) -> Result<Vec<Counts>, NoMemory>
    requires { length skews.now ≡ length counts.now }
    ensures long { IfOk result (λ all. length all.items ≡ length counts.now) }
    ensures all { IfOk result (λ all. AreSkewed counts.now skews.now all.items) }
{
    let mut all = Vec::new(alloc);
    for k in 0..counts.len() {
        all.push(with_skew(counts[k], skews[k]))?;
    }
    Ok(all)
}

/// What is counted of each of so many sources, but its supervision frames.
pub(crate) fn counts_of(
    alloc: Global,
    ring: &Ring<'_>,
    copies: &[Noted],
    of_copy: &[u16],
    sightings: &[Sighting],
    marks: &[Marks],
    many: usize,
) -> Result<Vec<Counts>, NoMemory>
    requires sources { length of_copy.now ≡ length copies.now }
    requires marks { length marks.now ≡ length copies.now }
    ensures long { IfOk result (λ counts. length counts.items ≡ many) }
    ensures counts { IfOk result (λ counts. (is_by_lane : ℕ → Bool) (macs : List (List ℕ)) (numbers : List ℕ) → TellsEach (mark_of is_by_lane ring.now) copies.now marks.now
        → AreSources copies.now macs of_copy.now → AreSightings ring.now copies.now sightings.now numbers
        → AreOfSources ring.now is_by_lane macs (reverse copies.now) counts.items) }
{
    let mut counts = no_counts(alloc, many)?;
    count_copies(&mut counts, copies, of_copy, marks);
    count_fates(&mut counts, ring, copies, of_copy, sightings);
    let skews = skews_of(alloc, of_copy, sightings, many)?;
    let all = with_skews(alloc, counts.as_slice(), skews.as_slice())?;
    Ok(all)
}
