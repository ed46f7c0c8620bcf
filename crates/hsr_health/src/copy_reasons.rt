//! The reasons that count copies.
ghost use Rattle.std.specs.Prelude.{◌≡◌, ◌-◌, ℕ, Bool, List, count_by, length, reverse, slice_get, IfOk, OnOk, Some};
ghost use Rattle.hsr_frame_groups.specs.Frames.{CaughtFields};
ghost use Rattle.hsr_health.specs.Counted.{mark_of};
ghost use Rattle.hsr_health.specs.Reasons.{AreOfCopies, Puts};
ghost use Rattle.hsr_health.specs.Told.{IsFirstFlag, IsOfCopies, IsToldWith, is_marked, spot_of, such_of, word_of};
ghost use Rattle.hsr_health.specs.What.{behind_what, behind_what_by, copy_what, copy_what_by};
ghost use Rattle.hsr_health.specs.declared.reason.Word.TheVariants as the_word;
ghost use Rattle.hsr_sightings.specs.Copies.{is_overtaken, times_before};
ghost use Rattle.hsr_sightings.specs.Ring as the_ring;
ghost use Rattle.hsr_sightings.specs.Fields as the_sighting;
ghost use Rattle.hsr_sightings.specs.Read.{AreOvertaken, AreSightings, TellsEach};

use crate::marks::Marks;
use crate::reason::{Reason, Spot, What, Word, put_reason, what_in};
use hsr_frame::NoMemory;
use hsr_frame_groups::Noted;
use hsr_sightings::{Overtaken, Sighting, Sightings};
use hsr_taps::interface_of;
use std::alloc::Global;

/// What a copy may be.
#[derive(Clone, Copy, PartialEq, Eq)]
enum Mark {
    Storm,
    Again,
    Clash,
    Late,
    Size,
    Lane,
}

/// The most copies of a frame on one direction that are no storm.
const STORM: u8 = 3;

/// Whether a copy is such.
fn is_such(mark: Mark, carried: u8, marks: Marks) -> bool
    ensures { result ≡ is_marked mark carried marks }
{
    match mark {
        Mark::Storm => carried >= STORM,
        Mark::Again => carried > 0 && carried < STORM,
        Mark::Clash => marks.is_clash(),
        Mark::Late => marks.is_late(),
        Mark::Size => marks.is_wrong_size(),
        Mark::Lane => marks.is_wrong_lane(),
    }
}

/// The word of the reason that counts such copies.
fn word_of(mark: Mark) -> Word
    ensures { result ≡ word_of mark }
{
    match mark {
        Mark::Storm => Word::Storm,
        Mark::Again => Word::Again,
        Mark::Clash => Word::Clash,
        Mark::Late => Word::Late,
        Mark::Size => Word::Size,
        Mark::Lane => Word::Lane,
    }
}

/// Of each copy whether it is such.
fn flags_of(
    alloc: Global,
    mark: Mark,
    carried: &[u8],
    marks: &[Marks],
) -> Result<Vec<bool>, NoMemory>
    requires { length marks.now ≡ length carried.now }
    ensures { IfOk result (λ flags. (ring : the_ring.Ring) (is_by_lane : ℕ → Bool) (copies : List CaughtFields) → TellsEach times_before copies carried.now
        → TellsEach (mark_of is_by_lane ring) copies marks.now → TellsEach (such_of mark ring is_by_lane) copies flags.items) }
{
    let mut flags = Vec::new(alloc);
    for i in 0..carried.len() {
        flags.push(is_such(mark, carried[i], marks[i]))?;
    }
    Ok(flags)
}

/// How many of them are set.
pub(crate) fn count_of(flags: &[bool]) -> u64
    ensures { result ≡ count_by (λ is. is) flags.now }
{
    flags.iter().filter(|is| **is).count() as u64
}

/// The first that is set.
pub(crate) fn first_of(flags: &[bool]) -> Option<usize>
    ensures { IsFirstFlag flags.now result }
{
    for i in 0..flags.len() {
        if flags[i] {
            return Some(i);
        }
    }
    None
}

/// Where a copy stands.
pub(crate) fn spot_of(caught: &Noted) -> Spot
    ensures { result ≡ spot_of caught.now }
{
    Spot {
        packet: caught.packet(),
        at: caught.at(),
    }
}

/// What is told of such a copy, which came so long after its frame's first copy at its point.
fn what_of(mark: Mark, caught: &Noted, time: u64) -> What
    ensures { result ≡ copy_what_by mark time caught.now }
{
    let (source, number) = (caught.source(), caught.seq());
    match mark {
        Mark::Storm | Mark::Again => What::Copy {
            interface: interface_of(caught.direction()),
            source,
            number,
        },
        Mark::Clash => What::Frame { source, number },
        Mark::Late => What::After {
            source,
            number,
            time,
        },
        Mark::Size => What::Size {
            source,
            number,
            size: caught.size(),
            is: caught.length().saturating_add(6),
        },
        Mark::Lane => What::Lane {
            source,
            number,
            path: caught.path(),
        },
    }
}

/// How long after the first copy of its sighting a copy came, which is told by its number.
fn after(sightings: &[Sighting], number: u32, caught: &Noted) -> u64
    ensures { (seen : the_sighting.Sighting) → slice_get sightings.now number ≡ Some seen → result ≡ caught.now.at - seen.at }
{
    match sightings.get(number as usize) {
        None => 0,
        Some(seen) => caught.at().saturating_sub(seen.at()),
    }
}

/// How long after its frame's first copy at its point the copy at an index came.
fn after_at(sightings: &Sightings, caught: &Noted, i: usize) -> u64
    ensures { (seen : the_sighting.Sighting) (number : ℕ) → slice_get sightings.now.of_copy.items i ≡ Some number → slice_get sightings.now.all.items number ≡ Some seen
        → result ≡ caught.now.at - seen.at }
{
    match sightings.of_copy.get(i) {
        None => 0,
        Some(number) => after(sightings.all.as_slice(), *number, caught),
    }
}

/// The reason that counts such copies, of which the first is at an index.
fn reason_at(
    mark: Mark,
    copies: &[Noted],
    sightings: &Sightings,
    first: usize,
    count: u64,
) -> Option<Reason>
    ensures { (c : CaughtFields) (seen : the_sighting.Sighting) (number : ℕ) → slice_get copies.now first ≡ Some c → slice_get sightings.now.of_copy.items first ≡ Some number
        → slice_get sightings.now.all.items number ≡ Some seen → IsToldWith (word_of mark) count (Some (spot_of c)) (copy_what_by mark (c.at - seen.at) c) result }
{
    let caught = copies.get(first)?;
    Some(Reason {
        word: word_of(mark),
        count,
        spot: Some(spot_of(caught)),
        what: what_of(mark, caught, after_at(sightings, caught, first)),
    })
}

/// The reason that counts such copies, if there are any.
fn reason_of(
    alloc: Global,
    mark: Mark,
    copies: &[Noted],
    carried: &[u8],
    sightings: &Sightings,
    marks: &[Marks],
) -> Result<Option<Reason>, NoMemory>
    requires { length marks.now ≡ length carried.now }
    ensures { IfOk result (λ reason. (ring : the_ring.Ring) (is_by_lane : ℕ → Bool) → TellsEach times_before copies.now carried.now
        → TellsEach (mark_of is_by_lane ring) copies.now marks.now → AreSightings ring copies.now sightings.now.all.items sightings.now.of_copy.items
        → IsOfCopies (word_of mark) (such_of mark ring is_by_lane) (copy_what mark ring) (reverse copies.now) reason) }
{
    let flags = flags_of(alloc, mark, carried, marks)?;
    match first_of(flags.as_slice()) {
        None => Ok(None),
        Some(first) => Ok(reason_at(mark, copies, sightings, first, count_of(flags.as_slice()))),
    }
}

/// The reason that counts copies which were overtaken, of which this is the first.
fn overtaken_at(copies: &[Noted], first: Overtaken, count: u64) -> Option<Reason>
    ensures { (c : CaughtFields) → slice_get copies.now first.copy ≡ Some c
        → IsToldWith the_word.Overtaken count (Some (spot_of c)) (behind_what_by first.behind c) result }
{
    let caught = copies.get(first.copy as usize)?;
    Some(Reason {
        word: Word::Overtaken,
        count,
        spot: Some(spot_of(caught)),
        what: What::Behind {
            interface: interface_of(caught.direction()),
            source: caught.source(),
            number: caught.seq(),
            behind: first.behind,
        },
    })
}

/// The reason that counts copies which were overtaken, if there are any.
fn overtaken_reason(copies: &[Noted], overtaken: &[Overtaken]) -> Option<Reason>
    ensures { AreOvertaken copies.now overtaken.now → IsOfCopies the_word.Overtaken is_overtaken behind_what (reverse copies.now) result }
{
    if overtaken.is_empty() {
        return None;
    }
    overtaken_at(copies, overtaken[0], overtaken.len() as u64)
}

/// Puts the reason that counts such copies behind others, if there are any.
fn put_marked(
    alloc: Global,
    reasons: &mut Vec<Reason>,
    mark: Mark,
    copies: &[Noted],
    carried: &[u8],
    sightings: &Sightings,
    marks: &[Marks],
) -> Result<(), NoMemory>
    requires { length marks.now ≡ length carried.now }
    ensures { OnOk result ((ring : the_ring.Ring) (is_by_lane : ℕ → Bool) → TellsEach times_before copies.now carried.now
        → TellsEach (mark_of is_by_lane ring) copies.now marks.now → AreSightings ring copies.now sightings.now.all.items sightings.now.of_copy.items
        → Puts (IsOfCopies (word_of mark) (such_of mark ring is_by_lane) (copy_what mark ring) (reverse copies.now)) reasons.old.items reasons.new.items) }
{
    let reason = reason_of(alloc, mark, copies, carried, sightings, marks)?;
    let _what = what_in(&reason);
    put_reason(reasons, &reason)?;
    Ok(())
}

/// All reasons that count copies.
pub(crate) fn copy_reasons(
    alloc: Global,
    copies: &[Noted],
    carried: &[u8],
    sightings: &Sightings,
    marks: &[Marks],
    overtaken: &[Overtaken],
) -> Result<Vec<Reason>, NoMemory>
    requires { length marks.now ≡ length carried.now }
    ensures { IfOk result (λ reasons. (ring : the_ring.Ring) (is_by_lane : ℕ → Bool) → TellsEach times_before copies.now carried.now
        → TellsEach (mark_of is_by_lane ring) copies.now marks.now → AreSightings ring copies.now sightings.now.all.items sightings.now.of_copy.items → AreOvertaken copies.now overtaken.now
        → AreOfCopies ring is_by_lane (reverse copies.now) reasons.items) }
{
    let mut reasons = Vec::new(alloc);
    put_marked(
        alloc,
        &mut reasons,
        Mark::Storm,
        copies,
        carried,
        sightings,
        marks,
    )?;
    put_marked(
        alloc,
        &mut reasons,
        Mark::Again,
        copies,
        carried,
        sightings,
        marks,
    )?;
    put_marked(
        alloc,
        &mut reasons,
        Mark::Clash,
        copies,
        carried,
        sightings,
        marks,
    )?;
    put_marked(
        alloc,
        &mut reasons,
        Mark::Late,
        copies,
        carried,
        sightings,
        marks,
    )?;
    put_marked(
        alloc,
        &mut reasons,
        Mark::Size,
        copies,
        carried,
        sightings,
        marks,
    )?;
    put_marked(
        alloc,
        &mut reasons,
        Mark::Lane,
        copies,
        carried,
        sightings,
        marks,
    )?;
    let overtaken = overtaken_reason(copies, overtaken);
    put_reason(&mut reasons, &overtaken)?;
    Ok(reasons)
}
