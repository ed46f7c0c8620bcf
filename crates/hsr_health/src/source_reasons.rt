//! The reasons that speak of sources and their numbers, and of how many frames come at once.
ghost use Rattle.std.specs.Prelude.{◌≡◌, ◌-◌, ◌<◌, ◌^◌, ◌==◌, ◌&&◌, min, filter, length, map, slice_get, IfOk, Some};
ghost use Rattle.std.specs.List.{range_with_len};
ghost use Rattle.hsr_health.specs.Told.{IsFirstGap, IsOfCrowd, IsOfGaps, IsOfRestarts, IsOfSome, has_single, is_before, missing_in, saw_single, spot_at, those_single};
ghost use Rattle.hsr_health.specs.What.{life_what, lost_what, mac_of, restart_what};
ghost use Rattle.hsr_health.specs.declared.reason.Word.TheVariants as the_word;
ghost use Rattle.hsr_number_runs.specs.declared.gaps.Gap as the_gap;
ghost use Rattle.hsr_taps.specs.Tallies.{is_at as is_in};

use crate::copy_reasons::spot_of;
use crate::counts::Counts;
use crate::reason::{Reason, Spot, What, Word};
use hsr_frame::{Mac, NoMemory};
use hsr_frame_groups::Noted;
use hsr_number_runs::{Gap, Restart};
use hsr_sightings::Crowd;
use std::alloc::Global;

/// Where a copy of this index stands.
pub(crate) fn spot_at(copies: &[Noted], copy: u32) -> Option<Spot>
    ensures { result ≡ spot_at copies.now copy }
{
    match copies.get(copy as usize) {
        Some(caught) => Some(spot_of(caught)),
        None => None,
    }
}

/// Whether single frames of a source were seen at all.
fn has_single(own: &Counts) -> bool
    ensures { result ≡ has_single own.now }
{
    own.single.twice > 0 || own.single.once > 0 || own.single.more > 0 || own.single.open > 0
}

/// Whether a source is of a group, and single frames of it were seen at all.
fn is_single(own: usize, counts: &Counts, group: usize) -> bool
    ensures { result ≡ ((own == group) && has_single counts.now) }
{
    own == group && has_single(counts)
}

/// Whether single frames of a group were seen at all.
fn saw_single(groups: &[usize], counts: &[Counts], group: usize) -> bool
    requires { length counts.now ≡ length groups.now }
    ensures { result ≡ saw_single groups.now counts.now group }
{
    for k in 0..groups.len() {
        if is_single(groups[k], &counts[k], group) {
            return true;
        }
    }
    false
}

/// Of each of as many groups as there are sources, whether single frames of it were seen at all.
fn seen_single(alloc: Global, groups: &[usize], counts: &[Counts]) -> Result<Vec<bool>, NoMemory>
    requires { length counts.now ≡ length groups.now }
    ensures { IfOk result (λ seen. seen.items ≡ map (saw_single groups.now counts.now) (range_with_len 0 (length groups.now))) }
{
    let mut seen = Vec::new(alloc);
    for group in 0..groups.len() {
        seen.push(saw_single(groups, counts, group))?;
    }
    Ok(seen)
}

/// Whether a gap was told before another one: by its moment, and then by its copy.
fn is_before(a: &Gap, b: &Gap) -> bool
    ensures { result ≡ is_before a.now b.now }
{
    a.at < b.at || (a.at == b.at && a.copy < b.copy)
}

/// Whether a gap is of one of the groups that count.
fn is_counted(counted: &[bool], gap: &Gap) -> bool
    ensures { result ≡ is_in counted.now gap.now.group }
{
    counted.get(gap.group as usize).copied().unwrap_or(false)
}

/// The gaps of some groups.
fn gaps_of(alloc: Global, gaps: &[Gap], counted: &[bool]) -> Result<Vec<Gap>, NoMemory>
    ensures { IfOk result (λ own. own.items ≡ filter (λ g. is_in counted.now g.group) gaps.now) }
{
    let mut own = Vec::new(alloc);
    for gap in gaps {
        if is_counted(counted, gap) {
            own.push(*gap)?;
        }
    }
    Ok(own)
}

/// The first gap in time, by its index.
fn first_gap(gaps: &[Gap]) -> usize
    requires { 0 < length gaps.now }
    ensures within { result < length gaps.now }
    ensures first { (gap : the_gap.Gap) → slice_get gaps.now result ≡ Some gap → IsFirstGap gaps.now gap }
{
    let mut first = 0;
    for k in 1..gaps.len() {
        if is_before(&gaps[k], &gaps[first]) {
            first = k;
        }
    }
    first
}

/// How many numbers gaps miss.
fn missing_in(gaps: &[Gap]) -> u64
    ensures { result ≡ min (missing_in gaps.now) (2 ^ 64 - 1) }
{
    let mut sum = 0u64;
    for gap in gaps {
        sum = sum.saturating_add(gap.missing);
    }
    sum
}

/// The address of a source.
fn mac_of(macs: &[Mac], source: usize) -> Mac
    ensures { result ≡ mac_of macs.now source }
{
    match macs.get(source) {
        Some(mac) => *mac,
        None => Mac::new([0; 6]),
    }
}

/// What is told of lost numbers.
fn lost_what(macs: &[Mac], first: Gap) -> What
    ensures { result ≡ lost_what macs.now first }
{
    What::Numbers {
        source: mac_of(macs, first.sender as usize),
        first: first.first,
        last: first.last,
        missing: first.missing,
    }
}

/// What is told of supervision numbers that are missing.
fn life_what(macs: &[Mac], first: Gap) -> What
    ensures { result ≡ life_what macs.now first }
{
    What::Life {
        source: mac_of(macs, first.sender as usize),
        number: first.last.wrapping_add(1),
        after: first.first.wrapping_sub(1),
    }
}

/// Numbers that were lost, by the gaps that count.
fn lost_in(copies: &[Noted], macs: &[Mac], gaps: &[Gap]) -> Option<Reason>
    ensures { IsOfSome the_word.Lost (lost_what macs.now) copies.now gaps.now result }
{
    if gaps.is_empty() {
        return None;
    }
    let first = gaps[first_gap(gaps)];
    Some(Reason {
        word: Word::Lost,
        count: missing_in(gaps),
        spot: spot_at(copies, first.copy),
        what: lost_what(macs, first),
    })
}

/// Numbers that were lost: gaps count where a tap saw single frames of their group at all.
pub(crate) fn lost_reason(
    alloc: Global,
    copies: &[Noted],
    macs: &[Mac],
    groups: &[usize],
    counts: &[Counts],
    gaps: &[Gap],
) -> Result<Option<Reason>, NoMemory>
    requires { length counts.now ≡ length groups.now }
    ensures { IfOk result (IsOfGaps the_word.Lost (lost_what macs.now) copies.now (those_single groups.now counts.now) gaps.now) }
{
    let seen = seen_single(alloc, groups, counts)?;
    let own = gaps_of(alloc, gaps, seen.as_slice())?;
    Ok(lost_in(copies, macs, own.as_slice()))
}

/// Supervision numbers that are missing.
pub(crate) fn life_reason(copies: &[Noted], macs: &[Mac], gaps: &[Gap]) -> Option<Reason>
    ensures { IsOfSome the_word.Life (life_what macs.now) copies.now gaps.now result }
{
    if gaps.is_empty() {
        return None;
    }
    let first = gaps[first_gap(gaps)];
    Some(Reason {
        word: Word::Life,
        count: missing_in(gaps),
        spot: spot_at(copies, first.copy),
        what: life_what(macs, first),
    })
}

/// What is told of a number that began anew.
fn restart_what(macs: &[Mac], first: Restart) -> What
    ensures { result ≡ restart_what macs.now first }
{
    What::Restart {
        source: mac_of(macs, first.sender as usize),
        number: first.number,
        after: first.after,
    }
}

/// Numbers that began anew.
pub(crate) fn restart_reason(copies: &[Noted], macs: &[Mac], restarts: &[Restart]) -> Option<Reason>
    ensures { IsOfRestarts copies.now macs.now restarts.now result }
{
    if restarts.is_empty() {
        return None;
    }
    let first = restarts[0];
    Some(Reason {
        word: Word::Restart,
        count: restarts.len() as u64,
        spot: spot_at(copies, first.copy),
        what: restart_what(macs, first),
    })
}

/// More frames in 400 ms than a table has.
pub(crate) fn crowded_reason(copies: &[Noted], crowd: Crowd, table: u64) -> Option<Reason>
    ensures { IsOfCrowd copies.now crowd table result }
{
    if crowd.frames as u64 > table {
        Some(Reason {
            word: Word::Crowded,
            count: 1,
            spot: spot_at(copies, crowd.first),
            what: What::Frames {
                frames: crowd.frames,
                table,
            },
        })
    } else {
        None
    }
}
