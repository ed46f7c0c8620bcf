//! The reasons that speak of the whole capture, and of sources that are absent.
ghost use Rattle.std.specs.Prelude.{◌≡◌, ◌==◌, filter, length, option_map, IfOk};
ghost use Rattle.std.specs.List.{list_any};
ghost use Rattle.hsr_health.specs.Told.{IsAlone, IsOfAbsent, IsOfLosses, is_absent, is_judged, is_told, first_lost, is_unjudged, lost_among, lost_at, lost_or};
ghost use Rattle.hsr_health.specs.declared.reason.What.TheVariants as the_what;
ghost use Rattle.hsr_health.specs.declared.reason.Word.TheVariants as the_word;

use crate::counts::Counts;
use crate::reason::{Reason, What, Word};
use hsr_capture_reader::Losses;
use hsr_frame::{Mac, NoMemory};
use hsr_frame_groups::Noted;
use hsr_heard::About;
use std::alloc::Global;

/// No tagged frame came.
pub(crate) fn empty_reason(copies: &[Noted]) -> Option<Reason>
    ensures { IsAlone the_word.Empty the_what.NoFrame (length copies.now == 0) result }
{
    if copies.is_empty() {
        Some(Reason {
            word: Word::Empty,
            count: 1,
            spot: None,
            what: What::NoFrame,
        })
    } else {
        None
    }
}

/// Whether a group frame of a source came twice, once or more.
fn is_judged(own: &Counts) -> bool
    ensures { result ≡ is_judged own.now }
{
    own.group.twice > 0 || own.group.once > 0 || own.group.more > 0
}

/// Whether any group frame came twice, once or more.
fn is_any_judged(counts: &[Counts]) -> bool
    ensures { result ≡ list_any is_judged counts.now }
{
    for own in counts {
        if is_judged(own) {
            return true;
        }
    }
    false
}

/// Whether there are copies, and all their group frames are open.
fn is_unjudged(copies: &[Noted], counts: &[Counts]) -> bool
    ensures { result ≡ is_unjudged copies.now counts.now }
{
    !is_any_judged(counts) && !copies.is_empty()
}

/// No group frame came twice, once or more.
pub(crate) fn unjudged_reason(copies: &[Noted], counts: &[Counts]) -> Option<Reason>
    ensures { IsAlone the_word.Unjudged the_what.AllOpen (is_unjudged copies.now counts.now) result }
{
    if is_unjudged(copies, counts) {
        Some(Reason {
            word: Word::Unjudged,
            count: 1,
            spot: None,
            what: What::AllOpen,
        })
    } else {
        None
    }
}

/// Packets that the capture itself lost at an interface.
fn lost_or_none(losses: Option<&Losses>) -> u64
    ensures { result ≡ lost_or (option_map (λ l. l.now) losses.entry) }
{
    match losses {
        Some(losses) => losses.dropped().unwrap_or(0),
        None => 0,
    }
}

/// Packets that the capture itself lost at an interface, if that is asked for.
fn lost_at(losses: &[Losses], is_asked: &[bool], i: usize) -> u64
    ensures { result ≡ lost_at losses.now is_asked.now i }
{
    if is_asked.get(i).copied().unwrap_or(false) {
        lost_or_none(losses.get(i))
    } else {
        0
    }
}

/// Packets that the capture itself lost at all interfaces that are asked for.
fn lost_among(losses: &[Losses], is_asked: &[bool]) -> u64
    ensures { result ≡ lost_among losses.now is_asked.now }
{
    let mut sum = 0u64;
    for i in 0..losses.len() {
        sum = sum.saturating_add(lost_at(losses, is_asked, i));
    }
    sum
}

/// The first interface at which the capture itself lost packets.
fn first_lost(losses: &[Losses], is_asked: &[bool]) -> Option<usize>
    ensures { result ≡ first_lost losses.now is_asked.now }
{
    for i in 0..losses.len() {
        if lost_at(losses, is_asked, i) > 0 {
            return Some(i);
        }
    }
    None
}

/// Packets that the capture itself lost, at interfaces that are asked for.
pub(crate) fn dropped_reason(losses: &[Losses], is_asked: &[bool]) -> Option<Reason>
    ensures { IsOfLosses losses.now is_asked.now result }
{
    match first_lost(losses, is_asked) {
        None => None,
        Some(interface) => Some(Reason {
            word: Word::Dropped,
            count: lost_among(losses, is_asked),
            spot: None,
            what: What::Packets {
                interface,
                packets: lost_at(losses, is_asked, interface),
            },
        }),
    }
}

/// Whether supervision tells of an address.
pub(crate) fn is_told(abouts: &[About], mac: Mac) -> bool
    ensures { result ≡ is_told abouts.now mac }
{
    for about in abouts {
        if about.mac == mac {
            return true;
        }
    }
    false
}

/// Whether no frame of a source came, and supervision told nothing of it.
fn is_absent(macs: &[Mac], abouts: &[About], mac: Mac) -> bool
    ensures { result ≡ is_absent macs.now abouts.now mac }
{
    !mac.is_among(macs) && !is_told(abouts, mac)
}

/// The sources that are expected, of which no frame came and supervision told nothing.
pub(crate) fn absent_of(
    alloc: Global,
    expected: &[Mac],
    macs: &[Mac],
    abouts: &[About],
) -> Result<Vec<Mac>, NoMemory>
    ensures { IfOk result (λ absent. absent.items ≡ filter (is_absent macs.now abouts.now) expected.now) }
{
    let mut absent = Vec::new(alloc);
    for mac in expected {
        if is_absent(macs, abouts, *mac) {
            absent.push(*mac)?;
        }
    }
    Ok(absent)
}

/// Sources that are absent.
pub(crate) fn absent_reason(absent: &[Mac]) -> Option<Reason>
    ensures { IsOfAbsent absent.now result }
{
    if absent.is_empty() {
        return None;
    }
    Some(Reason {
        word: Word::Absent,
        count: absent.len() as u64,
        spot: None,
        what: What::Source { source: absent[0] },
    })
}
