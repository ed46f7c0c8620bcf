//! The device's own frames that no interface shows.
ghost use Rattle.std.specs.Prelude.{◌≡◌, ◌-◌, ◌/◌, ◌≤◌, ◌&&◌, List, IfOk, length, nat_lt, reverse, take};
ghost use Rattle.std.specs.Str.{bytes_eq};
ghost use Rattle.hsr_frame.specs.Grammar.{spelling};
ghost use Rattle.hsr_tag.specs.Tag.{untag_of};
ghost use Rattle.hsr_playback.specs.Own.{begin_one, begun_by, is_handed_down, is_new, leaves_by, may_begin, none_begun, noted, own_begins, own_frame, was_handed_down};

use crate::passage::{Heading, Passage};
use hsr_frame::{Mac, NoMemory, is_supervision};
use hsr_tag::{EitherView, Spelled, TaggedView, look_at};
use hsr_tap_device::End;
use std::alloc::Global;

/// A number of frames begins anew after so many (IEC 62439-3 clause 5.6).
const NUMBERS: usize = 65536;

/// After so many nanoseconds a number is another frame's: twice the time after which nodes forget it.
const REUSE: u64 = 800_000_000;

/// Whether what passes an end so leaves by A or B.
fn leaves_by(heading: Heading, end: End) -> bool
    ensures { result ≡ leaves_by heading end }
{
    match (heading, end) {
        (Heading::Out, End::A | End::B) => true,
        _ => false,
    }
}

/// The tagged frame that left by A or B from this address, if it is one.
pub(crate) fn own_frame<'a>(own: Option<Mac>, passage: &'a Passage) -> Option<TaggedView<'a>>
    ensures { result ≡ own_frame own passage.now }
{
    let own = own?;
    if !leaves_by(passage.heading, passage.end) {
        return None;
    }
    let Ok(seen) = look_at(passage.octets.as_slice()) else {
        return None;
    };
    match seen.frame {
        EitherView::Tagged(frame) => { if frame.src == own { Some(frame) } else { None } }
        EitherView::Plain(_) => None,
    }
}

/// Whether what passed at a moment is longer ago than so many microseconds.
fn is_past(within: u64, moment: u64, passed: u64) -> bool
    ensures { result ≡ nat_lt within ((moment - passed) / 1000) }
{
    moment.saturating_sub(passed) / 1000 > within
}

/// Whether the host handed down this frame.
fn is_handed(passage: &Passage, plain: &Spelled<'_>) -> bool
    ensures { result ≡ (is_handed_down passage.now
        && bytes_eq plain.now passage.now.octets) }
{
    passage.is_handed_down() && plain.is_same(passage.octets.as_slice())
}

/// Whether the host handed a frame down up to so many microseconds before a moment; passages before it are looked at.
fn was_handed_down(before: &[Passage], plain: &Spelled<'_>, moment: u64, within: u64) -> bool
    ensures { result ≡ was_handed_down within moment plain.now (reverse before.now) }
{
    for j in 0..before.len() {
        let passage = &before[before.len() - 1 - j];
        if is_past(within, moment, passage.moment) {
            return false;
        }
        if is_handed(passage, plain) {
            return true;
        }
    }
    false
}

/// Whether a number is another frame's than that which was begun with it last.
fn is_new(latest: Option<u64>, moment: u64) -> bool
    ensures { result ≡ is_new latest moment }
{
    match latest {
        None => true,
        Some(begun) => moment.saturating_sub(begun) >= REUSE,
    }
}

/// Whether a frame of the device's own may begin without an interface that shows it: with a host only supervision does that the host
/// didn't hand down.
fn may_begin(
    has_host: bool,
    before: &[Passage],
    frame: &TaggedView<'_>,
    moment: u64,
    within: u64,
) -> bool
    ensures { result ≡ may_begin has_host within (reverse before.now) frame.now moment }
{
    if is_supervision(frame.dst, frame.kind) {
        let plain = frame.untag();
        !was_handed_down(before, &plain.spell(), moment, within)
    } else {
        !has_host
    }
}

/// The number of the frame that a passage begins, if it begins one that no interface shows.
fn begun_by(
    own: Option<Mac>,
    has_host: bool,
    within: u64,
    before: &[Passage],
    passage: &Passage,
    table: &[Option<u64>],
) -> Option<u16>
    ensures { result ≡ begun_by has_host within (reverse before.now)
        table.now (own_frame own passage.now) passage.now.moment }
{
    let frame = own_frame(own, passage)?;
    let last = table.get(usize::from(frame.seq)).copied().unwrap_or(None);
    if is_new(last, passage.moment) && may_begin(has_host, before, &frame, passage.moment, within) {
        Some(frame.seq)
    } else {
        None
    }
}

/// A table in which none of the numbers was begun.
#[tactic(auto, unfolding(crate::specs::Own::none_begun))]
fn none_begun(alloc: Global) -> Result<Vec<Option<u64>>, NoMemory>
    ensures { IfOk result (λ begun. begun.items ≡ none_begun) }
{
    let mut begun = Vec::new(alloc);
    begun.resize(NUMBERS, None)?;
    Ok(begun)
}

/// Notes when a number was begun, if one was.
fn note_begun(table: &mut [Option<u64>], begun: Option<u16>, moment: u64)
    ensures { table.new ≡ noted table.old begun moment }
{
    if let Some(number) = begun {
        let number = usize::from(number);
        if number < table.len() {
            table[number] = Some(moment);
        }
    }
}

/// Whether a passage begins a frame, of which the number is noted then.
fn begin_one(
    own: Option<Mac>,
    has_host: bool,
    within: u64,
    before: &[Passage],
    passage: &Passage,
    table: &mut [Option<u64>],
) -> bool
    ensures { (result, table.new)
        ≡ begin_one own has_host within (reverse before.now) table.old passage.now }
{
    let begun = begun_by(own, has_host, within, before, passage, table);
    note_begun(table, begun, passage.moment);
    begun.is_some()
}

/// Whether a passage behind so many others begins a frame, of which the number is noted then.
fn begins_behind(
    own: Option<Mac>,
    has_host: bool,
    within: u64,
    passages: &[Passage],
    i: usize,
    passage: &Passage,
    table: &mut Vec<Option<u64>>,
) -> bool
    requires { i ≤ length passages.now }
    ensures { (result, table.new.items)
        ≡ begin_one own has_host within (reverse (take i passages.now)) table.old.items passage.now }
{
    begin_one(
        own,
        has_host,
        within,
        &passages[..i],
        passage,
        table.as_mut_slice(),
    )
}

/// Of each passage, whether it begins a frame of the device's own that no interface shows: it is a tagged copy from the device's
/// address at A or B, whose number was begun 800 ms before or earlier; with a host it is supervision that the host didn't hand down up
/// to `within` microseconds before. `NoMemory` where room is refused.
#[tactic(auto, using(crate::proofs::Begun::begins_all), unfolding(crate::specs::Own::own_begins))]
pub fn own_begins(
    alloc: Global,
    own: Option<Mac>,
    has_host: bool,
    within: u64,
    passages: &[Passage],
) -> Result<Vec<bool>, NoMemory>
    ensures { IfOk result (λ begins. begins.items ≡ own_begins own has_host within passages.now) }
{
    let mut table = none_begun(alloc)?;
    let mut begins = Vec::new(alloc);
    let own = &own;
    for i in 0..passages.len() {
        let passage = &passages[i];
        begins.push(begins_behind(*own, has_host, within, passages, i, passage, &mut table))?;
    }
    Ok(begins)
}
