//! What becomes of each copy.
ghost use Rattle.std.specs.Prelude.{◌≡◌, IfOk, List, slice_get, true, unwrap_or};
ghost use Rattle.hsr_tag.specs.Seen.{classified};
ghost use Rattle.std.specs.List.{list_all, list_any};
ghost use Rattle.hsr_judging.specs.Fates.{conforms, expected_fate, expected_fates, goes_up, got_at, is_down, is_found, is_let_pass, is_life, is_life_up, is_link_local, is_open, is_same, is_well, matched_fate, may_be_missing, may_leave, observed_fate, observed_fates, unmatched_fate};
ghost use Rattle.hsr_judging.specs.Matching.{views};
ghost use Rattle.hsr_judging.specs.Numbers.{jumps_in};

use crate::matching::{Got, Word};
use crate::numbers::no_jump;
use crate::window::us_from;
use hsr_frame::{Mac, NoMemory, is_supervision};
use hsr_playback::{Expected, Jump, Passage};
use hsr_tag::{EitherView, look_at};
use hsr_tap_device::{Device, Down, End, Ignored};
use std::alloc::Global;

/// What became of an observed copy.
#[derive(Clone, Copy, PartialEq, Eq)]
pub enum ObservedFate {
    Same,
    Late,
    Altered,
    /// Nothing caused it.
    Extra,
    /// Nothing caused it, and it need not agree.
    Ignored,
    /// Nothing caused it that the capture shows.
    Open,
}

/// What became of an expected copy.
#[derive(Clone, Copy, PartialEq, Eq)]
pub enum ExpectedFate {
    /// An observed copy was matched with it.
    Matched,
    Missing,
    /// It is missing, and may be.
    Ignored,
    /// It is missing, and may have come outside of the capture.
    Open,
}

impl ObservedFate {
    /// Whether the copy is the same, or need not be.
    pub fn is_well(self) -> bool
        ensures { result ≡ is_well self }
    {
        match self {
            ObservedFate::Same | ObservedFate::Ignored | ObservedFate::Open => true,
            ObservedFate::Late | ObservedFate::Altered | ObservedFate::Extra => false,
        }
    }

    /// Whether it is the same.
    fn is_same(self) -> bool
        ensures { result ≡ is_same self }
    {
        match self {
            ObservedFate::Same => true,
            _ => false,
        }
    }
}

impl ExpectedFate {
    /// Whether the copy was matched, or need not be.
    pub fn is_found(self) -> bool
        ensures { result ≡ is_found self }
    {
        match self {
            ExpectedFate::Missing => false,
            _ => true,
        }
    }
}

/// Whether no observed copy is late, altered or extra.
fn all_well(observed: &[ObservedFate]) -> bool
    ensures { result ≡ list_all is_well observed.now }
{
    observed.iter().all(|fate| fate.is_well())
}

/// Whether no expected copy is missing.
fn all_found(expected: &[ExpectedFate]) -> bool
    ensures { result ≡ list_all is_found expected.now }
{
    expected.iter().all(|fate| fate.is_found())
}

/// Whether some observed copy is the same.
fn any_same(observed: &[ObservedFate]) -> bool
    ensures { result ≡ list_any is_same observed.now }
{
    observed.iter().any(|fate| fate.is_same())
}

/// Whether a device conforms: no observed copy is late, altered or extra, no expected one is missing, and some copy is the same.
pub(crate) fn conforms(observed: &[ObservedFate], expected: &[ExpectedFate]) -> bool
    ensures { result ≡ conforms observed.now expected.now }
{
    all_well(observed) && (all_found(expected) && any_same(observed))
}

/// Whether an address is a link-local group's, 01-80-C2-00-00-00 to 0F (IEEE 802.1Q clause 8).
fn is_link_local(mac: Mac) -> bool
    ensures { result ≡ is_link_local mac }
{
    let octets = mac.octets();
    octets[0] == 0x01
        && (octets[1] == 0x80
            && (octets[2] == 0xC2 && (octets[3] == 0 && (octets[4] == 0 && octets[5] <= 0x0F))))
}

/// Whether a frame that nothing caused may leave by an end.
fn may_leave(ignored: &Ignored, out: End, dst: Mac, kind: u16, is_plain: bool) -> bool
    ensures { result ≡ may_leave ignored.now out dst kind is_plain }
{
    match out {
        End::Up => ignored.life_up && is_supervision(dst, kind),
        End::I => ignored.interlink_flood && !dst.is_group(),
        End::A | End::B | End::C | End::D => {
            ignored.link_local && (is_plain && is_link_local(dst))
        }
    }
}

/// Whether a copy that nothing caused need not agree.
fn is_let_pass(ignored: &Ignored, seen: &Passage) -> bool
    ensures { result ≡ is_let_pass ignored.now seen.now.end (classified seen.now.octets) }
{
    let Ok(view) = look_at(seen.octets.as_slice()) else {
        return false;
    };
    match view.frame {
        EitherView::Plain(frame) => may_leave(ignored, seen.end, frame.dst, frame.kind, true),
        EitherView::Tagged(frame) => may_leave(ignored, seen.end, frame.dst, frame.kind, false),
    }
}

/// What became of an observed copy that nothing caused.
fn unmatched_fate(device: &Device, seen: &Passage) -> ObservedFate
    ensures { result ≡ unmatched_fate device.now seen.now }
{
    if seen.at() < device.times.warm {
        ObservedFate::Open
    } else if is_let_pass(&device.ignored, seen) {
        ObservedFate::Ignored
    } else {
        ObservedFate::Extra
    }
}

/// What became of an observed copy that was matched: a number that isn't the next comes before lateness.
fn matched_fate(word: Word, jump: &Jump) -> ObservedFate
    ensures { result ≡ matched_fate word jump.now }
{
    let goes_on = jump.goes_on();
    match word {
        Word::Same => {
            if goes_on {
                ObservedFate::Same
            } else {
                ObservedFate::Altered
            }
        }
        Word::Late => {
            if goes_on {
                ObservedFate::Late
            } else {
                ObservedFate::Altered
            }
        }
        Word::Altered => ObservedFate::Altered,
    }
}

/// What became of an observed copy.
fn observed_fate(device: &Device, seen: &Passage, got: Option<Got>, jump: &Jump) -> ObservedFate
    ensures { result ≡ observed_fate device.now seen.now got jump.now }
{
    match got {
        Some(got) => matched_fate(got.word, jump),
        None => unmatched_fate(device, seen),
    }
}

/// What an observed copy was matched with.
fn got_at(gots: &[Option<Got>], k: usize) -> Option<Got>
    ensures { result ≡ got_at gots.now k }
{
    gots.get(k).copied().unwrap_or(None)
}

/// Where the numbers of an observed copy didn't go on by one.
fn jump_at(jumps: &[Jump], k: usize) -> Jump
    ensures { result ≡ jumps_in jumps.now k }
{
    jumps.get(k).copied().unwrap_or(no_jump())
}

/// What became of each observed copy. `NoMemory` where room is refused.
#[tactic(auto, using(crate::proofs::Fated::observed_all))]
pub(crate) fn observed_fates(
    alloc: Global,
    device: &Device,
    observed: &[&Passage],
    gots: &[Option<Got>],
    jumps: &[Jump],
) -> Result<Vec<ObservedFate>, NoMemory>
    ensures { IfOk result (λ fates. fates.items
        ≡ observed_fates device.now (views observed.now) gots.now jumps.now) }
{
    let mut fates = Vec::new(alloc);
    for k in 0..observed.len() {
        let seen = observed[k];
        let got = got_at(gots, k);
        let jump = jump_at(jumps, k);
        fates.push(observed_fate(device, seen, got, &jump))?;
    }
    Ok(fates)
}

/// Whether copies by an end may be missing at a moment, in microseconds.
fn is_down(downs: &[Down], out: End, at: u64) -> bool
    ensures { result ≡ is_down downs.now out at }
{
    downs.iter().any(|down| down.port.is_same(out) && (down.from <= at && at < down.until))
}

/// Whether an end leads to the host.
fn goes_up(out: End) -> bool
    ensures { result ≡ goes_up out }
{
    match out {
        End::Up => true,
        _ => false,
    }
}

/// Whether octets are a supervision frame.
fn is_life(octets: &[u8]) -> bool
    ensures { result ≡ is_life (classified octets.now) }
{
    let Ok(view) = look_at(octets) else {
        return false;
    };
    match view.frame {
        EitherView::Plain(frame) => is_supervision(frame.dst, frame.kind),
        EitherView::Tagged(frame) => is_supervision(frame.dst, frame.kind),
    }
}

/// Whether a copy goes up and is supervision.
fn is_life_up(expected: &Expected) -> bool
    ensures { result ≡ is_life_up expected.now }
{
    goes_up(expected.out) && is_life(expected.octets.as_slice())
}

/// Whether a copy may have come outside of the capture: its window ends behind the last moment, in nanoseconds, or it was caused before the
/// device was warm.
fn is_open(device: &Device, last: u64, expected: &Expected) -> bool
    ensures { result ≡ is_open device.now last expected.now }
{
    expected.at() < device.times.warm
        || (!device.whole && us_from(expected.moment, last) < device.times.within)
}

/// Whether a copy may be missing.
fn may_be_missing(device: &Device, expected: &Expected) -> bool
    ensures { result ≡ may_be_missing device.now expected.now }
{
    is_down(device.downs.as_slice(), expected.out, expected.at())
        || (device.ignored.life_up && is_life_up(expected))
}

/// What became of an expected copy that is alone, or not.
fn expected_fate(device: &Device, last: u64, expected: &Expected, is_alone: bool) -> ExpectedFate
    ensures { result ≡ expected_fate device.now last expected.now is_alone }
{
    if !is_alone {
        ExpectedFate::Matched
    } else if is_open(device, last, expected) {
        ExpectedFate::Open
    } else if may_be_missing(device, expected) {
        ExpectedFate::Ignored
    } else {
        ExpectedFate::Missing
    }
}

/// Whether an expected copy is alone.
fn is_left(alone: &[bool], i: usize) -> bool
    ensures { result ≡ unwrap_or (slice_get alone.now i) true }
{
    alone.get(i).copied().unwrap_or(true)
}

/// What became of each expected copy; `last` is the last moment that counts, in nanoseconds since the capture began. `NoMemory` where room
/// is refused.
#[tactic(auto, using(crate::proofs::Fated::expected_all))]
pub(crate) fn expected_fates(
    alloc: Global,
    device: &Device,
    last: u64,
    expected: &[Expected],
    alone: &[bool],
) -> Result<Vec<ExpectedFate>, NoMemory>
    ensures { IfOk result (λ fates. fates.items
        ≡ expected_fates device.now last expected.now alone.now) }
{
    let mut fates = Vec::new(alloc);
    for i in 0..expected.len() {
        let copy = &expected[i];
        fates.push(expected_fate(device, last, copy, is_left(alone, i)))?;
    }
    Ok(fates)
}
