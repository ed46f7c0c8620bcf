//! What came and left by each end.
ghost use Rattle.std.specs.Prelude.{◌≡◌, ◌++◌, ◌&&◌, ◌≤◌, ◌-◌, ◌/◌, ◌+◌, ◌^◌, IfOk, OnOk, is_some, length, nat_lt, slice_get};
ghost use Rattle.std.specs.List.{count_by, filter, flat_map, range_with_len};
ghost use Rattle.std.specs.Option.{option_copied};
ghost use Rattle.hsr_capture_reader.specs.Fields.{capped_sum};
ghost use Rattle.hsr_judging_text.specs.Lines.{matched_at};
ghost use Rattle.hsr_judging_text.specs.Ports.{all_ends, came_at, count_text, counts_at, counts_text, delay_between, delay_if, delay_line, delay_line_if, delay_of, delay_or, delay_text, delays_at, due_as, due_at, expected_as, expected_number, goes_in, has_expected, has_observed, ins_at, ins_text, is_due_as, is_expected_as, is_idle, is_observed_as, is_seen_as, is_tapped, is_told, leaves_by, left_by, not_out, not_tapped, observed_as, observed_number, ordered, outs_text, port_lines, right_text, seen_as, seen_at, spread_line, told_ends, wrong_text};

use crate::deviation::copy_at;
use crate::lines::{Scene, expected_at, matched_at};
use hsr_frame::NoMemory;
use hsr_judging::{ExpectedFate, Judgement, ObservedFate};
use hsr_node::Role;
use hsr_playback::{Expected, Heading, Passage, Taps};
use hsr_tap_device::End;
use hsr_text::{put, put_count, put_number};
use std::alloc::Global;

/// How many copies of each fate there are.
#[derive(Clone, Copy, PartialEq, Eq)]
pub(crate) struct Counts {
    pub expected: u64,
    pub seen: u64,
    pub same: u64,
    pub late: u64,
    pub altered: u64,
    pub missing: u64,
    pub extra: u64,
    pub ignored: u64,
    pub left_open: u64,
}

// ---- fates

/// A number for each fate of an observed copy.
fn observed_number(fate: ObservedFate) -> u8
    ensures { result ≡ observed_number fate }
{
    match fate {
        ObservedFate::Same => 0,
        ObservedFate::Late => 1,
        ObservedFate::Altered => 2,
        ObservedFate::Extra => 3,
        ObservedFate::Ignored => 4,
        ObservedFate::Open => 5,
    }
}

/// A number for each fate of an expected copy.
fn expected_number(fate: ExpectedFate) -> u8
    ensures { result ≡ expected_number fate }
{
    match fate {
        ExpectedFate::Matched => 0,
        ExpectedFate::Missing => 1,
        ExpectedFate::Ignored => 2,
        ExpectedFate::Open => 3,
    }
}

/// Whether the fate of an observed copy is this one.
fn is_observed_as(fate: ObservedFate, other: ObservedFate) -> bool
    ensures { result ≡ is_observed_as fate other }
{
    observed_number(other) == observed_number(fate)
}

/// Whether the fate of an expected copy is this one.
fn is_expected_as(fate: ExpectedFate, other: ExpectedFate) -> bool
    ensures { result ≡ is_expected_as fate other }
{
    expected_number(other) == expected_number(fate)
}

/// How many observed copies have a fate.
pub(crate) fn observed_as(judgement: &Judgement<'_>, fate: ObservedFate) -> u64
    ensures { result ≡ observed_as judgement.now fate }
{
    judgement
        .observed_fates
        .iter()
        .filter(|other| is_observed_as(fate, **other))
        .count() as u64
}

/// How many expected copies have a fate.
pub(crate) fn expected_as(judgement: &Judgement<'_>, fate: ExpectedFate) -> u64
    ensures { result ≡ expected_as judgement.now fate }
{
    judgement
        .expected_fates
        .iter()
        .filter(|other| is_expected_as(fate, **other))
        .count() as u64
}

// ---- the copies of an end

/// Whether an observed copy left by an end.
fn left_by(end: End, copy: Option<&Passage>) -> bool
    ensures { result ≡ left_by end (option_copied copy.entry) }
{
    match copy {
        None => false,
        Some(copy) => copy.end.is_same(end),
    }
}

/// Whether the observed copy with this index left by an end.
fn left_at(judgement: &Judgement<'_>, end: End, k: usize) -> bool
    ensures { result ≡ left_by end (slice_get judgement.now.observed k) }
{
    left_by(end, copy_at(judgement, k))
}

/// How many observed copies there are.
fn observed_len(judgement: &Judgement<'_>) -> usize
    ensures { result ≡ length judgement.now.observed }
{
    judgement.observed.len()
}

/// How many observed copies left by an end.
fn seen_at(judgement: &Judgement<'_>, end: End) -> u64
    ensures { result ≡ seen_at judgement.now end }
{
    let many = observed_len(judgement);
    (0..many).filter(|k| left_at(judgement, end, *k)).count() as u64
}

/// Whether the observed copy with this index has a fate.
fn has_observed(fates: &[ObservedFate], fate: ObservedFate, k: usize) -> bool
    ensures { result ≡ has_observed fate (slice_get fates.now k) }
{
    k < fates.len() && is_observed_as(fate, fates[k])
}

/// Whether the observed copy with this index left by an end, and has a fate.
fn is_seen_as(judgement: &Judgement<'_>, end: End, fate: ObservedFate, k: usize) -> bool
    ensures { result ≡ is_seen_as judgement.now end fate k }
{
    left_at(judgement, end, k) && has_observed(judgement.observed_fates.as_slice(), fate, k)
}

/// How many observed copies left by an end and have a fate.
fn seen_as(judgement: &Judgement<'_>, end: End, fate: ObservedFate) -> u64
    ensures { result ≡ seen_as judgement.now end fate }
{
    let many = observed_len(judgement);
    (0..many)
        .filter(|k| is_seen_as(judgement, end, fate, *k))
        .count() as u64
}

/// Whether an expected copy leaves by an end.
fn leaves_by(end: End, copy: Option<&Expected>) -> bool
    ensures { result ≡ leaves_by end (option_copied copy.entry) }
{
    match copy {
        None => false,
        Some(copy) => copy.out.is_same(end),
    }
}

/// Whether the expected copy with this index leaves by an end.
fn leaves_at(judgement: &Judgement<'_>, end: End, i: usize) -> bool
    ensures { result ≡ leaves_by end (slice_get judgement.now.played.expected i) }
{
    leaves_by(end, expected_at(judgement, i))
}

/// How many copies were expected at an end.
fn due_at(judgement: &Judgement<'_>, end: End) -> u64
    ensures { result ≡ due_at judgement.now end }
{
    (0..judgement.played.expected.len())
        .filter(|i| leaves_at(judgement, end, *i))
        .count() as u64
}

/// Whether the expected copy with this index has a fate.
fn has_expected(fates: &[ExpectedFate], fate: ExpectedFate, i: usize) -> bool
    ensures { result ≡ has_expected fate (slice_get fates.now i) }
{
    i < fates.len() && is_expected_as(fate, fates[i])
}

/// Whether the expected copy with this index leaves by an end, and has a fate.
fn is_due_as(judgement: &Judgement<'_>, end: End, fate: ExpectedFate, i: usize) -> bool
    ensures { result ≡ is_due_as judgement.now end fate i }
{
    leaves_at(judgement, end, i) && has_expected(judgement.expected_fates.as_slice(), fate, i)
}

/// How many copies were expected at an end and have a fate.
fn due_as(judgement: &Judgement<'_>, end: End, fate: ExpectedFate) -> u64
    ensures { result ≡ due_as judgement.now end fate }
{
    (0..judgement.played.expected.len())
        .filter(|i| is_due_as(judgement, end, fate, *i))
        .count() as u64
}

/// The sum of two numbers.
pub(crate) fn both(a: u64, b: u64) -> u64
    ensures { result ≡ capped_sum a b }
{
    a.saturating_add(b)
}

/// How many copies of each fate left by an end, or should have.
#[tactic(auto, unfolding(crate::specs::Ports::counts_at))]
fn counts_at(judgement: &Judgement<'_>, end: End) -> Counts
    ensures { result ≡ counts_at judgement.now end }
{
    Counts {
        expected: due_at(judgement, end),
        seen: seen_at(judgement, end),
        same: seen_as(judgement, end, ObservedFate::Same),
        late: seen_as(judgement, end, ObservedFate::Late),
        altered: seen_as(judgement, end, ObservedFate::Altered),
        missing: due_as(judgement, end, ExpectedFate::Missing),
        extra: seen_as(judgement, end, ObservedFate::Extra),
        ignored: both(
            seen_as(judgement, end, ObservedFate::Ignored),
            due_as(judgement, end, ExpectedFate::Ignored),
        ),
        left_open: both(
            seen_as(judgement, end, ObservedFate::Open),
            due_as(judgement, end, ExpectedFate::Open),
        ),
    }
}

// ---- the ends that are told

/// All ends, in the order in which they are told.
const ENDS: [End; 6] = [End::A, End::B, End::C, End::D, End::I, End::Up];

/// Whether an end is a QuadBox's host.
fn is_idle(role: Role, end: End) -> bool
    ensures { result ≡ is_idle role end }
{
    match (role, end) {
        (Role::QuadBox, End::Up) => true,
        _ => false,
    }
}

/// Whether an end is told: one of the role; a QuadBox's host only where it is tapped.
fn is_told(role: Role, taps: &Taps, end: End) -> bool
    ensures { result ≡ is_told role taps.now end }
{
    end.is_of(role) && (!is_idle(role, end) || (taps.has_in(end) || taps.has_out(end)))
}

/// The ends that are told, in their order.
pub(crate) fn told_ends(alloc: Global, role: Role, taps: &Taps) -> Result<Vec<End>, NoMemory>
    ensures { IfOk result (λ ends. ends.items ≡ told_ends role taps.now) }
{
    let told = ENDS.iter().copied().filter(|end| is_told(role, taps, *end));
    Ok(told.collect(alloc)?)
}

/// Whether an end isn't tapped on the way out.
fn not_out(taps: &Taps, end: End) -> bool
    ensures { result ≡ not_out taps.now end }
{
    !taps.has_out(end)
}

/// Those of some ends that aren't tapped on the way out.
pub(crate) fn not_tapped(alloc: Global, taps: &Taps, ends: &[End]) -> Result<Vec<End>, NoMemory>
    ensures { IfOk result (λ left. left.items ≡ not_tapped taps.now ends.now) }
{
    let left = ends.iter().copied().filter(|end| not_out(taps, *end));
    Ok(left.collect(alloc)?)
}

// ---- a port's line

/// Whether what passes so goes into the device.
fn goes_in(heading: Heading) -> bool
    ensures { result ≡ goes_in heading }
{
    match heading {
        Heading::In => true,
        Heading::Out => false,
    }
}

/// Whether a packet went in at an end.
fn came_at(end: End, passage: &Passage) -> bool
    ensures { result ≡ came_at end passage.now }
{
    passage.end.is_same(end) && goes_in(passage.heading)
}

/// How many packets went in at an end.
fn count_in(passages: &[Passage], end: End) -> u64
    ensures { result ≡ count_by (came_at end) passages.now }
{
    passages
        .iter()
        .filter(|passage| came_at(end, passage))
        .count() as u64
}

/// How many packets went in at an end, if that is tapped.
fn ins_at(taps: &Taps, passages: &[Passage], end: End) -> Option<u64>
    ensures { result ≡ ins_at taps.now passages.now end }
{
    if taps.has_in(end) {
        Some(count_in(passages, end))
    } else {
        None
    }
}

/// Puts a word and a number last, which is left out where it is 0, but not in full.
fn put_count_if(text: &mut Vec<u8>, full: bool, word: &str, count: u64) -> Result<(), NoMemory>
    ensures { OnOk result (text.new.items ≡ text.old.items ++ count_text full word.now count) }
{
    if full || count > 0 {
        put(text, word)?;
        put_number(text, count)
    } else {
        Ok(())
    }
}

/// Puts how many copies were expected and seen last, and of those that were matched.
#[tactic(auto, unfolding(crate::specs::Ports::right_text))]
fn put_right(text: &mut Vec<u8>, full: bool, counts: &Counts) -> Result<(), NoMemory>
    ensures { OnOk result (text.new.items ≡ text.old.items ++ right_text full counts.now) }
{
    put_count_if(text, full, " expected ", counts.expected)?;
    put_count_if(text, full, " seen ", counts.seen)?;
    put_count_if(text, full, " same ", counts.same)?;
    put_count_if(text, full, " late ", counts.late)?;
    put_count_if(text, full, " altered ", counts.altered)
}

/// Puts how many copies weren't matched last.
#[tactic(auto, unfolding(crate::specs::Ports::wrong_text))]
fn put_wrong(text: &mut Vec<u8>, full: bool, counts: &Counts) -> Result<(), NoMemory>
    ensures { OnOk result (text.new.items ≡ text.old.items ++ wrong_text full counts.now) }
{
    put_count_if(text, full, " missing ", counts.missing)?;
    put_count_if(text, full, " extra ", counts.extra)?;
    put_count_if(text, full, " ignored ", counts.ignored)?;
    put_count_if(text, full, " open ", counts.left_open)
}

/// Puts how many copies of each fate there are last, and the end of the line.
#[tactic(auto, unfolding(crate::specs::Ports::counts_text))]
fn put_counts(text: &mut Vec<u8>, full: bool, counts: &Counts) -> Result<(), NoMemory>
    ensures { OnOk result (text.new.items ≡ text.old.items ++ counts_text full counts.now) }
{
    put_right(text, full, counts)?;
    put_wrong(text, full, counts)?;
    put(text, "\n")
}

// ---- delays

/// No delay, as delays are kept: with 2^63 added, so that they are in the order of their numbers.
const NO_DELAY: u64 = 1 << 63;

/// The microseconds from a cause to what was seen, rounded down, of moments in nanoseconds; with 2^63 added.
#[tactic(auto, unfolding(crate::specs::Ports::delay_between))]
fn delay_between(cause: u64, seen: u64) -> u64
    ensures { result ≡ delay_between cause seen }
{
    if cause <= seen {
        NO_DELAY + (seen - cause) / 1000
    } else {
        NO_DELAY - ((u128::from(cause - seen) + 999) / 1000) as u64
    }
}

/// Puts a delay last.
fn put_delay(text: &mut Vec<u8>, delay: u64) -> Result<(), NoMemory>
    ensures { OnOk result (text.new.items ≡ text.old.items ++ delay_text delay) }
{
    if delay < NO_DELAY {
        put_count(text, b"-", NO_DELAY - delay)
    } else {
        put_number(text, delay - NO_DELAY)
    }
}

/// Puts a delay last; a hyphen for none.
fn put_delay_or(text: &mut Vec<u8>, delay: Option<u64>) -> Result<(), NoMemory>
    ensures { OnOk result (text.new.items ≡ text.old.items ++ delay_or delay) }
{
    match delay {
        None => put(text, "-"),
        Some(delay) => put_delay(text, delay),
    }
}

/// The delay of a copy that left by an end, if it was matched, and the device didn't send it by itself.
fn delay_if(end: End, copy: Option<&Passage>, expected: Option<&Expected>) -> Option<u64>
    ensures { result ≡ delay_if end (option_copied copy.entry) (option_copied expected.entry) }
{
    let copy = copy?;
    let expected = expected?;
    if copy.end.is_same(end) && expected.by.is_some() {
        Some(delay_between(expected.moment, copy.moment))
    } else {
        None
    }
}

/// Puts the delay of a copy last, if it left by an end.
fn put_delay_of(
    delays: &mut Vec<u64>,
    judgement: &Judgement<'_>,
    end: End,
    k: usize,
) -> Result<(), NoMemory>
    ensures { OnOk result (delays.new.items ≡ delays.old.items ++ delay_of judgement.now end k) }
{
    match delay_if(end, copy_at(judgement, k), matched_at(judgement, k)) {
        None => Ok(()),
        Some(delay) => {
            delays.push(delay)?;
            Ok(())
        }
    }
}

/// The delays of copies that left by an end.
#[tactic(auto, unfolding(crate::specs::Ports::delays_at))]
fn delays_at(alloc: Global, judgement: &Judgement<'_>, end: End) -> Result<Vec<u64>, NoMemory>
    ensures { IfOk result (λ delays. delays.items ≡ delays_at judgement.now end) }
{
    let mut delays = Vec::new(alloc);
    for k in 0..judgement.observed.len() {
        put_delay_of(&mut delays, judgement, end, k)?;
    }
    Ok(delays)
}

/// Sorts numbers.
fn sort(numbers: &mut Vec<u64>) -> Result<(), NoMemory>
    ensures { OnOk result (numbers.new.items ≡ ordered numbers.old.items) }
{
    numbers.sort()?;
    Ok(())
}

/// The element at a place.
fn at(numbers: &[u64], i: usize) -> Option<u64>
    ensures { result ≡ slice_get numbers.now i }
{
    numbers.get(i).copied()
}

/// Puts the least, the lower median and the greatest of delays last that are in order.
#[tactic(auto, unfolding(crate::specs::Ports::spread_line))]
fn put_spread(text: &mut Vec<u8>, end: End, delays: &[u64]) -> Result<(), NoMemory>
    ensures { OnOk result (text.new.items ≡ text.old.items ++ spread_line end delays.now) }
{
    let last = delays.len().saturating_sub(1);
    put(text, "delay ")?;
    put(text, end.word())?;
    put(text, " min ")?;
    put_delay_or(text, at(delays, 0))?;
    put(text, " mid ")?;
    put_delay_or(text, at(delays, last / 2))?;
    put(text, " max ")?;
    put_delay_or(text, at(delays, last))?;
    put(text, "\n")
}

/// Puts the line of the delays of an end last: the least, the lower median and the greatest.
fn put_delay_line(
    alloc: Global,
    text: &mut Vec<u8>,
    judgement: &Judgement<'_>,
    end: End,
) -> Result<(), NoMemory>
    ensures { OnOk result (text.new.items ≡ text.old.items ++ delay_line judgement.now end) }
{
    let mut delays = delays_at(alloc, judgement, end)?;
    sort(&mut delays)?;
    put_spread(text, end, delays.as_slice())
}

/// Puts the line of the delays of an end last, if all is told.
fn put_delay_line_if(
    alloc: Global,
    text: &mut Vec<u8>,
    full: bool,
    judgement: &Judgement<'_>,
    end: End,
) -> Result<(), NoMemory>
    ensures { OnOk result (text.new.items ≡ text.old.items
        ++ delay_line_if full judgement.now end) }
{
    if full {
        put_delay_line(alloc, text, judgement, end)
    } else {
        Ok(())
    }
}

// ---- the lines of a port

/// Puts what left by an end last, if that is tapped.
fn put_outs(
    alloc: Global,
    text: &mut Vec<u8>,
    full: bool,
    scene: &Scene<'_>,
    taps: &Taps,
    end: End,
) -> Result<(), NoMemory>
    ensures { OnOk result (text.new.items ≡ text.old.items
        ++ outs_text full scene.now taps.now end) }
{
    if taps.has_out(end) {
        put_counts(text, full, &counts_at(scene.judgement, end))?;
        put_delay_line_if(alloc, text, full, scene.judgement, end)
    } else {
        put(text, " out not tapped\n")
    }
}

/// Puts how many packets went in last, if that is tapped.
fn put_ins(text: &mut Vec<u8>, full: bool, ins: Option<u64>) -> Result<(), NoMemory>
    ensures { OnOk result (text.new.items ≡ text.old.items ++ ins_text full ins) }
{
    match ins {
        Some(count) => put_count_if(text, full, " in ", count),
        None => put(text, " in -"),
    }
}

/// Puts the lines of an end last. `NoMemory` where room is refused.
#[tactic(auto, unfolding(crate::specs::Ports::port_lines))]
pub(crate) fn put_port(
    alloc: Global,
    text: &mut Vec<u8>,
    full: bool,
    scene: &Scene<'_>,
    taps: &Taps,
    end: End,
) -> Result<(), NoMemory>
    ensures { OnOk result (text.new.items ≡ text.old.items
        ++ port_lines full scene.now taps.now end) }
{
    put(text, "port ")?;
    put(text, end.word())?;
    put_ins(text, full, ins_at(taps, scene.passages, end))?;
    put_outs(alloc, text, full, scene, taps, end)
}
