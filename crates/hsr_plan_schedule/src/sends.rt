//! When the frames of streams are sent.
//!
//! Frames are counted before they are listed: a short plan may ask for 4096 senders of a million frames each.
ghost use Rattle.std.specs.Prelude.{◌≡◌, ◌++◌, ◌+◌, ◌-◌, ◌≤◌, ◌<◌, ◌^◌, min, nat_le, nat_lt, length, slice_get, IfOk, OnOk};
ghost use Rattle.std.specs.List.{list_all};
ghost use Rattle.hsr_plan_text.specs.Fallible.{Gives};
ghost use Rattle.hsr_plan_schedule.specs.Moments.{earlier, end_of, first_gap, left, moment, most_sent, next_end, next_gap, run, run_from, runs, sends, sent_by, starts_in_time, time_of};
ghost use Rattle.hsr_plan_network.specs.Checks.{unless_held};
ghost use Rattle.hsr_plan_text.specs.declared.fault.Key.TheVariants as key;
ghost use Rattle.hsr_plan_text.specs.declared.fault.Refusal.TheVariants.{TooMany as IsTooMany};

use crate::occasion::{Happening, Occasion, Sender, Sent};
use crate::senders::{check_receivers, sources, target};
use hsr_frame::{Mac, NoMemory};
use hsr_plan_network::Node;
use hsr_plan_text::{Key, Pace, Refusal, SampleRate, Stream, Timing, What};
use std::alloc::Global;

/// The most occasions of a plan.
const MOST: u64 = 1 << 20;

// A stream with a count and no end goes on so far at most.
/// Behind the last moment that a plan may name.
pub(crate) const BEHIND: u64 = 1 << 41;

/// The earlier of two moments.
pub(crate) fn earlier(one: Option<u64>, other: Option<u64>) -> Option<u64>
    ensures { result ≡ earlier one other }
{
    match (one, other) {
        (Some(one), Some(other)) => Some(one.min(other)),
        (Some(one), None) => Some(one),
        (None, other) => other,
    }
}

/// Where a stream ends.
fn end_of(until: Option<u64>, timing: &Timing) -> Result<u64, What>
    ensures { Gives (λ n. n) result (end_of until timing.now) }
{
    match (earlier(until, timing.until), timing.count) {
        (Some(until), _) => Ok(until),
        (None, Some(_)) => Ok(BEHIND),
        (None, None) => Err(What::Refused(Refusal::Endless(Key::Every))),
    }
}

/// How many frames are sent from a start on at most.
pub(crate) fn most_sent(count: Option<u64>) -> u64
    ensures value { result ≡ most_sent count }
    ensures most { result ≤ 2 ^ 20 + 1 }
{
    match count {
        // One more than may be, so that too many are told from just enough.
        None => MOST + 1,
        Some(count) => count.min(MOST + 1),
    }
}

/// The first frame of the sender at an index among those of a stream.
fn first(stream: usize, index: usize, sender: Sender, dst: Mac) -> Sent
    ensures { result ≡ record {
      stream = stream;
      index = index;
      sender = sender;
      dst = dst;
      state = 0;
      count = 0;
    } }
{
    Sent {
        stream,
        index,
        sender,
        dst,
        state: 0,
        count: 0,
    }
}

// ---- moments

/// The first gap of a pace; 0 where samples tell the moments.
fn first_gap(pace: Pace) -> u64
    ensures { result ≡ first_gap pace }
{
    match pace {
        Pace::Gaps { every, most, .. } => every.min(most),
        Pace::Samples(_) => 0,
    }
}

/// The gap behind this one.
pub(crate) fn next_gap(pace: Pace, gap: u64) -> u64
    ensures { result ≡ next_gap pace gap }
{
    match pace {
        // Saturating, since the longest gap bounds it anyway.
        Pace::Gaps { grow, most, .. } => gap.saturating_mul(grow).min(most),
        Pace::Samples(_) => gap,
    }
}

/// How many microseconds samples take, to the nearest one.
fn time_of(rate: SampleRate, samples: u64) -> u64
    requires { samples ≤ 2 ^ 40 }
    ensures { result ≡ time_of rate samples }
{
    // From the start on and not from sample to sample: so what is rounded doesn't add up.
    let rate = rate.per_second();
    (samples * 1_000_000 + rate / 2) / rate
}

/// The moment of the `count`-th frame behind a start, where the one before it comes `at` a moment.
fn moment(timing: &Timing, start: u64, count: usize, at: u64, gap: u64) -> u64
    requires { count ≤ 2 ^ 21 }
    ensures { result ≡ min (moment timing.now timing.now.pace start count at gap) (2 ^ 64 - 1) }
{
    match timing.pace {
        Pace::Gaps { .. } => at.saturating_add(gap),
        Pace::Samples(rate) => {
            let asdus = timing.asdus;
            start.saturating_add(time_of(rate, count as u64 * asdus as u64))
        }
    }
}

// ---- how many there are

/// How much room is left after `taken`, if there is as much.
#[tactic(auto, unfolding(crate::specs::Moments::left))]
fn left(room: usize, taken: usize) -> Option<usize>
    ensures { result ≡ left room taken }
{
    if taken <= room {
        Some(room - taken)
    } else {
        None
    }
}

/// How much room is left behind the frames of one sender from one start on, if there is room for them.
#[tactic(auto, using(crate::proofs::Counting::run_step, crate::proofs::Counting::run_stop, crate::proofs::Counting::run_over, crate::proofs::Running::run_some, crate::proofs::Counting::lacks))]
fn left_by_run(
    room: usize,
    most: usize,
    start: u64,
    timing: &Timing,
    until: u64,
    sent: &Sent,
) -> Option<usize>
    requires { most ≤ 2 ^ 20 + 1 }
    ensures { result ≡ left room (length
        (run most 0 start start (first_gap timing.now.pace) timing.now until sent.now)) }
{
    let mut at = start;
    let mut gap = first_gap(timing.pace);
    for count in 0..most {
        if at >= until {
            return left(room, count);
        }
        // Refused at once: how many there would be beyond the room isn't counted.
        if count >= room {
            return None;
        }
        at = moment(timing, start, count + 1, at, gap);
        gap = next_gap(timing.pace, gap);
    }
    left(room, most)
}

/// How much room is left behind the frames of one sender from the start of that number on, if there is room for them.
fn left_by_state(
    room: usize,
    timing: &Timing,
    state: usize,
    start: u64,
    until: u64,
    sent: &Sent,
) -> Option<usize>
    requires { state < 2 ^ 63 }
    ensures { result ≡ left room (length
        (run_from start timing.now (next_end (slice_get timing.now.starts (state + 1)) until) (record sent.now { state = state }))) }
{
    let end = next_end(timing.starts.as_slice(), state + 1, until);
    let most = most_sent(timing.count) as usize;
    left_by_run(room, most, start, timing, end, &sent.with_state(state))
}

/// How much room is left behind the frames of one sender, if there is room for them.
#[tactic(auto, using(crate::proofs::Counting::runs_step, crate::proofs::Counting::runs_full, crate::proofs::Counting::runs_over))]
fn left_by_runs(room: usize, timing: &Timing, until: u64, sent: &Sent) -> Option<usize>
    ensures { result ≡ left room (length (runs 0 timing.now.starts timing.now until sent.now)) }
{
    let mut rest = room;
    for (state, start) in timing.starts.iter().enumerate() {
        match left_by_state(rest, timing, state, *start, until, sent) {
            Some(less) => rest = less,
            None => return None,
        }
    }
    Some(rest)
}

/// How much room is left behind the frames of senders, of the stream with this number, if there is room for them.
#[tactic(auto, using(crate::proofs::Counting::sent_by_step, crate::proofs::Counting::sent_by_full, crate::proofs::Counting::sent_by_over))]
fn left_by_all(
    room: usize,
    stream: usize,
    senders: &[Sender],
    timing: &Timing,
    until: u64,
    dst: Mac,
) -> Option<usize>
    ensures { result ≡ left room (length (sent_by stream 0 senders.now timing.now until dst)) }
{
    let mut rest = room;
    for (index, sender) in senders.iter().enumerate() {
        let sent = first(stream, index, *sender, dst);
        match left_by_runs(rest, timing, until, &sent) {
            Some(less) => rest = less,
            None => return None,
        }
    }
    Some(rest)
}

/// Refuses the frames of senders, of the stream with this number, unless there is room for them.
#[tactic(auto, unfolding(crate::specs::Moments::left))]
fn check_room(
    room: usize,
    stream: usize,
    senders: &[Sender],
    timing: &Timing,
    until: u64,
    dst: Mac,
) -> Result<(), What>
    ensures { Gives (λ u. u) result (unless_held
        (nat_le (length (sent_by stream 0 senders.now timing.now until dst)) room)
        (IsTooMany key.Stream)) }
{
    match left_by_all(room, stream, senders, timing, until, dst) {
        Some(_) => Ok(()),
        None => Err(What::Refused(Refusal::TooMany(Key::Stream))),
    }
}

// ---- which there are

/// Puts the frames of one sender from one start on behind other occasions.
#[tactic(auto, using(crate::proofs::Running::run_step, crate::proofs::Running::run_stop, crate::proofs::Running::run_over))]
fn add_run(
    occasions: &mut Vec<Occasion>,
    most: usize,
    start: u64,
    timing: &Timing,
    until: u64,
    sent: &Sent,
) -> Result<(), NoMemory>
    requires { most ≤ 2 ^ 20 + 1 }
    ensures { OnOk result (occasions.new.items ≡ occasions.old.items
        ++ run most 0 start start (first_gap timing.now.pace) timing.now until sent.now) }
{
    let mut at = start;
    let mut gap = first_gap(timing.pace);
    for count in 0..most {
        if at >= until {
            return Ok(());
        }
        let what = Happening::Send(sent.with_count(count));
        occasions.push(Occasion { at, what })?;
        at = moment(timing, start, count + 1, at, gap);
        gap = next_gap(timing.pace, gap);
    }
    Ok(())
}

/// Where the frames from the start of that number on end.
fn next_end(starts: &[u64], next: usize, until: u64) -> u64
    ensures { result ≡ next_end (slice_get starts.now next) until }
{
    match starts.get(next) {
        // The next start ends this one: a new state begins (IEC 61850-8-1, stNum).
        Some(start) => (*start).min(until),
        None => until,
    }
}

/// Puts the frames of one sender from the start of that number on behind other occasions.
fn add_state(
    occasions: &mut Vec<Occasion>,
    timing: &Timing,
    state: usize,
    start: u64,
    until: u64,
    sent: &Sent,
) -> Result<(), NoMemory>
    requires { state < 2 ^ 63 }
    ensures { OnOk result (occasions.new.items ≡ occasions.old.items
        ++ run_from start timing.now (next_end (slice_get timing.now.starts (state + 1)) until) (record sent.now { state = state })) }
{
    let end = next_end(timing.starts.as_slice(), state + 1, until);
    let most = most_sent(timing.count) as usize;
    add_run(occasions, most, start, timing, end, &sent.with_state(state))
}

/// Puts the frames of one sender behind other occasions.
#[tactic(auto, using(crate::proofs::Running::runs_step))]
fn add_runs(
    occasions: &mut Vec<Occasion>,
    timing: &Timing,
    until: u64,
    sent: &Sent,
) -> Result<(), NoMemory>
    ensures { OnOk result (occasions.new.items
        ≡ occasions.old.items ++ runs 0 timing.now.starts timing.now until sent.now) }
{
    for (state, start) in timing.starts.iter().enumerate() {
        add_state(occasions, timing, state, *start, until, sent)?;
    }
    Ok(())
}

/// The frames of senders, of the stream with this number.
#[tactic(auto, using(crate::proofs::Running::sent_by_step))]
fn sent_by(
    alloc: Global,
    stream: usize,
    senders: &[Sender],
    timing: &Timing,
    until: u64,
    dst: Mac,
) -> Result<Vec<Occasion>, NoMemory>
    ensures { IfOk result (λ v. v.items ≡ sent_by stream 0 senders.now timing.now until dst) }
{
    let mut occasions = Vec::new(alloc);
    for (index, sender) in senders.iter().enumerate() {
        let sent = first(stream, index, *sender, dst);
        add_runs(&mut occasions, timing, until, &sent)?;
    }
    Ok(occasions)
}

/// Whether each start comes before the end.
fn are_before(until: u64, starts: &[u64]) -> bool
    ensures { result ≡ list_all (λ start. nat_lt start until) starts.now }
{
    starts.iter().all(|start| *start < until)
}

/// Refuses starts of which one doesn't come before the end.
fn starts_in_time(until: u64, starts: &[u64]) -> Result<(), What>
    ensures { Gives (λ u. u) result (starts_in_time until starts.now) }
{
    if are_before(until, starts) {
        Ok(())
    } else {
        Err(What::Refused(Refusal::TooLate(Key::Start)))
    }
}

/// All frames of the stream with this number, if there is room for them. They are counted before they are listed.
pub(crate) fn sends(
    alloc: Global,
    nodes: &[Node],
    until: Option<u64>,
    room: usize,
    number: usize,
    stream: &Stream,
) -> Result<Vec<Occasion>, What>
    ensures { Gives (λ v. v.items) result (sends nodes.now until room number stream.now) }
{
    let dst = target(alloc, nodes, &stream.framing.target)?;
    let senders = sources(alloc, nodes, dst, stream.from.as_slice())?;
    let senders = senders.as_slice();
    check_receivers(alloc, nodes, senders, dst, stream.receivers.as_slice())?;
    let until = end_of(until, &stream.timing)?;
    starts_in_time(until, stream.timing.starts.as_slice())?;
    check_room(room, number, senders, &stream.timing, until, dst)?;
    let occasions = sent_by(alloc, number, senders, &stream.timing, until, dst)?;
    Ok(occasions)
}
