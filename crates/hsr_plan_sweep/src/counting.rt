//! What is counted of a finished run.
ghost use Rattle.std.specs.Prelude.{◌≡◌, ◌||◌, count_by, not, slice_get, IfOk};
ghost use Rattle.hsr_latency.specs.Latencies.{latencies, worst};
ghost use Rattle.hsr_plan_sweep.specs.Counting.{IsCounted, IsMostLoad, is_complete, is_missed, first_missed, is_twice, miss_at, miss_if, outcome_of, outcomes, stream_if, time_if};

use crate::audience::Audience;
use hsr_deliveries::{Delivery, deliveries};
use hsr_finished_run::Closed;
use hsr_frame::NoMemory;
use hsr_latency::latency_of;
use hsr_load::load_of;
use hsr_node::Probe;
use hsr_options::Scope;
use hsr_report::{Finding, Spending, found, spending_of};
use hsr_table_demand::needed;
use std::alloc::Global;

/// How many sends a run had; how many of these are complete, were missed by a node at which they were due, and were taken up twice by
/// one; how many entries the duplicate tables needed, and what was spent of them; the longest that a send took, in microseconds; the most
/// load of a channel, in kbit/s of its worst millisecond; what the audit of networks found; and the first send that was missed, with the
/// first node that did.
#[derive(Clone, Copy, PartialEq, Eq)]
pub struct Count {
    pub sends: usize,
    pub complete: usize,
    pub missed: usize,
    pub twice: usize,
    pub needed: usize,
    pub spending: Spending,
    pub latency: u64,
    pub load: u64,
    pub finding: Finding,
    pub first: Option<Miss>,
}

/// A send, and a node that missed it.
#[derive(Clone, Copy, PartialEq, Eq)]
pub struct Miss {
    pub send: Probe,
    pub node: usize,
}

/// What became of a send: one at which it was due missed it, one took it up twice, and one took it up at which it wasn't due at all.
#[derive(Clone, Copy, PartialEq, Eq)]
pub struct Outcome {
    pub missed: bool,
    pub twice: bool,
    pub strayed: bool,
}

/// What became of a send of a stream.
fn outcome_of(audience: &Audience<'_>, stream: Option<usize>, send: &Delivery) -> Outcome
    ensures { result ≡ outcome_of audience.now stream send.now }
{
    Outcome {
        missed: audience.one_needs(stream, send.at, send.missed.as_slice()),
        twice: audience.one_needs(stream, send.at, send.twice.as_slice()),
        strayed: audience.one_needs(stream, send.at, send.strayed.as_slice()),
    }
}

/// The stream of the send at an index; none where it is of none.
pub fn stream_at(streams: &[Option<usize>], index: usize) -> Option<usize>
    ensures { result ≡ stream_if (slice_get streams.now index) }
{
    match streams.get(index) {
        Some(stream) => *stream,
        None => None,
    }
}

/// What became of each send for an audience, where these are their streams. `NoMemory` if allocation fails.
#[tactic(auto, using(crate::proofs::Listing::outcomes_step))]
pub fn outcomes(
    alloc: Global,
    audience: &Audience<'_>,
    streams: &[Option<usize>],
    sends: &[Delivery],
) -> Result<Vec<Outcome>, NoMemory>
    ensures { IfOk result (λ list. list.items ≡ outcomes audience.now streams.now 0 sends.now) }
{
    let mut list = Vec::new(alloc);
    for (index, send) in sends.iter().enumerate() {
        list.push(outcome_of(audience, stream_at(streams, index), send))?;
    }
    Ok(list)
}

/// The first node at which a send was due that missed it, with the send.
fn miss_at(audience: &Audience<'_>, stream: Option<usize>, send: &Delivery) -> Option<Miss>
    ensures { result ≡ miss_at audience.now stream send.now }
{
    match audience.first_in_need(stream, send.at, send.missed.as_slice()) {
        None => None,
        Some(node) => Some(Miss {
            send: send.send,
            node,
        }),
    }
}

/// The first send that was missed, where these are the streams of all.
#[tactic(auto, using(crate::proofs::Listing::missed_step, crate::proofs::Listing::missed_found))]
fn first_missed(
    audience: &Audience<'_>,
    streams: &[Option<usize>],
    sends: &[Delivery],
) -> Option<Miss>
    ensures { result ≡ first_missed audience.now streams.now 0 sends.now }
{
    for (index, send) in sends.iter().enumerate() {
        if let Some(miss) = miss_at(audience, stream_at(streams, index), send) {
            return Some(miss);
        }
    }
    None
}

impl Outcome {
    /// Whether the send is complete: each that needed it took it up once, and nobody else did.
    pub fn is_complete(&self) -> bool
        ensures { result ≡ is_complete self.now }
    {
        !(self.missed || (self.twice || self.strayed))
    }
}

/// How many sends are complete.
fn complete(outcomes: &[Outcome]) -> usize
    ensures { result ≡ count_by is_complete outcomes.now }
{
    outcomes
        .iter()
        .filter(|outcome| outcome.is_complete())
        .count()
}

/// How many sends were missed.
fn missed(outcomes: &[Outcome]) -> usize
    ensures { result ≡ count_by is_missed outcomes.now }
{
    outcomes.iter().filter(|outcome| outcome.missed).count()
}

/// How many sends were taken up twice.
fn twice(outcomes: &[Outcome]) -> usize
    ensures { result ≡ count_by is_twice outcomes.now }
{
    outcomes.iter().filter(|outcome| outcome.twice).count()
}

/// The longest that a send took; 0 where nothing went up.
fn latency<const C: usize>(alloc: Global, closed: &Closed<C>) -> Result<u64, NoMemory>
    ensures { IfOk result (λ n. n ≡ time_if (worst (latencies closed.now.run))) }
{
    let latency = latency_of(alloc, closed)?;
    match latency.worst() {
        Some(worst) => Ok(worst.worst.time),
        None => Ok(0),
    }
}

/// The most load of a channel; 0 where none carried anything.
fn load<const C: usize>(alloc: Global, closed: &Closed<C>) -> Result<u64, NoMemory>
    ensures { IfOk result (IsMostLoad closed.now.run) }
{
    let load = load_of(alloc, closed)?;
    match load.most() {
        Some(most) => Ok(most.worst),
        None => Ok(0),
    }
}

/// What is counted of a run for an audience, where these are the streams of its sends, by node and as each sent them. `NoMemory` if
/// allocation fails.
pub fn counted<const C: usize>(
    alloc: Global,
    closed: &Closed<C>,
    audience: &Audience<'_>,
    streams: &[Option<usize>],
) -> Result<Count, NoMemory>
    ensures { IfOk result (λ count. IsCounted audience.now streams.now closed.now.run count) }
{
    let deliveries = deliveries(alloc, closed)?;
    let outcomes = outcomes(alloc, audience, streams, deliveries.sends.as_slice())?;
    let needed = needed(alloc, closed)?;
    let spending = spending_of(alloc, closed)?;
    let latency = latency(alloc, closed)?;
    let load = load(alloc, closed)?;
    let finding = found(alloc, closed, Scope::Network)?;
    Ok(Count {
        sends: deliveries.sends.len(),
        complete: complete(outcomes.as_slice()),
        missed: missed(outcomes.as_slice()),
        twice: twice(outcomes.as_slice()),
        needed: needed.entries,
        spending,
        latency,
        load,
        finding,
        first: first_missed(audience, streams, deliveries.sends.as_slice()),
    })
}
