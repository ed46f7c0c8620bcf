//! What came of each stream: of its sends, and of supervision behind all streams.
ghost use Rattle.std.specs.Prelude.{◌≡◌, ◌+◌, ◌<◌, ◌^◌, ◌++◌, length, option_map, option_to_list, IfOk, IfSome, OnOk};
ghost use Rattle.hsr_deliveries.specs.Delivered.{deliveries};
ghost use Rattle.hsr_plan_sweep.specs.Counting.{outcomes};
ghost use Rattle.hsr_plan_report.specs.StreamRows.{AreGathered, AreStreamRows, HasNoted, HaveNoted, IsNoted, members, rows_for, time_of};

use crate::missing::{missing_of, nodes_of};
use crate::sent::{Sent, row_of, sent_of};
use crate::words::{put_stream, put_target, put_words};
use hsr_bitset::Numbers;
use hsr_deliveries::Delivery;
use hsr_finished_run::Closed;
use hsr_frame::NoMemory;
use hsr_latency::{Delay, Member, longest_of};
use hsr_node::Place;
use hsr_page::put_moment;
use hsr_plan_network::Node;
use hsr_plan_page::StreamRow;
use hsr_plan_sweep::{Audience, Outcome, stream_at};
use hsr_plan_text::{Plan, Stream, Word};
use hsr_text::{put, put_octets};
use std::alloc::Global;

/// A run's sends: by whom they are needed, of which stream each is, in the order of its deliveries, and what became of each.
#[derive(Clone, Copy)]
pub(crate) struct Sendings<'a> {
    pub(crate) audience: &'a Audience<'a>,
    pub(crate) streams: &'a [Option<usize>],
    pub(crate) deliveries: &'a [Delivery],
    pub(crate) outcomes: &'a [Outcome],
}

/// Of each stream, and behind all of supervision: its sends, the nodes that need one and missed it, and the send that took longest.
#[derive(Drop)]
struct Gathered {
    sent: Vec<Sent>,
    missing: Vec<Numbers>,
    longest: Vec<Option<Delay>>,
}

/// That of one of them, with the nodes as a list, and the longest that a send took, in microseconds.
#[derive(Drop)]
struct Noted {
    sent: Sent,
    missing: Vec<usize>,
    latency: Option<u64>,
}

/// Of which row each send is, of rows up to the last one, that of supervision.
fn members_of(
    alloc: Global,
    streams: &[Option<usize>],
    deliveries: &[Delivery],
    last: usize,
) -> Result<Vec<Member>, NoMemory>
    ensures { IfOk result (λ list. list.items ≡ members streams.now last 0 deliveries.now) }
{
    let mut list = Vec::new(alloc);
    for (index, delivery) in deliveries.iter().enumerate() {
        list.push(Member {
            send: delivery.send,
            group: row_of(last, stream_at(streams, index)),
        })?;
    }
    Ok(list)
}

/// What came of each of so many streams, and behind them of supervision.
fn gather<const C: usize>(
    alloc: Global,
    closed: &Closed<C>,
    sendings: Sendings<'_>,
    last: usize,
) -> Result<Gathered, NoMemory>
    requires few { last + 1 < 2 ^ 64 }
    requires deliveries { sendings.deliveries.now ≡ deliveries closed.now.run }
    requires outcomes { sendings.outcomes.now ≡ outcomes sendings.audience.now sendings.streams.now 0 (deliveries closed.now.run) }
    ensures { IfOk result (AreGathered (record { audience = sendings.entry.audience.now; run = closed.now.run; streams = sendings.entry.streams.now }) last) }
{
    let streams = sendings.streams;
    let deliveries = sendings.deliveries;
    let members = members_of(alloc, streams, deliveries, last)?;
    Ok(Gathered {
        sent: sent_of(alloc, streams, sendings.outcomes, last)?,
        missing: missing_of(alloc, sendings.audience, streams, deliveries, last)?,
        longest: longest_of(alloc, closed, members.as_slice(), last + 1)?,
    })
}

/// The time that a send took, in microseconds.
fn time_of(delay: Option<Delay>) -> Option<u64>
    ensures { result ≡ option_map time_of delay }
{
    match delay {
        Some(delay) => Some(delay.time),
        None => None,
    }
}

/// What was gathered at a row, of so many nodes.
fn noted_at(alloc: Global, all: &Gathered, nodes: usize, row: usize) -> Result<Noted, NoMemory>
    requires sent { row < length all.now.sent.items }
    requires missing { row < length all.now.missing.items }
    requires longest { row < length all.now.longest.items }
    ensures { IfOk result (IsNoted all.now nodes row) }
{
    Ok(Noted {
        sent: all.sent[row],
        missing: nodes_of(alloc, &all.missing[row], nodes)?,
        latency: time_of(all.longest[row]),
    })
}

// ---- rows

/// The numbers of the nodes that send a stream: of these names, or of the Station that is one of them.
fn senders_of(alloc: Global, nodes: &[Node], stream: &Stream) -> Result<Vec<usize>, NoMemory> {
    let mut senders = Vec::new(alloc);
    for (number, node) in nodes.iter().enumerate() {
        let is_one = stream.from.iter().any(|name| {
            node.name.is(name) || node.stations.iter().any(|station| station.is(name))
        });
        if is_one {
            senders.push(number)?;
        }
    }
    Ok(senders)
}

/// A row without words, with what came of a stream.
fn row_with(alloc: Global, noted: Noted) -> StreamRow
    ensures { HasNoted noted result }
{
    StreamRow {
        name: Vec::new(alloc),
        from: Vec::new(alloc),
        to: Vec::new(alloc),
        what: Vec::new(alloc),
        senders: Vec::new(alloc),
        sends: noted.sent.sends,
        complete: noted.sent.complete,
        missing: noted.missing,
        latency: noted.latency,
    }
}

/// The row of a stream, with what came of it.
fn stream_row(
    alloc: Global,
    nodes: &[Node],
    name: Option<&Word>,
    stream: &Stream,
    noted: Noted,
) -> Result<StreamRow, NoMemory>
    ensures { IfOk result (HasNoted noted) }
{
    let mut row = row_with(alloc, noted);
    if let Some(name) = name {
        put_octets(&mut row.name, name.as_bytes())?;
    }
    put_words(&mut row.from, stream.from.as_slice())?;
    put_target(alloc, &mut row.to, stream)?;
    put_stream(&mut row.what, stream)?;
    row.senders = senders_of(alloc, nodes, stream)?;
    Ok(row)
}

/// The nodes that send supervision: DANHs and RedBoxes.
fn supervising(alloc: Global, nodes: &[Node]) -> Result<Vec<usize>, NoMemory> {
    let mut senders = Vec::new(alloc);
    for (number, node) in nodes.iter().enumerate() {
        if matches!(&node.place, Place::Danh { .. } | Place::RedBox { .. }) {
            senders.push(number)?;
        }
    }
    Ok(senders)
}

/// The row of supervision, where there is any.
fn life_row(
    alloc: Global,
    nodes: &[Node],
    life: u64,
    noted: Noted,
) -> Result<Option<StreamRow>, NoMemory>
    ensures row { IfOk result (λ row. IfSome row (HasNoted noted)) }
    ensures many { IfOk result (λ row. length (option_to_list row) ≡ rows_for noted.sent.sends) }
{
    if noted.sent.sends == 0 {
        return Ok(None);
    }
    let mut row = row_with(alloc, noted);
    put(&mut row.name, "life")?;
    put(&mut row.from, "DANHs and RedBoxes")?;
    put(&mut row.to, "all")?;
    put(&mut row.what, "supervision, every ")?;
    put_moment(&mut row.what, life)?;
    row.senders = supervising(alloc, nodes)?;
    Ok(Some(row))
}

/// Puts a row last, if there is one.
fn push_some(rows: &mut Vec<StreamRow>, row: Option<StreamRow>) -> Result<(), NoMemory>
    ensures { OnOk result (rows.new.items ≡ rows.old.items ++ option_to_list row) }
{
    if let Some(row) = row {
        rows.push(row)?;
    }
    Ok(())
}

/// The rows of all streams, and behind them that of supervision, where there is any.
fn rows_of(
    alloc: Global,
    streams: &[Stream],
    life: u64,
    nodes: &[Node],
    names: &[Word],
    all: &Gathered,
) -> Result<Vec<StreamRow>, NoMemory>
    requires sent { length all.now.sent.items ≡ length streams.now + 1 }
    requires missing { length all.now.missing.items ≡ length streams.now + 1 }
    requires longest { length all.now.longest.items ≡ length streams.now + 1 }
    ensures { IfOk result (λ rows. HaveNoted all.now (length nodes.now) (length streams.now) rows.items) }
{
    let mut rows = Vec::new(alloc);
    let last = streams.len();
    let many = nodes.len();
    for number in 0..last {
        let stream = &streams[number];
        let name = names.get(number);
        let noted = noted_at(alloc, all, many, number)?;
        rows.push(stream_row(alloc, nodes, name, stream, noted)?)?;
    }
    let noted = noted_at(alloc, all, many, last)?;
    let life = life_row(alloc, nodes, life, noted)?;
    push_some(&mut rows, life)?;
    Ok(rows)
}

/// What came of each of these streams, and behind all of supervision.
fn rows_by<const C: usize>(
    alloc: Global,
    closed: &Closed<C>,
    streams: &[Stream],
    life: u64,
    names: &[Word],
    sendings: Sendings<'_>,
) -> Result<Vec<StreamRow>, NoMemory>
    requires deliveries { sendings.deliveries.now ≡ deliveries closed.now.run }
    requires outcomes { sendings.outcomes.now ≡ outcomes sendings.audience.now sendings.streams.now 0 (deliveries closed.now.run) }
    ensures { IfOk result (λ rows. AreStreamRows (record { audience = sendings.entry.audience.now; run = closed.now.run; streams = sendings.entry.streams.now })
        (length streams.now) rows.items) }
{
    let audience = sendings.audience;
    let nodes = audience.nodes;
    let all = gather(alloc, closed, sendings, streams.len())?;
    let rows = rows_of(alloc, streams, life, nodes, names, &all)?;
    Ok(rows)
}

/// What came of each stream of a plan, whose nodes are these and whose streams have these names, in the order of the plan; and behind all
/// what came of supervision.
pub(crate) fn stream_rows<const C: usize>(
    alloc: Global,
    closed: &Closed<C>,
    plan: &Plan,
    names: &[Word],
    sendings: Sendings<'_>,
) -> Result<Vec<StreamRow>, NoMemory>
    requires deliveries { sendings.deliveries.now ≡ deliveries closed.now.run }
    requires outcomes { sendings.outcomes.now ≡ outcomes sendings.audience.now sendings.streams.now 0 (deliveries closed.now.run) }
    ensures { IfOk result (λ rows. AreStreamRows (record { audience = sendings.entry.audience.now; run = closed.now.run; streams = sendings.entry.streams.now })
        (length plan.now.streams) rows.items) }
{
    let streams = plan.streams.as_slice();
    let life = plan.outline.life;
    let rows = rows_by(alloc, closed, streams, life, names, sendings)?;
    Ok(rows)
}
