//! Names of the nodes and entries of a run.
ghost use Rattle.std.specs.Prelude.{◌≡◌, ◌<◌, ◌++◌, ◌∷◌, [], count_by, map, length, IfOk, OnOk};
ghost use Rattle.hsr_timeline.specs.Fronts.{lists_of};
ghost use Rattle.hsr_run_names.specs.Naming.{AreNamesOf, behind_first, entries_told, first_of, has_sends, has_sends_at, is_own, is_own_entry, nodes_told, stream_of, streams_at, streams_behind, told_by};

use hsr_finished_run::Closed;
use hsr_frame::NoMemory;
use hsr_naming::{EntryName, Names};
use hsr_node::{Entry, Event};
use std::alloc::Global;

/// Whether a node sent something of its own.
fn is_own(event: &Event) -> bool
    ensures { result ≡ is_own event.now }
{
    matches!(event, Event::Send { .. } | Event::Supervise(_))
}

/// The first of some streams, if there is one, and those behind it.
fn first_of(streams: &[Vec<u8>]) -> (&[u8], &[Vec<u8>])
    ensures first { result.0.now ≡ first_of (lists_of streams.now) }
    ensures behind { lists_of result.1.now ≡ behind_first (lists_of streams.now) }
{
    match streams.split_first() {
        Some((stream, rest)) => (stream.as_slice(), rest),
        None => (b"", streams),
    }
}

/// The stream of an entry, where the node's next sends are of these, and those of the sends behind it.
fn taken<'a>(entry: &Entry, streams: &'a [Vec<u8>]) -> (&'a [u8], &'a [Vec<u8>])
    ensures stream { result.0.now ≡ stream_of entry.now (lists_of streams.now) }
    ensures behind { lists_of result.1.now ≡ streams_behind entry.now (lists_of streams.now) }
{
    if is_own(&entry.event) {
        first_of(streams)
    } else {
        (b"", streams)
    }
}

/// Puts the name of an entry last.
fn put_name(
    alloc: Global,
    names: &mut Vec<EntryName>,
    at: u64,
    stream: &[u8],
) -> Result<(), NoMemory>
    ensures { OnOk result (map told_by names.new.items ≡ map told_by names.old.items
        ++ record { at = at; stream = stream.now } ∷ []) }
{
    let stream = Vec::from_slice(alloc, stream)?;
    names.push(EntryName { at, stream })?;
    Ok(())
}

/// The names of a record's entries, whose sends are of these streams.
fn entry_names(
    alloc: Global,
    list: &[Entry],
    streams: &[Vec<u8>],
) -> Result<Vec<EntryName>, NoMemory>
    ensures { IfOk result (λ names. map told_by names.items
        ≡ entries_told list.now (lists_of streams.now)) }
{
    let mut names = Vec::new(alloc);
    // What is left is a variable, since the loop's invariant speaks of it.
    let mut entries = list;
    let mut next = streams;
    while let Some((entry, rest)) = entries.split_first() {
        let (stream, behind) = taken(entry, next);
        put_name(alloc, &mut names, entry.at, stream)?;
        entries = rest;
        next = behind;
    }
    Ok(names)
}

/// The streams of a node's sends; none where it has none.
fn streams_at(streams: &[Vec<Vec<u8>>], node: usize) -> &[Vec<u8>]
    ensures { lists_of result.now ≡ streams_at (map (λ list. lists_of list.items) streams.now) node }
{
    match streams.get(node) {
        Some(list) => list.as_slice(),
        None => &[],
    }
}

/// The names of the entries of each node.
fn entries<const C: usize>(
    alloc: Global,
    closed: &Closed<C>,
    streams: &[Vec<Vec<u8>>],
) -> Result<Vec<Vec<EntryName>>, NoMemory>
    ensures { IfOk result (λ all. map (λ entries. map told_by entries.items) all.items
        ≡ nodes_told closed.now.run (map (λ list. lists_of list.items) streams.now)
        (length closed.now.run.places)) }
{
    let mut all = Vec::new(alloc);
    for node in 0..closed.topology().places().len() {
        let names = entry_names(alloc, closed.entries(node), streams_at(streams, node))?;
        all.push(names)?;
    }
    Ok(all)
}

/// How many sends a record has.
fn send_count(list: &[Entry]) -> usize
    ensures { result ≡ count_by is_own_entry list.now }
{
    list.iter().filter(|entry| is_own(&entry.event)).count()
}

/// Whether a node has as many sends as there are streams for it.
fn has_sends_at<const C: usize>(closed: &Closed<C>, streams: &[Vec<Vec<u8>>], node: usize) -> bool
    requires { node < length closed.now.run.places }
    ensures { result ≡ has_sends_at closed.now.run
        (map (λ list. lists_of list.items) streams.now) node }
{
    send_count(closed.entries(node)) == streams_at(streams, node).len()
}

/// Whether each node of a finished run has as many sends and supervision frames as there are streams for it.
pub fn has_sends<const C: usize>(closed: &Closed<C>, streams: &[Vec<Vec<u8>>]) -> bool
    ensures { result ≡ has_sends closed.now.run (map (λ list. lists_of list.items) streams.now)
        (length closed.now.run.places) }
{
    let mut has_all = true;
    for node in 0..closed.topology().places().len() {
        has_all = has_all && has_sends_at(closed, streams, node);
    }
    has_all
}

/// The names of a finished run: these of its nodes; and of each entry its moment, in microseconds, and if it is a send the stream that
/// it is of. Of each node `streams` has those of its sends and supervision frames, in the order of its record; an empty one is none, and so
/// is one that is left out. `NoMemory` if allocation fails.
pub fn names_of<const C: usize>(
    alloc: Global,
    closed: &Closed<C>,
    nodes: Vec<Vec<u8>>,
    streams: &[Vec<Vec<u8>>],
) -> Result<Names, NoMemory>
    ensures { IfOk result (AreNamesOf closed.now.run (lists_of nodes.items)
        (map (λ list. lists_of list.items) streams.now)) }
{
    let entries = entries(alloc, closed, streams)?;
    Ok(Names { nodes, entries })
}
