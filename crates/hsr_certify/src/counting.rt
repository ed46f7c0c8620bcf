//! How many spans meet, are open, and are numbered by one node.
ghost use Rattle.std.specs.Prelude.{◌≡◌, ◌+◌, ◌<◌, ◌≤◌, ◌^◌, ℕ, Some, if◌then◌else◌, count_by, length, slice_get, slice_index, slice_index_or};
ghost use Rattle.hsr_node.specs.declared.place.Place.TheVariants.{QuadBox};
ghost use Rattle.hsr_network_laws.specs.Network.{is_station};
ghost use Rattle.hsr_run_laws.specs.Premises.{is_redbox};
ghost use Rattle.hsr_routes.specs.Routes.{bare};
ghost use Rattle.hsr_run_laws.specs.Run.{joined_by, peer_in};
ghost use Rattle.hsr_plays.specs.Conditions.{box_at, is_numbered_by_then, is_same_counter, numbers_of};
ghost use Rattle.hsr_plays.specs.Spans.{is_open_at, meets};
ghost use Rattle.hsr_plays.specs.declared.span.SendSpan.{SendSpan};
ghost use Rattle.hsr_certify.specs.Firsts.{first_send};
ghost use Rattle.hsr_certify.specs.Standing.{AreWithin, Rise, most_by};
ghost use Rattle.hsr_certify.specs.Tests.{has_room, is_uncrowded, is_unwrapped};

use hsr_node::Place;
use hsr_plays::SendSpan;
use hsr_topology::{End, Topology, is_same_end};

/// How many numbers there are: after as many a node begins anew.
const NUMBER_RANGE: usize = 65536;

/// How many nodes a topology has, at most.
const NODES: usize = 64;

/// Whether each of two spans begins before the other ends.
fn do_meet(a: &SendSpan, b: &SendSpan) -> bool
    ensures { result ≡ meets a.now b.now }
{
    a.index < b.end && b.index < a.end
}

/// How many spans meet one.
fn count_meeting(span: &SendSpan, spans: &[SendSpan]) -> usize
    ensures value { result ≡ count_by (meets span.now) spans.now }
    ensures most { result ≤ length spans.now }
{
    let mut count = 0;
    for other in spans {
        if do_meet(span, other) {
            count += 1;
        }
    }
    count
}

/// The first of these spans, from a place on, that ends behind a step: its place, or how many there are, where none does.
// That it is the first is no clause: from an earlier place on more spans are counted, and none is left out.
fn first_open(spans: &[SendSpan], from: usize, index: usize) -> usize
    ensures { (j : ℕ) (a : SendSpan) → from ≤ j → j < result → slice_get spans.now j ≡ Some a → a.end ≤ index }
{
    for at in from..spans.len() {
        if spans[at].end > index {
            return at;
        }
    }
    spans.len()
}

/// The first of these spans, from a place on, that begins with a step or behind it: its place, or how many there are, where none does.
// As above: up to a later place none is left out.
fn first_from(spans: &[SendSpan], from: usize, step: usize) -> usize
    ensures { (a : SendSpan) → slice_get spans.now result ≡ Some a → step ≤ a.index }
{
    for at in from..spans.len() {
        if spans[at].index >= step {
            return at;
        }
    }
    spans.len()
}

/// Places of spans among all: from the low one on, before the high one.
#[derive(Clone, Copy)]
struct Window {
    low: usize,
    high: usize,
}

/// Whether a span meets no more spans than a table has entries, where all that it meets stand in a window.
fn is_uncrowded(table: usize, spans: &[SendSpan], span: &SendSpan, window: Window) -> bool
    requires { AreWithin (meets span.now) spans.now window.low window.high }
    ensures { result ≡ is_uncrowded table spans.now span.now }
{
    // The window has room for all that are met. They are counted only where that is not enough: else each span would ask all others.
    window.high.saturating_sub(window.low) <= table || count_meeting(span, spans) <= table
}

/// The first send whose span meets more spans than a table has entries.
pub(crate) fn first_crowded(table: usize, spans: &[SendSpan]) -> Option<usize>
    requires { Rise spans.now }
    ensures { result ≡ first_send (is_uncrowded table spans.now) spans.now }
{
    let mut low = 0;
    let mut high = 0;
    // The index is used by the loop's invariant alone.
    for (i, span) in spans.iter().enumerate() {
        // Sends come in the order of their steps, so the window only goes on.
        low = first_open(spans, low, span.index);
        high = first_from(spans, high, span.end);
        if !is_uncrowded(table, spans, span, Window { low, high }) {
            return Some(span.index);
        }
    }
    None
}

/// Whether a send is open behind the step at an index.
fn is_open_behind(index: usize, span: &SendSpan) -> bool
    ensures { result ≡ is_open_at (index + 1) span.now }
{
    span.index <= index && index < span.end
}

/// How many sends are open behind the step at an index.
fn count_open(index: usize, spans: &[SendSpan]) -> usize
    ensures value { result ≡ count_by (is_open_at (index + 1)) spans.now }
    ensures most { result ≤ length spans.now }
{
    let mut count = 0;
    for span in spans {
        if is_open_behind(index, span) {
            count += 1;
        }
    }
    count
}

/// Whether behind a send no more sends are open than a direction of a link has room, where all that are stand in a window.
fn has_room(room: usize, spans: &[SendSpan], span: &SendSpan, window: Window) -> bool
    requires { AreWithin (is_open_at (span.now.index + 1)) spans.now window.low window.high }
    ensures { result ≡ has_room room spans.now span.now }
{
    // As in `is_uncrowded`.
    window.high.saturating_sub(window.low) <= room || count_open(span.index, spans) <= room
}

/// The first send behind whose step more sends are open than a direction of a link has room.
pub(crate) fn first_full(room: usize, spans: &[SendSpan]) -> Option<usize>
    requires { Rise spans.now }
    ensures { result ≡ first_send (has_room room spans.now) spans.now }
{
    let mut low = 0;
    for (i, span) in spans.iter().enumerate() {
        low = first_open(spans, low, span.index);
        // Those behind it aren't sent yet.
        let window = Window { low, high: i + 1 };
        if !has_room(room, spans, span, window) {
            return Some(span.index);
        }
    }
    None
}

/// Whether a node is a Station.
fn is_station_at(places: &[Place], node: usize) -> bool
    ensures { result ≡ is_station (slice_index_or places.now node QuadBox) }
{
    matches!(places.get(node), Some(Place::Station { .. }))
}

/// Whether a node is a RedBox.
fn is_redbox_at(places: &[Place], node: usize) -> bool
    ensures { result ≡ is_redbox (slice_index_or places.now node QuadBox) }
{
    matches!(places.get(node), Some(Place::RedBox { .. }))
}

/// The end that a link joins with another.
fn joined_by(end: End, link: [End; 2]) -> Option<End>
    ensures { result ≡ joined_by end link }
{
    let [a, b] = link;
    if is_same_end(a, end) {
        Some(b)
    } else if is_same_end(b, end) {
        Some(a)
    } else {
        None
    }
}

/// The end that the first of these links joins with another that does.
fn peer_in(end: End, links: &[[End; 2]]) -> Option<End>
    ensures { result ≡ peer_in end links.now }
{
    // The index is used by the loop's invariant alone.
    for (i, link) in links.iter().enumerate() {
        if let Some(peer) = joined_by(end, *link) {
            return Some(peer);
        }
    }
    None
}

/// The node of an end, if it is a RedBox.
fn box_at(topology: &Topology, end: Option<End>) -> Option<usize>
    ensures { result ≡ box_at (bare topology.now.places topology.now.links) end }
{
    match end {
        Some(end) if is_redbox_at(topology.places(), end.node) => Some(end.node),
        _ => None,
    }
}

/// The node that numbers what a node sends: of a Station the RedBox that it is joined with, if there is one.
fn numbers_of(topology: &Topology, node: usize) -> Option<usize>
    ensures { result ≡ numbers_of (bare topology.now.places topology.now.links) node }
{
    if is_station_at(topology.places(), node) {
        box_at(topology, peer_in(End { node, port: 0 }, topology.links()))
    } else {
        Some(node)
    }
}

/// Whether both are one node.
fn is_same_counter(a: Option<usize>, b: Option<usize>) -> bool
    ensures { result ≡ is_same_counter a b }
{
    match (a, b) {
        (Some(a), Some(b)) => a == b,
        _ => false,
    }
}

/// Whether a send is numbered by the same node as another, and no later.
fn is_numbered_by_then(topology: &Topology, span: &SendSpan, other: &SendSpan) -> bool
    ensures { result ≡ is_numbered_by_then (bare topology.now.places topology.now.links) span.now
        other.now }
{
    is_same_counter(
        numbers_of(topology, span.asked.node),
        numbers_of(topology, other.asked.node),
    ) && other.index <= span.index
}

/// How many sends the node of a send numbers up to it.
fn count_numbered(topology: &Topology, span: &SendSpan, spans: &[SendSpan]) -> usize
    ensures value { result ≡ count_by (is_numbered_by_then
        (bare topology.now.places topology.now.links) span.now) spans.now }
    ensures most { result ≤ length spans.now }
{
    let mut count = 0;
    for other in spans {
        if is_numbered_by_then(topology, span, other) {
            count += 1;
        }
    }
    count
}

/// Counts a send at the node that numbers it, if one does, and says how many that numbered, at most.
fn count_at(counts: &mut [usize; NODES], counter: Option<usize>) -> usize
    requires { (c : ℕ) → c < 64 → slice_index counts.old c < 2 ^ 63 }
    ensures counts { (c : ℕ) → c < 64 → slice_index counts.new c ≡ slice_index counts.old c + (if is_same_counter (Some c) counter then 1 else 0) }
    ensures most { result ≡ most_by counter counts.new }
{
    match counter {
        Some(node) => {
            if node < NODES {
                counts[node] += 1;
                counts[node]
            } else {
                // No topology has such a node; of one nothing is known.
                usize::MAX
            }
        }
        None => 0,
    }
}

/// Whether the node of a send numbers no more than there are numbers up to it, where it numbers so many at most.
fn is_unwrapped(topology: &Topology, spans: &[SendSpan], span: &SendSpan, most: usize) -> bool
    requires { count_by (is_numbered_by_then (bare topology.now.places topology.now.links) span.now) spans.now ≤ most }
    ensures { result ≡ is_unwrapped (bare topology.now.places topology.now.links) spans.now span.now }
{
    // As in `is_uncrowded`.
    most <= NUMBER_RANGE || count_numbered(topology, span, spans) <= NUMBER_RANGE
}

/// The first send by which a node numbers more than there are numbers.
pub(crate) fn first_wrapped(topology: &Topology, spans: &[SendSpan]) -> Option<usize>
    requires { Rise spans.now }
    ensures { result ≡ first_send (is_unwrapped (bare topology.now.places topology.now.links)
        spans.now) spans.now }
{
    // No node numbers more where there are no more sends.
    if spans.len() <= NUMBER_RANGE {
        return None;
    }
    let mut counts = [0usize; NODES];
    // The index is used by the loop's invariant alone.
    for (i, span) in spans.iter().enumerate() {
        let counter = numbers_of(topology, span.asked.node);
        let most = count_at(&mut counts, counter);
        if !is_unwrapped(topology, spans, span, most) {
            return Some(span.index);
        }
    }
    None
}
