//! The lowest send to a Station that a RedBox didn't know each time that it handled it.
ghost use Rattle.std.specs.Prelude.{◌≡◌, ◌↔◌, ◌<◌, ◌≤◌, length, IsTrue};
ghost use Rattle.std.specs.List.{list_any};
ghost use Rattle.hsr_run_laws.specs.Run.{past_of};
ghost use Rattle.hsr_audit.specs.Missed.{IsFirstMissed, IsLowest, IsUnknown, IsUnknownOf, MissedBelow, MissedOn, is_box_of, is_due_below, is_lower, leads_below, lower_of, sending_at};
ghost use Rattle.hsr_tables.specs.Proxies.{is_known};

use crate::covered::{is_redbox, is_to_station};
use hsr_deliveries::is_due;
use hsr_finished_run::Closed;
use hsr_node::{Place, Probe, SentView, sent_view};
use hsr_table_demand::hear;
use hsr_tables::ProxyTable;
use hsr_tag::FrameView;
use hsr_topology::{End, Topology};

/// Whether a send stands before another, by node and then by place.
fn is_lower(send: Probe, other: Probe) -> bool
    ensures { result ≡ is_lower send other }
{
    send.node < other.node || send.node == other.node && send.place < other.place
}

/// The lower of two sends.
fn lower_of(send: Option<Probe>, other: Option<Probe>) -> Option<Probe>
    ensures { result ≡ lower_of send other }
{
    match (send, other) {
        (None, other) => other,
        (Some(send), None) => Some(send),
        (Some(send), Some(other)) => {
            if is_lower(other, send) {
                Some(other)
            } else {
                Some(send)
            }
        }
    }
}

/// Whether an end is that of a Station which a frame to one address is due at.
fn is_due_below(places: &[Place], sender: usize, frame: &FrameView<'_>, end: End) -> bool
    ensures { result ≡ is_due_below places.now sender frame.now end.node }
{
    match places.get(end.node) {
        Some(place) => {
            is_to_station(frame, place) && is_due(place, sender, end.node, frame.dst, frame.kind)
        }
        None => false,
    }
}

/// Whether a link joins a node with such a Station.
fn leads_below(
    places: &[Place],
    sender: usize,
    frame: &FrameView<'_>,
    node: usize,
    link: [End; 2],
) -> bool
    ensures { result ≡ leads_below places.now sender frame.now node link }
{
    let [a, b] = link;
    a.node == node && is_due_below(places, sender, frame, b)
        || b.node == node && is_due_below(places, sender, frame, a)
}

/// Whether a link joins a node with such a Station, of any links.
fn any_leads_below(topology: &Topology, sender: usize, frame: &FrameView<'_>, node: usize) -> bool
    ensures { result ≡ list_any (leads_below topology.now.places sender frame.now node)
        topology.now.links }
{
    let (places, links) = (topology.places(), topology.links());
    links
        .iter()
        .any(|link| leads_below(places, sender, frame, node, *link))
}

/// Whether a node is a RedBox that is joined with a Station which a frame to one address is due at.
fn is_box_of(topology: &Topology, sender: usize, frame: &FrameView<'_>, node: usize) -> bool
    requires { node < length topology.now.places }
    ensures { result ≡ is_box_of topology.now.places topology.now.links sender frame.now node }
{
    is_redbox(&topology.places()[node]) && any_leads_below(topology, sender, frame, node)
}

/// What an entry sends, if there is such an entry, and it is a send.
fn sending_of<const C: usize>(closed: &Closed<C>, send: Probe) -> Option<SentView<'_>>
    ensures { result ≡ sending_at closed.now.run send }
{
    let place = closed.topology().places().get(send.node)?;
    let x = closed.entries(send.node).get(send.place)?;
    sent_view(place, &x.event, &x.outcome)
}

/// Whether a RedBox that knows these stations at a moment doesn't know the destination of a send to a Station behind it.
fn is_unknown<const C: usize>(
    closed: &Closed<C>,
    node: usize,
    stations: &ProxyTable,
    at: u64,
    send: Probe,
) -> bool
    requires node { node < length closed.now.run.places }
    requires at { stations.now.last ≤ at }
    ensures { IsTrue result ↔ IsUnknown closed.now.run node (is_known at stations.now.heard) send }
{
    let Some(sending) = sending_of(closed, send) else {
        return false;
    };
    let frame = &sending.frame;
    !stations.knows(frame.dst, at) && is_box_of(closed.topology(), send.node, frame, node)
}

/// A send that was handled, if a RedBox that knows these stations at a moment doesn't know its destination.
#[tactic(auto, using(crate::proofs::Missing::none_handled, crate::proofs::Missing::not_unknown, crate::proofs::Missing::one_unknown))]
fn unknown_of<const C: usize>(
    closed: &Closed<C>,
    node: usize,
    stations: &ProxyTable,
    at: u64,
    send: Option<Probe>,
) -> Option<Probe>
    requires node { node < length closed.now.run.places }
    requires at { stations.now.last ≤ at }
    ensures { IsLowest (IsUnknownOf closed.now.run node
        (is_known at stations.now.heard) send) result }
{
    let send = send?;
    if is_unknown(closed, node, stations, at, send) {
        Some(send)
    } else {
        None
    }
}

/// The lowest send to a Station behind a RedBox that this one didn't know each time.
fn missed_by<const C: usize>(closed: &Closed<C>, node: usize) -> Option<Probe>
    requires { node < length closed.now.run.places }
    ensures { IsLowest (MissedOn closed.now.run node (past_of closed.now.run node)) result }
{
    let box_place = &closed.topology().places()[node];
    let mut stations = ProxyTable::new();
    let mut moment = 0;
    let mut lowest = None;
    for (place, x) in closed.entries(node).iter().enumerate() {
        moment = moment.max(x.at);
        // Heard first: a RedBox knows a frame's source before it decides on the frame.
        hear(&mut stations, box_place, moment, &x.event);
        let send = x.event.probe(Probe { node, place });
        lowest = lower_of(lowest, unknown_of(closed, node, &stations, moment, send));
    }
    lowest
}

/// The lowest send, by node and place, to a Station that its RedBox didn't know each time that it handled the send.
pub(crate) fn first_missed<const C: usize>(closed: &Closed<C>) -> Option<Probe>
    ensures { IsFirstMissed closed.now.run result }
{
    let mut lowest = None;
    for (node, place) in closed.topology().places().iter().enumerate() {
        if is_redbox(place) {
            lowest = lower_of(lowest, missed_by(closed, node));
        }
    }
    lowest
}
