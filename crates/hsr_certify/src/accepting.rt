//! Which steps some play refuses.
ghost use Rattle.std.specs.Prelude.{◌≡◌, ◌+◌, ◌<◌, length, slice_index_or};
ghost use Rattle.std.specs.List.{list_any};
ghost use Rattle.hsr_network_laws.specs.Network.{start_of};
ghost use Rattle.hsr_node.specs.Copies.{address_at};
ghost use Rattle.hsr_node.specs.declared.place.Place.TheVariants.{QuadBox};
ghost use Rattle.hsr_plays.specs.Conditions.{is_sent_from};
ghost use Rattle.hsr_plays.specs.Spans.{is_down};
ghost use Rattle.hsr_routes.specs.Routes.{bare};
ghost use Rattle.hsr_send_spans.specs.Down.{AreCutAt};
ghost use Rattle.hsr_certify.specs.Firsts.{first_step};
ghost use Rattle.hsr_certify.specs.Tests.{channel_to, is_accepted, is_accepted_step, is_from, is_heard, is_heard_by, speaks};

use crate::rising::was_lately;
use hsr_frame::{About, Mac, send_fault};
use hsr_node::Place;
use hsr_plays::SendSpan;
use hsr_scenario::Order;
use hsr_send_spans::Cuts;
use hsr_topology::{End, Topology};
use hsr_world_steps::Step;

/// The address at an index among a node's own.
fn address_at(places: &[Place], node: usize, from: u8) -> Option<Mac>
    ensures { result ≡ address_at (slice_index_or places.now node QuadBox) from }
{
    match places.get(node) {
        Some(Place::Station { macs }) => macs.as_slice().get(usize::from(from)).copied(),
        Some(Place::Danh { mac, .. } | Place::RedBox { mac, .. }) if from == 0 => Some(*mac),
        _ => None,
    }
}

/// Whether a node sends from an address of its own to another, with no tag's type and a payload that fits.
fn is_sent_from(src: Option<Mac>, dst: Mac, kind: u16, len: usize) -> bool
    ensures { result ≡ is_sent_from src dst kind len }
{
    match src {
        // How much the node accepted before isn't looked at: 2^62 steps are more than a scenario has.
        Some(src) => send_fault(src, 0, dst, kind, len).is_none(),
        None => false,
    }
}

/// Whether a link is down at some time of the span of a send. What is cut as the steps go on is kept from one question to the next.
fn is_down(
    topology: &Topology,
    orders: &[Order],
    cuts: &mut Cuts,
    span: &SendSpan,
    link: usize,
) -> bool
    requires link { link < length topology.now.links }
    requires cuts { AreCutAt orders.now cuts.old.time cuts.old.links }
    ensures down { result ≡ is_down orders.now span.now link }
    ensures cuts { AreCutAt orders.now cuts.new.time cuts.new.links }
{
    // What it answers isn't used: its contract says that links are few, so that the set has a number for each.
    let _ = topology.links();
    *cuts = cuts.at(orders, span.index);
    cuts.down_in(orders, span).has(link)
}

/// Whether a send comes from this address.
fn is_from(own: Option<Mac>, mac: Mac) -> bool
    ensures { result ≡ is_from own mac }
{
    match own {
        Some(own) => own == mac,
        None => false,
    }
}

/// The node at the other end of a link.
fn other_node(topology: &Topology, link: usize, is_first: bool) -> usize
    requires { link < length topology.now.links }
    ensures { result ≡ (start_of (bare topology.now.places topology.now.links)
        (channel_to (link, is_first))).node }
{
    let [a, b] = topology.links()[link];
    if is_first { b.node } else { a.node }
}

/// Whether a RedBox heard an address by this send, over its link to a Station, before the step at an index.
fn is_heard_by(
    topology: &Topology,
    orders: &[Order],
    cuts: &mut Cuts,
    index: usize,
    mac: Mac,
    at: (usize, bool),
    span: &SendSpan,
) -> bool
    requires link { at.0 < length topology.now.links }
    requires cuts { AreCutAt orders.now cuts.old.time cuts.old.links }
    ensures heard { result ≡ is_heard_by (bare topology.now.places topology.now.links) orders.now
        index mac (channel_to at) span.now }
    ensures cuts { AreCutAt orders.now cuts.new.time cuts.new.links }
{
    let (link, is_first) = at;
    let asked = span.asked;
    asked.node == other_node(topology, link, is_first)
        && is_from(address_at(topology.places(), asked.node, asked.from), mac)
        && span.end <= index
        // Asked before the cuts, which it would take on to a span that doesn't count.
        && was_lately(orders, index, span)
        && !is_down(topology, orders, cuts, span, link)
}

/// Whether it heard the address by one of these sends.
#[tactic(auto, using(crate::proofs::Newest::none_newer, crate::proofs::Newest::one_newer))]
fn is_heard_over(
    topology: &Topology,
    orders: &[Order],
    cuts: &mut Cuts,
    spans: &[SendSpan],
    index: usize,
    mac: Mac,
    at: (usize, bool),
) -> bool
    requires link { at.0 < length topology.now.links }
    requires cuts { AreCutAt orders.now cuts.old.time cuts.old.links }
    ensures heard { result ≡ list_any (is_heard_by (bare topology.now.places topology.now.links)
        orders.now index mac (channel_to at)) spans.now }
    ensures cuts { AreCutAt orders.now cuts.new.time cuts.new.links }
{
    // The newest comes first: a RedBox that knows a Station has mostly heard it a few steps before.
    let mut left = spans;
    while let Some((newest, older)) = left.split_last() {
        if is_heard_by(topology, orders, cuts, index, mac, at, newest) {
            return true;
        }
        left = older;
    }
    false
}

/// Whether a RedBox surely knows an address at its interlink before the step at an index.
fn is_heard(
    topology: &Topology,
    orders: &[Order],
    cuts: &mut Cuts,
    spans: &[SendSpan],
    index: usize,
    node: usize,
    mac: Mac,
) -> bool
    requires { AreCutAt orders.now cuts.old.time cuts.old.links }
    ensures heard { result ≡ is_heard (bare topology.now.places topology.now.links) orders.now
        spans.now index node mac }
    ensures cuts { AreCutAt orders.now cuts.new.time cuts.new.links }
{
    match topology.link_at(End { node, port: 2 }) {
        Some(at) => is_heard_over(topology, orders, cuts, spans, index, mac, at),
        None => false,
    }
}

/// Whether a node may speak for itself, or for an address, at the step at an index.
fn speaks(
    topology: &Topology,
    orders: &[Order],
    cuts: &mut Cuts,
    spans: &[SendSpan],
    index: usize,
    node: usize,
    about: About,
) -> bool
    requires { AreCutAt orders.now cuts.old.time cuts.old.links }
    ensures speaks { result ≡ speaks (bare topology.now.places topology.now.links) orders.now
        spans.now index node (slice_index_or topology.now.places node QuadBox) about }
    ensures cuts { AreCutAt orders.now cuts.new.time cuts.new.links }
{
    match (topology.places().get(node), about) {
        (Some(Place::Danh { .. } | Place::RedBox { .. }), About::Own) => true,
        (Some(Place::RedBox { .. }), About::Proxied(mac)) => {
            is_heard(topology, orders, cuts, spans, index, node, mac)
        }
        _ => false,
    }
}

/// Whether a step of the world at an index is accepted in each play.
fn is_accepted_step(
    topology: &Topology,
    orders: &[Order],
    cuts: &mut Cuts,
    spans: &[SendSpan],
    index: usize,
    step: &Step,
) -> bool
    requires { AreCutAt orders.now cuts.old.time cuts.old.links }
    ensures accepted { result ≡ is_accepted_step (bare topology.now.places topology.now.links)
        orders.now spans.now index step.now }
    ensures cuts { AreCutAt orders.now cuts.new.time cuts.new.links }
{
    let nodes = topology.places().len();
    let links = topology.links().len();
    match step {
        Step::Send {
            node,
            from,
            dst,
            kind,
            payload,
            ..
        } => {
            *node < nodes
                && is_sent_from(
                    address_at(topology.places(), *node, *from),
                    *dst,
                    *kind,
                    payload.as_slice().len(),
                )
        }
        Step::Supervise { node, about } => {
            *node < nodes && speaks(topology, orders, cuts, spans, index, *node, *about)
        }
        Step::Age { node } => *node < nodes,
        Step::Cut { link } | Step::Mend { link } => *link < links,
        _ => true,
    }
}

/// Whether a step at an index is accepted in each play.
fn is_accepted(
    topology: &Topology,
    orders: &[Order],
    cuts: &mut Cuts,
    spans: &[SendSpan],
    index: usize,
    order: &Order,
) -> bool
    requires { AreCutAt orders.now cuts.old.time cuts.old.links }
    ensures accepted { result ≡ is_accepted (bare topology.now.places topology.now.links)
        orders.now spans.now index order.now }
    ensures cuts { AreCutAt orders.now cuts.new.time cuts.new.links }
{
    match order {
        Order::Step(step) => is_accepted_step(topology, orders, cuts, spans, index, step),
        Order::Drain => true,
    }
}

/// The first step that some play refuses.
pub(crate) fn first_refused(
    topology: &Topology,
    orders: &[Order],
    spans: &[SendSpan],
) -> Option<usize>
    ensures { result ≡ first_step (is_accepted (bare topology.now.places topology.now.links)
        orders.now spans.now) 0 orders.now }
{
    let mut cuts = Cuts::new();
    for (i, order) in orders.iter().enumerate() {
        if !is_accepted(topology, orders, &mut cuts, spans, i, order) {
            return Some(i);
        }
    }
    None
}
