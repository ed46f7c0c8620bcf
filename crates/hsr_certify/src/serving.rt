//! Which nodes a send comes to, whatever is down in its span.
ghost use Rattle.std.specs.Prelude.{◌≡◌, ◌+◌, ◌*◌, ◌<◌, ◌≤◌, ◌==◌, ◌||◌, ℕ, if◌then◌else◌, length, IfOk};
ghost use Rattle.hsr_bitset.specs.Numbers.{has};
ghost use Rattle.hsr_routes.specs.Routes.{bare};
ghost use Rattle.hsr_send_spans.specs.Down.{AreCutAt, AreDownIn};
ghost use Rattle.hsr_certify.specs.Served.{AreAvoidedBelow, AreSentIn, IsFirstUnled, IsUnled, first_missed_from, is_missed_at};

use hsr_bitset::Numbers;
use hsr_deliveries::is_due;
use hsr_frame::NoMemory;
use hsr_node::Place;
use hsr_plays::SendSpan;
use hsr_routes::{Heading, Routes};
use hsr_scenario::Order;
use hsr_send_spans::Cuts;
use hsr_topology::Topology;
use std::alloc::Global;

/// Puts both channels of a link into a set, where it is down, and else takes them out.
fn put_link(set: &mut Numbers, link: usize, is_down: bool)
    requires { link < 128 }
    ensures { (n : ℕ) → n < 512 → has set.new n ≡ (if (n == 2 * link) || (n == 2 * link + 1) then is_down
        else has set.old n) }
{
    set.put(2 * link, is_down);
    set.put(2 * link + 1, is_down);
}

/// The channels of links that are down at some time of the span of a send, where these links are.
fn avoided(orders: &[Order], span: &SendSpan, down: &Numbers, links: usize) -> Numbers
    requires few { links ≤ 128 }
    requires down { AreDownIn orders.now span.now down.now }
    ensures { AreAvoidedBelow orders.now span.now links result }
{
    let mut set = Numbers::new();
    for link in 0..links {
        put_link(&mut set, link, down.has(link));
    }
    set
}

/// A send that doesn't come to a node that it is due at: the index of its step, and the lowest such node.
#[derive(Clone, Copy, PartialEq, Eq)]
pub(crate) struct CutOff {
    pub(crate) step: usize,
    pub(crate) node: usize,
}

/// Whether a send is due at a node that isn't among these.
fn is_missed(span: &SendSpan, nodes: &Numbers, node: usize, place: &Place) -> bool
    requires { node < 512 }
    ensures { result ≡ is_missed_at span.now nodes.now node place.now }
{
    let asked = span.asked;
    is_due(place, asked.node, node, asked.dst, asked.kind) && !nodes.has(node)
}

/// The lowest of the nodes that a send is due at which isn't among those that routes lead to.
fn first_missed(places: &[Place], span: &SendSpan, nodes: &Numbers) -> Option<usize>
    requires { length places.now ≤ 64 }
    ensures { result ≡ first_missed_from span.now nodes.now 0 places.now }
{
    for (node, place) in places.iter().enumerate() {
        if is_missed(span, nodes, node, place) {
            return Some(node);
        }
    }
    None
}

/// The lowest node that a send is due at and that no routes lead to over links that are up in all its span.
fn first_unled(
    topology: &Topology,
    routes: &Routes<'_>,
    orders: &[Order],
    cuts: &Cuts,
    span: &SendSpan,
) -> Option<usize>
    requires routes { routes.now ≡ bare topology.now.places topology.now.links }
    requires sender { span.now.asked.node < length topology.now.places }
    requires cuts { AreCutAt orders.now span.now.index cuts.now.links }
    ensures { IsUnled (bare topology.now.places topology.now.links) orders.now span.now result }
{
    let down = cuts.down_in(orders, span);
    let avoid = avoided(orders, span, &down, topology.links().len());
    let heading = Heading {
        sender: span.asked.node,
        dst: span.asked.dst,
        kind: span.asked.kind,
    };
    let nodes = routes.reached(&heading, &avoid);
    first_missed(topology.places(), span, &nodes)
}

/// The first send that doesn't come to each node that it is due at, and the lowest such node.
pub(crate) fn first_cut_off(
    alloc: Global,
    topology: &Topology,
    orders: &[Order],
    spans: &[SendSpan],
) -> Result<Option<CutOff>, NoMemory>
    requires { AreSentIn topology.now.places spans.now }
    ensures { IfOk result (IsFirstUnled (bare topology.now.places topology.now.links) orders.now
        spans.now) }
{
    let routes = Routes::new(alloc, topology)?;
    let mut cuts = Cuts::new();
    for (i, span) in spans.iter().enumerate() {
        cuts = cuts.at(orders, span.index);
        if let Some(node) = first_unled(topology, &routes, orders, &cuts, span) {
            return Ok(Some(CutOff {
                step: span.index,
                node,
            }));
        }
    }
    Ok(None)
}
