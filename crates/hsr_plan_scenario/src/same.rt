//! Whether a scenario is what a plan means.
ghost use Rattle.std.specs.Prelude.{◌≡◌, ◌↔◌, IfOk, IsTrue, map};
ghost use Rattle.hsr_scenario.specs.Meaning.{scenario_view};
ghost use Rattle.hsr_scenario.specs.Names.{names_view};
ghost use Rattle.hsr_plan_scenario.specs.Says.{named_with, names_meant_by, scenario_meant, streams_meant};

use crate::sends::sent_by_all;
use hsr_frame::NoMemory;
use hsr_plan_network::Node;
use hsr_plan_schedule::Meaning;
use hsr_scenario::{Names, Order, Scenario, streams_of};
use hsr_topology::is_same_topology;
use std::alloc::Global;

/// Whether two orders are equal.
fn is_same_order(a: &Order, b: &Order) -> bool
    ensures { IsTrue result ↔ (a.now ≡ b.now) }
{
    a == b
}

/// Whether orders are the same, one by one.
fn are_same_orders(a: &[Order], b: &[Order]) -> bool
    ensures { IsTrue result ↔ (a.now ≡ b.now) }
{
    // A loop over two lists, whose rest says what is still to be compared.
    let mut left = b;
    for order in a.iter() {
        let Some((other, more)) = left.split_first() else {
            return false;
        };
        if !is_same_order(order, other) {
            return false;
        }
        left = more;
    }
    left.is_empty()
}

/// Whether a scenario is what a plan means.
pub(crate) fn is_meant(scenario: &Scenario, meaning: &Meaning) -> bool
    ensures { IsTrue result ↔ (scenario_view scenario.now ≡ scenario_meant meaning.now) }
{
    scenario.capacity == meaning.capacity
        && is_same_topology(&scenario.topology, &meaning.topology)
        && are_same_orders(scenario.steps.as_slice(), meaning.orders.as_slice())
}

/// Whether names are those of nodes, one by one.
#[tactic(auto, using(crate::proofs::Names::names_step))]
fn are_same_names(names: &[Vec<u8>], nodes: &[Node]) -> bool
    ensures { IsTrue result ↔ (map (λ name. name.items) names.now
        ≡ map (λ node. node.name) nodes.now) }
{
    let mut left = nodes;
    for name in names.iter() {
        let Some((node, more)) = left.split_first() else {
            return false;
        };
        if name.as_slice() != node.name.as_bytes() {
            return false;
        }
        left = more;
    }
    left.is_empty()
}

/// Whether lists of names are the same, one by one.
#[tactic(auto, using(crate::proofs::Names::same_on, crate::proofs::Names::same_never))]
fn are_same_lists(a: &[Vec<u8>], b: &[Vec<u8>]) -> bool
    ensures { IsTrue result ↔ (map (λ name. name.items) a.now ≡ map (λ name. name.items) b.now) }
{
    let mut left = a;
    let mut others = b;
    while let Some((name, more)) = left.split_first() {
        let Some((other, rest)) = others.split_first() else {
            return false;
        };
        if name.as_slice() != other.as_slice() {
            return false;
        }
        left = more;
        others = rest;
    }
    others.is_empty()
}

/// Whether the streams of nodes are the same, node by node.
#[tactic(auto, using(crate::proofs::Names::same_on, crate::proofs::Names::same_never))]
fn are_same_streams(a: &[Vec<Vec<u8>>], b: &[Vec<Vec<u8>>]) -> bool
    ensures { IsTrue result ↔ (map (λ list. map (λ name. name.items) list.items) a.now
        ≡ map (λ list. map (λ name. name.items) list.items) b.now) }
{
    let mut left = a;
    let mut others = b;
    while let Some((list, more)) = left.split_first() {
        let Some((other, rest)) = others.split_first() else {
            return false;
        };
        if !are_same_lists(list.as_slice(), other.as_slice()) {
            return false;
        }
        left = more;
        others = rest;
    }
    others.is_empty()
}

/// From which streams the sends of nodes are, as a plan means it: of each node the stream of each of its sends and supervision frames, in
/// their order; an empty name, where it's from none. `NoMemory` if allocation fails.
pub fn streams_meant(alloc: Global, meaning: &Meaning) -> Result<Vec<Vec<Vec<u8>>>, NoMemory>
    ensures { IfOk result (λ v. map (λ list. map (λ name. name.items) list.items) v.items
        ≡ streams_meant meaning.now) }
{
    let sent = sent_by_all(
        alloc,
        meaning.streams.as_slice(),
        meaning.sends.as_slice(),
        meaning.orders.as_slice(),
    )?;
    streams_of(alloc, meaning.nodes.len(), sent.as_slice())
}

/// Whether the nodes have the names that a plan means, and their sends are from these streams.
#[tactic(auto, using(crate::proofs::Names::named_same))]
fn are_named(names: &Names, meaning: &Meaning, streams: &[Vec<Vec<u8>>]) -> bool
    ensures { IsTrue result ↔ (names_view names.now ≡ named_with meaning.now
        (map (λ list. map (λ name. name.items) list.items) streams.now)) }
{
    if !is_same_topology(&names.topology, &meaning.topology) {
        return false;
    }
    if !are_same_names(names.names.as_slice(), meaning.nodes.as_slice()) {
        return false;
    }
    are_same_streams(names.streams.as_slice(), streams)
}

/// Whether the nodes have the names that a plan means, and their sends are from the streams that it means.
pub(crate) fn is_named(alloc: Global, names: &Names, meaning: &Meaning) -> Result<bool, NoMemory>
    ensures { IfOk result (λ same. IsTrue same
        ↔ (names_view names.now ≡ names_meant_by meaning.now)) }
{
    let streams = streams_meant(alloc, meaning)?;
    Ok(are_named(names, meaning, streams.as_slice()))
}
