//! An event that a worker brings to a node.
ghost use Rattle.std.specs.Prelude.{◌≡◌, ◌⊎◌, ◌<◌, IfErr, IfOk, OnOk, length, map, slice_index_or};
ghost use Rattle.hsr_ring.specs.Entering.{IsEntered, IsNotEntered, IsRefusal, IsStepped, IsThere};
ghost use Rattle.hsr_world_links.specs.Giving.{receipt_of};
ghost use Rattle.hsr_world_links.specs.Touching.{touching_from};
ghost use Rattle.hsr_ring.specs.Views.{AreNumbered};
ghost use Rattle.hsr_world_links.specs.Views.{span_view};
ghost use Rattle.hsr_world_steps.specs.declared.step.WorldFault.TheVariants.{NoMemory};

use hsr_node::{Answer, Entry, Event, Kept, Probe};
use hsr_world_links::{Span, commit, prepare};
use hsr_world_steps::WorldFault;
use std::alloc::Global;

/// Lets an event happen at a node. A refusal hands the event back.
fn step_at<const C: usize>(
    nodes: &mut [Kept<C>],
    node: usize,
    worker: u16,
    at: u64,
    event: Event,
) -> Result<Answer, (Event, WorldFault)>
    requires below { node < length nodes.old }
    requires numbered { AreNumbered nodes.old }
    ensures numbered { AreNumbered nodes.new }
    ensures ok { IfOk result (λ a. IsStepped C worker node at event nodes.old nodes.new
        (receipt_of (record { node = node; place = a.place })
        (record { worker = worker; at = at; event = event; outcome = a.outcome }))) }
    ensures there { IfOk result (λ a. IsThere nodes.new node a.place
        (record { worker = worker; at = at; event = event; outcome = a.outcome })) }
    ensures err { IfErr result (λ e. (nodes.new ≡ nodes.old) × (e.0 ≡ event)
        × ((e.1 ≡ NoMemory) ⊎ IsRefusal C nodes.old node at event e.1)) }
{
    match nodes[node].enter(worker, at, event) {
        Ok(answer) => Ok(answer),
        Err((event, fault)) => Err((event, WorldFault::of_node(fault))),
    }
}

/// The entry at a place of a record.
fn entry_at<const C: usize>(kept: &Kept<C>, place: usize) -> &Entry
    requires { place < length kept.now.entries }
    ensures { result.now ≡ slice_index_or kept.now.entries place result.now }
{
    // In a function of its own: so the caller's proof has one clause about the entry.
    &kept.entries()[place]
}

/// Lets an event happen at a node, which these links touch, and whose copies join the outboxes of its ports. A refusal hands the
/// event back.
// Inline, since a call would pass the event through memory, and once more for its way back.
#[inline(always)]
pub(crate) fn enter<const C: usize>(
    alloc: Global,
    nodes: &mut [Kept<C>],
    spans: &mut [Span],
    links: &[usize],
    node: usize,
    worker: u16,
    at: u64,
    event: Event,
) -> Result<(), (Event, WorldFault)>
    requires below { node < length nodes.old }
    requires numbered { AreNumbered nodes.old }
    requires touching { links.now ≡ touching_from node 0 (map span_view spans.old) }
    ensures numbered { AreNumbered nodes.new }
    ensures ok { OnOk result (IsEntered C worker node at event nodes.old nodes.new
        (map span_view spans.old) (map span_view spans.new)) }
    ensures err { IfErr result (λ e. (nodes.new ≡ nodes.old)
        × (map span_view spans.new ≡ map span_view spans.old) × (e.0 ≡ event)
        × ((e.1 ≡ NoMemory) ⊎ IsNotEntered C worker node at event nodes.old
        (map span_view spans.old) e.1)) }
{
    // Room first: after the node's step nothing may fail.
    if prepare(spans, links, node).is_err() {
        return Err((event, WorldFault::NoMemory));
    }
    // The node grows before it changes, so a refusal here leaves only unused room.
    let place = match step_at(nodes, node, worker, at, event) {
        Ok(answer) => answer.place,
        Err(refusal) => return Err(refusal),
    };
    let kept = &nodes[node];
    let here = Probe { node, place };
    commit(
        alloc,
        spans,
        links,
        kept.place(),
        here,
        entry_at(kept, place),
    );
    Ok(())
}
