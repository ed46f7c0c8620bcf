//! One direction of a link, with what its ports keep.
ghost use Rattle.std.specs.Prelude.{◌≡◌, ◌<◌, ◌≤◌, IfSome, OnOk, Some, length, vec_capacity};
ghost use Rattle.std.specs.VecDeque.{deque_capacity, deque_len};
ghost use Rattle.hsr_node.specs.Copies.{copy_octets};
ghost use Rattle.hsr_node.specs.Record.{probe_handled};
ghost use Rattle.hsr_world_links.specs.Giving.{IsReady, given_lane, receipt_of, with_copy};
ghost use Rattle.hsr_world_links.specs.Views.{lane_view};

use hsr_frame::{MAX_FRAME, NoMemory};
use hsr_node::{Carried, Entry, Octets, Place, Probe, going_on, is_left_by, spelled_out};
use hsr_tag::Spelled;
use hsr_topology::End;
use std::alloc::Global;
use std::collections::VecDeque;
use std::mem;

/// One direction of a link: from which port to which; what the first has still to put, the oldest first, and what the second
/// holds. Room for the octets of one more copy is no part of what a clause sees.
#[derive(Drop)]
pub struct Lane {
    pub from: End,
    pub to: End,
    pub outbox: VecDeque<Carried>,
    pub hand: Option<Carried>,
    // Kept apart from the outbox, so that a copy finds room once its node has done the step.
    pub room: Vec<u8>,
}

/// Makes room for one more copy, if this node sends here.
pub(crate) fn prepare_lane(lane: &mut Lane, node: usize) -> Result<(), NoMemory>
    ensures view { lane_view lane.new ≡ lane_view lane.old }
    ensures ready { OnOk result (IsReady node lane.new) }
{
    if lane.from.node == node {
        lane.outbox.reserve(1)?;
        lane.room.reserve(MAX_FRAME)?;
    }
    Ok(())
}

/// These octets, in room of their own size; where that is refused, in the room that was made. So the latter is seldom used up,
/// and the short copies don't lie apart in long rooms.
fn fitted(alloc: Global, room: &mut Vec<u8>, copy: &Spelled<'_>) -> Octets
    requires { length copy.now ≤ vec_capacity room.old }
    ensures { result ≡ copy.now }
{
    match Octets::from_spelled(alloc, copy) {
        Ok(fit) => fit,
        // A refused fit is no fault: `prepare_lane` made room for the longest frame.
        Err(_refused) => Octets::spelled_in(mem::replace(room, Vec::new(alloc)), copy),
    }
}

/// The copy of an entry that has these octets joins the outbox of a lane; `here` names the entry.
// Inline, since a call would pass the octets through memory.
#[inline(always)]
fn put_last(lane: &mut Lane, here: Probe, entry: &Entry, octets: Octets)
    requires { deque_len lane.old.outbox < deque_capacity lane.old.outbox }
    ensures { lane_view lane.new ≡ with_copy (probe_handled here entry.now.event) octets (lane_view lane.old) }
{
    let carried = Carried {
        probe: entry.event.probe(here),
        octets,
    };
    // `prepare_lane` made room for one more.
    let Ok(()) = lane.outbox.push_back(carried) else {
        unreachable!()
    };
}

/// The octets of a copy that leaves by this port as it came, in the room in which they stand; `None` where they can't be shared, too.
// Inline, since a call would pass the octets through memory.
#[inline(always)]
fn shared(place: &Place, entry: &Entry, port: u8) -> Option<Octets>
    ensures { IfSome result (λ octets. copy_octets place.now entry.now.event entry.now.outcome port ≡ Some octets) }
{
    going_on(place, &entry.event, &entry.outcome, port)?
        .clone()
        .ok()
}

/// The copy that leaves its node by a lane, if one does, joins its outbox; `here` names the entry.
// A call of its own, so that the lanes by which nothing leaves, or what came, don't make room for a copy's pieces.
#[inline(never)]
#[tactic(auto, unfolding(hsr_node::specs::Copies::copy_octets))]
fn form_copy(alloc: Global, lane: &mut Lane, place: &Place, here: Probe, entry: &Entry)
    requires node { lane.old.from.node ≡ here.node }
    requires ready { IsReady here.node lane.old }
    ensures { lane_view lane.new ≡ given_lane place.now (receipt_of here entry.now)
        (lane_view lane.old) }
{
    let Some(copy) = spelled_out(place, &entry.event, &entry.outcome, lane.from.port) else {
        return;
    };
    let octets = fitted(alloc, &mut lane.room, &copy);
    put_last(lane, here, entry, octets);
}

/// The copy that leaves its node by a lane joins its outbox; `here` names the entry.
// A call of its own, so that lanes of the other node take no more than a look at whose they are.
#[inline(never)]
#[tactic(auto, unfolding(hsr_node::specs::Copies::copy_octets))]
fn add_copy(alloc: Global, lane: &mut Lane, place: &Place, here: Probe, entry: &Entry)
    requires node { lane.old.from.node ≡ here.node }
    requires ready { IsReady here.node lane.old }
    ensures { lane_view lane.new ≡ given_lane place.now (receipt_of here entry.now)
        (lane_view lane.old) }
{
    // Asked first: most copies go on from ring to ring, and so all copies of a send in a ring stand in the same room.
    if let Some(octets) = shared(place, entry, lane.from.port) {
        put_last(lane, here, entry, octets);
    } else if is_left_by(&entry.outcome, lane.from.port) {
        form_copy(alloc, lane, place, here, entry);
    }
}

/// The copy that leaves by a lane joins its outbox, if the lane is one of its node; `here` names the entry.
// Inline, as half of the lanes at a node's links are of the other node.
#[inline(always)]
pub(crate) fn commit_lane(alloc: Global, lane: &mut Lane, place: &Place, here: Probe, entry: &Entry)
    requires { IsReady here.node lane.old }
    ensures { lane_view lane.new ≡ given_lane place.now (receipt_of here entry.now)
        (lane_view lane.old) }
{
    if lane.from.node == here.node {
        add_copy(alloc, lane, place, here, entry);
    }
}
