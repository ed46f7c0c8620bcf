//! The channels that follow each channel, for one frame.
ghost use Rattle.std.specs.Prelude.{◌≡◌, ◌↔◌, ◌<◌, ◌≤◌, ◌*◌, length, IfOk, IfSome, IsTrue, None};
ghost use Rattle.hsr_run_laws.specs.Run.{place_of};
ghost use Rattle.hsr_network_laws.specs.Channels.{IsFirstChannel, IsNextChannel, lets_out};
ghost use Rattle.hsr_network_laws.specs.Network.{start_of};
ghost use Rattle.hsr_routes.specs.Routes.{bare, heading, sender_at};
ghost use Rattle.hsr_routes.specs.Spread.{Follows};
ghost use Rattle.hsr_faults.specs.Onward.{AreFollowing, AreOnward};

use crate::channels::Channels;
use crate::ends::{start, stop};
use hsr_frame::NoMemory;
use hsr_routes::{Channel, Heading, lets_out, passes_on};
use hsr_topology::Topology;
use std::alloc::Global;

/// The channels that a frame takes from its sender, and those that it takes from the end of each channel, by the channel's number.
#[derive(Drop)]
pub(crate) struct Onward {
    pub(crate) first: Channels,
    pub(crate) next: Vec<Channels>,
}

/// Whether the node at the start of a channel lets a frame out there.
fn is_let_out(topology: &Topology, frame: &Heading, channel: Channel) -> bool
    requires { channel.link < length topology.now.links }
    ensures { result ≡ lets_out (heading frame.now.dst frame.now.kind)
        (place_of (bare topology.now.places topology.now.links) (start_of (bare topology.now.places topology.now.links) channel).node)
        (start_of (bare topology.now.places topology.now.links) channel).port }
{
    let start = start(topology, channel);
    lets_out(frame, &topology.places()[start.node], start.port)
}

/// Whether a frame takes a channel from its sender.
fn is_first(topology: &Topology, frame: &Heading, channel: Channel) -> bool
    requires { channel.link < length topology.now.links }
    ensures { IsTrue result ↔ IsFirstChannel (bare topology.now.places topology.now.links) (sender_at frame.now.sender)
        (heading frame.now.dst frame.now.kind) channel }
{
    start(topology, channel).node == frame.sender && is_let_out(topology, frame, channel)
}

/// Whether a frame goes on by a channel from the end of another.
fn is_next(topology: &Topology, frame: &Heading, channel: Channel, next: Channel) -> bool
    requires channel { channel.link < length topology.now.links }
    requires next { next.link < length topology.now.links }
    ensures { IsTrue result ↔ IsNextChannel (bare topology.now.places topology.now.links) (sender_at frame.now.sender)
        (heading frame.now.dst frame.now.kind) channel next }
{
    let here = stop(topology, channel);
    let start = start(topology, next);
    start.node == here.node
        && start.port != here.port
        && passes_on(frame, here.node, &topology.places()[here.node], here.port)
        && is_let_out(topology, frame, next)
        && stop(topology, next).node != frame.sender
}

/// Whether a frame takes a channel, from its sender or from the end of another channel.
fn follows(topology: &Topology, frame: &Heading, from: &Option<Channel>, channel: Channel) -> bool
    requires from { IfSome from.now (λ before. before.link < length topology.now.links) }
    requires channel { channel.link < length topology.now.links }
    ensures { IsTrue result ↔ Follows (bare topology.now.places topology.now.links) (sender_at frame.now.sender)
        (heading frame.now.dst frame.now.kind) from.now channel }
{
    match from {
        Some(before) => is_next(topology, frame, *before, channel),
        None => is_first(topology, frame, channel),
    }
}

/// The channels that a frame takes, from its sender or from the end of another channel.
fn following(topology: &Topology, frame: &Heading, from: &Option<Channel>) -> Channels
    requires { IfSome from.now (λ before. before.link < length topology.now.links) }
    ensures { AreFollowing (bare topology.now.places topology.now.links) (sender_at frame.now.sender)
        (heading frame.now.dst frame.now.kind) from.now result.words }
{
    let mut set = Channels::new();
    for number in 0..2 * topology.links().len() {
        set.put(number, follows(topology, frame, from, Channel::at(number)));
    }
    set
}

impl Onward {
    /// The channels that follow each channel of a topology, for a frame. `NoMemory` if allocation fails.
    pub(crate) fn new(
        alloc: Global,
        topology: &Topology,
        frame: &Heading,
    ) -> Result<Onward, NoMemory>
        ensures { IfOk result (λ onward. AreOnward (bare topology.now.places topology.now.links) (sender_at frame.now.sender)
            (heading frame.now.dst frame.now.kind) onward.first.words onward.next.items) }
    {
        let first = following(topology, frame, &None);
        let mut next = Vec::new(alloc);
        for number in 0..2 * topology.links().len() {
            next.push(following(topology, frame, &Some(Channel::at(number))))?;
        }
        Ok(Onward { first, next })
    }
}
