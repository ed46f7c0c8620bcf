//! The search for the nodes that routes of a frame lead to.
ghost use Rattle.std.specs.Prelude.{◌≡◌, ◌↔◌, ◌<◌, ◌≤◌, ◌*◌, ◌&&◌, ◌||◌, not, true, ℕ, length, slice_index_or, IfOk, IsTrue};
ghost use Rattle.hsr_bitset.specs.Numbers.{has, has_bit};
ghost use Rattle.hsr_network_laws.specs.Network.{stop_of};
ghost use Rattle.hsr_routes.specs.Numbered.{channel_at, is_found, is_in};
ghost use Rattle.hsr_routes.specs.Routes.{bare, heading, sender_at};
ghost use Rattle.hsr_routes.specs.Search.{IsFound, IsSearched};
ghost use Rattle.hsr_faults.specs.Onward.{AreOnward};
ghost use Rattle.hsr_faults.specs.Search.{AreInto, AreLedTo, AreStopping, IsGoneOn};

use crate::channels::Channels;
use crate::ends::stop;
use crate::nodes::Nodes;
use crate::onward::Onward;
use hsr_frame::NoMemory;
use hsr_routes::{Channel, Heading};
use hsr_topology::Topology;
use std::alloc::Global;

/// What a search has found, and what of it waits to be gone on from.
#[derive(Clone, Copy)]
struct Front {
    found: Channels,
    waiting: Channels,
}

impl Front {
    /// Adds channels that aren't avoided: those that weren't found before are, and wait.
    fn add(&mut self, channels: &Channels, avoid: &Channels)
        ensures { IsGoneOn channels.now.words avoid.now.words self.old.found.words self.old.waiting.words
            self.new.found.words self.new.waiting.words }
    {
        let added = channels.without(avoid).without(&self.found);
        self.found = self.found.with(&added);
        self.waiting = self.waiting.with(&added);
    }
}

/// The channels to whose ends routes lead, where these are avoided.
fn search(topology: &Topology, frame: &Heading, onward: &Onward, avoid: &Channels) -> Channels
    requires { AreOnward (bare topology.now.places topology.now.links) (sender_at frame.now.sender)
        (heading frame.now.dst frame.now.kind) onward.now.first.words onward.now.next.items }
    ensures { IsSearched (bare topology.now.places topology.now.links) (sender_at frame.now.sender) (heading frame.now.dst frame.now.kind)
        (is_in avoid.now.words) (is_found (bare topology.now.places topology.now.links) result.words) }
{
    // What they answer isn't used: a topology has 128 links at most.
    let _ = topology.links();
    let _ = frame;
    let mut front = Front {
        found: Channels::new(),
        waiting: Channels::new(),
    };
    front.add(&onward.first, avoid);
    // The lowest number goes first. What is found doesn't depend on the order.
    while let Some(number) = front.waiting.take() {
        front.add(&onward.next[number], avoid);
    }
    front.found
}

/// The channels that end at a node.
fn stopping(topology: &Topology, node: usize) -> Channels
    ensures { AreStopping (bare topology.now.places topology.now.links) node result.words }
{
    let mut set = Channels::new();
    for number in 0..2 * topology.links().len() {
        set.put(number, stop(topology, Channel::at(number)).node == node);
    }
    set
}

/// The channels that end at each node of a topology. `NoMemory` if allocation fails.
pub(crate) fn into_nodes(alloc: Global, topology: &Topology) -> Result<Vec<Channels>, NoMemory>
    ensures { IfOk result (λ into. AreInto (bare topology.now.places topology.now.links) into.items) }
{
    let mut into = Vec::new(alloc);
    for node in 0..topology.places().len() {
        into.push(stopping(topology, node))?;
    }
    Ok(into)
}

/// The nodes at the ends of channels that are found.
fn ends(topology: &Topology, into: &[Channels], found: &Channels) -> Nodes
    requires { AreInto (bare topology.now.places topology.now.links) into.now }
    ensures { (k : ℕ) → k < length topology.now.places → (has_bit result.bits k ≡ true)
        ↔ IsFound (bare topology.now.places topology.now.links) (is_found (bare topology.now.places topology.now.links) found.now.words) k }
{
    // What it answers isn't used: a topology has 64 nodes at most.
    let _ = topology.places();
    let mut nodes = Nodes::new();
    for (node, channels) in into.iter().enumerate() {
        nodes.put(node, channels.meets(found));
    }
    nodes
}

/// The nodes that routes of a frame lead to which take none of these channels.
pub(crate) fn led_to(
    topology: &Topology,
    into: &[Channels],
    frame: &Heading,
    onward: &Onward,
    avoid: &Channels,
) -> Nodes
    requires into { AreInto (bare topology.now.places topology.now.links) into.now }
    requires onward { AreOnward (bare topology.now.places topology.now.links) (sender_at frame.now.sender)
        (heading frame.now.dst frame.now.kind) onward.now.first.words onward.now.next.items }
    ensures { AreLedTo (bare topology.now.places topology.now.links) (sender_at frame.now.sender) (heading frame.now.dst frame.now.kind)
        avoid.now.words result.bits }
{
    ends(topology, into, &search(topology, frame, onward, avoid))
}
