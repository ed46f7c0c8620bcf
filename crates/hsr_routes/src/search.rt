//! The search for the channels that a frame takes.
ghost use Rattle.std.specs.Prelude.{◌≡◌, ◌↔◌, ◌<◌, ◌≤◌, ◌==◌, ◌&&◌, if◌then◌else◌, true, ℕ, length, IfOk, IfSome, IsTrue};
ghost use Rattle.hsr_run_laws.specs.Run.{place_of};
ghost use Rattle.hsr_network_laws.specs.Network.{start_of, stop_of};
ghost use Rattle.hsr_network_laws.specs.Channels.{IsFirstChannel, IsNextChannel, lets_out};
ghost use Rattle.hsr_bitset.specs.Numbers.{has};
ghost use Rattle.hsr_routes.specs.Numbered.{is_found, is_in, number_of};
ghost use Rattle.hsr_routes.specs.Routes.{IsFree, IsLedTo, bare, heading, sender_at};
ghost use Rattle.hsr_routes.specs.Search.{IsFound, IsSearched};
ghost use Rattle.hsr_routes.specs.Spread.{Follows, IsSpread, next_node};
ghost use Rattle.hsr_routes.specs.Started.{channels_from};

use crate::channel::Channel;
use crate::ends::{from_end, to_end};
use crate::follow::{lets_out, passes_on};
use crate::front::Front;
use crate::heading::Heading;
use crate::starting::starting_in;
use hsr_bitset::Numbers;
use hsr_frame::NoMemory;
use hsr_node::Place;
use hsr_topology::{End, Topology};
use std::alloc::Global;
use std::marker::Model;

/// Puts a number into a set, if it is one that is to be there.
fn put_if(set: &mut Numbers, is_one: bool, number: usize)
    requires { number < 512 }
    ensures { (n : ℕ) → n < 512
        → has set.new n ≡ (if is_one && (n == number) then true else has set.old n) }
{
    if is_one {
        set.put(number, true);
    }
}

/// A topology, and the channels that start at each of its nodes.
#[derive(Drop)]
pub struct Routes<'a> {
    topology: &'a Topology,
    // Made once for a topology, so that each step of a search looks at one node's channels.
    starting: Vec<Vec<Channel>>,
}

impl<'a> Model for Routes<'a> {
    ghost use Rattle.std.specs.Prelude.{map};
    ghost use Rattle.hsr_run_laws.specs.Run.{Run};
    ghost use Rattle.hsr_routes.specs.Routes.{bare};
    ghost use Rattle.hsr_routes.specs.Started.{AreStarting};

    ghost Value = { Run };

    ghost view = { λ w. bare w.topology.now.places w.topology.now.links };

    ghost invariant = { λ w. AreStarting (bare w.topology.now.places w.topology.now.links)
        (map (λ channels. channels.items) w.starting.items) };
}

impl<'a> Routes<'a> {
    /// The routes of a topology. `NoMemory` if allocation fails.
    pub fn new(alloc: Global, topology: &'a Topology) -> Result<Routes<'a>, NoMemory>
        ensures { IfOk result (λ routes. routes ≡ bare topology.now.places topology.now.links) }
    {
        let starting = starting_in(alloc, topology.places().len(), topology.links())?;
        Ok(Routes { topology, starting })
    }

    /// The kind of a node.
    fn place(&self, node: usize) -> &Place
        requires { node < length self.now.places }
        ensures { result.now ≡ place_of self.now node }
    {
        &self.topology.places()[node]
    }

    /// Where a channel starts.
    fn start(&self, channel: Channel) -> End
        requires { channel.link < length self.now.links }
        ensures value { result ≡ start_of self.now channel }
        ensures there { result.node < length self.now.places }
    {
        from_end(self.topology.links()[channel.link], channel.dir)
    }

    /// Where a channel ends.
    pub fn stop(&self, channel: Channel) -> End
        requires { channel.link < length self.now.links }
        ensures value { result ≡ stop_of self.now channel }
        ensures there { result.node < length self.now.places }
    {
        to_end(self.topology.links()[channel.link], channel.dir)
    }

    /// Whether the node at the start of a channel lets a frame out there.
    fn lets_out(&self, frame: &Heading, channel: Channel) -> bool
        requires { channel.link < length self.now.links }
        ensures { result ≡ lets_out (heading frame.now.dst frame.now.kind)
            (place_of self.now (start_of self.now channel).node)
            (start_of self.now channel).port }
    {
        let start = self.start(channel);
        lets_out(frame, self.place(start.node), start.port)
    }

    /// Whether a frame takes a channel from its sender.
    fn is_first(&self, frame: &Heading, channel: Channel) -> bool
        requires { channel.link < length self.now.links }
        ensures { IsTrue result ↔ IsFirstChannel self.now (sender_at frame.now.sender)
            (heading frame.now.dst frame.now.kind) channel }
    {
        self.start(channel).node == frame.sender && self.lets_out(frame, channel)
    }

    /// Whether a frame goes on by a channel from the end of another.
    fn is_next(&self, frame: &Heading, channel: Channel, next: Channel) -> bool
        requires channel { channel.link < length self.now.links }
        requires next { next.link < length self.now.links }
        ensures { IsTrue result ↔ IsNextChannel self.now (sender_at frame.now.sender)
            (heading frame.now.dst frame.now.kind) channel next }
    {
        let here = self.stop(channel);
        let start = self.start(next);
        start.node == here.node
            && start.port != here.port
            && passes_on(frame, here.node, self.place(here.node), here.port)
            && self.lets_out(frame, next)
            && self.stop(next).node != frame.sender
    }

    /// Whether a frame takes a channel, from its sender or from the end of another channel.
    fn follows(&self, frame: &Heading, from: &Option<Channel>, channel: Channel) -> bool
        requires from { IfSome from.now (λ before. before.link < length self.now.links) }
        requires channel { channel.link < length self.now.links }
        ensures { IsTrue result ↔ Follows self.now (sender_at frame.now.sender)
            (heading frame.now.dst frame.now.kind) from.now channel }
    {
        match from {
            Some(before) => self.is_next(frame, *before, channel),
            None => self.is_first(frame, channel),
        }
    }

    /// The number of a channel.
    fn number(&self, channel: Channel) -> usize
        requires { channel.link < length self.now.links }
        ensures value { result ≡ number_of channel }
        ensures few { result < 512 }
    {
        // What it answers isn't used: its contract says that the topology has 128 links at most.
        let _ = self.topology.links();
        channel.number()
    }

    /// Whether a frame takes a channel that isn't avoided.
    fn takes(
        &self,
        frame: &Heading,
        avoid: &Numbers,
        from: &Option<Channel>,
        channel: Channel,
    ) -> bool
        requires from { IfSome from.now (λ before. before.link < length self.now.links) }
        requires channel { channel.link < length self.now.links }
        ensures { IsTrue result ↔ (IsFree self.now (is_in avoid.now) channel
            × Follows self.now (sender_at frame.now.sender) (heading frame.now.dst frame.now.kind) from.now channel) }
    {
        !avoid.has(self.number(channel)) && self.follows(frame, from, channel)
    }

    /// The node from which a frame goes on: its sender, or the one at the end of a channel.
    fn next_node(&self, frame: &Heading, from: &Option<Channel>) -> usize
        requires sender { frame.now.sender < length self.now.places }
        requires from { IfSome from.now (λ before. before.link < length self.now.links) }
        ensures value { result ≡ next_node self.now (sender_at frame.now.sender) from.now }
        ensures there { result < length self.now.places }
    {
        match from {
            Some(before) => self.stop(*before).node,
            None => frame.sender,
        }
    }

    /// The channels that start at a node.
    fn starting(&self, node: usize) -> &[Channel]
        requires { node < length self.now.places }
        ensures channels { result.now ≡ channels_from node 0 self.now.links }
        ensures few { length self.now.links ≤ 128 }
    {
        // As above: a topology has 128 links at most.
        let _ = self.topology.links();
        self.starting[node].as_slice()
    }

    /// Finds all channels that a frame takes, from its sender or from the end of another channel.
    fn spread(&self, front: &mut Front, frame: &Heading, avoid: &Numbers, from: &Option<Channel>)
        requires sender { frame.now.sender < length self.now.places }
        requires from { IfSome from.now (λ before. before.link < length self.now.links) }
        ensures few { length self.now.links ≤ 128 }
        ensures spread { IsSpread self.now (sender_at frame.now.sender) (heading frame.now.dst frame.now.kind)
            (is_in avoid.now) from.now front.old.found front.old.waiting
            front.new.found front.new.waiting }
    {
        for channel in self.starting(self.next_node(frame, from)) {
            let is_one = self.takes(frame, avoid, from, *channel);
            front.put(is_one, self.number(*channel));
        }
    }

    /// The channels to whose ends routes lead, by their numbers, where these are avoided. Each is gone on from once.
    fn search(&self, frame: &Heading, avoid: &Numbers) -> Numbers
        requires sender { frame.now.sender < length self.now.places }
        ensures { IsSearched self.now (sender_at frame.now.sender) (heading frame.now.dst frame.now.kind)
            (is_in avoid.now) (is_found self.now result) }
    {
        let mut front = Front::new();
        self.spread(&mut front, frame, avoid, &None);
        // The lowest number goes first. What is found doesn't depend on the order.
        while let Some(number) = front.next() {
            self.spread(&mut front, frame, avoid, &Some(Channel::at(number)));
        }
        front.found
    }

    /// The nodes at the ends of channels that are found.
    fn ends(&self, found: &Numbers) -> Numbers
        ensures { (k : ℕ) → k < length self.now.places → (has result k ≡ true)
            ↔ IsFound self.now (is_found self.now found.now) k }
    {
        let mut nodes = Numbers::new();
        for number in 0..2 * self.topology.links().len() {
            let node = self.stop(Channel::at(number)).node;
            put_if(&mut nodes, found.has(number), node);
        }
        nodes
    }

    /// The nodes that routes of a frame lead to which take none of these channels, by their numbers (IEC 62439-3 clause
    /// 5.3). Each channel is gone on from once.
    pub fn reached(&self, frame: &Heading, avoid: &Numbers) -> Numbers
        requires sender { frame.now.sender < length self.now.places }
        ensures { (k : ℕ) → k < length self.now.places → (has result k ≡ true)
            ↔ IsLedTo self.now (sender_at frame.now.sender) (heading frame.now.dst frame.now.kind)
            (is_in avoid.now) k }
    {
        self.ends(&self.search(frame, avoid))
    }
}
