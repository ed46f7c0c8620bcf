//! When copies come to their ends, and which of them is next.
ghost use Rattle.std.specs.Prelude.{◌≡◌, fold, option_map, slice_get, None};
ghost use Rattle.hsr_plan_hops.specs.Flights.{are_free, arrival_if, arrival_of, arrival_on, arrives_at, arrives_by, channels_of, end_at, free_if, head_at, is_cut_through, is_free, is_free_by, is_sooner, is_to_come, is_way_free, leads_on, next_of, sooner, sooner_on, way_by};

use crate::flights::{
    Arrival, Channel, Channels, Flight, dir_from, first_waiting, free_behind, later, time_on,
};
use crate::turns::receiver;
use hsr_link::Dir;
use hsr_plan_text::{Switching, Transfer, Wire};
use hsr_ring::World;
use hsr_topology::{End, Topology};
use std::marker::Model;

/// How many octets of a frame are there when a node can pass it on.
pub(crate) const HEAD_OCTETS: u64 = 22;

/// What a node looks at: the links, the moment, whether something that is told was done at it, the channels and the world.
#[derive(Drop)]
pub(crate) struct Sight<'a, const C: usize> {
    pub(crate) topology: &'a Topology,
    pub(crate) moment: u64,
    pub(crate) begun: bool,
    pub(crate) channels: &'a Channels,
    pub(crate) world: &'a World<C>,
}

impl<'a, const C: usize> Model for Sight<'a, C> {
    ghost use Rattle.hsr_plan_hops.specs.Flights.{Sight};

    ghost Value = { Sight };

    ghost view = { λ v. record { links = v.topology.now.links; now = v.moment; begun = v.begun; channels = v.channels.now; world = v.world.now } };
}

/// Whether a moment isn't past; nor now, once something that is told was done now.
pub(crate) fn is_to_come(now: u64, begun: bool, at: u64) -> bool
    ensures { result ≡ is_to_come now begun at }
{
    if begun { now < at } else { now <= at }
}

/// The channels of a direction, link by link.
fn channels_of(channels: &Channels, dir: Dir) -> &[Channel]
    ensures { result.now ≡ channels_of dir channels.now }
{
    match dir {
        Dir::Forth => channels.forth.as_slice(),
        Dir::Back => channels.back.as_slice(),
    }
}

impl<'a, const C: usize> Sight<'a, C> {
    /// From when on the channel of a link is free.
    fn free_from(&self, dir: Dir, link: usize) -> u64
        ensures { result ≡ free_if self.now.world (slice_get (channels_of dir self.now.channels) link) }
    {
        match channels_of(self.channels, dir).get(link) {
            Some(channel) => free_behind(self.world, channel.last),
            None => 0,
        }
    }

    /// The link of a port of a node; none where that is the port at which a copy arrives.
    fn way_by(&self, end: End, port: u8) -> Option<(usize, bool)>
        ensures { result ≡ way_by self.now.links end port }
    {
        if port == end.port {
            return None;
        }
        self.topology.link_at(End {
            node: end.node,
            port,
        })
    }

    /// Whether a copy may go on by another port than that at which it arrives.
    fn leads_on(&self, end: End) -> bool
        ensures { result ≡ leads_on self.now.links end }
    {
        self.way_by(end, 0).is_some()
            || self.way_by(end, 1).is_some()
            || self.way_by(end, 2).is_some()
            || self.way_by(end, 3).is_some()
    }

    /// Whether the channel from a port is free at a moment, where the port is another and has a link.
    fn is_free_by(&self, at: u64, end: End, port: u8) -> bool
        ensures { result ≡ is_free_by self.now.links self.now.world self.now.channels at end port }
    {
        match self.way_by(end, port) {
            None => true,
            Some((link, first)) => self.free_from(dir_from(first), link) <= at,
        }
    }

    /// Whether all of them are.
    fn are_free(&self, at: u64, end: End) -> bool
        ensures { result ≡ are_free self.now.links self.now.world self.now.channels at end }
    {
        self.is_free_by(at, end, 0)
            && self.is_free_by(at, end, 1)
            && self.is_free_by(at, end, 2)
            && self.is_free_by(at, end, 3)
    }

    /// Whether a copy that arrives at a port may go on, and its way is free at a moment.
    fn is_way_free(&self, at: u64, end: Option<End>) -> bool
        ensures { result ≡ is_way_free self.now.links self.now.world self.now.channels at end }
    {
        match end {
            None => false,
            // What a node will do with a copy is known once it judges it, so each of its other links counts.
            Some(end) => self.leads_on(end) && self.are_free(at, end),
        }
    }

    /// Whether the way of a copy is free when its first octets are there, as far as can be seen now.
    fn is_cut_through(&self, wire: Wire, flight: Flight) -> bool
        ensures { result ≡ is_cut_through self.now wire flight }
    {
        let at = head_at(wire, flight);
        is_to_come(self.moment, self.begun, at)
            && self.is_way_free(at, receiver(self.topology.links(), flight.link, flight.dir))
    }

    fn arrives_by(&self, wire: Wire, flight: Flight) -> u64
        ensures { result ≡ arrives_by self.now wire wire.switching flight }
    {
        match wire.switching {
            Switching::Store => end_at(wire, flight),
            Switching::Cut => {
                if self.is_cut_through(wire, flight) {
                    head_at(wire, flight)
                } else {
                    end_at(wire, flight)
                }
            }
        }
    }

    /// When a copy comes to its end.
    fn arrives_at(&self, transfer: Transfer, flight: Flight) -> u64
        ensures { result ≡ arrives_at transfer self.now flight }
    {
        match transfer {
            Transfer::Hop(us) => later(flight.begins, us),
            Transfer::Wire(wire) => self.arrives_by(wire, flight),
        }
    }

    /// The end of a copy's way.
    fn arrival_of(&self, transfer: Transfer, flight: Flight) -> Arrival
        ensures { result ≡ arrival_of transfer self.now flight }
    {
        Arrival {
            link: flight.link,
            dir: flight.dir,
            turn: flight.turn,
            at: self.arrives_at(transfer, flight),
        }
    }

    /// The first arrival of a channel.
    fn arrival_on(&self, transfer: Transfer, channel: &Channel) -> Option<Arrival>
        ensures { result ≡ arrival_on transfer self.now channel.now }
    {
        match first_waiting(self.world, &channel.waiting) {
            Some(flight) => Some(self.arrival_of(transfer, flight)),
            None => None,
        }
    }

    /// The first of an arrival and of those of channels.
    fn soonest(
        &self,
        transfer: Transfer,
        first: Option<Arrival>,
        channels: &[Channel],
    ) -> Option<Arrival>
        ensures { result ≡ fold (sooner_on transfer self.now) first channels.now }
    {
        let mut next = first;
        for channel in channels {
            next = sooner(next, self.arrival_on(transfer, channel));
        }
        next
    }

    /// The copy that comes to its end next; none where none is on its way.
    pub(crate) fn next(&self, transfer: Transfer) -> Option<Arrival>
        ensures { result ≡ next_of transfer self.now }
    {
        let next = self.soonest(transfer, None, channels_of(self.channels, Dir::Forth));
        self.soonest(transfer, next, channels_of(self.channels, Dir::Back))
    }
}

/// When the first octets of a copy were there, and its node kept them for its time.
fn head_at(wire: Wire, flight: Flight) -> u64
    ensures { result ≡ head_at wire flight }
{
    later(
        later(flight.begins, time_on(wire, HEAD_OCTETS)),
        wire.residence,
    )
}

/// When all of a copy was there, and its node kept it for its time.
fn end_at(wire: Wire, flight: Flight) -> u64
    ensures { result ≡ end_at wire flight }
{
    later(flight.ends, wire.residence)
}

/// Whether one copy arrives before another.
fn is_sooner(one: Arrival, other: Arrival) -> bool
    ensures { result ≡ is_sooner one other }
{
    // At one moment those arrive first that were put first.
    one.at < other.at || (one.at == other.at && one.turn < other.turn)
}

/// The sooner of two arrivals.
fn sooner(one: Option<Arrival>, other: Option<Arrival>) -> Option<Arrival>
    ensures { result ≡ sooner one other }
{
    match (one, other) {
        (None, _) => other,
        (Some(_), None) => one,
        (Some(first), Some(second)) => { if is_sooner(second, first) { other } else { one } }
    }
}
