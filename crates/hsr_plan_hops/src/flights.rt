//! Copies on their way, channel by channel.
//!
//! Copies go over a channel, a direction of a link, in the order in which they were put: a queue says which of them is next. Channels
//! are looked at one after another, and copies that wait behind others aren't.
ghost use Rattle.std.specs.Prelude.{◌≡◌, drop, replicate, slice_get, IfOk, OnOk};
ghost use Rattle.hsr_topology.specs.Links.{link_from};
ghost use Rattle.hsr_plan_hops.specs.Flights.{begins_at, carrying, channels_behind, dir_from, ends_at, flight_of, free_behind, is_cut_off, is_on_way, kept, kept_at, kept_in, later, no_channel, no_channels, on_way, put_at, put_by, put_if, put_in, put_on, rows_at, time_on, turn_behind};

use hsr_frame::NoMemory;
use hsr_link::{Dir, Fate, Row};
use hsr_plan_text::{Transfer, Wire};
use hsr_ring::World;
use hsr_topology::{End, Topology};
use hsr_wire::{time_of, wire_octets};
use hsr_world_steps::Step;
use std::alloc::Global;
use std::collections::VecDeque;
use std::marker::Model;

/// A copy that was put: its link and direction, its row there, how many copies were put before it, when it begins to go over its channel,
/// and when the channel is free behind it. Moments are microseconds.
#[derive(Clone, Copy, PartialEq, Eq)]
pub(crate) struct Flight {
    pub(crate) link: usize,
    pub(crate) dir: Dir,
    pub(crate) row: usize,
    pub(crate) turn: u64,
    pub(crate) begins: u64,
    pub(crate) ends: u64,
}

/// The end of a copy's way: its link and direction, how many copies were put before it, and the moment at which it is taken and judged,
/// in microseconds.
#[derive(Clone, Copy, PartialEq, Eq)]
pub(crate) struct Arrival {
    pub(crate) link: usize,
    pub(crate) dir: Dir,
    pub(crate) turn: u64,
    pub(crate) at: u64,
}

/// A channel: the copies that it had to carry and that weren't taken when its last one was put, and that last one.
#[derive(Drop)]
pub(crate) struct Channel {
    pub(crate) waiting: VecDeque<Flight>,
    pub(crate) last: Option<Flight>,
}

impl Model for Channel {
    ghost use Rattle.hsr_plan_hops.specs.Flights.{Channel};

    ghost Value = { Channel };

    ghost view = { λ c. record { waiting = c.waiting.items; last = c.last } };
}

/// The channels of all links, link by link.
#[derive(Drop)]
pub(crate) struct Channels {
    pub(crate) forth: Vec<Channel>,
    pub(crate) back: Vec<Channel>,
}

impl Model for Channels {
    ghost use Rattle.hsr_plan_hops.specs.Flights.{Channels};

    ghost Value = { Channels };

    ghost view = { λ cs. record { forth = cs.forth.items; back = cs.back.items } };
}

// ---- which copies are on their way

/// The rows of a link; none where there is no such link.
fn rows_at<const C: usize>(world: &World<C>, link: usize) -> &[Row]
    ensures { result.now ≡ rows_at world.now link }
{
    if link < world.link_count() {
        world.rows(link)
    } else {
        &[]
    }
}

/// Whether a copy still waits on its link.
fn is_on_way<const C: usize>(world: &World<C>, flight: Flight) -> bool
    ensures { result ≡ is_on_way world.now flight }
{
    match rows_at(world, flight.link).get(flight.row) {
        Some(row) => matches!(row.fate, Fate::Queued),
        None => false,
    }
}

/// How many copies there are before the first that still waits on its link.
#[tactic(auto, using(crate::proofs::OnWay::waits_at, crate::proofs::OnWay::gone_at, crate::proofs::OnWay::all_gone))]
fn landed<const C: usize>(world: &World<C>, flights: &VecDeque<Flight>) -> usize
    ensures { drop result flights.now.items ≡ on_way world.now flights.now.items }
{
    // Copies that were taken, or lost by a cut, stand in front until they are forgotten.
    for place in 0..flights.len() {
        if let Some(flight) = flights.get(place)
            && is_on_way(world, *flight)
        {
            return place;
        }
    }
    flights.len()
}

/// Forgets the first `count` copies.
fn forget(flights: &mut VecDeque<Flight>, count: usize)
    ensures { flights.new.items ≡ drop count flights.old.items }
{
    // Only the number of turns matters: each drops the front.
    for gone in 0..count {
        flights.pop_front();
    }
}

/// Forgets the copies before the first that still waits.
fn forget_landed<const C: usize>(world: &World<C>, flights: &mut VecDeque<Flight>)
    ensures { flights.new.items ≡ on_way world.now flights.old.items }
{
    let count = landed(world, flights);
    forget(flights, count);
}

/// The first copy that still waits; none where none does.
pub(crate) fn first_waiting<const C: usize>(
    world: &World<C>,
    flights: &VecDeque<Flight>,
) -> Option<Flight>
    ensures { result ≡ slice_get (on_way world.now flights.now.items) 0 }
{
    let place = landed(world, flights);
    flights.get(place).copied()
}

// ---- when a copy goes over its channel

/// A moment so many microseconds later, or the last that a number tells.
pub(crate) fn later(at: u64, us: u64) -> u64
    ensures { result ≡ later at us }
{
    at.saturating_add(us)
}

/// Whether a cut took a copy with this fate.
pub(crate) fn is_cut_off(fate: Fate) -> bool
    ensures { result ≡ is_cut_off fate }
{
    matches!(fate, Fate::LostCut)
}

/// From when on a channel is free, behind the copy that was put last.
pub(crate) fn free_behind<const C: usize>(world: &World<C>, last: Option<Flight>) -> u64
    ensures { result ≡ free_behind world.now last }
{
    let Some(flight) = last else {
        return 0;
    };
    match rows_at(world, flight.link).get(flight.row) {
        // A cut leaves nothing on the wire.
        Some(row) if is_cut_off(row.fate) => 0,
        _ => flight.ends,
    }
}

/// When a copy that is put now begins to go, over a channel that is free from a moment on.
pub(crate) fn begins_at(transfer: Transfer, now: u64, free: u64) -> u64
    ensures { result ≡ begins_at transfer now free }
{
    match transfer {
        Transfer::Hop(_) => now,
        Transfer::Wire(_) => now.max(free),
    }
}

/// How many microseconds octets take on a wire, rounded up.
pub(crate) fn time_on(wire: Wire, octets: u64) -> u64
    ensures { result ≡ time_on wire octets }
{
    time_of(wire.rate.max(1), octets)
}

/// When a channel is free behind a copy that begins then.
pub(crate) fn ends_at(transfer: Transfer, begins: u64, octets: &[u8]) -> u64
    ensures { result ≡ ends_at transfer begins octets.now }
{
    match transfer {
        Transfer::Hop(_) => begins,
        Transfer::Wire(wire) => later(begins, time_on(wire, wire_octets(octets))),
    }
}

// ---- channels behind a step

/// How copies move, the moment, and how many copies were put before.
#[derive(Clone, Copy)]
pub(crate) struct Instant {
    pub(crate) transfer: Transfer,
    pub(crate) now: u64,
    pub(crate) turn: u64,
}

/// The copy of a row that a channel, free from a moment on, has to carry from now on.
fn flight_of(instant: Instant, link: usize, dir: Dir, number: usize, free: u64, row: &Row) -> Flight
    ensures { result ≡ flight_of instant.transfer instant.now instant.turn link dir number free row.now }
{
    let begins = begins_at(instant.transfer, instant.now, free);
    Flight {
        link,
        dir,
        row: number,
        turn: instant.turn,
        begins,
        ends: ends_at(instant.transfer, begins, row.carried.octets.as_slice()),
    }
}

impl Channel {
    /// A channel over which nothing was put yet.
    fn new(alloc: Global) -> Channel
        ensures { result ≡ no_channel }
    {
        Channel {
            waiting: VecDeque::new(alloc),
            last: None,
        }
    }

    /// Carries a copy behind the others.
    fn carry<const C: usize>(&mut self, world: &World<C>, flight: Flight) -> Result<(), NoMemory>
        ensures { OnOk result (self.new ≡ carrying world.now self.old flight) }
    {
        forget_landed(world, &mut self.waiting);
        self.waiting.push_back(flight)?;
        self.last = Some(flight);
        Ok(())
    }

    /// Carries the copy of the last row of its link, unless that was lost as it was put.
    fn put<const C: usize>(
        &mut self,
        instant: Instant,
        link: usize,
        dir: Dir,
        world: &World<C>,
    ) -> Result<(), NoMemory>
        ensures { OnOk result (self.new
            ≡ put_on instant.transfer instant.now instant.turn link dir world.now self.old) }
    {
        let rows = rows_at(world, link);
        let number = rows.len().saturating_sub(1);
        let Some(row) = rows.get(number) else {
            return Ok(());
        };
        if !matches!(row.fate, Fate::Queued) {
            return Ok(());
        }
        let free = free_behind(world, self.last);
        self.carry(world, flight_of(instant, link, dir, number, free, row))
    }

    /// Forgets what was taken, or lost by a cut.
    fn keep<const C: usize>(&mut self, world: &World<C>)
        ensures { self.new ≡ kept world.now self.old }
    {
        forget_landed(world, &mut self.waiting);
    }
}

/// Lets the channel of a link carry the copy of the link's last row.
fn put_at<const C: usize>(
    channels: &mut Vec<Channel>,
    instant: Instant,
    link: usize,
    dir: Dir,
    world: &World<C>,
) -> Result<(), NoMemory>
    ensures { OnOk result (channels.new.items
        ≡ put_at instant.transfer instant.now instant.turn link dir world.now channels.old.items) }
{
    if link < channels.len() {
        channels[link].put(instant, link, dir, world)?;
    }
    Ok(())
}

/// Lets the channel of a link forget what was taken, or lost by a cut.
fn keep_at<const C: usize>(channels: &mut Vec<Channel>, link: usize, world: &World<C>)
    ensures { channels.new.items ≡ kept_at link world.now channels.old.items }
{
    if link < channels.len() {
        channels[link].keep(world);
    }
}

/// The direction that leads from an end of a link.
pub(crate) fn dir_from(first: bool) -> Dir
    ensures { result ≡ dir_from first }
{
    if first { Dir::Forth } else { Dir::Back }
}

/// So many channels, without copies.
#[tactic(auto, using(crate::proofs::OnWay::one_more))]
fn empty(alloc: Global, count: usize) -> Result<Vec<Channel>, NoMemory>
    ensures { IfOk result (λ list. list.items ≡ replicate count no_channel) }
{
    let mut list = Vec::new(alloc);
    for _place in 0..count {
        list.push(Channel::new(alloc))?;
    }
    Ok(list)
}

impl Channels {
    /// The channels of links over which nothing was put yet.
    pub(crate) fn new(alloc: Global, links: &[[End; 2]]) -> Result<Channels, NoMemory>
        ensures { IfOk result (λ cs. cs ≡ no_channels links.now) }
    {
        Ok(Channels {
            forth: empty(alloc, links.len())?,
            back: empty(alloc, links.len())?,
        })
    }

    fn put<const C: usize>(
        &mut self,
        instant: Instant,
        link: usize,
        dir: Dir,
        world: &World<C>,
    ) -> Result<(), NoMemory>
        ensures { OnOk result (self.new
            ≡ put_in instant.transfer instant.now instant.turn link dir world.now self.old) }
    {
        match dir {
            Dir::Forth => put_at(&mut self.forth, instant, link, dir, world),
            Dir::Back => put_at(&mut self.back, instant, link, dir, world),
        }
    }

    fn keep<const C: usize>(&mut self, link: usize, dir: Dir, world: &World<C>)
        ensures { self.new ≡ kept_in link dir world.now self.old }
    {
        match dir {
            Dir::Forth => keep_at(&mut self.forth, link, world),
            Dir::Back => keep_at(&mut self.back, link, world),
        }
    }

    /// Lets the channel from an end carry what was put there; none where the end has no link.
    fn put_by<const C: usize>(
        &mut self,
        instant: Instant,
        topology: &Topology,
        end: End,
        world: &World<C>,
    ) -> Result<(), NoMemory>
        ensures { OnOk result (self.new ≡ put_by instant.transfer instant.now instant.turn world.now
            self.old (link_from 0 topology.now.links end)) }
    {
        match topology.link_at(end) {
            None => Ok(()),
            Some((link, first)) => self.put(instant, link, dir_from(first), world),
        }
    }

    /// Follows a step that led to this world.
    pub(crate) fn follow<const C: usize>(
        &mut self,
        instant: Instant,
        topology: &Topology,
        step: &Step,
        world: &World<C>,
    ) -> Result<(), NoMemory>
        ensures { OnOk result (self.new ≡ channels_behind instant.transfer topology.now.links
            instant.now instant.turn step.now world.now self.old) }
    {
        match step {
            Step::Put { node, port } => {
                let end = End {
                    node: *node,
                    port: *port,
                };
                self.put_by(instant, topology, end, world)
            }
            Step::Take { link, dir } => {
                self.keep(*link, *dir, world);
                Ok(())
            }
            Step::Cut { link } => {
                self.keep(*link, Dir::Forth, world);
                self.keep(*link, Dir::Back, world);
                Ok(())
            }
            _ => Ok(()),
        }
    }
}

/// How many copies were put, behind a step.
pub(crate) fn turn_behind(turn: u64, step: &Step) -> u64
    ensures { result ≡ turn_behind turn step.now }
{
    match step {
        Step::Put { .. } => later(turn, 1),
        _ => turn,
    }
}
