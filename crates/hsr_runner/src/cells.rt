//! The nodes and links of a scenario, each under a lock.
ghost use Rattle.std.specs.Prelude.{◌≡◌, ◌≤◌, All, IfOk, length, vec_len};
ghost use Rattle.hsr_duptable.specs.Table.{IsTableSize};
ghost use Rattle.hsr_node.specs.Place.{HasOwnAddress};

use crate::flight::Flight;
use crate::wire::{Wire, wires_of};
use hsr_frame::NoMemory;
use hsr_link::{Link, LinkCell, Row};
use hsr_node::{Kept, NodeCell, Place};
use hsr_topology::Topology;
use std::alloc::Global;
use std::sync::Wait;
use std::sync::atomic::{AtomicU64, Ordering};
use std::thread::Parker;

/// Where a node stands, the node under its lock, where its ports lead, and its ager, which waits for its next turn.
#[derive(Drop)]
pub(crate) struct Seat<const C: usize> {
    pub(crate) place: Place,
    pub(crate) cell: NodeCell<C>,
    pub(crate) wires: [Option<Wire>; 4],
    pub(crate) ager: Parker,
}

/// What all threads share: nodes and links, each under a lock of its own, the clock word, which gives the moment that an event
/// carries, and the count of copies on their way.
#[derive(Drop)]
pub(crate) struct Cells<const C: usize> {
    pub(crate) seats: Vec<Seat<C>>,
    pub(crate) links: Vec<LinkCell>,
    clock: AtomicU64,
    pub(crate) flight: Flight,
}

/// A new node under its lock.
fn cell_of<const C: usize>(
    alloc: Global,
    node: usize,
    place: &Place,
) -> Result<NodeCell<C>, NoMemory>
    requires entries { IsTableSize C }
    requires own { HasOwnAddress place.now }
{
    Ok(NodeCell::new(Kept::new(alloc, node, place.copy()?)?))
}

/// The seat of a node.
fn seat_of<const C: usize>(
    alloc: Global,
    topology: &Topology,
    node: usize,
    place: &Place,
) -> Result<Seat<C>, NoMemory>
    requires entries { IsTableSize C }
    requires own { HasOwnAddress place.now }
{
    let cell = cell_of(alloc, node, place)?;
    Ok(Seat {
        place: place.copy()?,
        cell,
        wires: wires_of(topology, node),
        ager: Parker::new(),
    })
}

/// A seat for each node of a topology.
fn seats_of<const C: usize>(alloc: Global, topology: &Topology) -> Result<Vec<Seat<C>>, NoMemory>
    requires entries { IsTableSize C }
    ensures { IfOk result (λ seats. vec_len seats ≡ length topology.now.places) }
{
    let mut seats = Vec::new(alloc);
    for (node, place) in topology.places().iter().enumerate() {
        seats.push(seat_of(alloc, topology, node, place)?)?;
    }
    Ok(seats)
}

/// `count` links, each with room for `capacity` copies in each direction.
fn links_of(alloc: Global, count: usize, capacity: usize) -> Result<Vec<LinkCell>, NoMemory>
    requires { (1 ≤ capacity) × (capacity ≤ 4096) }
    ensures { IfOk result (λ links. vec_len links ≡ count) }
{
    let mut links = Vec::new(alloc);
    for _ in 0..count {
        links.push(LinkCell::new(Link::new(alloc, capacity)?))?;
    }
    Ok(links)
}

/// The nodes with their records, out of their locks.
fn kept_of<const C: usize>(alloc: Global, seats: Vec<Seat<C>>) -> Result<Vec<Kept<C>>, NoMemory> {
    let mut kept = Vec::new(alloc);
    // Locks are opened only here, when all threads are joined: nobody holds one.
    for seat in seats {
        kept.push(seat.cell.into_kept())?;
    }
    Ok(kept)
}

/// The rows of the links, out of their locks.
fn rows_of(alloc: Global, links: Vec<LinkCell>) -> Result<Vec<Vec<Row>>, NoMemory> {
    let mut rows = Vec::new(alloc);
    for cell in links {
        rows.push(cell.into_link().into_rows())?;
    }
    Ok(rows)
}

impl<const C: usize> Cells<C> {
    /// The nodes and links of a topology, with room for `capacity` copies in each direction of a link, at moment 0.
    pub(crate) fn new(
        alloc: Global,
        topology: &Topology,
        capacity: usize,
    ) -> Result<Cells<C>, NoMemory>
        requires entries { IsTableSize C }
        requires room { (1 ≤ capacity) × (capacity ≤ 4096) }
        ensures nodes { IfOk result (λ cells. vec_len cells.seats ≡ length topology.now.places) }
        ensures links { IfOk result (λ cells. vec_len cells.links ≡ length topology.now.links) }
    {
        let seats = seats_of(alloc, topology)?;
        let links = links_of(alloc, topology.links().len(), capacity)?;
        Ok(Cells {
            seats,
            links,
            clock: AtomicU64::new(0),
            flight: Flight::new(),
        })
    }

    /// The moment that the clock word has, in microseconds.
    pub(crate) fn moment(&self) -> u64 {
        self.clock.load(Ordering::SeqCst)
    }

    /// Sets the clock word, and gives each ager a turn.
    pub(crate) fn set_clock(&self, at: u64) {
        // The word is set before the agers wake, so that they see the new moment.
        self.clock.store(at, Ordering::SeqCst);
        self.wake_agers();
    }

    fn wake_agers(&self) {
        for seat in self.seats.iter() {
            seat.ager.unpark();
        }
    }

    /// Says "stop" to all: the agers get their last turn, and nobody waits for a copy any more.
    pub(crate) fn close(&self, rt: &impl Wait) {
        // "Stop" is said first, so that who wakes finds it.
        self.flight.stop();
        self.wake_agers();
        for link in self.links.iter() {
            link.close(rt);
        }
    }

    /// What the nodes did, and what became of the copies on the links.
    pub(crate) fn left(self, alloc: Global) -> Result<(Vec<Kept<C>>, Vec<Vec<Row>>), NoMemory> {
        let kept = kept_of(alloc, self.seats)?;
        let rows = rows_of(alloc, self.links)?;
        Ok((kept, rows))
    }
}
