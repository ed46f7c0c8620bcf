//! Copies that go onto links.
ghost use Rattle.std.specs.Prelude.{◌≡◌, IfOk};
ghost use Rattle.hsr_node.specs.Copies.{copy_octets};

use crate::cells::{Cells, Seat};
use crate::flight::Flight;
use crate::wire::Wire;
use hsr_frame::NoMemory;
use hsr_link::{Dir, Fate};
use hsr_node::{Carried, Entry, Octets, Place, Probe, Receipt, going_on, spelled_out};
use std::alloc::Global;
use std::sync::Wait;

/// A copy that was lost at once, or had no room, is on its way no more.
fn landed(flight: &Flight, put: Result<Fate, (Carried, NoMemory)>) -> Result<(), NoMemory> {
    match put {
        Ok(Fate::Queued) => Ok(()),
        Ok(_lost) => {
            flight.fall(1);
            Ok(())
        }
        Err((_carried, refused)) => {
            flight.fall(1);
            Err(refused)
        }
    }
}

/// Puts a copy on the link of a port. It is counted before it can be taken.
fn put<const C: usize>(
    rt: &impl Wait,
    cells: &Cells<C>,
    wire: Wire,
    carried: Carried,
) -> Result<(), NoMemory> {
    let Some(link) = cells.links.get(wire.link) else {
        return Ok(());
    };
    // Counted before it is put: else another worker could take it, and the count would fall below 0.
    cells.flight.rise();
    landed(&cells.flight, link.put(rt, wire.out, carried))
}

/// Puts octets that no port sent on a link, if it is there.
pub(crate) fn inject<const C: usize>(
    rt: &impl Wait,
    cells: &Cells<C>,
    link: usize,
    dir: Dir,
    octets: &Octets,
) -> Result<(), NoMemory> {
    let octets = octets.clone()?;
    let Some(link) = cells.links.get(link) else {
        return Ok(());
    };
    let carried = Carried {
        probe: None,
        octets,
    };
    // Counted before it is put: else another worker could take it, and the count would fall below 0.
    cells.flight.rise();
    landed(&cells.flight, link.inject(rt, dir, carried))
}

/// The octets that leave a place by a port after an entry, if some do.
fn octets_out(
    alloc: Global,
    place: &Place,
    entry: &Entry,
    port: u8,
) -> Result<Option<Octets>, NoMemory>
    ensures { IfOk result (λ octets. octets ≡ copy_octets place.now entry.now.event entry.now.outcome port) }
{
    // What goes on as it came stands where it came, so that the copies of a send share their room.
    if let Some(octets) = going_on(place, &entry.event, &entry.outcome, port) {
        return Ok(Some(octets.clone()?));
    }
    let Some(spelled) = spelled_out(place, &entry.event, &entry.outcome, port) else {
        return Ok(None);
    };
    Ok(Some(Octets::from_spelled(alloc, &spelled)?))
}

/// Puts on its link what leaves a node by a port.
fn put_out<const C: usize>(
    rt: &impl Wait,
    alloc: Global,
    cells: &Cells<C>,
    place: &Place,
    receipt: &Receipt,
    port: u8,
    wire: Wire,
) -> Result<(), NoMemory> {
    let entry = &receipt.entry;
    let Some(octets) = octets_out(alloc, place, entry, port)? else {
        return Ok(());
    };
    let carried = Carried {
        probe: entry.event.probe(Probe {
            node: receipt.node,
            place: receipt.place,
        }),
        octets,
    };
    put(rt, cells, wire, carried)
}

/// Puts on their links all copies that leave a node by an entry. What leaves by a port without a link goes nowhere.
pub(crate) fn put_all<const C: usize>(
    rt: &impl Wait,
    alloc: Global,
    cells: &Cells<C>,
    seat: &Seat<C>,
    receipt: &Receipt,
) -> Result<(), NoMemory> {
    // No lock of the node is held here: what leaves is spelled from the receipt.
    for (port, wire) in seat.wires.iter().enumerate() {
        if let Some(wire) = *wire {
            put_out(rt, alloc, cells, &seat.place, receipt, port as u8, wire)?;
        }
    }
    Ok(())
}
