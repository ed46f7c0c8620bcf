//! The octets, the nodes and the sends that these tests share. If allocation fails, each is asked for again.
ghost use Rattle.hsr_node.specs.Place.{HasOwnAddress};

use hsr_frame::{Mac, Mode};
use hsr_node::{Carried, Event, Kept, Octets, Place};
use std::alloc::Global;

/// A DANH whose address ends in this octet.
pub fn danh(octet: u8) -> Place
    ensures { HasOwnAddress result }
{
    Place::Danh {
        mac: Mac::new([2, 0, 0, 0, 0, octet]),
        mode: Mode::H,
    }
}

/// Two octets.
pub fn octets(alloc: Global) -> Option<Octets> {
    match Octets::from_slice(alloc, &[0xAA, 0xBB]) {
        Ok(octets) => Some(octets),
        Err(_refused) => Octets::from_slice(alloc, &[0xAA, 0xBB]).ok(),
    }
}

/// A copy of no send.
pub fn carried(alloc: Global) -> Option<Carried> {
    Some(Carried {
        probe: None,
        octets: octets(alloc)?,
    })
}

/// A group.
pub fn group() -> Mac {
    Mac::new([1, 0, 0x5E, 0, 0, 1])
}

/// A send to a group.
pub fn send_event(alloc: Global) -> Option<Event> {
    Some(Event::Send {
        from: 0,
        dst: group(),
        vlan: None,
        kind: 0x0800,
        payload: octets(alloc)?,
    })
}

/// A node that did nothing.
pub fn kept(alloc: Global) -> Option<Kept<4>> {
    match Kept::new(alloc, 0, danh(1)) {
        Ok(kept) => Some(kept),
        Err(_refused) => Kept::new(alloc, 0, danh(1)).ok(),
    }
}
