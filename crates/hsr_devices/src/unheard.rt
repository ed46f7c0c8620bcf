//! Of whom supervision never told a node.
ghost use Rattle.std.specs.Prelude.{◌≡◌, ◌<◌, length, reverse, IfOk};
ghost use Rattle.std.specs.List.{list_any};
ghost use Rattle.hsr_run_laws.specs.Run.{place_of};
ghost use Rattle.hsr_supervision.specs.Payload.{read_of};
ghost use Rattle.hsr_devices.specs.Told.{about_of, is_mac, told_by, told_in};
ghost use Rattle.hsr_devices.specs.Unheard.{is_told_of, is_unheard, is_unheard_of, unheard};

use crate::known::hears_on;
use hsr_finished_run::{Closed, push_if};
use hsr_frame::{FrameFault, Mac, NoMemory, is_supervision};
use hsr_node::{Entry, Event, Place};
use hsr_supervision::Supervision;
use hsr_tag::{EitherView, SeenView, look_at};
use std::alloc::Global;

/// The address that a payload is about, if it can be read.
fn about_in(payload: &[u8]) -> Option<Mac>
    ensures { result ≡ about_of (read_of payload.now) }
{
    match Supervision::read(payload) {
        Ok(said) => Some(said.about),
        Err(_) => None,
    }
}

/// The address that what came is about, if it is a supervision frame of another node than the one with this address.
fn told_in(own: Mac, seen: &Result<SeenView<'_>, FrameFault>) -> Option<Mac>
    ensures { result ≡ told_in own seen.now }
{
    let Ok(seen) = seen else {
        return None;
    };
    match &seen.frame {
        EitherView::Tagged(frame) if is_supervision(frame.dst, frame.kind) && frame.src != own => {
            about_in(frame.payload.as_slice())
        }
        _ => None,
    }
}

/// The address of which an event told a node by supervision.
fn told_by(place: &Place, event: &Event) -> Option<Mac>
    ensures { result ≡ told_by place.now event.now }
{
    let Event::Arrive { port, carried } = event else {
        return None;
    };
    let ear = hears_on(place, *port)?;
    told_in(ear.0, &look_at(carried.octets.as_slice()))
}

/// Whether an event told a node of an address.
fn tells(place: &Place, event: &Event, mac: Mac) -> bool
    ensures { result ≡ is_mac mac (told_by place.now event.now) }
{
    match told_by(place, event) {
        Some(other) => other == mac,
        None => false,
    }
}

/// Whether an entry of a record told its node of an address.
fn any_tells(place: &Place, entries: &[Entry], mac: Mac) -> bool
    ensures { result ≡ list_any (λ entry. is_mac mac (told_by place.now entry.event)) entries.now }
{
    entries.iter().any(|entry| tells(place, &entry.event, mac))
}

/// Whether supervision told a node of an address.
fn is_told_of(place: &Place, entries: &[Entry], mac: Mac) -> bool
    ensures { result ≡ is_told_of place.now (reverse entries.now) mac }
{
    // The definition reads the newest entry first; here the order doesn't matter.
    any_tells(place, entries, mac)
}

/// Whether another node speaks for itself by supervision, and none of it came to a node.
fn is_unheard_of(place: &Place, entries: &[Entry], other: &Place) -> bool
    ensures { result ≡ is_unheard_of place.now (reverse entries.now) other.now }
{
    match other {
        Place::Danh { mac, .. } | Place::RedBox { mac, .. } => !is_told_of(place, entries, *mac),
        // Supervision about a Station is its RedBox's.
        Place::QuadBox | Place::Station { .. } => false,
    }
}

/// Whether a node is another one that speaks for itself, of which supervision never told this one.
fn is_unheard<const C: usize>(
    closed: &Closed<C>,
    node: usize,
    place: &Place,
    number: usize,
    other: &Place,
) -> bool
    requires below { node < length closed.now.run.places }
    requires place { place.now ≡ place_of closed.now.run node }
    requires other { other.now ≡ place_of closed.now.run number }
    ensures { result ≡ is_unheard closed.now.run node number }
{
    // Its whole record counts: a node table forgets after a minute, so it doesn't tell this.
    number != node && is_unheard_of(place, closed.entries(node), other)
}

/// The DANHs and RedBoxes of which supervision never told a node, by number.
#[tactic(auto, using(hsr_frame::proofs::OneMore::passing_more))]
pub(crate) fn unheard<const C: usize>(
    alloc: Global,
    closed: &Closed<C>,
    node: usize,
    place: &Place,
) -> Result<Vec<usize>, NoMemory>
    requires below { node < length closed.now.run.places }
    requires place { place.now ≡ place_of closed.now.run node }
    ensures { IfOk result (λ nodes. nodes.items ≡ unheard closed.now.run node) }
{
    let mut nodes = Vec::new(alloc);
    for (number, other) in closed.topology().places().iter().enumerate() {
        push_if(
            &mut nodes,
            is_unheard(closed, node, place, number, other),
            number,
        )?;
    }
    Ok(nodes)
}
