//! What an entry asks of the notes of its node, and what it adds to them.
ghost use Rattle.std.specs.Prelude.{◌≡◌, ◌≤◌, if◌then◌else◌, is_some};
ghost use Rattle.hsr_frame.specs.Egress.{no_exits};
ghost use Rattle.hsr_table_demand.specs.Read.{heard_in, noted_at, noted_in, reading};
ghost use Rattle.hsr_node.specs.Copies.{ring_address};
ghost use Rattle.hsr_node.specs.Record.{key_handled, key_in, number_in, own_key};

use crate::wanted::wanted_from;
use hsr_forwarding::learn;
use hsr_frame::{Exits, FrameFault};
use hsr_node::{Entry, Event, Outcome, Place, Probe};
use hsr_tables::ProxyTable;
use hsr_tag::{EitherView, SeenView, look_at};
use std::marker::Model;

/// Where what came is wanted, the send that an entry's frame is of, and where it was noted.
#[derive(Clone, Copy)]
pub struct Reading {
    pub wanted: Exits,
    pub send: Option<Probe>,
    pub noted: Exits,
}

impl Model for Reading {
    ghost use Rattle.hsr_table_demand.specs.Read.{Reading};

    ghost Value = { Reading };

    ghost view = { λ r. record { wanted = r.wanted; send = r.send; noted = r.noted } };

    ghost inverse = { λ r. record { wanted = r.wanted; send = r.send; noted = r.noted } };
}

/// Hears what came to the interlink of a RedBox, at an effective moment in microseconds.
pub fn hear(stations: &mut ProxyTable, place: &Place, at: u64, event: &Event)
    requires { stations.old.last ≤ at }
    ensures { stations.new ≡ heard_in place.now at event.now stations.old }
{
    // Port 2 is the interlink.
    if let (Place::RedBox { mac, .. }, Event::Arrive { port: 2, carried }) = (place, event) {
        learn(stations, *mac, &look_at(carried.octets.as_slice()), at);
    }
}

/// Whether a frame of the node's own got a number.
fn is_own_numbered(place: &Place, outcome: &Outcome) -> bool
    ensures { result ≡ is_some (own_key (ring_address place.now) (number_in outcome.now)) }
{
    match place {
        Place::Danh { .. } | Place::RedBox { .. } => outcome.number().is_some(),
        Place::QuadBox | Place::Station { .. } => false,
    }
}

/// Whether what came has a sequence number: a tagged frame has its own, a plain one that which its node gave it (`seq`),
/// if it gave one. Octets that are no frame have none.
fn is_numbered(seen: &Result<SeenView<'_>, FrameFault>, seq: Option<u16>) -> bool
    ensures { result ≡ is_some (key_in seen.now seq) }
{
    let Ok(seen) = seen else {
        return false;
    };
    match &seen.frame {
        EitherView::Tagged(_) => true,
        EitherView::Plain(_) => seq.is_some(),
    }
}

/// Where what has this outcome is noted, if it has a number: where it left, and on an interlink too if it came from
/// there and got its number.
pub fn noted_at(outcome: &Outcome) -> Exits
    ensures { result ≡ noted_at outcome.now }
{
    let (up, ports, is_given) = match outcome {
        Outcome::Sent { ports, .. } => (false, *ports, false),
        Outcome::Life { ports, .. } => (false, *ports, false),
        Outcome::Judged { up, ports, seq, .. } => (*up, *ports, seq.is_some()),
        Outcome::Aged => (false, [false, false, false, false], false),
    };
    let [a, b, c, d] = ports;
    Exits {
        up,
        a,
        b,
        // On the interlink too, so that a copy that comes round the ring isn't given back there.
        c: c || is_given,
        d,
    }
}

/// Where what has this outcome is noted.
fn noted_if(is_numbered: bool, outcome: &Outcome) -> Exits
    ensures { result ≡ (if is_numbered then noted_at outcome.now else no_exits) }
{
    if is_numbered {
        noted_at(outcome)
    } else {
        Exits::none()
    }
}

/// Reads an entry that stands here, by the stations that are known at its effective moment in microseconds.
pub fn read(place: &Place, stations: &ProxyTable, at: u64, here: Probe, x: &Entry) -> Reading
    requires { stations.now.last ≤ at }
    ensures { result ≡ reading place.now stations.now at here x.now }
{
    match &x.event {
        Event::Arrive { port, carried } => {
            let seen = look_at(carried.octets.as_slice());
            let has_number = match &x.outcome {
                Outcome::Judged { seq, .. } => is_numbered(&seen, *seq),
                outcome => is_own_numbered(place, outcome),
            };
            Reading {
                wanted: wanted_from(place, stations, at, *port, &seen),
                send: carried.probe,
                noted: noted_if(has_number, &x.outcome),
            }
        }
        _ => Reading {
            wanted: Exits::none(),
            send: Some(here),
            noted: noted_if(is_own_numbered(place, &x.outcome), &x.outcome),
        },
    }
}
