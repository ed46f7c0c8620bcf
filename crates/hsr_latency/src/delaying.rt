//! How long each send took that came to a node.
ghost use Rattle.std.specs.Prelude.{◌≡◌, ◌++◌, IfOk, OnOk};
ghost use Rattle.hsr_run_laws.specs.Once.{delivers};
ghost use Rattle.hsr_run_laws.specs.Run.{is_of, record_of};
ghost use Rattle.hsr_latency.specs.Delays.{counts, delay_at, delay_of, delays, own_times, send_in};

use crate::delay::{Arrivals, Delay};
use hsr_deliveries::{Tally, taken_up};
use hsr_frame::NoMemory;
use hsr_moments::Moments;
use hsr_node::{Entry, Event, Probe};
use std::alloc::Global;

/// The send of a copy that came.
fn send_in(event: &Event) -> Option<Probe>
    ensures { result ≡ send_in event.now }
{
    match event {
        Event::Arrive { port: _, carried } => carried.probe,
        _ => None,
    }
}

/// Whether a copy is of a send.
fn is_of(send: Probe, probe: Option<Probe>) -> bool
    ensures { result ≡ is_of send probe }
{
    match probe {
        None => false,
        Some(probe) => probe.node == send.node && probe.place == send.place,
    }
}

/// Whether an entry is an arrival of a send that went up.
fn delivers(send: Probe, x: &Entry) -> bool
    ensures { result ≡ delivers send x.now }
{
    is_of(send, taken_up(x))
}

/// How many copies of a send went up with an entry.
fn own_times(send: Probe, x: &Entry) -> usize
    ensures { result ≡ own_times send x.now }
{
    if delivers(send, x) { 1 } else { 0 }
}

/// Whether an arrival of a send is looked at, in the record that was tallied.
fn counts(which: Arrivals, tally: &Tally<'_>, x: &Entry, send: Probe) -> bool
    ensures { result ≡ counts which tally.now x.now send }
{
    match which {
        Arrivals::Up => delivers(send, x),
        // This copy itself, where it went up, is no other.
        Arrivals::Second => own_times(send, x) < tally.times(send),
    }
}

/// How long a send took up to an arrival of it.
fn delay_at<const C: usize>(moments: &Moments<'_, C>, here: Probe, send: Probe) -> Delay
    ensures { result ≡ delay_at moments.now here send }
{
    // A clock that goes back may let a copy come before its send's moment.
    let time = moments.at(here).saturating_sub(moments.at(send));
    Delay { send, time }
}

/// Puts last how long the send took that came with the entry at a place, if it is an arrival that is looked at.
#[tactic(auto, unfolding(crate::specs::Delays::delay_of))]
fn add_if<const C: usize>(
    list: &mut Vec<Delay>,
    which: Arrivals,
    moments: &Moments<'_, C>,
    tally: &Tally<'_>,
    here: Probe,
    x: &Entry,
) -> Result<(), NoMemory>
    requires { tally.now ≡ record_of moments.now here.node }
    ensures { OnOk result (list.new.items ≡ list.old.items
        ++ delay_of which moments.now here x.now) }
{
    let Some(send) = send_in(&x.event) else {
        return Ok(());
    };
    if counts(which, tally, x, send) {
        list.push(delay_at(moments, here, send))?;
    }
    Ok(())
}

/// How long each send took that came to a node by an arrival that is looked at.
pub(crate) fn delays<const C: usize>(
    alloc: Global,
    which: Arrivals,
    moments: &Moments<'_, C>,
    tally: &Tally<'_>,
    node: usize,
    entries: &[Entry],
) -> Result<Vec<Delay>, NoMemory>
    requires tally { tally.now ≡ record_of moments.now node }
    requires entries { entries.now ≡ record_of moments.now node }
    ensures { IfOk result (λ list. list.items ≡ delays which moments.now node) }
{
    let mut list = Vec::new(alloc);
    for (i, x) in entries.iter().enumerate() {
        let here = Probe { node, place: i };
        add_if(&mut list, which, moments, tally, here, x)?;
    }
    Ok(list)
}
