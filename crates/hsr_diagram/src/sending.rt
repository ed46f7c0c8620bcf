//! The sends that are listed beside a picture.
ghost use Rattle.std.specs.Prelude.{◌≡◌, ◌++◌, IfOk, OnOk};
ghost use Rattle.hsr_timeline.specs.Fronts.{lists_of};
ghost use Rattle.hsr_timeline.specs.Stamps.{at_spot};
ghost use Rattle.hsr_diagram.specs.Sends.{is_among, is_listed, is_stamp_in, sent_if, sents};

use crate::span::Span;
use hsr_deliveries::Delivery;
use hsr_frame::NoMemory;
use hsr_node::Probe;
use hsr_timeline::{Spot, Stamp, stamp_at};
use std::alloc::Global;

/// A send that is listed: its index among the deliveries of the run, and the stamp of its entry.
#[derive(Clone, Copy, PartialEq, Eq)]
pub struct Sent {
    pub number: usize,
    pub start: Option<Stamp>,
}

/// Whether a send is one of these, by its node and its place.
pub fn is_among(sends: &[Probe], send: Probe) -> bool
    ensures { result ≡ is_among sends.now send }
{
    // The index is used by the loop's invariant alone.
    for (i, one) in sends.iter().enumerate() {
        if one.node == send.node && one.place == send.place {
            return true;
        }
    }
    false
}

/// Whether a moment is of a span, if there is one.
fn is_stamp_in(span: Span, start: Option<Stamp>) -> bool
    ensures { result ≡ is_stamp_in span start }
{
    match start {
        Some(stamp) => span.has(stamp.moment),
        None => false,
    }
}

/// Whether a send is listed.
fn is_listed(sends: &[Probe], span: Span, send: Probe, start: Option<Stamp>) -> bool
    ensures { result ≡ is_listed sends.now span send start }
{
    // Sends that are asked for are listed whatever their moments.
    if sends.is_empty() {
        is_stamp_in(span, start)
    } else {
        is_among(sends, send)
    }
}

/// Puts a send last, if it is listed.
fn add_if(
    list: &mut Vec<Sent>,
    sends: &[Probe],
    span: Span,
    number: usize,
    send: Probe,
    start: Option<Stamp>,
) -> Result<(), NoMemory>
    ensures { OnOk result (list.new.items ≡ list.old.items
        ++ sent_if sends.now span number send start) }
{
    if is_listed(sends, span, send, start) {
        list.push(Sent { number, start })?;
    }
    Ok(())
}

/// The sends that are listed.
pub(crate) fn sents(
    alloc: Global,
    stamps: &[Vec<Stamp>],
    sends: &[Probe],
    span: Span,
    deliveries: &[Delivery],
) -> Result<Vec<Sent>, NoMemory>
    ensures { IfOk result (λ list. list.items
        ≡ sents (at_spot (lists_of stamps.now)) sends.now span deliveries.now) }
{
    let mut list = Vec::new(alloc);
    for (i, delivery) in deliveries.iter().enumerate() {
        let Probe { node, place } = delivery.send;
        let start = stamp_at(stamps, Spot { node, place });
        add_if(&mut list, sends, span, i, delivery.send, start)?;
    }
    Ok(list)
}
