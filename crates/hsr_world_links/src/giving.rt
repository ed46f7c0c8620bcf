//! What a new entry of a node gives to the spans.
//!
//! An entry is made in two phases. First all room is made, which may be refused (`prepare`). Then the node's step is done,
//! and the copies are put into that room, which can't fail (`commit`). So nothing has to be undone.
ghost use Rattle.std.specs.Prelude.{◌≡◌, OnOk, length, map};
ghost use Rattle.hsr_world_links.specs.Giving.{AreReady, IsSpanReady, given_span, receipt_of};
ghost use Rattle.hsr_world_links.specs.Touching.{AreRising, touching_from};
ghost use Rattle.hsr_world_links.specs.Views.{span_view};

use crate::lane::{commit_lane, prepare_lane};
use crate::span::Span;
use hsr_frame::NoMemory;
use hsr_node::{Entry, Place, Probe};
use std::alloc::Global;

/// Makes room for one more copy in each direction in which this node sends.
fn prepare_span(span: &mut Span, node: usize) -> Result<(), NoMemory>
    ensures view { span_view span.new ≡ span_view span.old }
    ensures ready { OnOk result (IsSpanReady node span.new) }
{
    prepare_lane(&mut span.forth, node)?;
    prepare_lane(&mut span.back, node)
}

/// The copies of an entry join the outboxes of both directions, where its node sends there.
fn commit_span(alloc: Global, span: &mut Span, place: &Place, here: Probe, entry: &Entry)
    requires { IsSpanReady here.node span.old }
    ensures { span_view span.new ≡ given_span place.now (receipt_of here entry.now) span.old }
{
    commit_lane(alloc, &mut span.forth, place, here, entry);
    commit_lane(alloc, &mut span.back, place, here, entry);
}

/// Makes room for one more copy wherever a node sends at these links. `NoMemory` if allocation fails; no copy is changed.
/// Room that isn't needed stays for the next entry.
pub fn prepare(spans: &mut [Span], links: &[usize], node: usize) -> Result<(), NoMemory>
    requires { AreRising (length spans.old) links.now }
    ensures view { map span_view spans.new ≡ map span_view spans.old }
    ensures ready { OnOk result (AreReady node links.now spans.new) }
{
    for link in links.iter() {
        prepare_span(&mut spans[*link], node)?;
    }
    Ok(())
}

/// The copies of an entry join the outboxes of the ports that they left by, at the links that touch its node, where room was
/// made for them; `here` names the entry.
pub fn commit(
    alloc: Global,
    spans: &mut [Span],
    links: &[usize],
    place: &Place,
    here: Probe,
    entry: &Entry,
)
    requires touching { links.now ≡ touching_from here.node 0 (map span_view spans.old) }
    requires ready { AreReady here.node links.now spans.old }
    ensures { map span_view spans.new ≡ map
        (given_span place.now (receipt_of here entry.now)) spans.old }
{
    for link in links.iter() {
        commit_span(alloc, &mut spans[*link], place, here, entry);
    }
}
