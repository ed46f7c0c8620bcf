//! The links that a world begins with.
ghost use Rattle.std.specs.Prelude.{◌≡◌, ◌≤◌, IfOk, map};
ghost use Rattle.hsr_world_links.specs.Views.{lane_view, span_view};
ghost use Rattle.hsr_world_laws.specs.World.{new_lane, new_span};

use crate::lane::Lane;
use crate::span::Span;
use hsr_frame::NoMemory;
use hsr_link::Link;
use hsr_topology::End;
use std::alloc::Global;
use std::collections::VecDeque;

/// A direction from one port to another, with an empty outbox and an empty hand.
fn new_lane(alloc: Global, from: End, to: End) -> Lane
    ensures { lane_view result ≡ new_lane from to }
{
    Lane {
        from,
        to,
        outbox: VecDeque::new(alloc),
        hand: None,
        room: Vec::new(alloc),
    }
}

/// A link with nothing on it, and its two directions.
fn new_span(alloc: Global, capacity: usize, link: &[End; 2]) -> Result<Span, NoMemory>
    requires { (1 ≤ capacity) × (capacity ≤ 4096) }
    ensures { IfOk result (λ span. span_view span ≡ new_span capacity link.now) }
{
    let [a, b] = *link;
    let link = Link::new(alloc, capacity)?;
    Ok(Span {
        link,
        forth: new_lane(alloc, a, b),
        back: new_lane(alloc, b, a),
    })
}

/// A span for each link, with nothing in it and room for `capacity` copies, 1 to 4096, in each direction. `NoMemory` if
/// allocation fails.
pub fn new_spans(alloc: Global, capacity: usize, links: &[[End; 2]]) -> Result<Vec<Span>, NoMemory>
    requires { (1 ≤ capacity) × (capacity ≤ 4096) }
    ensures { IfOk result (λ spans. map span_view spans.items ≡ map (new_span capacity) links.now) }
{
    let mut spans = Vec::new(alloc);
    for link in links.iter() {
        let span = new_span(alloc, capacity, link)?;
        spans.push(span)?;
    }
    Ok(spans)
}

/// Tells each link how many rows are expected on it in all. Nothing else depends on it.
pub fn expect_rows(spans: &mut [Span], rows: usize)
    ensures { map span_view spans.new ≡ map span_view spans.old }
{
    for i in 0..spans.len() {
        spans[i].link.expect(rows);
    }
}
