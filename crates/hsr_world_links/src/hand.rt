//! What a receiving port holds.
ghost use Rattle.std.specs.Prelude.{◌≡◌, map, option_map};
ghost use Rattle.hsr_world_links.specs.Giving.{emptied_span};
ghost use Rattle.hsr_world_links.specs.Hands.{hand_in, handed, with_hand};
ghost use Rattle.hsr_world_links.specs.Touching.{touching_from};
ghost use Rattle.hsr_world_laws.specs.Spans.{emptied, lane_of, on_lanes};
ghost use Rattle.hsr_world_links.specs.Views.{lane_view, span_view, spot_view};

use crate::lane::Lane;
use crate::span::Span;
use crate::spot::Spot;
use hsr_link::Dir;
use hsr_node::Carried;
use hsr_topology::End;
use std::mem;

/// Another hand in a direction; the answer is what was in it.
fn change(span: &mut Span, dir: Dir, hand: Option<Carried>) -> Option<Carried>
    ensures was { result ≡ (lane_of dir (span_view span.old)).hand }
    ensures now { span_view span.new ≡ handed dir hand (span_view span.old) }
{
    match dir {
        Dir::Forth => mem::replace(&mut span.forth.hand, hand),
        Dir::Back => mem::replace(&mut span.back.hand, hand),
    }
}

/// Another hand where a port receives; the answer is what was in it. Where it receives nowhere nothing changes.
// Inline, since a call would pass both copies through memory.
#[inline(always)]
pub fn change_hand(spans: &mut [Span], spot: Option<Spot>, hand: Option<Carried>) -> Option<Carried>
    ensures was { result ≡ hand_in (map span_view spans.old) (option_map spot_view spot) }
    ensures now { map span_view spans.new ≡ with_hand hand (map span_view spans.old)
        (option_map spot_view spot) }
{
    match spot {
        // The guard is for the index: a spot of another world changes nothing.
        Some(spot) if spot.link < spans.len() => change(&mut spans[spot.link], spot.dir, hand),
        _ => None,
    }
}

/// The hand of a direction is emptied, where it is that of this port.
fn clear_lane(lane: &mut Lane, end: End)
    ensures { lane_view lane.new ≡ emptied end (lane_view lane.old) }
{
    if lane.to == end {
        lane.hand = None;
    }
}

/// The hands of this port are emptied in both directions.
fn clear_span(span: &mut Span, end: End)
    ensures { span_view span.new ≡ emptied_span end span.old }
{
    clear_lane(&mut span.forth, end);
    clear_lane(&mut span.back, end);
}

/// What the port at an end holds leaves its hand, at the links that touch its node.
pub fn clear(spans: &mut [Span], links: &[usize], end: End)
    requires { links.now ≡ touching_from end.node 0 (map span_view spans.old) }
    ensures { map span_view spans.new ≡ map (on_lanes (emptied end)) (map span_view spans.old) }
{
    // Only the links of the node: at all others the change does nothing.
    for link in links.iter() {
        clear_span(&mut spans[*link], end);
    }
}
