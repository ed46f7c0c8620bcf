//! Whether a world has come to its end.
ghost use Rattle.std.specs.Prelude.{◌≡◌, ◌||◌, map, not};
ghost use Rattle.std.specs.List.{list_any};
ghost use Rattle.hsr_world_laws.specs.Closing.{is_busy, is_busy_lane};
ghost use Rattle.hsr_world_laws.specs.Origin.{has_injected, is_injected};
ghost use Rattle.hsr_world_links.specs.Views.{lane_view, span_view};

use crate::lane::Lane;
use crate::span::Span;
use hsr_finished_run::is_noisy;

/// Whether something waits in the outbox of a direction or in its hand.
fn is_busy_lane(lane: &Lane) -> bool
    ensures { result ≡ is_busy_lane (lane_view lane.now) }
{
    !lane.outbox.is_empty() || lane.hand.is_some()
}

/// Whether something is under way on a link, or waits at its ports.
fn is_busy(span: &Span) -> bool
    ensures { result ≡ is_busy (span_view span.now) }
{
    is_noisy(span.link.rows()) || is_busy_lane(&span.forth) || is_busy_lane(&span.back)
}

/// Whether octets were injected into a link.
fn has_injected(span: &Span) -> bool
    ensures { result ≡ has_injected (span_view span.now) }
{
    span.link.rows().iter().any(|row| row.injected)
}

/// Whether something is under way on one of these links.
fn are_busy(spans: &[Span]) -> bool
    ensures { result ≡ list_any (λ span. is_busy (span_view span)) spans.now }
{
    spans.iter().any(|span| is_busy(span))
}

/// Whether octets were injected into one of these links.
fn were_injected(spans: &[Span]) -> bool
    ensures { result ≡ list_any (λ span. has_injected (span_view span)) spans.now }
{
    spans.iter().any(|span| has_injected(span))
}

/// Whether on these links nothing is under way, nothing waits at their ports, and nothing was injected.
pub fn are_ended(spans: &[Span]) -> bool
    ensures { result ≡ not (list_any is_busy (map span_view spans.now) || is_injected (map span_view spans.now)) }
{
    !(are_busy(spans) || were_injected(spans))
}
