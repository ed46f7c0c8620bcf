//! By how much the clock rises.
ghost use Rattle.std.specs.Prelude.{◌≡◌, ◌+◌, min};
ghost use Rattle.hsr_plays.specs.Spans.{moment_behind};
ghost use Rattle.hsr_certify.specs.Firsts.{first_send};
ghost use Rattle.hsr_certify.specs.Tests.{first_back, is_brief, least_behind, rises_less, stays_below, was_lately};

use crate::spans::inner_steps;
use hsr_duptable::ENTRY_FORGET;
use hsr_plays::SendSpan;
use hsr_scenario::Order;
use hsr_send_spans::{above, first_steps, moment_after, steps_from};
use hsr_tables::NODE_FORGET;

/// The first step that sets the clock back.
pub(crate) fn first_back(orders: &[Order]) -> Option<usize>
    ensures { result ≡ first_back 0 0 orders.now }
{
    let mut moment = 0;
    for (i, order) in orders.iter().enumerate() {
        let after = moment_after(moment, order);
        if after < moment {
            return Some(i);
        }
        moment = after;
    }
    None
}

/// The earlier of two moments.
fn earlier(a: u64, b: u64) -> u64
    ensures { result ≡ min a b }
{
    if a <= b { a } else { b }
}

/// Whether behind each of these steps the moment is less than so much above the least so far, where the first is done at a moment.
fn rises_less(limit: u64, start: u64, steps: &[Order]) -> bool
    ensures { result ≡ rises_less limit start start steps.now }
{
    let mut least = start;
    let mut moment = start;
    let mut rest = steps;
    // What is left is a variable, since the loop's invariant speaks of it.
    while let Some((order, more)) = rest.split_first() {
        moment = moment_after(moment, order);
        least = earlier(least, moment);
        // No sum: a moment may be the greatest that there is.
        if moment - least >= limit {
            return false;
        }
        rest = more;
    }
    true
}

/// Whether the clock rises by less than 400 milliseconds in the span of a send.
fn is_brief(orders: &[Order], span: &SendSpan) -> bool
    ensures { result ≡ is_brief orders.now span.now }
{
    rises_less(ENTRY_FORGET, span.moment, inner_steps(orders, span))
}

/// The first send in whose span the clock rises by 400 milliseconds or more.
pub(crate) fn first_late(orders: &[Order], spans: &[SendSpan]) -> Option<usize>
    ensures { result ≡ first_send (is_brief orders.now) spans.now }
{
    // The index is used by the loop's invariant alone.
    for (i, span) in spans.iter().enumerate() {
        if !is_brief(orders, span) {
            return Some(span.index);
        }
    }
    None
}

/// The least moment behind these steps, or before them.
fn least_behind(start: u64, steps: &[Order]) -> u64
    ensures { result ≡ least_behind start start steps.now }
{
    let mut least = start;
    let mut moment = start;
    let mut rest = steps;
    // What is left is a variable, since the loop's invariant speaks of it.
    while let Some((order, more)) = rest.split_first() {
        moment = moment_after(moment, order);
        least = earlier(least, moment);
        rest = more;
    }
    least
}

/// The moment behind these steps, the first of which is done at a moment.
fn moment_behind(start: u64, steps: &[Order]) -> u64
    ensures { result ≡ moment_behind start steps.now }
{
    let mut moment = start;
    let mut rest = steps;
    // What is left is a variable, since the loop's invariant speaks of it.
    while let Some((order, more)) = rest.split_first() {
        moment = moment_after(moment, order);
        rest = more;
    }
    moment
}

/// Whether behind each of these steps, the first of which is done at a moment, the clock is less than so much above another.
fn stays_near(least: u64, limit: u64, start: u64, steps: &[Order]) -> bool
    ensures { result ≡ stays_below (least + limit) start steps.now }
{
    let mut moment = start;
    let mut rest = steps;
    // What is left is a variable, since the loop's invariant speaks of it.
    while let Some((order, more)) = rest.split_first() {
        moment = moment_after(moment, order);
        // No sum: a moment may be the greatest that there is.
        if moment >= least && moment - least >= limit {
            return false;
        }
        rest = more;
    }
    true
}

/// Whether since any time of a span, up to the step at an index, the clock rose by less than a RedBox remembers an address.
pub(crate) fn was_lately(orders: &[Order], index: usize, span: &SendSpan) -> bool
    ensures { result ≡ was_lately orders.now index span.now }
{
    let inner = inner_steps(orders, span);
    let behind = first_steps(steps_from(orders, span.end), above(index, span.end));
    rises_less(NODE_FORGET, span.moment, inner)
        && stays_near(
            least_behind(span.moment, inner),
            NODE_FORGET,
            moment_behind(span.moment, inner),
            behind,
        )
}
