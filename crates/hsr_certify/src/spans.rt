//! The steps of the span of a send.
ghost use Rattle.std.specs.Prelude.{◌≡◌, ◌+◌, drop};
ghost use Rattle.hsr_certify.specs.Tests.{inner_steps};

use hsr_plays::SendSpan;
use hsr_scenario::Order;
use hsr_send_spans::first_steps;

/// The steps behind the one at an index.
fn steps_behind(orders: &[Order], index: usize) -> &[Order]
    ensures { result.now ≡ drop (index + 1) orders.now }
{
    // No sum, unless it is within the steps.
    if index < orders.len() {
        &orders[index + 1..]
    } else {
        &orders[orders.len()..]
    }
}

/// The steps between a send and the one that ends its span.
pub(crate) fn inner_steps<'a>(orders: &'a [Order], span: &SendSpan) -> &'a [Order]
    ensures { result.now ≡ inner_steps orders.now span.now }
{
    let count = if span.index < span.end {
        span.end - span.index - 1
    } else {
        0
    };
    first_steps(steps_behind(orders, span.index), count)
}
