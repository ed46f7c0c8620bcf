//! Where an order of a plan comes from: who sends, when, and from which stream, or as supervision.
ghost use Rattle.std.specs.Prelude.{◌≡◌, count_by, take};
ghost use Rattle.hsr_plays.specs.Spans.{moment_after, moment_behind};
ghost use Rattle.hsr_plan_certify.specs.Origins.{is_frame, origin_by, origin_of, stream_at};

use hsr_plan_schedule::Meaning;
use hsr_scenario::Order;
use hsr_world_steps::Step;

/// Why something is sent.
#[derive(Clone, Copy, PartialEq, Eq)]
pub(crate) enum Cause {
    /// It is a frame of the stream of that number.
    Stream(usize),
    /// It is supervision.
    Life,
}

/// Where an order comes from that sends: the number of the node that does, when, in microseconds, and why.
#[derive(Clone, Copy, PartialEq, Eq)]
pub(crate) struct Origin {
    pub node: usize,
    pub at: u64,
    pub cause: Cause,
}

/// The first orders, so many of them; all, where there are no more.
fn first_orders(orders: &[Order], count: usize) -> &[Order]
    ensures { result.now ≡ take count orders.now }
{
    if count < orders.len() {
        &orders[..count]
    } else {
        orders
    }
}

/// The moment behind an order.
fn moment_after(moment: u64, order: &Order) -> u64
    ensures { result ≡ moment_after moment order.now }
{
    match order {
        Order::Step(Step::Clock { at }) => *at,
        _ => moment,
    }
}

/// The moment behind orders; before them it is 0.
fn moment_behind(orders: &[Order]) -> u64
    ensures { result ≡ moment_behind 0 orders.now }
{
    let mut moment = 0;
    let mut rest = orders;
    // What is left is a variable, since the loop's invariant speaks of it.
    while let Some((order, more)) = rest.split_first() {
        moment = moment_after(moment, order);
        rest = more;
    }
    moment
}

/// Whether an order sends a frame of a stream.
fn is_frame(order: &Order) -> bool
    ensures { result ≡ is_frame order.now }
{
    matches!(order, Order::Step(Step::Send { .. }))
}

/// How many of these orders send frames of streams.
fn frames_in(orders: &[Order]) -> usize
    ensures { result ≡ count_by is_frame orders.now }
{
    orders.iter().filter(|order| is_frame(order)).count()
}

/// The number of the stream whose frame the order at a step sends.
fn stream_at(meaning: &Meaning, step: usize) -> Option<usize>
    ensures { result ≡ stream_at meaning.now step }
{
    let before = frames_in(first_orders(meaning.orders.as_slice(), step));
    meaning.sends.as_slice().get(before).copied()
}

/// Where an order of a moment comes from, of which the frame would be of this stream, if it sends.
fn origin_by(at: u64, order: &Order, stream: Option<usize>) -> Option<Origin>
    ensures { result ≡ origin_by at order.now stream }
{
    match order {
        Order::Step(Step::Send { node, .. }) => match stream {
            Some(number) => Some(Origin {
                node: *node,
                at,
                cause: Cause::Stream(number),
            }),
            None => None,
        },
        Order::Step(Step::Supervise { node, .. }) => Some(Origin {
            node: *node,
            at,
            cause: Cause::Life,
        }),
        _ => None,
    }
}

/// Where the order at a step comes from, if it sends. Steps count from 0.
pub(crate) fn origin_of(meaning: &Meaning, step: usize) -> Option<Origin>
    ensures { result ≡ origin_of meaning.now step }
{
    let orders = meaning.orders.as_slice();
    let at = moment_behind(first_orders(orders, step));
    match orders.get(step) {
        Some(order) => origin_by(at, order, stream_at(meaning, step)),
        None => None,
    }
}
