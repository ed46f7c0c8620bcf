//! When a scenario's orders send, and from which streams.
ghost use Rattle.std.specs.Prelude.{◌≡◌, ◌++◌, IfOk, OnOk, option_to_list};
ghost use Rattle.std.specs.List.Sorted.{IsNonDecreasing};
ghost use Rattle.hsr_plan_scenario.specs.Sends.{is_sending, moment_behind, next_stream, send_moments, sends_behind, sent_by, sent_by_all};

use hsr_finished_run::push_if;
use hsr_frame::NoMemory;
use hsr_plan_text::Word;
use hsr_scenario::{Order, Sending};
use hsr_world_steps::Step;
use std::alloc::Global;

/// Whether an order sends a frame, or a supervision frame.
fn is_sending(order: &Order) -> bool
    ensures { result ≡ is_sending order.now }
{
    matches!(
        order,
        Order::Step(Step::Send { .. } | Step::Supervise { .. })
    )
}

/// The moment behind an order.
fn moment_behind(now: u64, order: &Order) -> u64
    ensures { result ≡ moment_behind now order.now }
{
    match order {
        // An earlier moment counts as the last one, as for nodes (RULES, Sending).
        Order::Step(Step::Clock { at }) => now.max(*at),
        _ => now,
    }
}

/// The moments of the sends of orders, in microseconds.
#[tactic(auto, using(crate::proofs::Rising::moments_step))]
fn moments_of(alloc: Global, orders: &[Order]) -> Result<Vec<u64>, NoMemory>
    ensures { IfOk result (λ moments. moments.items ≡ send_moments 0 orders.now) }
{
    let mut moments = Vec::new(alloc);
    let mut now = 0_u64;
    let mut left = orders;
    // The rest is a variable, since the loop's invariant speaks of the moment before it.
    while let Some((order, rest)) = left.split_first() {
        push_if(&mut moments, is_sending(order), now)?;
        now = moment_behind(now, order);
        left = rest;
    }
    Ok(moments)
}

/// The moments of the sends of orders, in microseconds, as they rise from 0 on.
pub(crate) fn send_moments(alloc: Global, orders: &[Order]) -> Result<Vec<u64>, NoMemory>
    ensures moments { IfOk result (λ moments. moments.items ≡ send_moments 0 orders.now) }
    ensures rise { IfOk result (λ moments. IsNonDecreasing moments.items) }
{
    match moments_of(alloc, orders) {
        Ok(moments) => Ok(moments),
        Err(fault) => Err(fault),
    }
}

// ---- streams

/// The name of the stream from which the next frame is.
pub(crate) fn next_stream<'a>(streams: &'a [Word], sends: &[usize]) -> &'a [u8]
    ensures { result.now ≡ next_stream streams.now sends.now }
{
    match sends.first() {
        Some(number) => match streams.get(*number) {
            Some(name) => name.as_bytes(),
            None => &[],
        },
        None => &[],
    }
}

/// The streams of the frames behind an order.
pub(crate) fn sends_behind<'a>(order: &Order, sends: &'a [usize]) -> &'a [usize]
    ensures { result.now ≡ sends_behind order.now sends.now }
{
    match (order, sends.split_first()) {
        (Order::Step(Step::Send { .. }), Some((_, more))) => more,
        _ => sends,
    }
}

/// What an order sends, if it sends, where the next frame is from the stream of this name.
fn sent_by<'a>(name: &'a [u8], order: &Order) -> Option<Sending<'a>>
    ensures { option_to_list result ≡ sent_by name.now order.now }
{
    match order {
        Order::Step(Step::Send { node, .. }) => Some(Sending {
            node: *node,
            stream: name,
        }),
        Order::Step(Step::Supervise { node, .. }) => Some(Sending {
            node: *node,
            stream: &[],
        }),
        _ => None,
    }
}

/// Puts what an order sends last.
fn put_sent<'a>(sent: &mut Vec<Sending<'a>>, name: &'a [u8], order: &Order) -> Result<(), NoMemory>
    ensures { OnOk result (sent.new.items ≡ sent.old.items ++ sent_by name.now order.now) }
{
    if let Some(one) = sent_by(name, order) {
        sent.push(one)?;
    }
    Ok(())
}

/// What orders send, where the streams have these names, and the frames are from streams of these numbers.
#[tactic(auto, using(crate::proofs::Orders::sent_on))]
pub(crate) fn sent_by_all<'a>(
    alloc: Global,
    streams: &'a [Word],
    sends: &[usize],
    orders: &[Order],
) -> Result<Vec<Sending<'a>>, NoMemory>
    ensures { IfOk result (λ sent. sent.items ≡ sent_by_all streams.now sends.now orders.now) }
{
    let mut sent = Vec::new(alloc);
    let mut numbers = sends;
    let mut left = orders;
    while let Some((order, rest)) = left.split_first() {
        put_sent(&mut sent, next_stream(streams, numbers), order)?;
        numbers = sends_behind(order, numbers);
        left = rest;
    }
    Ok(sent)
}
