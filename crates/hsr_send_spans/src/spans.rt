//! The sends of a scenario, and their spans.
ghost use Rattle.std.specs.Prelude.{◌≡◌, ◌<◌, ◌+◌, ◌^◌, ◌-◌, ◌++◌, take, drop, length, IfOk, OnOk};
ghost use Rattle.hsr_plays.specs.Setup.{asked_by};
ghost use Rattle.hsr_plays.specs.Spans.{end_from, ends_span, is_passed, moment_after, span_if, spans_from};

use hsr_frame::{ETHERTYPE_SUPERVISION, Mac, NoMemory};
use hsr_plays::{Asked, SendSpan};
use hsr_scenario::Order;
use hsr_world_steps::Step;
use std::alloc::Global;

/// The send that a step asks for, if it does.
fn asked_by(order: &Order) -> Option<Asked>
    ensures { result ≡ asked_by order.now }
{
    match order {
        Order::Step(
            Step::Send {
                node,
                from,
                dst,
                kind,
                ..
            },
        ) => Some(Asked {
            node: *node,
            from: *from,
            dst: *dst,
            kind: *kind,
        }),
        Order::Step(Step::Supervise { node, .. }) => Some(Asked {
            node: *node,
            from: 0,
            dst: Mac::supervision(),
            kind: ETHERTYPE_SUPERVISION,
        }),
        _ => None,
    }
}

/// The world's moment behind a step, in microseconds, with the one before it.
pub fn moment_after(moment: u64, order: &Order) -> u64
    ensures { result ≡ moment_after moment order.now }
{
    match order {
        Order::Step(Step::Clock { at }) => *at,
        _ => moment,
    }
}

/// Whether a copy of a send has lived as long as it may, where that is told.
fn is_passed(within: Option<u64>, sent: u64, at: u64) -> bool
    ensures { result ≡ is_passed within sent at }
{
    match within {
        // No sum: the moment of a send may be the greatest that there is.
        Some(limit) => sent <= at && at - sent >= limit,
        None => false,
    }
}

/// Whether a step ends the span of a send.
fn ends_span(within: Option<u64>, sent: u64, order: &Order) -> bool
    ensures { result ≡ ends_span within sent order.now }
{
    match order {
        Order::Drain => true,
        Order::Step(Step::Clock { at }) => is_passed(within, sent, *at),
        _ => false,
    }
}

/// The index of the first of these steps that ends the span of a send, where the first has this index; or that behind all.
fn end_from(within: Option<u64>, sent: u64, index: usize, later: &[Order]) -> usize
    requires { index + length later.now < 2 ^ 64 }
    ensures { result ≡ end_from within sent index later.now }
{
    for (i, order) in later.iter().enumerate() {
        if ends_span(within, sent, order) {
            return index + i;
        }
    }
    index + later.len()
}

/// Puts the span of a send last, if one is asked for.
fn push_span(
    list: &mut Vec<SendSpan>,
    within: Option<u64>,
    moment: u64,
    index: usize,
    asked: Option<Asked>,
    later: &[Order],
) -> Result<(), NoMemory>
    requires { index + 1 + length later.now < 2 ^ 64 }
    ensures { OnOk result (list.new.items ≡ list.old.items
        ++ span_if within moment index later.now asked) }
{
    if let Some(asked) = asked {
        list.push(SendSpan {
            asked,
            index,
            moment,
            end: end_from(within, moment, index + 1, later),
        })?;
    }
    Ok(())
}

/// The spans of all sends of a scenario, in their order: each with what is asked for, the index of its step, its moment, in microseconds,
/// and the index of the step that ends it, or how many steps there are. A drain ends it, and with `within` a clock step by which so many
/// microseconds have passed since. `NoMemory` if allocation fails.
pub fn spans_of(
    alloc: Global,
    within: Option<u64>,
    orders: &[Order],
) -> Result<Vec<SendSpan>, NoMemory>
    ensures { IfOk result (λ list. list.items ≡ spans_from within 0 0 orders.now) }
{
    let mut list = Vec::new(alloc);
    let mut moment = 0;
    let mut index = 0;
    let mut rest = orders;
    // What is left is a variable, since the loop's invariant speaks of it.
    while let Some((order, more)) = rest.split_first() {
        push_span(&mut list, within, moment, index, asked_by(order), more)?;
        moment = moment_after(moment, order);
        index += 1;
        rest = more;
    }
    Ok(list)
}

/// The steps from an index on.
pub fn steps_from(orders: &[Order], index: usize) -> &[Order]
    ensures { result.now ≡ drop index orders.now }
{
    if index < orders.len() {
        &orders[index..]
    } else {
        &orders[orders.len()..]
    }
}

/// The first steps, so many of them; all, where there are no more.
pub fn first_steps(orders: &[Order], count: usize) -> &[Order]
    ensures { result.now ≡ take count orders.now }
{
    if count < orders.len() {
        &orders[..count]
    } else {
        orders
    }
}

/// How much one index is above another; 0 where it isn't.
pub fn above(end: usize, index: usize) -> usize
    ensures { result ≡ end - index }
{
    if index < end { end - index } else { 0 }
}
