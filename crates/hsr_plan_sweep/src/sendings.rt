//! Of which stream each send of a run is, in the order in which a run lists its sends: by node, and of each node as it sent them.
ghost use Rattle.std.specs.Prelude.{◌≡◌, ◌++◌, ◌∷◌, [], drop, slice_get, IfOk, OnOk};
ghost use Rattle.std.specs.List.{cons_option, flat_map};
ghost use Rattle.hsr_plan_sweep.specs.Sendings.{behind, sending_by, sendings, stream_at, streams_below, streams_by};

use hsr_frame::NoMemory;
use hsr_scenario::Order;
use hsr_world_steps::Step;
use std::alloc::Global;

/// What is sent by an order: the number of the node, and that of the stream where it is a frame of one.
#[derive(Clone, Copy, PartialEq, Eq)]
pub(crate) struct Sending {
    pub node: usize,
    pub stream: Option<usize>,
}

/// What an order sends, where the next frames are of these streams.
fn sending_by(streams: &[usize], order: &Order) -> Option<Sending>
    ensures { result ≡ sending_by streams.now order.now }
{
    match order {
        Order::Step(Step::Send { node, .. }) => Some(Sending {
            node: *node,
            stream: streams.first().copied(),
        }),
        Order::Step(Step::Supervise { node, .. }) => Some(Sending {
            node: *node,
            stream: None,
        }),
        _ => None,
    }
}

/// The streams of the frames behind an order.
fn behind<'a>(streams: &'a [usize], order: &Order) -> &'a [usize]
    ensures { result.now ≡ behind streams.now order.now }
{
    match order {
        Order::Step(Step::Send { .. }) => match streams.split_first() {
            Some((_, more)) => more,
            None => streams,
        },
        _ => streams,
    }
}

/// Puts what is sent last, if something is.
fn push_some(list: &mut Vec<Sending>, sending: Option<Sending>) -> Result<(), NoMemory>
    ensures { OnOk result (list.new.items ≡ list.old.items ++ cons_option sending []) }
{
    if let Some(sending) = sending {
        list.push(sending)?;
    }
    Ok(())
}

/// What is sent by orders, whose frames are of these streams.
#[tactic(auto, using(crate::proofs::Listing::sendings_step))]
fn sendings(alloc: Global, streams: &[usize], orders: &[Order]) -> Result<Vec<Sending>, NoMemory>
    ensures { IfOk result (λ list. list.items ≡ sendings streams.now orders.now) }
{
    let mut list = Vec::new(alloc);
    let mut next = streams;
    for order in orders.iter() {
        push_some(&mut list, sending_by(next, order))?;
        next = behind(next, order);
    }
    Ok(list)
}

/// Puts the stream of what is sent last, if it is of this node.
fn push_if_of(
    streams: &mut Vec<Option<usize>>,
    node: usize,
    sending: Sending,
) -> Result<(), NoMemory>
    ensures { OnOk result (streams.new.items ≡ streams.old.items ++ stream_at node sending) }
{
    if sending.node == node {
        streams.push(sending.stream)?;
    }
    Ok(())
}

/// Puts the streams of what a node sends last.
#[tactic(auto, using(hsr_frame::proofs::OneMore::grown))]
fn push_by(
    streams: &mut Vec<Option<usize>>,
    node: usize,
    sendings: &[Sending],
) -> Result<(), NoMemory>
    ensures { OnOk result (streams.new.items ≡ streams.old.items ++ flat_map (stream_at node) sendings.now) }
{
    for sending in sendings {
        push_if_of(streams, node, *sending)?;
    }
    Ok(())
}

/// The streams of what so many nodes send, by node.
fn by_node(
    alloc: Global,
    sendings: &[Sending],
    nodes: usize,
) -> Result<Vec<Option<usize>>, NoMemory>
    ensures { IfOk result (λ list. list.items ≡ streams_below sendings.now nodes) }
{
    let mut streams = Vec::new(alloc);
    for node in 0..nodes {
        push_by(&mut streams, node, sendings)?;
    }
    Ok(streams)
}

/// Of which stream each send is of so many nodes that do these orders, by node and as each sent them; of none where it is supervision. The
/// frames that the orders send are of these streams. `NoMemory` if allocation fails.
pub fn streams_of(
    alloc: Global,
    streams: &[usize],
    orders: &[Order],
    nodes: usize,
) -> Result<Vec<Option<usize>>, NoMemory>
    ensures { IfOk result (λ list. list.items ≡ streams_by streams.now orders.now nodes) }
{
    let sendings = sendings(alloc, streams, orders)?;
    by_node(alloc, sendings.as_slice(), nodes)
}
