//! The channels that start at each node.
ghost use Rattle.std.specs.Prelude.{◌≡◌, ◌++◌, map, slice_index_or, IfOk, OnOk, []};
ghost use Rattle.hsr_run_laws.specs.Run.{from_end};
ghost use Rattle.hsr_routes.specs.Started.{starting_in, channel_from, channels_from};

use crate::channel::Channel;
use crate::ends::from_end;
use hsr_frame::NoMemory;
use hsr_link::Dir;
use hsr_topology::End;
use std::alloc::Global;

/// Adds a direction of a link to channels, where it starts at a node.
fn push_from(
    channels: &mut Vec<Channel>,
    node: usize,
    number: usize,
    link: [End; 2],
    dir: Dir,
) -> Result<(), NoMemory>
    ensures { OnOk result (channels.new.items
        ≡ channels.old.items ++ channel_from node number link dir) }
{
    if from_end(link, dir).node == node {
        channels.push(Channel { link: number, dir })?;
    }
    Ok(())
}

/// The channels that start at a node.
fn channels_from(alloc: Global, links: &[[End; 2]], node: usize) -> Result<Vec<Channel>, NoMemory>
    ensures { IfOk result (λ channels. channels.items ≡ channels_from node 0 links.now) }
{
    let mut channels = Vec::new(alloc);
    for (number, link) in links.iter().enumerate() {
        push_from(&mut channels, node, number, *link, Dir::Forth)?;
        push_from(&mut channels, node, number, *link, Dir::Back)?;
    }
    Ok(channels)
}

/// The channels that start at each node, for this number of nodes.
pub(crate) fn starting_in(
    alloc: Global,
    nodes: usize,
    links: &[[End; 2]],
) -> Result<Vec<Vec<Channel>>, NoMemory>
    ensures { IfOk result (λ all. map (λ channels. channels.items) all.items
        ≡ starting_in nodes links.now) }
{
    let mut all = Vec::new(alloc);
    for node in 0..nodes {
        let channels = channels_from(alloc, links, node)?;
        all.push(channels)?;
    }
    Ok(all)
}
