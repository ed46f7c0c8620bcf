//! The ports of a world, each with the directions of a link in which it receives and sends.
ghost use Rattle.std.specs.Prelude.{◌≡◌, ◌≤◌, ◌<◌, ◌/◌, ◌%◌, IfOk, Option, Result, length, map, option_map};
ghost use Rattle.hsr_world_links.specs.Ports.{no_port, places_of, port_at, port_fault, port_if, port_in, port_number, port_of, ports_in, spot_to};
ghost use Rattle.hsr_world_links.specs.Views.{span_view, spot_view};

use crate::span::Span;
use crate::spot::{Spot, find_spot};
use hsr_frame::NoMemory;
use hsr_link::Dir;
use hsr_node::Kept;
use hsr_topology::End;
use hsr_world_steps::WorldFault;
use std::alloc::Global;

/// The directions in which a port receives and sends, if it has a link. They stay what they are, whatever is done, so that
/// none is looked for among the links again.
#[derive(Clone, Copy)]
pub struct Port {
    pub into: Option<Spot>,
    pub out: Option<Spot>,
}

/// The first reason why these nodes have no such port: `NoSuchNode`, then `NoSuchPort`; none where they have it.
pub fn port_fault<const C: usize>(nodes: &[Kept<C>], node: usize, port: u8) -> Option<WorldFault>
    ensures { result ≡ port_fault (places_of nodes.now) node port }
{
    match nodes.get(node) {
        Some(kept) => {
            if port < kept.place().ports() {
                None
            } else {
                Some(WorldFault::NoSuchPort)
            }
        }
        None => Some(WorldFault::NoSuchNode),
    }
}

/// Where the port at an end receives.
/// None where no link ends there.
fn find_into(spans: &[Span], end: End) -> Option<Spot>
    ensures { option_map spot_view result ≡ spot_to end 0 (map span_view spans.now) }
{
    for (link, span) in spans.iter().enumerate() {
        if span.forth.to == end {
            return Some(Spot {
                link,
                dir: Dir::Forth,
            });
        }
        if span.back.to == end {
            return Some(Spot {
                link,
                dir: Dir::Back,
            });
        }
    }
    None
}

/// The port at an end, if there is no fault about it.
#[tactic(auto, using(crate::proofs::Ports::port_is))]
fn port_if(fault: Option<WorldFault>, spans: &[Span], end: End) -> Port
    ensures { result ≡ port_if fault (map span_view spans.now) end }
{
    match fault {
        None => Port {
            into: find_into(spans, end),
            out: find_spot(spans, end),
        },
        Some(_) => Port {
            into: None,
            out: None,
        },
    }
}

/// The port of a number, which is 8 times its node's, and its own.
fn port_at<const C: usize>(nodes: &[Kept<C>], spans: &[Span], number: usize) -> Port
    ensures { result ≡ port_at (places_of nodes.now) (map span_view spans.now) number }
{
    // 8 numbers for each node, though none has over 4 ports: so a division tells node and port.
    let node = number / 8;
    let port = (number % 8) as u8;
    port_if(port_fault(nodes, node, port), spans, End { node, port })
}

/// All ports of these nodes and links, by their numbers, 8 for each node. `NoMemory` if allocation fails.
pub fn new_ports<const C: usize>(
    alloc: Global,
    nodes: &[Kept<C>],
    spans: &[Span],
) -> Result<Vec<Port>, NoMemory>
    requires { length nodes.now ≤ 64 }
    ensures { IfOk result (λ all. all.items
        ≡ ports_in (places_of nodes.now) (map span_view spans.now)) }
{
    let mut all = Vec::new(alloc);
    for number in 0..8 * nodes.len() {
        all.push(port_at(nodes, spans, number))?;
    }
    Ok(all)
}

/// The port of a number, of these; past them one that has no link.
pub fn port_in(ports: &[Port], number: usize) -> Port
    ensures { result ≡ port_in ports.now number }
{
    match ports.get(number) {
        Some(port) => *port,
        None => Port {
            into: None,
            out: None,
        },
    }
}

/// The number of the port at an end, of a node below 64.
pub fn port_number(end: End) -> usize
    requires { end.node < 64 }
    ensures { result ≡ port_number end }
{
    8 * end.node + usize::from(end.port)
}

/// The port at an end, of these; one that has no link where there is none.
pub fn port_of(ports: &[Port], end: End) -> Port
    ensures { result ≡ port_of ports.now end }
{
    // Past these the number would be another port's, or overflow.
    if end.node < 64 && end.port < 8 {
        port_in(ports, port_number(end))
    } else {
        Port {
            into: None,
            out: None,
        }
    }
}
