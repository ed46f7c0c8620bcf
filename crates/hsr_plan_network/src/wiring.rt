//! The nodes and the topology that a plan means.
ghost use Rattle.std.specs.Prelude.{◌≡◌, ◌++◌, map, IfOk};
ghost use Rattle.hsr_topology.specs.Topology.{made};
ghost use Rattle.hsr_plan_text.specs.Fallible.{Gives};
ghost use Rattle.hsr_plan_network.specs.Links.{interlink, links_of, ring_links};
ghost use Rattle.hsr_plan_network.specs.Nodes.{nodes_of};
ghost use Rattle.hsr_plan_network.specs.Wiring.{topology_in, wired};

use crate::addresses::check_owners;
use crate::checks::check;
use crate::links::{add_interlinks, ring_links};
use crate::names::names_of;
use crate::nodes::{Node, boxes_of, nodes_of};
use hsr_frame::NoMemory;
use hsr_node::Place;
use hsr_plan_text::{Network, Refusal, What, Word};
use hsr_topology::{End, Topology};
use std::alloc::Global;
use std::marker::Model;

/// The nodes of a plan, and the topology that they and its links are.
#[derive(Drop)]
pub struct Wired {
    pub nodes: Vec<Node>,
    pub topology: Topology,
}

impl Model for Wired {
    ghost use Rattle.hsr_plan_network.specs.Wiring.{Wired};

    ghost Value = { Wired };

    ghost view = { λ w. record { nodes = w.nodes.items; topology = w.topology } };
}

/// What kinds of node there are.
fn places_of(alloc: Global, nodes: &[Node]) -> Result<Vec<Place>, NoMemory>
    ensures { IfOk result (λ v. v.items ≡ map (λ node. node.place) nodes.now) }
{
    let mut places = Vec::new(alloc);
    for node in nodes.iter() {
        let place = node.place.copy()?;
        places.push(place)?;
    }
    Ok(places)
}

/// The links of a network with these names and RedBoxes.
fn links_in(
    alloc: Global,
    network: &Network,
    names: &[Word],
    boxes: &[Word],
) -> Result<Vec<[End; 2]>, NoMemory>
    ensures { IfOk result (λ v. v.items ≡ ring_links network.now.rings names.now 0 network.now.rings
        ++ map (interlink names.now boxes.now) boxes.now) }
{
    let mut links = ring_links(alloc, network.rings.as_slice(), names)?;
    add_interlinks(&mut links, names, boxes)?;
    Ok(links)
}

/// The nodes and the links of a network.
fn parts_of(alloc: Global, network: &Network) -> Result<(Vec<Node>, Vec<[End; 2]>), NoMemory>
    ensures nodes { IfOk result (λ p. p.0.items ≡ nodes_of network.now) }
    ensures links { IfOk result (λ p. p.1.items ≡ links_of network.now) }
{
    let names = names_of(alloc, network.rings.as_slice())?;
    let boxes = boxes_of(alloc, network, names.as_slice())?;
    let nodes = nodes_of(alloc, network, names.as_slice(), boxes.as_slice())?;
    let links = links_in(alloc, network, names.as_slice(), boxes.as_slice())?;
    Ok((nodes, links))
}

/// The topology of nodes and links.
fn topology_of(alloc: Global, nodes: &[Node], links: Vec<[End; 2]>) -> Result<Topology, What>
    ensures { Gives (λ t. t) result (topology_in
        (made (map (λ node. node.place) nodes.now) links.items)) }
{
    let places = places_of(alloc, nodes)?;
    match Topology::new(places, links) {
        Ok(topology) => Ok(topology),
        Err(_) => Err(What::Refused(Refusal::Topology)),
    }
}

/// The nodes and the topology that a network means. Nodes stand ring by ring, each where it is met first, and then the Stations,
/// one behind each RedBox. Links stand ring by ring, from B of a node to A of the next one (C and D in a QuadBox's other ring), and
/// then the interlinks. `Refused` where there are more rings or names in rings than 64 nodes have, where a name is there twice, in more
/// than two rings, or not at all, where a Station would have a name of a ring, where a RedBox hasn't 1 to 16 stations, where a ring has
/// fewer than two names, where an address is given twice or is another's by default, and where nodes and links do not form
/// a valid topology.
/// `BadValue` where a RedBox's name has over 27 octets. `NoMemory` if allocation fails.
pub fn wire(alloc: Global, network: &Network) -> Result<Wired, What>
    ensures { Gives (λ w. w) result (wired network.now) }
{
    check(alloc, network)?;
    let (nodes, links) = parts_of(alloc, network)?;
    // Defaults are known only once nodes are, so this comes behind `check`.
    check_owners(alloc, nodes.as_slice(), network.addresses.as_slice())?;
    let topology = topology_of(alloc, nodes.as_slice(), links)?;
    Ok(Wired { nodes, topology })
}
