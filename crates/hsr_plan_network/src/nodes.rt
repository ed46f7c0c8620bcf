//! The nodes of a plan.
ghost use Rattle.std.specs.Prelude.{◌≡◌, ◌++◌, codes, map, IfOk, OnOk};
ghost use Rattle.hsr_plan_network.specs.Nodes.{boxes_of, ring_node, station_node};

use crate::places::{behind, is_box, place_of, station_macs};
use hsr_frame::NoMemory;
use hsr_node::Place;
use hsr_plan_text::{Network, Word};
use std::alloc::Global;
use std::marker::Model;

/// A node with its name, its kind, and the names of the stations that a Station is.
#[derive(Drop)]
pub struct Node {
    pub name: Word,
    pub place: Place,
    pub stations: Vec<Word>,
}

impl Model for Node {
    ghost use Rattle.hsr_plan_network.specs.Nodes.{Node};

    ghost Value = { Node };

    ghost view = { λ n. record { name = n.name; place = n.place; stations = n.stations.items } };
}

/// The node of a name on a ring.
fn ring_node(alloc: Global, network: &Network, name: &Word) -> Result<Node, NoMemory>
    ensures { IfOk result (λ n. n ≡ ring_node network.now name.now) }
{
    let place = place_of(network, name.as_bytes());
    let name = name.copy(alloc)?;
    Ok(Node {
        name,
        place,
        stations: Vec::new(alloc),
    })
}

/// The same names again.
fn copies(alloc: Global, names: &[Word]) -> Result<Vec<Word>, NoMemory>
    ensures { IfOk result (λ v. v.items ≡ names.now) }
{
    let mut copies = Vec::new(alloc);
    for name in names.iter() {
        copies.push(name.copy(alloc)?)?;
    }
    Ok(copies)
}

/// The name of the Station behind a RedBox.
pub(crate) fn station_name(alloc: Global, redbox: &[u8]) -> Result<Word, NoMemory>
    ensures { IfOk result (λ n. n ≡ redbox.now ++ codes "-sans") }
{
    let mut name = Vec::new(alloc);
    name.extend_from_slice(redbox)?;
    // Stations behind a RedBox are SANs, singly attached nodes (IEC 62439-3).
    name.extend_from_slice(b"-sans")?;
    Word::of(alloc, name.as_slice())
}

/// The Station behind one of these RedBoxes. `NoMemory` also where it has more than 16 stations.
fn station_node(
    alloc: Global,
    network: &Network,
    boxes: &[Word],
    redbox: &Word,
) -> Result<Node, NoMemory>
    ensures { IfOk result (λ n. n ≡ station_node network.now boxes.now redbox.now) }
{
    let stations = behind(network.redboxes.as_slice(), redbox.as_bytes());
    // More than 16 were refused by `check`, so this isn't met.
    let Some(macs) = station_macs(network, boxes, redbox.as_bytes(), stations) else {
        return Err(NoMemory);
    };
    let name = station_name(alloc, redbox.as_bytes())?;
    let stations = copies(alloc, stations)?;
    Ok(Node {
        name,
        place: Place::Station { macs },
        stations,
    })
}

/// The names of RedBoxes among names.
pub(crate) fn boxes_of(
    alloc: Global,
    network: &Network,
    names: &[Word],
) -> Result<Vec<Word>, NoMemory>
    ensures { IfOk result (λ v. v.items ≡ boxes_of network.now names.now) }
{
    let mut boxes = Vec::new(alloc);
    for name in names.iter() {
        if is_box(network.redboxes.as_slice(), name.as_bytes()) {
            boxes.push(name.copy(alloc)?)?;
        }
    }
    Ok(boxes)
}

/// The nodes of names on rings.
fn ring_nodes(alloc: Global, network: &Network, names: &[Word]) -> Result<Vec<Node>, NoMemory>
    ensures { IfOk result (λ v. v.items ≡ map (ring_node network.now) names.now) }
{
    let mut nodes = Vec::new(alloc);
    for name in names.iter() {
        nodes.push(ring_node(alloc, network, name)?)?;
    }
    Ok(nodes)
}

/// Puts the Stations behind RedBoxes last.
fn add_stations(
    alloc: Global,
    nodes: &mut Vec<Node>,
    network: &Network,
    boxes: &[Word],
) -> Result<(), NoMemory>
    ensures { OnOk result (nodes.new.items
        ≡ nodes.old.items ++ map (station_node network.now boxes.now) boxes.now) }
{
    for redbox in boxes.iter() {
        nodes.push(station_node(alloc, network, boxes, redbox)?)?;
    }
    Ok(())
}

/// The nodes of a network with these names and RedBoxes.
pub(crate) fn nodes_of(
    alloc: Global,
    network: &Network,
    names: &[Word],
    boxes: &[Word],
) -> Result<Vec<Node>, NoMemory>
    ensures { IfOk result (λ v. v.items ≡ map (ring_node network.now) names.now
        ++ map (station_node network.now boxes.now) boxes.now) }
{
    let mut nodes = ring_nodes(alloc, network, names)?;
    add_stations(alloc, &mut nodes, network, boxes)?;
    Ok(nodes)
}
