//! The names of a scenario's nodes, and from which streams its sends are.
ghost use Rattle.std.specs.Prelude.{◌≡◌, map, Ok, Err};
ghost use Rattle.toml.specs.View.{table_view};
ghost use Rattle.hsr_scenario.specs.Fallible.{Gives, GivesAt, at_spot};
ghost use Rattle.hsr_scenario.specs.Names.{named_by, named_in, names_meant, names_of, names_view, streams_in};
ghost use Rattle.hsr_scenario.specs.declared.fault.Spot.TheVariants as spot;

use crate::fault::{Key, ScenarioFault, Spot, What};
use crate::nodes::Named;
use crate::reading::{at_spot, links_of, nodes_of, text_fault, topology_of};
use crate::streams::{sends_of, step_tables, streams_of};
use hsr_toml::{document_of, tables_at};
use hsr_topology::Topology;
use std::alloc::Global;
use toml::Table;

/// The topology of a scenario, and the name of each node in the topology's order: 1 to 32 small letters, digits and hyphens, no two
/// alike. Of each node also the stream of each of its sends and supervision frames, in the scenario's order: a name of the same form, or
/// an empty one where it's from none.
#[derive(Drop)]
pub struct Names {
    pub topology: Topology,
    pub names: Vec<Vec<u8>>,
    pub streams: Vec<Vec<Vec<u8>>>,
}

/// The name of a node, as octets that are owned.
fn name_of(alloc: Global, node: &Named) -> Result<Vec<u8>, What>
    ensures { Gives (λ v. v.items) result (Ok node.now.name) }
{
    let mut name = Vec::new(alloc);
    name.extend_from_slice(node.name.as_bytes())
        .or(Err(What::NoMemory))?;
    Ok(name)
}

/// The names of nodes.
fn names_of(alloc: Global, nodes: &[Named]) -> Result<Vec<Vec<u8>>, What>
    ensures { Gives (λ v. map (λ name. name.items) v.items) result (Ok (names_of nodes.now)) }
{
    let mut names = Vec::new(alloc);
    for node in nodes.iter() {
        names.push(name_of(alloc, node)?)?;
    }
    Ok(names)
}

/// From which streams the sends of these nodes are, by the tables of steps.
#[tactic(auto, unfolding(crate::specs::Names::streams_in))]
fn streams_in(alloc: Global, nodes: &[Named], steps: &[&Table]) -> Result<Vec<Vec<Vec<u8>>>, What>
    ensures { Gives (λ v. map (λ list. map (λ name. name.items) list.items) v.items) result
        (Ok (streams_in nodes.now (map (λ t. table_view t.now) steps.now))) }
{
    let sends = sends_of(alloc, nodes, steps)?;
    Ok(streams_of(alloc, nodes.len(), sends.as_slice())?)
}

/// The topology, the names and the streams, where there are these nodes.
#[tactic(auto, unfolding(crate::specs::Names::named_by), using(crate::proofs::Lists::spotted))]
fn named_by(
    alloc: Global,
    nodes: &[Named],
    links: &[&Table],
    steps: &[&Table],
) -> Result<Names, ScenarioFault>
    ensures { GivesAt names_view result (named_by nodes.now
        (map (λ t. table_view t.now) links.now) (map (λ t. table_view t.now) steps.now)) }
{
    let links = links_of(alloc, nodes, links)?;
    let topology = at_spot(Spot::Top, topology_of(alloc, nodes, links))?;
    let names = at_spot(Spot::Top, names_of(alloc, nodes))?;
    let streams = at_spot(Spot::Top, streams_in(alloc, nodes, steps))?;
    Ok(Names {
        topology,
        names,
        streams,
    })
}

/// The topology, the names and the streams of a document.
#[tactic(auto, unfolding(crate::specs::Names::named_in), using(crate::proofs::Lists::spotted))]
fn named_in(alloc: Global, table: &Table) -> Result<Names, ScenarioFault>
    ensures { GivesAt names_view result (named_in (table_view table.now)) }
{
    // Keys that a scenario doesn't have are passed over here: nodes and links are asked for, and steps as far as they send.
    let nodes = at_spot(Spot::Top, tables_at(alloc, table, Key::Node))?;
    let links = at_spot(Spot::Top, tables_at(alloc, table, Key::Link))?;
    let nodes = nodes_of(alloc, nodes.as_slice())?;
    let steps = at_spot(Spot::Top, step_tables(alloc, table))?;
    named_by(alloc, nodes.as_slice(), links.as_slice(), steps.as_slice())
}

/// The topology and the names of the nodes of a scenario, as `read` reads its nodes and links, and the streams of its sends; what it says
/// beside them isn't looked at. A fault is the first in this order: the text itself, nodes, links, the topology. A step that isn't as steps
/// are is no fault, and sends nothing. `NoMemory` comes where a growth was refused, in place of any other answer.
pub fn read_names(alloc: Global, text: &str) -> Result<Names, ScenarioFault>
    ensures { GivesAt names_view result (names_meant text.now) }
{
    match document_of(alloc, text) {
        Ok(table) => named_in(alloc, &table),
        Err(fault) => Err(text_fault(fault)),
    }
}
