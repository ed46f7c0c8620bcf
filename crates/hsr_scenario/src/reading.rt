//! How a text is read as a scenario.
ghost use Rattle.std.specs.Prelude.{◌≡◌, ◌≤◌, [], map, length, IfOk, Ok};
ghost use Rattle.toml.specs.View.{table_view};
ghost use Rattle.hsr_text.specs.Moments.{unit_of};
ghost use Rattle.hsr_text.specs.declared.time_unit.TimeUnit.TheVariants.{Milliseconds};
ghost use Rattle.hsr_scenario.specs.Fallible.{Gives, GivesAt, at_spot, each};
ghost use Rattle.hsr_toml.specs.Tables.{between, optional, tables, word};
ghost use Rattle.hsr_scenario.specs.Fault.{faults};
ghost use Rattle.hsr_scenario.specs.Nodes.{node_in};
ghost use Rattle.hsr_scenario.specs.Links.{link_in};
ghost use Rattle.hsr_scenario.specs.Steps.{order_in};
ghost use Rattle.hsr_scenario.specs.Meaning.{content, document, joined, meaning, scenario_view, text_fault, topology_of, with_steps};
ghost use Rattle.hsr_scenario.specs.declared.fault.Key.TheVariants as key;
ghost use Rattle.hsr_scenario.specs.declared.fault.Spot.TheVariants as spot;
ghost use Rattle.hsr_scenario.specs.declared.fault.What.TheVariants.{NoMemory};

use crate::fault::{Key, ScenarioFault, Spot, What};
use crate::keys::TOP_KEYS;
use crate::links::link;
use crate::nodes::{Named, node};
use crate::scenario::Scenario;
use crate::steps::{Order, order_in};
use crate::table::only;
use hsr_node::Place;
use hsr_text::TimeUnit;
use hsr_toml::{NoDocument, document_of, number_or, tables_at, text, value};
use hsr_topology::{End, Topology};
use std::alloc::Global;
use toml::Table;

/// How many copies wait in each direction of a link, where a text doesn't say.
const CAPACITY: u64 = 64;

/// How many copies may wait in each direction of a link.
const CAPACITY_LIMIT: u64 = 4096;

/// A fault with its place.
pub(crate) fn at_spot<T>(spot: Spot, told: Result<T, What>) -> Result<T, ScenarioFault>
    ensures { result ≡ at_spot spot told }
{
    told.map_err(|what| ScenarioFault { spot, what })
}

/// The fault where an allocation for what a table says fails.
fn no_memory_at(spot: Spot) -> ScenarioFault
    ensures { result ≡ record { spot = spot; what = NoMemory } }
{
    ScenarioFault {
        spot,
        what: What::NoMemory,
    }
}

// ---- each table of a list

/// The node of a table that follows others.
#[tactic(auto, using(crate::proofs::Lists::spotted))]
fn node_at(alloc: Global, nodes: &[Named], table: &Table) -> Result<Named, ScenarioFault>
    ensures { GivesAt (λ n. n) result (at_spot (spot.Node (length nodes.now))
        (node_in nodes.now (table_view table.now))) }
{
    at_spot(Spot::Node(nodes.len()), node(alloc, nodes, table))
}

/// The nodes of tables.
#[tactic(auto, using(crate::proofs::Lists::nodes_step, crate::proofs::Lists::nodes_fail))]
pub(crate) fn nodes_of(alloc: Global, tables: &[&Table]) -> Result<Vec<Named>, ScenarioFault>
    ensures { GivesAt (λ v. v.items) result
        (each spot.Node node_in [] (map (λ t. table_view t.now) tables.now)) }
{
    let mut nodes = Vec::new(alloc);
    for table in tables.iter() {
        match node_at(alloc, nodes.as_slice(), table) {
            Ok(node) => {
                // The place of the fault is read before the push, which borrows the list.
                let spot = Spot::Node(nodes.len());
                nodes.push(node).or(Err(no_memory_at(spot)))?;
            }
            Err(fault) => return Err(fault),
        }
    }
    Ok(nodes)
}

/// The link of the table of that number.
#[tactic(auto, using(crate::proofs::Lists::spotted))]
fn link_at(
    alloc: Global,
    nodes: &[Named],
    number: usize,
    table: &Table,
) -> Result<[End; 2], ScenarioFault>
    ensures { GivesAt (λ l. l) result (at_spot (spot.Link number)
        (link_in nodes.now (table_view table.now))) }
{
    at_spot(Spot::Link(number), link(alloc, nodes, table))
}

/// The links of tables.
#[tactic(auto, using(crate::proofs::Lists::links_step, crate::proofs::Lists::links_fail))]
pub(crate) fn links_of(
    alloc: Global,
    nodes: &[Named],
    tables: &[&Table],
) -> Result<Vec<[End; 2]>, ScenarioFault>
    ensures { GivesAt (λ v. v.items) result
        (each spot.Link (λ _. link_in nodes.now) [] (map (λ t. table_view t.now) tables.now)) }
{
    let mut links = Vec::new(alloc);
    for table in tables.iter() {
        match link_at(alloc, nodes, links.len(), table) {
            Ok(link) => {
                let spot = Spot::Link(links.len());
                links.push(link).or(Err(no_memory_at(spot)))?;
            }
            Err(fault) => return Err(fault),
        }
    }
    Ok(links)
}

/// What the step of the table of that number says.
#[tactic(auto, using(crate::proofs::Lists::spotted))]
fn order_at(
    alloc: Global,
    unit: TimeUnit,
    nodes: &[Named],
    links: usize,
    number: usize,
    table: &Table,
) -> Result<Order, ScenarioFault>
    ensures { GivesAt (λ o. o) result (at_spot (spot.Step number)
        (order_in unit nodes.now links (table_view table.now))) }
{
    at_spot(
        Spot::Step(number),
        order_in(alloc, unit, nodes, links, table),
    )
}

/// The steps of tables.
#[tactic(auto, using(crate::proofs::Lists::orders_step, crate::proofs::Lists::orders_fail))]
fn orders_of(
    alloc: Global,
    unit: TimeUnit,
    nodes: &[Named],
    links: usize,
    tables: &[&Table],
) -> Result<Vec<Order>, ScenarioFault>
    ensures { GivesAt (λ v. v.items) result
        (each spot.Step (λ _. order_in unit nodes.now links) []
        (map (λ t. table_view t.now) tables.now)) }
{
    let mut orders = Vec::new(alloc);
    for table in tables.iter() {
        match order_at(alloc, unit, nodes, links, orders.len(), table) {
            Ok(order) => {
                let spot = Spot::Step(orders.len());
                orders.push(order).or(Err(no_memory_at(spot)))?;
            }
            Err(fault) => return Err(fault),
        }
    }
    Ok(orders)
}

// ---- the document

/// What kinds of node there are.
fn places_of(alloc: Global, nodes: &[Named]) -> Result<Vec<Place>, What>
    ensures { Gives (λ v. v.items) result (Ok (map (λ node. node.place) nodes.now)) }
{
    let mut places = Vec::new(alloc);
    for node in nodes.iter() {
        let place = node.place.copy()?;
        places.push(place)?;
    }
    Ok(places)
}

/// The topology of nodes and links.
pub(crate) fn topology_of(
    alloc: Global,
    nodes: &[Named],
    links: Vec<[End; 2]>,
) -> Result<Topology, What>
    ensures { Gives (λ t. t) result (topology_of nodes.now links.items) }
{
    let places = places_of(alloc, nodes)?;
    match Topology::new(places, links) {
        Ok(topology) => Ok(topology),
        Err(fault) => Err(What::Topology(fault)),
    }
}

/// What the tables of steps say, where there are this topology and these nodes and links.
#[tactic(auto, unfolding(crate::specs::Meaning::with_steps))]
fn with_steps(
    alloc: Global,
    capacity: usize,
    unit: TimeUnit,
    topology: Topology,
    nodes: &[Named],
    links: usize,
    step_tables: &[&Table],
) -> Result<Scenario, ScenarioFault>
    requires some { 1 ≤ capacity }
    requires most { capacity ≤ 4096 }
    ensures { GivesAt scenario_view result
        (with_steps capacity unit topology nodes.now links
        (map (λ t. table_view t.now) step_tables.now)) }
{
    let steps = orders_of(alloc, unit, nodes, links, step_tables)?;
    Ok(Scenario {
        topology,
        capacity,
        steps,
    })
}

/// What the tables of links and steps say, where there are these nodes.
#[tactic(auto, unfolding(crate::specs::Meaning::joined), using(crate::proofs::Lists::spotted))]
fn joined(
    alloc: Global,
    capacity: usize,
    unit: TimeUnit,
    nodes: &[Named],
    link_tables: &[&Table],
    step_tables: &[&Table],
) -> Result<Scenario, ScenarioFault>
    requires some { 1 ≤ capacity }
    requires most { capacity ≤ 4096 }
    ensures { GivesAt scenario_view result
        (joined capacity unit nodes.now (map (λ t. table_view t.now) link_tables.now)
        (map (λ t. table_view t.now) step_tables.now)) }
{
    let links = links_of(alloc, nodes, link_tables)?;
    // The links are moved into the topology, and steps name them by number.
    let count = links.len();
    let topology = at_spot(Spot::Top, topology_of(alloc, nodes, links))?;
    with_steps(alloc, capacity, unit, topology, nodes, count, step_tables)
}

/// What the tables of nodes, links and steps say.
#[tactic(auto, unfolding(crate::specs::Meaning::content))]
fn content(
    alloc: Global,
    capacity: usize,
    unit: TimeUnit,
    node_tables: &[&Table],
    link_tables: &[&Table],
    step_tables: &[&Table],
) -> Result<Scenario, ScenarioFault>
    requires some { 1 ≤ capacity }
    requires most { capacity ≤ 4096 }
    ensures { GivesAt scenario_view result
        (content capacity unit (map (λ t. table_view t.now) node_tables.now)
        (map (λ t. table_view t.now) link_tables.now)
        (map (λ t. table_view t.now) step_tables.now)) }
{
    let nodes = nodes_of(alloc, node_tables)?;
    joined(
        alloc,
        capacity,
        unit,
        nodes.as_slice(),
        link_tables,
        step_tables,
    )
}

/// The capacity of a document.
fn capacity(table: &Table) -> Result<usize, What>
    ensures value { Gives (λ n. n) result (optional faults key.Capacity 64 (between faults 1 4096)
        (table_view table.now)) }
    ensures some { IfOk result (λ n. 1 ≤ n) }
    ensures most { IfOk result (λ n. n ≤ 4096) }
{
    let capacity = number_or(CAPACITY, 1, CAPACITY_LIMIT, table, Key::Capacity)?;
    Ok(capacity as usize)
}

/// The unit of the moments of a document.
fn unit(table: &Table) -> Result<TimeUnit, What>
    ensures { Gives (λ u. u) result (optional faults key.TimeUnit Milliseconds (word faults unit_of)
        (table_view table.now)) }
{
    match value(table, Key::TimeUnit) {
        None => Ok(TimeUnit::Milliseconds),
        Some(value) => match TimeUnit::from_word(text(Key::TimeUnit, value)?.as_bytes()) {
            Some(unit) => Ok(unit),
            None => Err(What::BadValue(Key::TimeUnit)),
        },
    }
}

/// What a document says.
#[tactic(auto, unfolding(crate::specs::Meaning::document), using(crate::proofs::Lists::spotted))]
fn document(alloc: Global, table: &Table) -> Result<Scenario, ScenarioFault>
    ensures { GivesAt scenario_view result (document (table_view table.now)) }
{
    at_spot(Spot::Top, only(table, &TOP_KEYS))?;
    let capacity = at_spot(Spot::Top, capacity(table))?;
    let unit = at_spot(Spot::Top, unit(table))?;
    // All three lists are asked for before any table in them: a key of the wrong type is a fault at the top.
    let nodes = at_spot(Spot::Top, tables_at(alloc, table, Key::Node))?;
    let links = at_spot(Spot::Top, tables_at(alloc, table, Key::Link))?;
    let steps = at_spot(Spot::Top, tables_at(alloc, table, Key::Step))?;
    content(
        alloc,
        capacity,
        unit,
        nodes.as_slice(),
        links.as_slice(),
        steps.as_slice(),
    )
}

/// The fault of a text that is no document.
pub(crate) fn text_fault(fault: NoDocument) -> ScenarioFault
    ensures { result ≡ text_fault fault }
{
    let what = match fault {
        NoDocument::NoToml => What::Text,
        NoDocument::NoMemory => What::NoMemory,
    };
    ScenarioFault {
        spot: Spot::Top,
        what,
    }
}

/// The scenario that a text is: a document of TOML, of at most 16 MiB, with the keys `capacity` (1 to 4096, 64 where it is
/// missing), `unit` (of its moments: `ms` or `us`, `ms` where it is missing), and `node`, `link` and `step`, arrays of
/// tables. A fault is the first in this order: the text itself; the keys of the document; nodes, links and steps by number,
/// the topology before the steps. Within a table come `role` or `do`, then a key that it doesn't have, and then key by key
/// what is missing, of another type, out of its values, doubled or not there. `NoMemory` comes where a growth was refused,
/// in place of any other answer.
pub fn read(alloc: Global, text: &str) -> Result<Scenario, ScenarioFault>
    ensures { GivesAt scenario_view result (meaning text.now) }
{
    match document_of(alloc, text) {
        Ok(table) => document(alloc, &table),
        Err(fault) => Err(text_fault(fault)),
    }
}
