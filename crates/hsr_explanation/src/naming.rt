//! Nodes, entries and links, by their numbers and names.
use hsr_finished_run::Closed;
use hsr_frame::NoMemory;
use hsr_node::Place;
use hsr_scenario::read_names;
use hsr_text::put_decimal;
use hsr_timeline::{put_name, put_port};
use hsr_toml::put;
use hsr_topology::End;
use std::alloc::Global;

/// The names of the nodes of a scenario; none where octets are no scenario, or if allocation fails.
pub fn names_in(alloc: Global, octets: &[u8]) -> Vec<Vec<u8>> {
    // Without names an explanation still has numbers.
    let Ok(text) = str::from_utf8(octets) else {
        return Vec::new(alloc);
    };
    match read_names(alloc, text) {
        Ok(named) => named.names,
        Err(_) => Vec::new(alloc),
    }
}

/// Puts a number last, behind a word.
pub(crate) fn put_number(line: &mut Vec<u8>, word: &str, number: usize) -> Result<(), NoMemory> {
    put(line, word)?;
    put_decimal(line, number as u64)?;
    Ok(())
}

/// Puts a node last, by its number, and by its name where it has one.
pub(crate) fn put_node(line: &mut Vec<u8>, names: &[Vec<u8>], node: usize) -> Result<(), NoMemory> {
    put_number(line, "node ", node)?;
    // Without a name `put_name` would put the number once more.
    if names.get(node).is_some() {
        put(line, " (")?;
        put_name(line, names, node)?;
        put(line, ")")?;
    }
    Ok(())
}

/// Puts a link last, by its number and ends.
pub(crate) fn put_link(
    line: &mut Vec<u8>,
    names: &[Vec<u8>],
    places: &[Place],
    links: &[[End; 2]],
    link: usize,
) -> Result<(), NoMemory> {
    put_number(line, "link ", link)?;
    let Some([one, other]) = links.get(link) else {
        return Ok(());
    };
    put(line, " (")?;
    put_port(line, b".", names, places, *one)?;
    put(line, " ")?;
    put_port(line, b".", names, places, *other)?;
    put(line, ")")
}

/// The moment of an entry of a run, if it is there.
fn moment_of<const C: usize>(closed: &Closed<C>, node: usize, place: usize) -> Option<u64> {
    closed.topology().places().get(node)?;
    Some(closed.entries(node).get(place)?.at)
}

/// Puts an entry last: its place, its node and its moment.
pub(crate) fn put_entry<const C: usize>(
    line: &mut Vec<u8>,
    closed: &Closed<C>,
    names: &[Vec<u8>],
    node: usize,
    place: usize,
) -> Result<(), NoMemory> {
    put_number(line, "entry ", place)?;
    put(line, " of ")?;
    put_node(line, names, node)?;
    let Some(at) = moment_of(closed, node, place) else {
        return Ok(());
    };
    put(line, " at ")?;
    put_decimal(line, at)?;
    put(line, " us")
}
