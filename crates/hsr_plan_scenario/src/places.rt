//! How a scenario spells its nodes and links, one a line.
ghost use Rattle.std.specs.Prelude.{◌≡◌, ◌++◌, OnOk};
ghost use Rattle.std.specs.List.{flat_map};
ghost use Rattle.hsr_plan_scenario.specs.Spelled.{comma, link_line, link_lines, links_text, listed, mac_text, mode_text, node_line, nodes_text, place_text, ring_place_text, role_text, station_text, stations_text};

use crate::naming::{put_mac, put_port};
use hsr_frame::{Mac, Mode, NoMemory};
use hsr_node::Place;
use hsr_plan_network::Node;
use hsr_plan_text::Word;
use hsr_text::{put, put_number, put_octets};
use hsr_topology::End;

/// Puts a role last.
#[tactic(auto, unfolding(crate::specs::Spelled::role_text))]
fn put_role(text: &mut Vec<u8>, role: &str) -> Result<(), NoMemory>
    ensures { OnOk result (text.new.items ≡ text.old.items ++ role_text role.now) }
{
    put(text, ", role=\"")?;
    put(text, role)?;
    put(text, "\"")
}

/// Puts the mode of a node on a ring last, if it isn't H.
fn put_mode(text: &mut Vec<u8>, mode: Mode) -> Result<(), NoMemory>
    ensures { OnOk result (text.new.items ≡ text.old.items ++ mode_text mode) }
{
    match mode {
        // H is what a scenario means where it says none.
        Mode::H => Ok(()),
        Mode::N => put(text, ", mode=\"N\""),
        Mode::U => put(text, ", mode=\"U\""),
    }
}

/// Puts the address and the mode of a node on a ring last.
#[tactic(auto, unfolding(crate::specs::Spelled::ring_place_text))]
fn put_ring_place(text: &mut Vec<u8>, role: &str, mac: Mac, mode: Mode) -> Result<(), NoMemory>
    ensures { OnOk result (text.new.items ≡ text.old.items ++ ring_place_text role.now mac mode) }
{
    put_role(text, role)?;
    put(text, ", mac=")?;
    put_mac(text, mac)?;
    put_mode(text, mode)
}

/// Puts a comma before each word but the first last.
fn put_comma(text: &mut Vec<u8>, number: usize) -> Result<(), NoMemory>
    ensures { OnOk result (text.new.items ≡ text.old.items ++ comma number) }
{
    put(text, if number == 0 { "" } else { ", " })
}

/// Puts addresses last, with a comma between two.
#[tactic(auto, using(crate::proofs::Growing::listed_more))]
fn put_listed_macs(text: &mut Vec<u8>, macs: &[Mac]) -> Result<(), NoMemory>
    ensures { OnOk result (text.new.items ≡ text.old.items ++ listed mac_text macs.now) }
{
    for (i, mac) in macs.iter().enumerate() {
        put_comma(text, i)?;
        put_mac(text, *mac)?;
    }
    Ok(())
}

/// Puts the addresses of a Station last.
#[tactic(auto, unfolding(crate::specs::Spelled::station_text))]
fn put_station(text: &mut Vec<u8>, macs: &[Mac]) -> Result<(), NoMemory>
    ensures { OnOk result (text.new.items ≡ text.old.items ++ station_text macs.now) }
{
    put_role(text, "station")?;
    put(text, ", macs=[")?;
    put_listed_macs(text, macs)?;
    put(text, "]")
}

/// Puts what kind of node it is last.
fn put_place(text: &mut Vec<u8>, place: &Place) -> Result<(), NoMemory>
    ensures { OnOk result (text.new.items ≡ text.old.items ++ place_text place.now) }
{
    match place {
        Place::Danh { mac, mode } => put_ring_place(text, "danh", *mac, *mode),
        Place::RedBox { mac, mode } => put_ring_place(text, "redbox", *mac, *mode),
        Place::QuadBox => put_role(text, "quadbox"),
        Place::Station { macs } => put_station(text, macs.as_slice()),
    }
}

/// Puts names last, with a comma between two.
#[tactic(auto, using(crate::proofs::Growing::listed_more))]
fn put_listed(text: &mut Vec<u8>, names: &[Word]) -> Result<(), NoMemory>
    ensures { OnOk result (text.new.items ≡ text.old.items ++ listed (λ n. n) names.now) }
{
    for (i, name) in names.iter().enumerate() {
        put_comma(text, i)?;
        put_octets(text, name.as_bytes())?;
    }
    Ok(())
}

/// Puts the names of a Station's stations behind a line, as a comment.
fn put_stations(text: &mut Vec<u8>, names: &[Word]) -> Result<(), NoMemory>
    ensures { OnOk result (text.new.items ≡ text.old.items ++ stations_text names.now) }
{
    if names.is_empty() {
        return Ok(());
    }
    put(text, "  # ")?;
    put_listed(text, names)
}

/// Puts the line of a node last.
#[tactic(auto, unfolding(crate::specs::Spelled::node_line))]
fn put_node(text: &mut Vec<u8>, node: &Node) -> Result<(), NoMemory>
    ensures { OnOk result (text.new.items ≡ text.old.items ++ node_line node.now) }
{
    put(text, "  {name=\"")?;
    put_octets(text, node.name.as_bytes())?;
    put(text, "\"")?;
    put_place(text, &node.place)?;
    put(text, "},")?;
    put_stations(text, node.stations.as_slice())?;
    put(text, "\n")
}

/// Puts the line of the link of that number last.
#[tactic(auto, unfolding(crate::specs::Spelled::ends_line))]
fn put_link(
    text: &mut Vec<u8>,
    nodes: &[Node],
    number: usize,
    link: &[End; 2],
) -> Result<(), NoMemory>
    ensures { OnOk result (text.new.items ≡ text.old.items ++ link_line nodes.now number link.now) }
{
    let [one, other] = *link;
    put(text, "  {ends=[")?;
    put_port(text, nodes, one.node, one.port)?;
    put(text, ", ")?;
    put_port(text, nodes, other.node, other.port)?;
    put(text, "]},  # ")?;
    put_number(text, number as u64)?;
    put(text, "\n")
}

/// Puts the lines of nodes last.
#[tactic(auto, using(hsr_frame::proofs::OneMore::grown))]
fn put_node_lines(text: &mut Vec<u8>, nodes: &[Node]) -> Result<(), NoMemory>
    ensures { OnOk result (text.new.items ≡ text.old.items ++ flat_map node_line nodes.now) }
{
    for node in nodes.iter() {
        put_node(text, node)?;
    }
    Ok(())
}

/// Puts the list of nodes last.
#[tactic(auto, unfolding(crate::specs::Spelled::nodes_text))]
pub(crate) fn put_nodes(text: &mut Vec<u8>, nodes: &[Node]) -> Result<(), NoMemory>
    ensures { OnOk result (text.new.items ≡ text.old.items ++ nodes_text nodes.now) }
{
    put(text, "node = [\n")?;
    put_node_lines(text, nodes)?;
    put(text, "]\n")
}

/// Puts the lines of links last.
fn put_link_lines(text: &mut Vec<u8>, nodes: &[Node], links: &[[End; 2]]) -> Result<(), NoMemory>
    ensures { OnOk result (text.new.items ≡ text.old.items ++ link_lines nodes.now links.now) }
{
    for (number, link) in links.iter().enumerate() {
        put_link(text, nodes, number, link)?;
    }
    Ok(())
}

/// Puts the list of links last.
#[tactic(auto, unfolding(crate::specs::Spelled::links_text))]
pub(crate) fn put_links(
    text: &mut Vec<u8>,
    nodes: &[Node],
    links: &[[End; 2]],
) -> Result<(), NoMemory>
    ensures { OnOk result (text.new.items ≡ text.old.items ++ links_text nodes.now links.now) }
{
    put(text, "link = [\n")?;
    put_link_lines(text, nodes, links)?;
    put(text, "]\n")
}
