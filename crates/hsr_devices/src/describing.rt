//! What a node is, and what it knows, in words.
ghost use Rattle.std.specs.Prelude.{◌≡◌, ◌++◌, OnOk, codes};
ghost use Rattle.std.specs.List.{flat_map};
ghost use Rattle.hsr_timeline.specs.Fronts.{lists_of};
ghost use Rattle.hsr_devices.specs.Describing.{addresses_text, heard_if, kind_text, known_text, macs_text, next_name, node_row_text, owner_if, owner_in, parted_names, redbox_if, station_text, unheard_text, who_text};
ghost use Rattle.hsr_text.specs.Words.{mac_text};

use crate::known::Known;
use hsr_frame::{Mac, NoMemory};
use hsr_node::Place;
use hsr_supervision::SupKind;
use hsr_tables::NodeRow;
use hsr_text::{put, put_mac, put_number, put_octets};
use hsr_timeline::put_name;
use std::alloc::Global;

/// Puts an address behind two spaces last.
fn put_next_mac(alloc: Global, text: &mut Vec<u8>, mac: Mac) -> Result<(), NoMemory>
    ensures { OnOk result (text.new.items ≡ text.old.items ++ (codes "  " ++ mac_text mac)) }
{
    put(text, "  ")?;
    put_mac(alloc, text, mac)?;
    Ok(())
}

/// Puts addresses last, each behind two spaces.
#[tactic(auto, using(hsr_frame::proofs::OneMore::grown))]
fn put_macs(alloc: Global, text: &mut Vec<u8>, macs: &[Mac]) -> Result<(), NoMemory>
    ensures { OnOk result (text.new.items ≡ text.old.items ++ macs_text macs.now) }
{
    for mac in macs {
        put_next_mac(alloc, text, *mac)?;
    }
    Ok(())
}

/// Puts the addresses of a node last, and its mode.
pub(crate) fn put_addresses(
    alloc: Global,
    text: &mut Vec<u8>,
    place: &Place,
) -> Result<(), NoMemory>
    ensures { OnOk result (text.new.items ≡ text.old.items ++ addresses_text place.now) }
{
    match place {
        Place::Danh { mac, mode } | Place::RedBox { mac, mode } => {
            put_next_mac(alloc, text, *mac)?;
            put(text, "  mode ")?;
            put(text, mode.word())
        }
        Place::QuadBox => Ok(()),
        Place::Station { macs } => put_macs(alloc, text, macs.as_slice()),
    }
}

/// The first node that has an address.
fn owner_in(places: &[Place], mac: Mac) -> Option<usize>
    ensures { result ≡ owner_in places.now mac }
{
    places.iter().position(|place| place.owns(mac))
}

/// Puts the name of the node that has an address last, if one has.
fn put_owner(text: &mut Vec<u8>, names: &[Vec<u8>], owner: Option<usize>) -> Result<(), NoMemory>
    ensures { OnOk result (text.new.items ≡ text.old.items ++ owner_if (lists_of names.now) owner) }
{
    match owner {
        Some(node) => {
            put(text, " (")?;
            put_name(text, names, node)?;
            put(text, ")")
        }
        None => Ok(()),
    }
}

/// Puts an address last, and the name of the node that has it.
#[tactic(auto, unfolding(crate::specs::Describing::who_text))]
fn put_who(
    alloc: Global,
    text: &mut Vec<u8>,
    names: &[Vec<u8>],
    places: &[Place],
    mac: Mac,
) -> Result<(), NoMemory>
    ensures { OnOk result (text.new.items ≡ text.old.items
        ++ who_text (lists_of names.now) places.now mac) }
{
    put_mac(alloc, text, mac)?;
    put_owner(text, names, owner_in(places, mac))
}

/// What kind of node a supervision frame tells of, by the type of its first TLV (IEC 62439-3 clause 5.7).
fn kind_text(kind: SupKind) -> &'static [u8]
    ensures { result.now ≡ kind_text kind }
{
    match kind {
        SupKind::PrpDiscard => b"  PRP, discards",
        SupKind::PrpAccept => b"  PRP, accepts",
        SupKind::Hsr => b"  HSR",
    }
}

/// Puts the RedBox that speaks for a node last, if one does.
fn put_redbox(
    alloc: Global,
    text: &mut Vec<u8>,
    names: &[Vec<u8>],
    places: &[Place],
    redbox: Option<Mac>,
) -> Result<(), NoMemory>
    ensures { OnOk result (text.new.items ≡ text.old.items
        ++ redbox_if (lists_of names.now) places.now redbox) }
{
    match redbox {
        Some(mac) => {
            put(text, ", behind ")?;
            put_who(alloc, text, names, places, mac)
        }
        None => Ok(()),
    }
}

/// Puts the moment last at which a node was heard on a port, if it was.
fn put_heard(text: &mut Vec<u8>, port: &[u8], heard: Option<u64>) -> Result<(), NoMemory>
    ensures { OnOk result (text.new.items ≡ text.old.items ++ heard_if port.now heard) }
{
    match heard {
        Some(moment) => {
            put(text, ", on ")?;
            put_octets(text, port)?;
            put(text, " at ")?;
            put_number(text, moment)?;
            put(text, " us")
        }
        None => Ok(()),
    }
}

/// Puts the line of a node that is known last.
#[tactic(auto, unfolding(crate::specs::Describing::node_row_text))]
fn put_node_row(
    alloc: Global,
    text: &mut Vec<u8>,
    names: &[Vec<u8>],
    places: &[Place],
    row: NodeRow,
) -> Result<(), NoMemory>
    ensures { OnOk result (text.new.items ≡ text.old.items
        ++ node_row_text (lists_of names.now) places.now row) }
{
    put(text, "  knows ")?;
    put_who(alloc, text, names, places, row.mac)?;
    put_octets(text, kind_text(row.kind))?;
    put_redbox(alloc, text, names, places, row.redbox)?;
    put_heard(text, b"A", row.heard_a)?;
    put_heard(text, b"B", row.heard_b)?;
    put(text, "\n")
}

/// Puts the line of a station that is known last.
#[tactic(auto, unfolding(crate::specs::Describing::station_text))]
fn put_station(
    alloc: Global,
    text: &mut Vec<u8>,
    names: &[Vec<u8>],
    places: &[Place],
    mac: Mac,
    moment: u64,
) -> Result<(), NoMemory>
    ensures { OnOk result (text.new.items ≡ text.old.items
        ++ station_text (lists_of names.now) places.now (mac, moment)) }
{
    put(text, "  knows ")?;
    put_who(alloc, text, names, places, mac)?;
    put(text, "  station, at ")?;
    put_number(text, moment)?;
    put(text, " us\n")
}

/// Puts the lines of the nodes that are known last.
#[tactic(auto, using(hsr_frame::proofs::OneMore::grown))]
fn put_nodes(
    alloc: Global,
    text: &mut Vec<u8>,
    names: &[Vec<u8>],
    places: &[Place],
    rows: &[NodeRow],
) -> Result<(), NoMemory>
    ensures { OnOk result (text.new.items ≡ text.old.items
        ++ flat_map (node_row_text (lists_of names.now) places.now) rows.now) }
{
    for row in rows {
        put_node_row(alloc, text, names, places, *row)?;
    }
    Ok(())
}

/// Puts the lines of the stations that are known last.
#[tactic(auto, using(hsr_frame::proofs::OneMore::grown))]
fn put_stations(
    alloc: Global,
    text: &mut Vec<u8>,
    names: &[Vec<u8>],
    places: &[Place],
    stations: &[(Mac, u64)],
) -> Result<(), NoMemory>
    ensures { OnOk result (text.new.items ≡ text.old.items
        ++ flat_map (station_text (lists_of names.now) places.now) stations.now) }
{
    for station in stations {
        put_station(alloc, text, names, places, station.0, station.1)?;
    }
    Ok(())
}

/// Puts a comma and the name of a node last.
fn put_next_name(text: &mut Vec<u8>, names: &[Vec<u8>], node: usize) -> Result<(), NoMemory>
    ensures { OnOk result (text.new.items ≡ text.old.items ++ next_name (lists_of names.now) node) }
{
    put(text, ", ")?;
    put_name(text, names, node)
}

/// Puts the names of nodes last, each behind a comma.
#[tactic(auto, using(hsr_frame::proofs::OneMore::grown))]
fn put_next_names(text: &mut Vec<u8>, names: &[Vec<u8>], nodes: &[usize]) -> Result<(), NoMemory>
    ensures { OnOk result (text.new.items ≡ text.old.items
        ++ flat_map (next_name (lists_of names.now)) nodes.now) }
{
    for node in nodes {
        put_next_name(text, names, *node)?;
    }
    Ok(())
}

/// Puts the names of nodes last, parted by commas.
fn put_names(
    text: &mut Vec<u8>,
    names: &[Vec<u8>],
    node: usize,
    others: &[usize],
) -> Result<(), NoMemory>
    ensures { OnOk result (text.new.items ≡ text.old.items
        ++ parted_names (lists_of names.now) node others.now) }
{
    put_name(text, names, node)?;
    put_next_names(text, names, others)
}

/// Puts the line of names behind words last.
fn put_names_line(
    text: &mut Vec<u8>,
    words: &[u8],
    names: &[Vec<u8>],
    node: usize,
    others: &[usize],
) -> Result<(), NoMemory>
    ensures { OnOk result (text.new.items ≡ text.old.items ++ (words.now
        ++ parted_names (lists_of names.now) node others.now ++ codes "\n")) }
{
    put_octets(text, words)?;
    put_names(text, names, node, others)?;
    put(text, "\n")
}

/// Puts the line of the nodes last of which supervision never told a node, if there are any.
pub(crate) fn put_unheard(
    text: &mut Vec<u8>,
    names: &[Vec<u8>],
    nodes: &[usize],
) -> Result<(), NoMemory>
    ensures { OnOk result (text.new.items ≡ text.old.items
        ++ unheard_text (lists_of names.now) nodes.now) }
{
    match nodes.split_first() {
        None => Ok(()),
        Some((node, others)) => put_names_line(text, b"  never heard ", names, *node, others),
    }
}

/// Puts the lines of the nodes and stations that a node knows last.
pub(crate) fn put_known(
    alloc: Global,
    text: &mut Vec<u8>,
    names: &[Vec<u8>],
    places: &[Place],
    known: &Known,
) -> Result<(), NoMemory>
    ensures { OnOk result (text.new.items ≡ text.old.items
        ++ known_text (lists_of names.now) places.now known.now.nodes.items
        known.now.stations.items) }
{
    put_nodes(alloc, text, names, places, known.nodes.as_slice())?;
    put_stations(alloc, text, names, places, known.stations.as_slice())
}
