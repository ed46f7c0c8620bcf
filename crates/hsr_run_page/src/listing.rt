//! The list of sends: who sent what, when and to whom, and who got it.
//!
//! No contract tells what stands here; each text is escaped. The page's data has the same, and its contract tells it.
use crate::facts::put_many;
use hsr_deliveries::Delivery;
use hsr_diagram::Sent;
use hsr_finished_run::Closed;
use hsr_frame::{Mac, NoMemory};
use hsr_node::{Entry, Event, Place};
use hsr_page::{put_escaped_octets, put_grouped, put_moment};
use hsr_text::{put, put_hex, put_mac, put_number};
use hsr_timeline::put_name;
use std::alloc::Global;

/// How many nodes are named in a cell; of more it says how many.
const NAMED: usize = 4;

/// Puts the name of a node last, escaped.
pub(crate) fn put_node_name(
    alloc: Global,
    text: &mut Vec<u8>,
    names: &[Vec<u8>],
    node: usize,
) -> Result<(), NoMemory> {
    let mut name = Vec::new(alloc);
    put_name(&mut name, names, node)?;
    put_escaped_octets(alloc, text, name.as_slice())
}

/// Puts the names of the first of some nodes last, parted by commas, and how many more there are.
fn put_named(
    alloc: Global,
    text: &mut Vec<u8>,
    names: &[Vec<u8>],
    nodes: &[usize],
) -> Result<(), NoMemory> {
    for (number, node) in nodes.iter().take(NAMED).enumerate() {
        put(text, if number == 0 { " " } else { ", " })?;
        put_node_name(alloc, text, names, *node)?;
    }
    if nodes.len() > NAMED {
        put(text, " and ")?;
        put_grouped(text, (nodes.len() - NAMED) as u64)?;
        put(text, " more")?;
    }
    Ok(())
}

/// Puts a word and the nodes of which it holds last, where there are some, behind what stands before.
fn put_of(
    alloc: Global,
    text: &mut Vec<u8>,
    names: &[Vec<u8>],
    word: &str,
    nodes: &[usize],
) -> Result<(), NoMemory> {
    if nodes.is_empty() {
        return Ok(());
    }
    put(text, ", ")?;
    put(text, word)?;
    put_named(alloc, text, names, nodes)
}

/// Puts what became of a send last.
fn put_status(
    alloc: Global,
    text: &mut Vec<u8>,
    names: &[Vec<u8>],
    delivery: &Delivery,
) -> Result<(), NoMemory> {
    put(
        text,
        if delivery.is_complete() {
            "✓ complete"
        } else {
            "✗ not complete"
        },
    )?;
    put_of(alloc, text, names, "missed", delivery.missed.as_slice())?;
    put_of(alloc, text, names, "twice", delivery.twice.as_slice())?;
    put_of(alloc, text, names, "strayed", delivery.strayed.as_slice())?;
    if delivery.lost.is_empty() {
        return Ok(());
    }
    put(text, ", ")?;
    put_many(text, delivery.lost.len(), "copy lost", "copies lost")
}

/// Whether a node has an address.
fn has_address(place: &Place, mac: Mac) -> bool {
    match place {
        Place::Danh { mac: own, .. } | Place::RedBox { mac: own, .. } => *own == mac,
        Place::QuadBox => false,
        Place::Station { macs } => macs.as_slice().contains(&mac),
    }
}

/// Puts to whom a send is last: the name of the node that has the address, or the address.
fn put_to(
    alloc: Global,
    text: &mut Vec<u8>,
    names: &[Vec<u8>],
    places: &[Place],
    dst: Mac,
) -> Result<(), NoMemory> {
    match places.iter().position(|place| has_address(place, dst)) {
        Some(node) => put_node_name(alloc, text, names, node),
        None => put_mac(alloc, text, dst),
    }
}

/// Puts the kind of a payload last, by its EtherType.
fn put_kind(text: &mut Vec<u8>, ethertype: u16) -> Result<(), NoMemory> {
    match ethertype {
        0x0800 => put(text, "IPv4"),
        0x88B8 => put(text, "GOOSE"),
        0x88BA => put(text, "sampled values"),
        0x88F7 => put(text, "PTP"),
        0x88FB => put(text, "supervision"),
        _ => {
            put_hex(text, ethertype.to_be_bytes().as_slice())?;
            Ok(())
        }
    }
}

/// Puts what was sent last.
fn put_what(text: &mut Vec<u8>, entry: Option<&Entry>) -> Result<(), NoMemory> {
    match entry {
        Some(
            Entry {
                event: Event::Send {
                    kind: ethertype,
                    ..
                },
                ..
            },
        ) => put_kind(text, *ethertype),
        _ => put(text, "supervision"),
    }
}

/// What the rows of the list are formed by.
#[derive(Clone, Copy)]
pub(crate) struct Listed<'a> {
    pub(crate) names: &'a [Vec<u8>],
    pub(crate) places: &'a [Place],
    pub(crate) deliveries: &'a [Delivery],
    pub(crate) sends: &'a [Sent],
}

/// Puts which send a row is of last, and whether it is complete.
fn put_row_head(
    alloc: Global,
    text: &mut Vec<u8>,
    names: &[Vec<u8>],
    number: usize,
    delivery: &Delivery,
) -> Result<(), NoMemory> {
    put(text, "<tr data-send=\"")?;
    put_number(text, number as u64)?;
    put(text, "\" class=\"")?;
    put(text, if delivery.is_complete() { "ok" } else { "bad" })?;
    put(
        text,
        "\"><th scope=\"row\"><button type=\"button\" aria-pressed=\"false\">",
    )?;
    put_node_name(alloc, text, names, delivery.send.node)?;
    put(text, ":")?;
    put_number(text, delivery.send.place as u64)?;
    put(text, "</button></th>")
}

/// Puts the row of a send last.
fn put_row(
    alloc: Global,
    text: &mut Vec<u8>,
    listed: Listed<'_>,
    number: usize,
    delivery: &Delivery,
    entry: Option<&Entry>,
) -> Result<(), NoMemory> {
    put_row_head(alloc, text, listed.names, number, delivery)?;
    put(text, "<td class=\"r\">")?;
    put_moment(text, delivery.at)?;
    put(text, "</td><td class=\"status\">")?;
    put_status(alloc, text, listed.names, delivery)?;
    put(text, "</td><td class=\"to\">")?;
    put_to(alloc, text, listed.names, listed.places, delivery.dst)?;
    put(text, "</td><td class=\"what\">")?;
    put_what(text, entry)?;
    put(text, "</td><td class=\"r\">")?;
    put_grouped(text, delivery.due.len() as u64)?;
    put(text, "</td></tr>\n")
}

/// Puts the rows of all sends last.
fn put_rows<const C: usize>(
    alloc: Global,
    text: &mut Vec<u8>,
    closed: &Closed<C>,
    listed: Listed<'_>,
) -> Result<(), NoMemory> {
    for (number, sent) in listed.sends.iter().enumerate() {
        if let Some(delivery) = listed.deliveries.get(sent.number) {
            let send = delivery.send;
            let entry = closed.entries_at(send.node).get(send.place);
            put_row(alloc, text, listed, number, delivery, entry)?;
        }
    }
    Ok(())
}

/// Whether a node has one of the sends that are listed.
fn has_send(listed: Listed<'_>, node: usize) -> bool {
    listed.sends.iter().any(|sent| match listed.deliveries.get(sent.number) {
        Some(delivery) => delivery.send.node == node,
        None => false,
    })
}

/// Puts a choice for each node that has a send last.
fn put_senders(alloc: Global, text: &mut Vec<u8>, listed: Listed<'_>) -> Result<(), NoMemory> {
    for node in 0..listed.places.len() {
        if has_send(listed, node) {
            put(text, "<option value=\"")?;
            put_number(text, node as u64)?;
            put(text, "\">")?;
            put_node_name(alloc, text, listed.names, node)?;
            put(text, "</option>")?;
        }
    }
    Ok(())
}

/// How many of the sends that are listed are complete.
fn complete_among(listed: Listed<'_>) -> usize {
    listed
        .sends
        .iter()
        .filter(|sent| match listed.deliveries.get(sent.number) {
            Some(delivery) => delivery.is_complete(),
            None => false,
        })
        .count()
}

const FRONT: &str = "\
<section class=\"card list\" id=\"list\"><div class=\"bar\"><h2>Sends</h2>\
<label>find <input type=\"search\" id=\"find\" placeholder=\"name, address, type\"></label>\
<label>from <select id=\"sender\"><option value=\"\">all</option>";

const BAR: &str = "\
</select></label><label class=\"check\"><input type=\"checkbox\" id=\"bad\"> incomplete only</label>\
<span id=\"count\" role=\"status\">";

const TABLE: &str = "\
 complete</span></div>\n<div class=\"scroll\" tabindex=\"0\" role=\"region\" aria-label=\"List of sends\">\
<table id=\"sends\"><thead><tr><th scope=\"col\">send</th><th scope=\"col\" class=\"r\">at</th><th scope=\"col\">status</th>\
<th scope=\"col\">to</th><th scope=\"col\">what</th><th scope=\"col\" class=\"r\">for</th></tr></thead><tbody>\n";

const END: &str =
    "</tbody></table><p id=\"none\" hidden>No send fits this filter.</p></div></section>\n";

/// Puts the list of sends last.
pub(crate) fn put_list<const C: usize>(
    alloc: Global,
    text: &mut Vec<u8>,
    closed: &Closed<C>,
    listed: Listed<'_>,
) -> Result<(), NoMemory> {
    put(text, FRONT)?;
    put_senders(alloc, text, listed)?;
    put(text, BAR)?;
    put_grouped(text, complete_among(listed) as u64)?;
    put(text, " of ")?;
    put_grouped(text, listed.sends.len() as u64)?;
    put(text, TABLE)?;
    put_rows(alloc, text, closed, listed)?;
    put(text, END)
}
