//! The network as it is wired, and its devices.
//!
//! No contract tells what stands here; each text is escaped.
use crate::facts::Facts;
use crate::pieces::{put_heading, put_name};
use hsr_frame::{Mac, NoMemory};
use hsr_network_drawing::{Format, Kind, Words, draw, put_drawing};
use hsr_node::Place;
use hsr_text::{put, put_mac};
use std::alloc::Global;

/// Puts the network last as it is drawn for a room of this format.
fn put_format(
    alloc: Global,
    text: &mut Vec<u8>,
    facts: Facts<'_>,
    format: Format,
) -> Result<(), NoMemory> {
    let drawing = draw(alloc, format, facts.places, facts.links, facts.names)?;
    let words = Words {
        title: "The network as it is wired",
        names: facts.names,
        loops: &[],
    };
    put_drawing(
        text,
        &drawing,
        Kind::Still,
        facts.places,
        facts.links,
        words,
    )
}

/// The word for what a node is.
fn role_word(place: &Place) -> &'static str {
    match place {
        Place::Danh { .. } => "DANH",
        Place::RedBox { .. } => "RedBox",
        Place::QuadBox => "QuadBox",
        Place::Station { .. } => "Station",
    }
}

/// Puts the mode of a node on a ring last.
fn put_mode(text: &mut Vec<u8>, place: &Place) -> Result<(), NoMemory> {
    match place {
        Place::Danh { mode, .. } | Place::RedBox { mode, .. } => {
            put(text, ", mode ")?;
            put(text, mode.word())
        }
        Place::QuadBox | Place::Station { .. } => Ok(()),
    }
}

/// Puts an address last.
fn put_address(alloc: Global, text: &mut Vec<u8>, mac: Mac) -> Result<(), NoMemory> {
    put(text, " <span class=\"mono\">")?;
    put_mac(alloc, text, mac)?;
    put(text, "</span>")
}

/// Puts the addresses of a node last.
fn put_addresses(alloc: Global, text: &mut Vec<u8>, place: &Place) -> Result<(), NoMemory> {
    match place {
        Place::Danh { mac, .. } | Place::RedBox { mac, .. } => put_address(alloc, text, *mac),
        Place::QuadBox => Ok(()),
        Place::Station { macs } => {
            for mac in macs.as_slice() {
                put_address(alloc, text, *mac)?;
            }
            Ok(())
        }
    }
}

/// Puts a device last.
fn put_device(
    alloc: Global,
    text: &mut Vec<u8>,
    names: &[&str],
    node: usize,
    place: &Place,
) -> Result<(), NoMemory> {
    put(text, "<li><b>")?;
    put_name(text, names, node)?;
    put(text, "</b> ")?;
    put(text, role_word(place))?;
    put_mode(text, place)?;
    put_addresses(alloc, text, place)?;
    put(text, "</li>\n")
}

/// Puts the network and its devices last.
pub(crate) fn put_network(
    alloc: Global,
    text: &mut Vec<u8>,
    facts: Facts<'_>,
) -> Result<(), NoMemory> {
    put_heading(text, 1, "Network", "hsr_plan")?;
    put(text, "<div class=\"nets\">\n")?;
    put_format(alloc, text, facts, Format::Wide)?;
    put_format(alloc, text, facts, Format::Tall)?;
    put(text, "</div>\n<ul class=\"devices\">\n")?;
    for (node, place) in facts.places.iter().enumerate() {
        put_device(alloc, text, facts.names, node, place)?;
    }
    put(text, "</ul></section>\n")
}
