//! A drawing as SVG.
use crate::drawing::{Drawing, LoopLabel};
use crate::link_spelling::{put_lanes, put_links, put_text_at};
use crate::names::name_of;
use crate::node_spelling::{put_nodes, put_twins};
use crate::numbers::put_whole;
use crate::scale::Format;
use hsr_frame::NoMemory;
use hsr_node::Place;
use hsr_page::put_escaped;
use hsr_text::put;
use hsr_topology::End;

/// Over so many nodes texts are drawn larger.
const BIG: usize = 24;

/// How many pixels a user unit has at most.
const ZOOM: f64 = 1.5;

/// What a drawing is for.
#[derive(Clone, Copy, PartialEq, Eq)]
pub enum Kind {
    /// A run's page: nodes are buttons, and each link has lanes for its copies.
    Pressed,
    /// Paper.
    Still,
}

/// What is written in a drawing.
#[derive(Clone, Copy)]
pub struct Words<'a> {
    /// What the whole is called.
    pub title: &'a str,
    /// The names of nodes, by their numbers.
    pub names: &'a [&'a str],
    /// The names of loops, by their numbers; one without a name has an empty one.
    pub loops: &'a [&'a str],
}

/// The classes of a drawing.
fn class_of(drawing: &Drawing) -> &'static str {
    let is_big = drawing.boxes.len() > BIG;
    match drawing.format {
        Format::Wide if is_big => "net wide big",
        Format::Wide => "net wide",
        Format::Tall if is_big => "net tall big",
        Format::Tall => "net tall",
    }
}

/// Puts an attribute with a whole number last.
fn put_size(text: &mut Vec<u8>, name: &str, size: f64) -> Result<(), NoMemory> {
    put(text, " ")?;
    put(text, name)?;
    put(text, "=\"")?;
    put_whole(text, size)?;
    put(text, "\"")
}

/// Puts which part of the plane is seen last, and how large.
fn put_view(text: &mut Vec<u8>, drawing: &Drawing) -> Result<(), NoMemory> {
    let view = drawing.view();
    put(text, " viewBox=\"")?;
    put_whole(text, view.low.x.floor())?;
    put(text, " ")?;
    put_whole(text, view.low.y.floor())?;
    put(text, " ")?;
    put_whole(text, view.width().ceil() + 1.0)?;
    put(text, " ")?;
    put_whole(text, view.height().ceil() + 1.0)?;
    put(text, "\"")?;
    put_size(text, "width", ZOOM * view.width())?;
    put_size(text, "height", ZOOM * view.height())
}

/// Puts the begin of a drawing last.
fn put_begin(text: &mut Vec<u8>, drawing: &Drawing, title: &str) -> Result<(), NoMemory> {
    put(text, "<svg class=\"")?;
    put(text, class_of(drawing))?;
    put(text, "\"")?;
    put_view(text, drawing)?;
    put(text, " role=\"group\" aria-label=\"")?;
    put_escaped(text, title)?;
    put(text, "\">\n")
}

/// Puts the name of a loop last, if it has one.
fn put_label(text: &mut Vec<u8>, label: LoopLabel, name: &str) -> Result<(), NoMemory> {
    if name.is_empty() {
        return Ok(());
    }
    put_text_at(text, "loop", label.at)?;
    put_escaped(text, name)?;
    put(text, "</text>\n")
}

/// Puts the names of loops last.
fn put_labels(text: &mut Vec<u8>, labels: &[LoopLabel], names: &[&str]) -> Result<(), NoMemory> {
    for label in labels {
        put_label(text, *label, name_of(names, label.number))?;
    }
    Ok(())
}

/// Puts the lanes last, where nodes can be pressed.
fn put_lanes_for(text: &mut Vec<u8>, drawing: &Drawing, kind: Kind) -> Result<(), NoMemory> {
    match kind {
        Kind::Still => Ok(()),
        Kind::Pressed => put_lanes(text, drawing.wires.as_slice()),
    }
}

/// Puts a drawing last as an element `svg` of HTML: each node, link and lane has its number as `data-node`, `data-link` and `data-lane`, a
/// lane with `f` or `b` behind it; the style says what is seen of lanes. Nodes and links have their places by number, as the drawing was
/// made of. `NoMemory` if allocation fails.
pub fn put_drawing(
    text: &mut Vec<u8>,
    drawing: &Drawing,
    kind: Kind,
    places: &[Place],
    links: &[[End; 2]],
    words: Words<'_>,
) -> Result<(), NoMemory> {
    put_begin(text, drawing, words.title)?;
    put_labels(text, drawing.labels.as_slice(), words.loops)?;
    put_links(text, words.names, links, drawing.wires.as_slice())?;
    put_lanes_for(text, drawing, kind)?;
    put_twins(
        text,
        words.names,
        drawing.twins.as_slice(),
        drawing.box_width,
    )?;
    put_nodes(text, kind, places, words.names, drawing.boxes.as_slice())?;
    put(
        text,
        "<g class=\"tokens\" aria-hidden=\"true\"></g></svg>\n",
    )
}
