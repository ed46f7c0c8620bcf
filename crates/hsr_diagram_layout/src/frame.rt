//! Node lines, their names, and moments.
ghost use Rattle.std.specs.Prelude.{◌≡◌, ◌<◌, ◌++◌, ◌∷◌, [], length, slice_get, OnOk};
ghost use Rattle.std.specs.List.{flat_map};
ghost use Rattle.hsr_timeline.specs.Fronts.{lists_of};
ghost use Rattle.hsr_svg.specs.Elements.{shapes, line as line_shape};
ghost use Rattle.hsr_svg.specs.declared.elements.Line.TheVariants as lines;
ghost use Rattle.hsr_diagram_layout.specs.Frame.{frame_shapes, head_shapes, heads_below, is_again, kind_if, link_shapes, moment_shapes, strokes_below};

use crate::columns::Strip;
use crate::heads::Heads;
use crate::sheet::{Sheet, TAIL};
use hsr_diagram::Lane;
use hsr_diagram_text::{kind_word, letter_at, link_words, moment_words, name_words};
use hsr_frame::NoMemory;
use hsr_node::Place;
use hsr_svg::{Anchor, Element, Label, Line, Reading, Spot, Way, add_line, add_text, add_words};
use std::alloc::Global;

// ---- node lines

/// Whether the node of a line has one before it.
fn is_again(nodes: &[usize], number: usize) -> bool
    requires { number < length nodes.now }
    ensures { result ≡ is_again nodes.now number }
{
    let node = nodes[number];
    nodes[..number].iter().any(|before| *before == node)
}

/// Adds the line of a node.
fn add_stroke(
    elements: &mut Vec<Element>,
    sheet: &Sheet,
    number: usize,
    is_again: bool,
) -> Result<(), NoMemory>
    ensures { OnOk result (shapes elements.new.items ≡ shapes elements.old.items
        ++ line_shape (lines.Node is_again) ∷ []) }
{
    let x = sheet.columns.line_at(number);
    let way = Way {
        x1: x,
        y1: sheet.heads.top.saturating_sub(8),
        x2: x,
        y2: sheet.rows.bottom.saturating_add(TAIL),
    };
    add_line(elements, Line::Node { is_again }, way)
}

/// Adds the lines of nodes.
fn add_strokes(elements: &mut Vec<Element>, sheet: &Sheet, nodes: &[usize]) -> Result<(), NoMemory>
    ensures { OnOk result (shapes elements.new.items ≡ shapes elements.old.items
        ++ strokes_below nodes.now (length nodes.now)) }
{
    for number in 0..nodes.len() {
        add_stroke(elements, sheet, number, is_again(nodes, number))?;
    }
    Ok(())
}

// ---- names

/// Adds what kind of node it is, if there is such a node.
fn add_kind(
    alloc: Global,
    elements: &mut Vec<Element>,
    places: &[Place],
    node: usize,
    spot: Spot,
) -> Result<(), NoMemory>
    ensures { OnOk result (shapes elements.new.items ≡ shapes elements.old.items
        ++ kind_if (slice_get places.now node)) }
{
    match places.get(node) {
        Some(place) => add_words(
            alloc,
            elements,
            Label::Kind,
            kind_word(place).as_bytes(),
            spot,
        ),
        None => Ok(()),
    }
}

/// Adds the name of the node of a line, and what kind of node it is.
#[tactic(auto, unfolding(crate::specs::Frame::head_shapes))]
fn add_head(
    alloc: Global,
    elements: &mut Vec<Element>,
    names: &[Vec<u8>],
    places: &[Place],
    sheet: &Sheet,
    nodes: &[usize],
    number: usize,
) -> Result<(), NoMemory>
    requires { number < length nodes.now }
    ensures { OnOk result (shapes elements.new.items ≡ shapes elements.old.items
        ++ head_shapes (lists_of names.now) places.now nodes.now number) }
{
    let x = sheet.columns.line_at(number);
    let node = nodes[number];
    let label = Label::Name {
        is_again: is_again(nodes, number),
    };
    let words = name_words(alloc, names, node)?;
    add_text(elements, label, words, sheet.heads.name_at(x))?;
    add_kind(alloc, elements, places, node, sheet.heads.kind_at(x))
}

/// Adds the names of nodes, each over its line.
fn add_heads(
    alloc: Global,
    elements: &mut Vec<Element>,
    names: &[Vec<u8>],
    places: &[Place],
    sheet: &Sheet,
    nodes: &[usize],
) -> Result<(), NoMemory>
    ensures { OnOk result (shapes elements.new.items ≡ shapes elements.old.items
        ++ heads_below (lists_of names.now) places.now nodes.now (length nodes.now)) }
{
    for number in 0..nodes.len() {
        add_head(alloc, elements, names, places, sheet, nodes, number)?;
    }
    Ok(())
}

// ---- links

/// Adds the letters of the ports of a link, and its number.
#[tactic(auto, unfolding(crate::specs::Frame::link_shapes))]
fn add_link(
    alloc: Global,
    elements: &mut Vec<Element>,
    places: &[Place],
    heads: Heads,
    lane: Lane,
    strip: Strip,
) -> Result<(), NoMemory>
    ensures { OnOk result (shapes elements.new.items ≡ shapes elements.old.items
        ++ link_shapes places.now lane) }
{
    let left = heads.left_letter_at(strip);
    let right = heads.right_letter_at(strip);
    let letter = [letter_at(places, lane.left.node, lane.left.port)];
    add_words(alloc, elements, Label::Link, letter.as_slice(), left)?;
    let letter = [letter_at(places, lane.right.node, lane.right.port)];
    add_words(alloc, elements, Label::Link, letter.as_slice(), right)?;
    let words = link_words(alloc, lane.link)?;
    add_text(elements, Label::Link, words, heads.link_at(strip))
}

/// Adds the letters and the numbers of all links.
#[tactic(auto, using(hsr_frame::proofs::OneMore::grown))]
fn add_links(
    alloc: Global,
    elements: &mut Vec<Element>,
    places: &[Place],
    sheet: &Sheet,
    lanes: &[Lane],
) -> Result<(), NoMemory>
    ensures { OnOk result (shapes elements.new.items ≡ shapes elements.old.items
        ++ flat_map (link_shapes places.now) lanes.now) }
{
    for (number, lane) in lanes.iter().enumerate() {
        let strip = sheet.columns.strip_at(number);
        add_link(alloc, elements, places, sheet.heads, *lane, strip)?;
    }
    Ok(())
}

// ---- moments

/// Adds a moment where its first row stands, and a line above it.
#[tactic(auto, unfolding(crate::specs::Frame::moment_shapes))]
fn add_moment(
    alloc: Global,
    elements: &mut Vec<Element>,
    sheet: &Sheet,
    moment: u64,
) -> Result<(), NoMemory>
    ensures { OnOk result (shapes elements.new.items ≡ shapes elements.old.items
        ++ moment_shapes moment) }
{
    let y = sheet.rows.first_of(moment);
    let above = y.saturating_sub(sheet.rows.space);
    let x = sheet.left.saturating_sub(sheet.side);
    let way = Way {
        x1: x,
        y1: above,
        x2: sheet.columns.next.saturating_sub(sheet.columns.width),
        y2: above,
    };
    let spot = Spot {
        x,
        y: y.saturating_add(3),
        anchor: Anchor::End,
        reading: Reading::Across,
    };
    add_line(elements, Line::Moment, way)?;
    let words = moment_words(alloc, moment)?;
    add_text(elements, Label::Moment, words, spot)
}

/// Adds moments.
#[tactic(auto, using(hsr_frame::proofs::OneMore::grown))]
fn add_moments(
    alloc: Global,
    elements: &mut Vec<Element>,
    sheet: &Sheet,
    moments: &[u64],
) -> Result<(), NoMemory>
    ensures { OnOk result (shapes elements.new.items ≡ shapes elements.old.items
        ++ flat_map moment_shapes moments.now) }
{
    for moment in moments {
        add_moment(alloc, elements, sheet, *moment)?;
    }
    Ok(())
}

// ---- all

/// Adds moments, node lines, their names, and links.
#[tactic(auto, unfolding(crate::specs::Frame::frame_shapes))]
pub(crate) fn add_frame(
    alloc: Global,
    elements: &mut Vec<Element>,
    names: &[Vec<u8>],
    places: &[Place],
    sheet: &Sheet,
) -> Result<(), NoMemory>
    ensures { OnOk result (shapes elements.new.items ≡ shapes elements.old.items
        ++ frame_shapes (lists_of names.now) places.now sheet.now.columns.nodes.items
        sheet.now.columns.lanes.items sheet.now.moments.items) }
{
    let nodes = sheet.columns.nodes.as_slice();
    let lanes = sheet.columns.lanes.as_slice();
    add_moments(alloc, elements, sheet, sheet.moments.as_slice())?;
    add_strokes(elements, sheet, nodes)?;
    add_heads(alloc, elements, names, places, sheet, nodes)?;
    add_links(alloc, elements, places, sheet, lanes)
}
