//! Nodes as SVG.
use crate::drawing::{NodeBox, Twin};
use crate::link_spelling::{put_between, put_text_at};
use crate::measure::{BOX_HEIGHT, Point};
use crate::names::{name_of, put_short};
use crate::numbers::{put_attribute, put_step, put_tenths};
use crate::spelling::Kind;
use hsr_frame::NoMemory;
use hsr_node::{Place, Role};
use hsr_page::put_escaped;
use hsr_text::put;

/// The class of a node.
fn class_of(role: Role) -> &'static str {
    match role {
        Role::Danh => "danh",
        Role::RedBox => "redbox",
        Role::QuadBox => "quadbox",
        Role::Station => "station",
    }
}

/// How round the corners of a node's box are.
fn roundness(role: Role) -> &'static str {
    match role {
        Role::Danh => "15",
        Role::RedBox | Role::QuadBox => "3",
        Role::Station => "2",
    }
}

/// Puts the place and size of a box last, that lies so far inside of it, and so far down to the right.
fn put_sides(text: &mut Vec<u8>, it: NodeBox, inside: f64, shift: f64) -> Result<(), NoMemory> {
    put_attribute(text, "x", it.middle.x - it.half.x + inside + shift)?;
    put_attribute(text, "y", it.middle.y - it.half.y + inside + shift)?;
    put_attribute(text, "width", 2.0 * (it.half.x - inside))?;
    put_attribute(text, "height", 2.0 * (it.half.y - inside))
}

/// Puts the begin of a rectangle of this class last.
fn put_rectangle(text: &mut Vec<u8>, class: &str) -> Result<(), NoMemory> {
    put(text, "<rect class=\"")?;
    put(text, class)?;
    put(text, "\"")
}

/// Puts how round a rectangle is last, and ends it.
fn put_round(text: &mut Vec<u8>, radius: &str) -> Result<(), NoMemory> {
    put(text, " rx=\"")?;
    put(text, radius)?;
    put(text, "\"/>")
}

/// Puts the pile under a Station last.
fn put_pile(text: &mut Vec<u8>, it: NodeBox) -> Result<(), NoMemory> {
    put_rectangle(text, "pile")?;
    put_sides(text, it, 0.0, 4.0)?;
    put_round(text, "2")
}

/// Puts the frame inside of a RedBox last.
fn put_frame(text: &mut Vec<u8>, it: NodeBox) -> Result<(), NoMemory> {
    put_rectangle(text, "in")?;
    put_sides(text, it, 3.0, 0.0)?;
    put_round(text, "1")
}

/// Puts an upright line inside of a box last.
fn put_bar(text: &mut Vec<u8>, x: f64, it: NodeBox) -> Result<(), NoMemory> {
    put_step(text, "M", Point::new(x, it.middle.y - it.half.y))?;
    put(text, "V")?;
    put_tenths(text, it.middle.y + it.half.y)
}

/// Puts the bars of a QuadBox last.
fn put_bars(text: &mut Vec<u8>, it: NodeBox) -> Result<(), NoMemory> {
    put(text, "<path class=\"in\" d=\"")?;
    put_bar(text, it.middle.x - it.half.x + 5.0, it)?;
    put_bar(text, it.middle.x + it.half.x - 5.0, it)?;
    put(text, "\"/>")
}

/// Puts a node's box last.
fn put_body(text: &mut Vec<u8>, it: NodeBox, role: Role) -> Result<(), NoMemory> {
    put(text, "<rect")?;
    put_sides(text, it, 0.0, 0.0)?;
    put_round(text, roundness(role))
}

/// Puts the form of a node last, that tells of its role.
fn put_form(text: &mut Vec<u8>, it: NodeBox, role: Role) -> Result<(), NoMemory> {
    match role {
        Role::Danh => put_body(text, it, role),
        Role::RedBox => {
            put_body(text, it, role)?;
            put_frame(text, it)
        }
        Role::QuadBox => {
            put_body(text, it, role)?;
            put_bars(text, it)
        }
        Role::Station => {
            put_pile(text, it)?;
            put_body(text, it, role)
        }
    }
}

/// Puts the name and the role of a node last.
fn put_said(text: &mut Vec<u8>, name: &str, role: Role) -> Result<(), NoMemory> {
    put_escaped(text, name)?;
    put(text, ", ")?;
    put(text, class_of(role))
}

/// Puts what makes a node a button last, where nodes can be pressed.
fn put_button(text: &mut Vec<u8>, kind: Kind, name: &str, role: Role) -> Result<(), NoMemory> {
    match kind {
        Kind::Still => Ok(()),
        Kind::Pressed => {
            put(text, " tabindex=\"0\" role=\"button\"")?;
            put(text, " aria-pressed=\"false\" aria-label=\"")?;
            put_said(text, name, role)?;
            put(text, "\"")
        }
    }
}

/// Puts the begin of a node and its title last.
fn put_begin(
    text: &mut Vec<u8>,
    kind: Kind,
    node: usize,
    name: &str,
    role: Role,
) -> Result<(), NoMemory> {
    put(text, "<g class=\"node ")?;
    put(text, class_of(role))?;
    put_between(text, "\" data-node=\"", node, "\"")?;
    put_button(text, kind, name, role)?;
    put(text, "><title>")?;
    put_said(text, name, role)?;
    put(text, "</title>")
}

/// Puts the texts of a node last: its name, and an empty one for marks.
fn put_texts(text: &mut Vec<u8>, it: NodeBox, name: &str) -> Result<(), NoMemory> {
    put_text_at(text, "name", Point::new(it.middle.x, it.middle.y + 4.0))?;
    put_short(text, name)?;
    put(text, "</text>")?;
    let corner = Point::new(it.middle.x + it.half.x - 2.0, it.middle.y - it.half.y + 1.0);
    put_text_at(text, "tag", corner)?;
    put(text, "</text></g>\n")
}

/// Puts a node last.
fn put_node(
    text: &mut Vec<u8>,
    kind: Kind,
    node: usize,
    name: &str,
    role: Role,
    it: NodeBox,
) -> Result<(), NoMemory> {
    put_begin(text, kind, node, name, role)?;
    put_form(text, it, role)?;
    put_texts(text, it, name)
}

/// Puts all nodes last.
pub(crate) fn put_nodes(
    text: &mut Vec<u8>,
    kind: Kind,
    places: &[Place],
    names: &[&str],
    boxes: &[Option<NodeBox>],
) -> Result<(), NoMemory> {
    for (node, it) in boxes.iter().enumerate() {
        if let Some(it) = it {
            if let Some(place) = places.get(node) {
                put_node(text, kind, node, name_of(names, node), place.role(), *it)?;
            }
        }
    }
    Ok(())
}

/// Puts a second place of a node last.
fn put_twin(text: &mut Vec<u8>, twin: Twin, box_width: f64, name: &str) -> Result<(), NoMemory> {
    let it = NodeBox {
        middle: twin.middle,
        half: Point::new(box_width / 2.0, BOX_HEIGHT / 2.0),
    };
    put(text, "<g class=\"ghost\"><rect")?;
    put_sides(text, it, 0.0, 0.0)?;
    put_round(text, "6")?;
    put_text_at(text, "name", Point::new(it.middle.x, it.middle.y + 4.0))?;
    put_short(text, name)?;
    put(text, "</text></g>\n")
}

/// Puts all second places of nodes last.
pub(crate) fn put_twins(
    text: &mut Vec<u8>,
    names: &[&str],
    twins: &[Twin],
    box_width: f64,
) -> Result<(), NoMemory> {
    for twin in twins {
        put_twin(text, *twin, box_width, name_of(names, twin.node))?;
    }
    Ok(())
}
