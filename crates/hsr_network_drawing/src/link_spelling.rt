//! Links and their lanes as SVG.
use crate::measure::{Point, Spot};
use crate::names::name_of;
use crate::numbers::{put_attribute, put_path, put_point, put_step};
use crate::track::Stretch;
use crate::wires::{Lane, Letter, Wire};
use hsr_frame::NoMemory;
use hsr_page::put_escaped;
use hsr_text::{put, put_number, put_octets};
use hsr_topology::End;

/// Puts a number between words last.
pub(crate) fn put_between(
    text: &mut Vec<u8>,
    before: &str,
    number: usize,
    behind: &str,
) -> Result<(), NoMemory> {
    put(text, before)?;
    put_number(text, number as u64)?;
    put(text, behind)
}

/// Puts a path of a class last.
fn put_path_of(text: &mut Vec<u8>, class: &str, stretch: Stretch) -> Result<(), NoMemory> {
    put(text, "<path class=\"")?;
    put(text, class)?;
    put(text, "\" d=\"")?;
    put_path(text, stretch)?;
    put(text, "\"/>")
}

/// Puts the begin of a text of a class at a point last.
pub(crate) fn put_text_at(text: &mut Vec<u8>, class: &str, at: Point) -> Result<(), NoMemory> {
    put(text, "<text class=\"")?;
    put(text, class)?;
    put(text, "\"")?;
    put_attribute(text, "x", at.x)?;
    put_attribute(text, "y", at.y)?;
    put(text, ">")
}

/// Puts an end of a link last: its node and the letter of its port.
fn put_end(text: &mut Vec<u8>, names: &[&str], end: End, letter: Letter) -> Result<(), NoMemory> {
    put_escaped(text, name_of(names, end.node))?;
    put(text, ".")?;
    put_octets(text, &[letter.letter])
}

/// Puts the title of a link last.
fn put_title(
    text: &mut Vec<u8>,
    names: &[&str],
    number: usize,
    link: [End; 2],
    letters: [Letter; 2],
) -> Result<(), NoMemory> {
    let [a, b] = link;
    let [first, second] = letters;
    put_between(text, "<title>link ", number, ": ")?;
    put_end(text, names, a, first)?;
    put(text, " to ")?;
    put_end(text, names, b, second)?;
    put(text, "</title>")
}

/// Puts the cross of a link that is down last.
fn put_cross(text: &mut Vec<u8>, at: Point) -> Result<(), NoMemory> {
    put(text, "<g class=\"x\" transform=\"translate(")?;
    put_point(text, at)?;
    put(text, ")\"><circle r=\"11\"/>")?;
    put(text, "<path d=\"M-7 -7L7 7M-7 7L7 -7\"/></g>")
}

/// Puts the letter of a port last.
fn put_letter(text: &mut Vec<u8>, letter: Letter) -> Result<(), NoMemory> {
    put_text_at(text, "port", letter.at)?;
    put_octets(text, &[letter.letter])?;
    put(text, "</text>")
}

/// Puts the number of a link and the letters of its ports last.
fn put_marks(text: &mut Vec<u8>, number: usize, wire: &Wire) -> Result<(), NoMemory> {
    let [first, second] = wire.letters;
    put_text_at(text, "no", wire.number)?;
    put_number(text, number as u64)?;
    put(text, "</text>")?;
    put_letter(text, first)?;
    put_letter(text, second)
}

/// Puts a link last.
fn put_link(
    text: &mut Vec<u8>,
    names: &[&str],
    number: usize,
    link: [End; 2],
    wire: &Wire,
) -> Result<(), NoMemory> {
    put_between(text, "<g class=\"link\" data-link=\"", number, "\">")?;
    put_title(text, names, number, link, wire.letters)?;
    put_path_of(text, "wire", wire.line)?;
    put_cross(text, wire.middle.at)?;
    put_marks(text, number, wire)?;
    put(text, "</g>\n")
}

/// Puts all links last.
pub(crate) fn put_links(
    text: &mut Vec<u8>,
    names: &[&str],
    links: &[[End; 2]],
    wires: &[Option<Wire>],
) -> Result<(), NoMemory> {
    for (number, wire) in wires.iter().enumerate() {
        if let Some(wire) = wire {
            if let Some(link) = links.get(number) {
                put_link(text, names, number, *link, wire)?;
            }
        }
    }
    Ok(())
}

/// The point so far behind a tip, and so far at its right.
fn behind(tip: Spot, back: f64, right: f64) -> Point {
    Point::new(
        tip.at.x - back * tip.heading.x - right * tip.heading.y,
        tip.at.y - back * tip.heading.y + right * tip.heading.x,
    )
}

/// Puts the tip of a lane last.
fn put_tip(text: &mut Vec<u8>, tip: Spot) -> Result<(), NoMemory> {
    put(text, "<path class=\"tip\" d=\"")?;
    put_step(text, "M", tip.at)?;
    put_step(text, "L", behind(tip, 9.0, 4.0))?;
    put_step(text, "L", behind(tip, 9.0, -4.0))?;
    put(text, "Z\"/>")
}

/// Puts the cross of a lost copy last.
fn put_gone(text: &mut Vec<u8>, at: Point) -> Result<(), NoMemory> {
    put(text, "<path class=\"gone\" d=\"")?;
    put_step(text, "M", Point::new(at.x - 4.0, at.y - 4.0))?;
    put(text, "l8 8m0 -8l-8 8\"/>")
}

/// Puts the dot of a copy that is taken up last.
fn put_dot(text: &mut Vec<u8>, tip: Spot) -> Result<(), NoMemory> {
    let at = behind(tip, 3.5, 0.0);
    put(text, "<circle class=\"dot\"")?;
    put_attribute(text, "cx", at.x)?;
    put_attribute(text, "cy", at.y)?;
    put(text, " r=\"4.5\"/>")
}

/// Puts a lane last; its letter says in which direction of the link it leads.
fn put_lane(
    text: &mut Vec<u8>,
    number: usize,
    direction: &str,
    lane: &Lane,
) -> Result<(), NoMemory> {
    put_between(text, "<g class=\"lane\" data-lane=\"", number, direction)?;
    put(text, "\">")?;
    put_path_of(text, "way", lane.way)?;
    put_path_of(text, "part", lane.lost)?;
    put_tip(text, lane.tip)?;
    put_gone(text, lane.cross)?;
    put_dot(text, lane.tip)?;
    put(text, "</g>\n")
}

/// Puts the lanes of a link last.
fn put_two_lanes(text: &mut Vec<u8>, number: usize, lanes: [Lane; 2]) -> Result<(), NoMemory> {
    let [forth, back] = lanes;
    put_lane(text, number, "f", &forth)?;
    put_lane(text, number, "b", &back)
}

/// Puts all lanes last.
pub(crate) fn put_lanes(text: &mut Vec<u8>, wires: &[Option<Wire>]) -> Result<(), NoMemory> {
    put(text, "<g class=\"lanes\" aria-hidden=\"true\">\n")?;
    for (number, wire) in wires.iter().enumerate() {
        if let Some(wire) = wire {
            put_two_lanes(text, number, wire.lanes)?;
        }
    }
    put(text, "</g>\n")
}
