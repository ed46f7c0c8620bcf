//! Elements as SVG.
ghost use Rattle.std.specs.Prelude.{◌≡◌, ◌++◌, OnOk};
ghost use Rattle.std.specs.Fmt.{decimal};
ghost use Rattle.std.specs.List.{flat_map};
ghost use Rattle.hsr_svg.specs.Spelling.{anchor_word, area_text, arrow_text, coordinates_text, element_text, filled_text, ground_text, head_text, label_colour, label_size, label_weight, labels_text, line_colour, line_dashes, line_text, line_width, marker_text, outline_text, point_box, point_text, points_text, quarter_text, rotation_text, sample_text, setting_text, shade_text, square_text, stroke_text, svg_text, title_text, turn_text, view_text, way_text, words_text};
ghost use Rattle.hsr_svg.specs.Style.{looks};

use crate::elements::{Anchor, Area, Element, Label, Line, Reading, Spot, Way};
use crate::parts::{Attribute, name_of, put_attribute, put_length, put_shown};
use crate::style::{colour_of, dashes_of, looks, path_of, point_of};
use hsr_diagram::Look;
use hsr_frame::NoMemory;
use hsr_text::{put, put_number};

// ---- texts

/// How large the letters of a text are.
fn size_of(label: Label) -> &'static str
    ensures { result.now ≡ label_size label }
{
    // As texts, since some have a fraction.
    match label {
        Label::Title => "12",
        Label::Name { .. } => "11",
        Label::Moment | Label::Sent { .. } | Label::Legend | Label::Incomplete => "9",
        Label::Mark => "8",
        Label::Kind | Label::Link | Label::Foot => "7.5",
        Label::Copy { .. } | Label::Change => "7",
    }
}

/// The colour of a text.
fn ink_of(label: Label) -> &'static str
    ensures { result.now ≡ label_colour label }
{
    match label {
        Label::Title
        | Label::Mark
        | Label::Name { is_again: false }
        | Label::Sent { is_complete: true } => "#111",
        Label::Name { is_again: true } => "#777",
        Label::Moment | Label::Change => "#333",
        Label::Kind => "#555",
        Label::Link | Label::Foot => "#666",
        Label::Copy { look } => colour_of(look),
        Label::Legend => "#222",
        Label::Incomplete | Label::Sent { is_complete: false } => "#c8102e",
    }
}

/// How bold a text is.
fn weight_of(label: Label) -> &'static str
    ensures { result.now ≡ label_weight label }
{
    match label {
        Label::Title | Label::Name { .. } | Label::Mark => "bold",
        _ => "normal",
    }
}

/// The word of an anchor.
fn anchor_word(anchor: Anchor) -> &'static str
    ensures { result.now ≡ anchor_word anchor }
{
    match anchor {
        Anchor::Start => "start",
        Anchor::Middle => "middle",
        Anchor::End => "end",
    }
}

/// Puts how a text is set last.
#[tactic(auto, unfolding(crate::specs::Spelling::setting_text))]
fn put_setting(text: &mut Vec<u8>, label: Label, anchor: Anchor) -> Result<(), NoMemory>
    ensures { OnOk result (text.new.items ≡ text.old.items ++ setting_text label anchor) }
{
    put_attribute(text, Attribute::Size, size_of(label))?;
    put_attribute(text, Attribute::Fill, ink_of(label))?;
    put_attribute(text, Attribute::Anchor, anchor_word(anchor))?;
    put_attribute(text, Attribute::Weight, weight_of(label))
}

/// Puts coordinates last.
#[tactic(auto, unfolding(crate::specs::Spelling::coordinates_text))]
fn put_coordinates(text: &mut Vec<u8>, x: u64, y: u64) -> Result<(), NoMemory>
    ensures { OnOk result (text.new.items ≡ text.old.items ++ coordinates_text x y) }
{
    put_number(text, x)?;
    put(text, " ")?;
    put_number(text, y)
}

/// Puts a quarter turn against the clock last.
#[tactic(auto, unfolding(crate::specs::Spelling::quarter_text))]
fn put_quarter(text: &mut Vec<u8>) -> Result<(), NoMemory>
    ensures { OnOk result (text.new.items ≡ text.old.items ++ quarter_text) }
{
    // In a function of its own: a long literal at the head of a text keeps search from the rest of it.
    put(text, "=\"rotate(-90 ")
}

/// Puts by how much a text at a point is turned last, so that it runs upwards from there.
#[tactic(auto, unfolding(crate::specs::Spelling::rotation_text))]
fn put_rotation(text: &mut Vec<u8>, x: u64, y: u64) -> Result<(), NoMemory>
    ensures { OnOk result (text.new.items ≡ text.old.items ++ rotation_text x y) }
{
    put(text, " ")?;
    put(text, name_of(Attribute::Transform))?;
    put_quarter(text)?;
    put_coordinates(text, x, y)?;
    put(text, ")\"")
}

/// Puts how a text is turned last, where it doesn't run across.
fn put_turn(text: &mut Vec<u8>, reading: Reading, x: u64, y: u64) -> Result<(), NoMemory>
    ensures { OnOk result (text.new.items ≡ text.old.items ++ turn_text reading x y) }
{
    match reading {
        Reading::Across => Ok(()),
        Reading::Upwards => put_rotation(text, x, y),
    }
}

/// Puts a text last.
#[tactic(auto, unfolding(crate::specs::Spelling::words_text))]
fn put_words(text: &mut Vec<u8>, label: Label, words: &[u8], spot: Spot) -> Result<(), NoMemory>
    ensures { OnOk result (text.new.items ≡ text.old.items ++ words_text label words.now spot) }
{
    put(text, "<text")?;
    put_length(text, Attribute::X, spot.x)?;
    put_length(text, Attribute::Y, spot.y)?;
    put_setting(text, label, spot.anchor)?;
    put_turn(text, spot.reading, spot.x, spot.y)?;
    put(text, ">")?;
    put_shown(text, words)?;
    put(text, "</text>\n")
}

// ---- lines

/// Puts where a line runs last.
#[tactic(auto, unfolding(crate::specs::Spelling::way_text))]
fn put_way(text: &mut Vec<u8>, way: Way) -> Result<(), NoMemory>
    ensures { OnOk result (text.new.items ≡ text.old.items ++ way_text way) }
{
    put_length(text, Attribute::X1, way.x1)?;
    put_length(text, Attribute::Y1, way.y1)?;
    put_length(text, Attribute::X2, way.x2)?;
    put_length(text, Attribute::Y2, way.y2)
}

/// Puts how a line is drawn last.
#[tactic(auto, unfolding(crate::specs::Spelling::stroke_text))]
fn put_stroke(text: &mut Vec<u8>, colour: &str, width: &str, dashes: &str) -> Result<(), NoMemory>
    ensures { OnOk result (text.new.items ≡ text.old.items
        ++ stroke_text colour.now width.now dashes.now) }
{
    put_attribute(text, Attribute::Stroke, colour)?;
    put_attribute(text, Attribute::StrokeWidth, width)?;
    put_attribute(text, Attribute::Dashes, dashes)
}

/// Puts what stands at the point of an arrow last.
#[tactic(auto, unfolding(crate::specs::Spelling::marker_text))]
fn put_marker(text: &mut Vec<u8>, look: Look) -> Result<(), NoMemory>
    ensures { OnOk result (text.new.items ≡ text.old.items ++ marker_text look) }
{
    put(text, " ")?;
    put(text, name_of(Attribute::Marker))?;
    put(text, "=\"url(#")?;
    put(text, point_of(look))?;
    put(text, ")\"")
}

/// Puts a hover text last.
#[tactic(auto, unfolding(crate::specs::Spelling::title_text))]
fn put_title(text: &mut Vec<u8>, title: &[u8]) -> Result<(), NoMemory>
    ensures { OnOk result (text.new.items ≡ text.old.items ++ title_text title.now) }
{
    put(text, "<title>")?;
    put_shown(text, title)?;
    put(text, "</title>")
}

/// Puts an arrow last.
#[tactic(auto, unfolding(crate::specs::Spelling::arrow_text))]
fn put_arrow(text: &mut Vec<u8>, look: Look, title: &[u8], way: Way) -> Result<(), NoMemory>
    ensures { OnOk result (text.new.items ≡ text.old.items ++ arrow_text look title.now way) }
{
    put(text, "<line")?;
    put_attribute(text, Attribute::Class, "arrow")?;
    put_way(text, way)?;
    put_stroke(text, colour_of(look), "1.3", dashes_of(look))?;
    put_marker(text, look)?;
    put(text, ">")?;
    put_title(text, title)?;
    put(text, "</line>\n")
}

/// Puts an arrow of the legend last.
#[tactic(auto, unfolding(crate::specs::Spelling::sample_text))]
fn put_sample(text: &mut Vec<u8>, look: Look, way: Way) -> Result<(), NoMemory>
    ensures { OnOk result (text.new.items ≡ text.old.items ++ sample_text look way) }
{
    put(text, "<line")?;
    put_way(text, way)?;
    put_stroke(text, colour_of(look), "1.3", dashes_of(look))?;
    put_marker(text, look)?;
    put(text, "/>\n")
}

/// The colour of a line.
fn line_colour(line: Line) -> &'static str
    ensures { result.now ≡ line_colour line }
{
    match line {
        Line::Moment => "#e2e2e2",
        Line::Node { is_again: false } => "#8f8f8f",
        Line::Node { is_again: true } => "#bdbdbd",
        Line::Sent => "#bbb",
    }
}

/// How wide a line is.
fn line_width(line: Line) -> &'static str
    ensures { result.now ≡ line_width line }
{
    match line {
        Line::Moment => "0.8",
        Line::Node { .. } => "1.2",
        Line::Sent => "0.6",
    }
}

/// The dashes of a line; a later line of a node has some.
fn line_dashes(line: Line) -> &'static str
    ensures { result.now ≡ line_dashes line }
{
    match line {
        Line::Node { is_again: true } => "3 3",
        _ => "none",
    }
}

/// Puts a line last.
#[tactic(auto, unfolding(crate::specs::Spelling::line_text))]
fn put_line(text: &mut Vec<u8>, line: Line, way: Way) -> Result<(), NoMemory>
    ensures { OnOk result (text.new.items ≡ text.old.items ++ line_text line way) }
{
    put(text, "<line")?;
    put_way(text, way)?;
    put_stroke(text, line_colour(line), line_width(line), line_dashes(line))?;
    put(text, "/>\n")
}

// ---- marks

/// Puts where something lies last, and how wide and high it is.
#[tactic(auto, unfolding(crate::specs::Spelling::area_text))]
fn put_area(text: &mut Vec<u8>, area: Area) -> Result<(), NoMemory>
    ensures { OnOk result (text.new.items ≡ text.old.items ++ area_text area) }
{
    put_length(text, Attribute::X, area.x)?;
    put_length(text, Attribute::Y, area.y)?;
    put_length(text, Attribute::Width, area.width)?;
    put_length(text, Attribute::Height, area.height)
}

/// Puts an area of a colour last, and the end of its element.
#[tactic(auto, unfolding(crate::specs::Spelling::filled_text))]
fn put_filled(text: &mut Vec<u8>, area: Area, colour: &str) -> Result<(), NoMemory>
    ensures { OnOk result (text.new.items ≡ text.old.items ++ filled_text area colour.now) }
{
    put_area(text, area)?;
    put_attribute(text, Attribute::Fill, colour)?;
    put(text, "/>\n")
}

/// Puts the mark of a send last.
#[tactic(auto, unfolding(crate::specs::Spelling::square_text))]
fn put_square(text: &mut Vec<u8>, x: u64, y: u64) -> Result<(), NoMemory>
    ensures { OnOk result (text.new.items ≡ text.old.items ++ square_text x y) }
{
    let area = Area {
        x,
        y,
        width: 8,
        height: 8,
    };
    put(text, "<rect")?;
    put_filled(text, area, "#111")
}

/// Puts the time in which a link is down last.
#[tactic(auto, unfolding(crate::specs::Spelling::shade_text))]
fn put_shade(text: &mut Vec<u8>, area: Area) -> Result<(), NoMemory>
    ensures { OnOk result (text.new.items ≡ text.old.items ++ shade_text area) }
{
    put(text, "<rect")?;
    put_attribute(text, Attribute::Class, "down")?;
    put_filled(text, area, "#e3e3e3")
}

/// Puts where texts and marks on a white ground begin last.
#[tactic(auto, unfolding(crate::specs::Spelling::labels_text))]
fn put_labels(text: &mut Vec<u8>) -> Result<(), NoMemory>
    ensures { OnOk result (text.new.items ≡ text.old.items ++ labels_text) }
{
    put(
        text,
        "<g stroke=\"#fff\" stroke-width=\"2.6\" stroke-linejoin=\"round\" paint-order=\"stroke\">\n",
    )
}

// ---- all

/// Puts an element last.
fn put_element(text: &mut Vec<u8>, element: &Element) -> Result<(), NoMemory>
    ensures { OnOk result (text.new.items ≡ text.old.items ++ element_text element.now) }
{
    match element {
        Element::Arrow { look, title, way } => put_arrow(text, *look, title.as_slice(), *way),
        Element::Sample { look, way } => put_sample(text, *look, *way),
        Element::Line { line, way } => put_line(text, *line, *way),
        Element::Square { x, y } => put_square(text, *x, *y),
        Element::Shade { area } => put_shade(text, *area),
        Element::Text { label, words, spot } => put_words(text, *label, words.as_slice(), *spot),
        Element::LabelsBegin => put_labels(text),
        Element::LabelsEnd => put(text, "</g>\n"),
    }
}

/// Puts elements last.
#[tactic(auto, using(hsr_frame::proofs::OneMore::grown))]
fn put_elements(text: &mut Vec<u8>, elements: &[Element]) -> Result<(), NoMemory>
    ensures { OnOk result (text.new.items ≡ text.old.items ++ flat_map element_text elements.now) }
{
    for element in elements {
        put_element(text, element)?;
    }
    Ok(())
}

// ---- points of arrows

/// Puts how large a point is last.
#[tactic(auto, unfolding(crate::specs::Spelling::point_box))]
fn put_point_box(text: &mut Vec<u8>) -> Result<(), NoMemory>
    ensures { OnOk result (text.new.items ≡ text.old.items ++ point_box) }
{
    put(
        text,
        " viewBox=\"-12 -12 24 24\" markerWidth=\"24\" markerHeight=\"24\" markerUnits=\"userSpaceOnUse\" orient=\"auto\">",
    )
}

/// Puts the outline of a point last.
#[tactic(auto, unfolding(crate::specs::Spelling::outline_text))]
fn put_outline(text: &mut Vec<u8>, look: Look) -> Result<(), NoMemory>
    ensures { OnOk result (text.new.items ≡ text.old.items ++ outline_text look) }
{
    put(text, "<g")?;
    put_attribute(text, Attribute::Fill, colour_of(look))?;
    put_attribute(text, Attribute::Stroke, colour_of(look))?;
    put_attribute(text, Attribute::StrokeWidth, "0")?;
    put(text, ">")?;
    put(text, path_of(look))?;
    put(text, "</g>")
}

/// Puts what stands at the points of the arrows of a look last.
#[tactic(auto, unfolding(crate::specs::Spelling::point_text))]
fn put_point(text: &mut Vec<u8>, look: Look) -> Result<(), NoMemory>
    ensures { OnOk result (text.new.items ≡ text.old.items ++ point_text look) }
{
    put(text, "<marker")?;
    put_attribute(text, Attribute::Identity, point_of(look))?;
    put_point_box(text)?;
    put_outline(text, look)?;
    put(text, "</marker>\n")
}

/// Puts what stands at the points of arrows of these looks last.
#[tactic(auto, using(hsr_frame::proofs::OneMore::grown))]
fn put_points_of(text: &mut Vec<u8>, looks: &[Look]) -> Result<(), NoMemory>
    ensures { OnOk result (text.new.items ≡ text.old.items ++ flat_map point_text looks.now) }
{
    for look in looks {
        put_point(text, *look)?;
    }
    Ok(())
}

/// Puts what stands at the points of all arrows last.
#[tactic(auto, unfolding(crate::specs::Spelling::points_text))]
fn put_points(text: &mut Vec<u8>) -> Result<(), NoMemory>
    ensures { OnOk result (text.new.items ≡ text.old.items ++ points_text) }
{
    put(text, "<defs>\n")?;
    put_points_of(text, looks().as_slice())?;
    put(text, "</defs>\n")
}

// ---- the whole

/// Puts the name of the format last.
#[tactic(auto, unfolding(crate::specs::Spelling::head_text))]
fn put_head(text: &mut Vec<u8>) -> Result<(), NoMemory>
    ensures { OnOk result (text.new.items ≡ text.old.items ++ head_text) }
{
    // In a function of its own, as the words of a turn.
    put(text, "<svg xmlns=\"http://www.w3.org/2000/svg\"")
}

/// Puts last, as the attribute viewBox, what part of the plane is shown: from 0 0 on, this wide and this high.
#[tactic(auto, unfolding(crate::specs::Spelling::view_text))]
fn put_view(text: &mut Vec<u8>, width: u64, height: u64) -> Result<(), NoMemory>
    ensures { OnOk result (text.new.items ≡ text.old.items ++ view_text width height) }
{
    put(text, " ")?;
    put(text, name_of(Attribute::View))?;
    put(text, "=\"0 0 ")?;
    put_number(text, width)?;
    put(text, " ")?;
    put_number(text, height)?;
    put(text, "\"")
}

/// Puts the font and the ground of a picture last.
#[tactic(auto, unfolding(crate::specs::Spelling::ground_text))]
fn put_ground(text: &mut Vec<u8>) -> Result<(), NoMemory>
    ensures { OnOk result (text.new.items ≡ text.old.items ++ ground_text) }
{
    put(
        text,
        " font-family=\"DejaVu Sans, Arial, sans-serif\">\n<rect width=\"100%\" height=\"100%\" fill=\"#fff\"/>\n",
    )
}

/// Puts elements last, as a picture of this width and height, in user units of SVG. `NoMemory` if allocation fails; a
/// front of the picture may stand there then.
#[tactic(auto, unfolding(crate::specs::Spelling::svg_text))]
pub fn put_svg(
    text: &mut Vec<u8>,
    width: u64,
    height: u64,
    elements: &[Element],
) -> Result<(), NoMemory>
    ensures { OnOk result (text.new.items ≡ text.old.items ++ svg_text width height elements.now) }
{
    put_head(text)?;
    put_length(text, Attribute::Width, width)?;
    put_length(text, Attribute::Height, height)?;
    put_view(text, width, height)?;
    put_ground(text)?;
    put_points(text)?;
    put_elements(text, elements)?;
    put(text, "</svg>\n")
}
