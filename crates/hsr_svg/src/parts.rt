//! Texts put together from parts.
ghost use Rattle.std.specs.Prelude.{◌≡◌, ◌++◌, OnOk};
ghost use Rattle.std.specs.Fmt.{decimal};
ghost use Rattle.hsr_svg.specs.Parts.{attribute_name, attribute_text, escaped, escaped_octet};

use hsr_frame::NoMemory;
use hsr_text::{put, put_number};

/// Puts an octet of a text that is shown last: what means something in SVG is spelled, and no control is left.
fn put_octet(text: &mut Vec<u8>, octet: u8) -> Result<(), NoMemory>
    ensures { OnOk result (text.new.items ≡ text.old.items ++ escaped_octet octet) }
{
    match octet {
        b'&' => put(text, "&amp;"),
        b'<' => put(text, "&lt;"),
        b'>' => put(text, "&gt;"),
        b'"' => put(text, "&quot;"),
        // XML has no other controls than tab and ends of lines (XML 1.0 section 2.2).
        0..=31 => put(text, " "),
        _ => {
            text.push(octet)?;
            Ok(())
        }
    }
}

/// Puts a text that is shown last.
#[tactic(auto, using(hsr_frame::proofs::OneMore::grown), unfolding(crate::specs::Parts::escaped))]
pub(crate) fn put_shown(text: &mut Vec<u8>, shown: &[u8]) -> Result<(), NoMemory>
    ensures { OnOk result (text.new.items ≡ text.old.items ++ escaped shown.now) }
{
    for octet in shown {
        put_octet(text, *octet)?;
    }
    Ok(())
}

/// An attribute of an element.
#[derive(Clone, Copy)]
pub(crate) enum Attribute {
    Class,
    Identity,
    X,
    Y,
    X1,
    Y1,
    X2,
    Y2,
    Width,
    Height,
    Stroke,
    StrokeWidth,
    Dashes,
    Size,
    Fill,
    Anchor,
    Weight,
    Transform,
    Marker,
    View,
}

/// The name of an attribute.
#[tactic(auto, unfolding(crate::specs::Parts::attribute_name))]
pub(crate) fn name_of(attribute: Attribute) -> &'static str
    ensures { result.now ≡ attribute_name attribute }
{
    match attribute {
        Attribute::Class => "class",
        Attribute::Identity => "id",
        Attribute::X => "x",
        Attribute::Y => "y",
        Attribute::X1 => "x1",
        Attribute::Y1 => "y1",
        Attribute::X2 => "x2",
        Attribute::Y2 => "y2",
        Attribute::Width => "width",
        Attribute::Height => "height",
        Attribute::Stroke => "stroke",
        Attribute::StrokeWidth => "stroke-width",
        Attribute::Dashes => "stroke-dasharray",
        Attribute::Size => "font-size",
        Attribute::Fill => "fill",
        Attribute::Anchor => "text-anchor",
        Attribute::Weight => "font-weight",
        Attribute::Transform => "transform",
        Attribute::Marker => "marker-end",
        Attribute::View => "viewBox",
    }
}

/// Puts an attribute last.
#[tactic(auto, unfolding(crate::specs::Parts::attribute_text))]
pub(crate) fn put_attribute(
    text: &mut Vec<u8>,
    attribute: Attribute,
    value: &str,
) -> Result<(), NoMemory>
    ensures { OnOk result (text.new.items ≡ text.old.items ++ attribute_text attribute value.now) }
{
    put(text, " ")?;
    put(text, name_of(attribute))?;
    put(text, "=\"")?;
    put(text, value)?;
    put(text, "\"")
}

/// Puts an attribute that is a number last.
#[tactic(auto, unfolding(crate::specs::Parts::attribute_text))]
pub(crate) fn put_length(text: &mut Vec<u8>, attribute: Attribute, n: u64) -> Result<(), NoMemory>
    ensures { OnOk result (text.new.items ≡ text.old.items ++ attribute_text attribute
        (decimal n)) }
{
    put(text, " ")?;
    put(text, name_of(attribute))?;
    put(text, "=\"")?;
    put_number(text, n)?;
    put(text, "\"")
}
