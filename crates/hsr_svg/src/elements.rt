//! The elements of a picture: what each shows, and where it stands.
ghost use Rattle.std.specs.Prelude.{◌≡◌, ◌++◌, ◌∷◌, [], OnOk};
ghost use Rattle.hsr_svg.specs.Elements.{shapes, arrow as arrow_shape, sample as sample_shape, line as line_shape, square as square_shape, shade as shade_shape, text as text_shape, labels_begin, labels_end};

use hsr_diagram::Look;
use hsr_frame::NoMemory;
use hsr_node::Octets;
use std::alloc::Global;

/// What a text tells. Its size, colour and weight go by it.
#[derive(Clone, Copy)]
pub enum Label {
    /// How large the run is, and what of it is shown.
    Title,
    /// A moment.
    Moment,
    /// The name of a node, over its first line or over a later one.
    Name { is_again: bool },
    /// What kind of node it is.
    Kind,
    /// The number of a link, or the letter of a port at one of its ends.
    Link,
    /// Of which send a copy is, or how it was lost, at the point of its arrow.
    Copy { look: Look },
    /// Which send it is, beside its mark.
    Mark,
    /// When a link was cut or mended.
    Change,
    /// A send in the list at the right.
    Sent { is_complete: bool },
    /// What a mark or an arrow means.
    Legend,
    /// A send that isn't complete.
    Incomplete,
    /// What stands under all.
    Foot,
}

/// What a line is that is no arrow.
#[derive(Clone, Copy)]
pub enum Line {
    /// It stands over the first row of a moment.
    Moment,
    /// It is a node's first line, or a later one.
    Node { is_again: bool },
    /// It joins a send in the list with its row.
    Sent,
}

/// Where a line runs, in user units of SVG from the upper left corner.
#[derive(Clone, Copy)]
pub struct Way {
    pub x1: u64,
    pub y1: u64,
    pub x2: u64,
    pub y2: u64,
}

/// Where something lies that has a width and a height, in user units of SVG; `x` and `y` are its upper left corner.
#[derive(Clone, Copy)]
pub struct Area {
    pub x: u64,
    pub y: u64,
    pub width: u64,
    pub height: u64,
}

/// Which part of a text stands at its point.
#[derive(Clone, Copy)]
pub enum Anchor {
    Start,
    Middle,
    End,
}

/// Which way a text runs.
#[derive(Clone, Copy)]
pub enum Reading {
    Across,
    Upwards,
}

/// Where a text stands, in user units of SVG from the upper left corner.
#[derive(Clone, Copy)]
pub struct Spot {
    pub x: u64,
    pub y: u64,
    pub anchor: Anchor,
    pub reading: Reading,
}

/// An element of a picture.
#[derive(Drop)]
pub enum Element {
    /// An arrow, with its hover text.
    Arrow {
        look: Look,
        title: Octets,
        way: Way,
    },
    /// An arrow of the legend.
    Sample {
        look: Look,
        way: Way,
    },
    Line {
        line: Line,
        way: Way,
    },
    /// The mark of a send.
    Square {
        x: u64,
        y: u64,
    },
    /// The time in which a link is down.
    Shade {
        area: Area,
    },
    Text {
        label: Label,
        words: Octets,
        spot: Spot,
    },
    /// Here texts and marks begin that stand on a white ground, so that what runs behind them can't be taken for a part
    /// of them.
    LabelsBegin,
    /// Here they end.
    LabelsEnd,
}

/// Adds an arrow, with its hover text. `NoMemory` if allocation fails.
#[tactic(auto, unfolding(crate::specs::Elements::shapes))]
pub fn add_arrow(
    elements: &mut Vec<Element>,
    look: Look,
    title: Vec<u8>,
    way: Way,
) -> Result<(), NoMemory>
    ensures { OnOk result (shapes elements.new.items ≡ shapes elements.old.items
        ++ arrow_shape look title.items ∷ []) }
{
    elements.push(Element::Arrow {
        look,
        title: Octets::new(title),
        way,
    })?;
    Ok(())
}

/// Adds an arrow of the legend. `NoMemory` if allocation fails.
#[tactic(auto, unfolding(crate::specs::Elements::shapes))]
pub fn add_sample(elements: &mut Vec<Element>, look: Look, way: Way) -> Result<(), NoMemory>
    ensures { OnOk result (shapes elements.new.items ≡ shapes elements.old.items
        ++ sample_shape look ∷ []) }
{
    elements.push(Element::Sample { look, way })?;
    Ok(())
}

/// Adds a line that is no arrow. `NoMemory` if allocation fails.
#[tactic(auto, unfolding(crate::specs::Elements::shapes))]
pub fn add_line(elements: &mut Vec<Element>, line: Line, way: Way) -> Result<(), NoMemory>
    ensures { OnOk result (shapes elements.new.items ≡ shapes elements.old.items
        ++ line_shape line ∷ []) }
{
    elements.push(Element::Line { line, way })?;
    Ok(())
}

/// Adds the mark of a send around a point. `NoMemory` if allocation fails.
#[tactic(auto, unfolding(crate::specs::Elements::shapes))]
pub fn add_square(elements: &mut Vec<Element>, x: u64, y: u64) -> Result<(), NoMemory>
    ensures { OnOk result (shapes elements.new.items ≡ shapes elements.old.items
        ++ square_shape ∷ []) }
{
    elements.push(Element::Square {
        // The mark is 8 wide and 8 high.
        x: x.saturating_sub(4),
        y: y.saturating_sub(4),
    })?;
    Ok(())
}

/// Adds the shade of a time in which a link is down. `NoMemory` if allocation fails.
#[tactic(auto, unfolding(crate::specs::Elements::shapes))]
pub fn add_shade(elements: &mut Vec<Element>, area: Area) -> Result<(), NoMemory>
    ensures { OnOk result (shapes elements.new.items ≡ shapes elements.old.items
        ++ shade_shape ∷ []) }
{
    elements.push(Element::Shade { area })?;
    Ok(())
}

/// Adds a text. `NoMemory` if allocation fails.
#[tactic(auto, unfolding(crate::specs::Elements::shapes))]
pub fn add_text(
    elements: &mut Vec<Element>,
    label: Label,
    words: Vec<u8>,
    spot: Spot,
) -> Result<(), NoMemory>
    ensures { OnOk result (shapes elements.new.items ≡ shapes elements.old.items
        ++ text_shape label words.items ∷ []) }
{
    elements.push(Element::Text {
        label,
        words: Octets::new(words),
        spot,
    })?;
    Ok(())
}

/// Adds a copy of words as a text. `NoMemory` if allocation fails.
pub fn add_words(
    alloc: Global,
    elements: &mut Vec<Element>,
    label: Label,
    words: &[u8],
    spot: Spot,
) -> Result<(), NoMemory>
    ensures { OnOk result (shapes elements.new.items ≡ shapes elements.old.items
        ++ text_shape label words.now ∷ []) }
{
    let words = Vec::from_slice(alloc, words)?;
    add_text(elements, label, words, spot)
}

/// Begins the texts and marks on a white ground. `NoMemory` if allocation fails.
#[tactic(auto, unfolding(crate::specs::Elements::shapes))]
pub fn begin_labels(elements: &mut Vec<Element>) -> Result<(), NoMemory>
    ensures { OnOk result (shapes elements.new.items ≡ shapes elements.old.items
        ++ labels_begin ∷ []) }
{
    elements.push(Element::LabelsBegin)?;
    Ok(())
}

/// Ends the texts and marks on a white ground. `NoMemory` if allocation fails.
#[tactic(auto, unfolding(crate::specs::Elements::shapes))]
pub fn end_labels(elements: &mut Vec<Element>) -> Result<(), NoMemory>
    ensures { OnOk result (shapes elements.new.items ≡ shapes elements.old.items
        ++ labels_end ∷ []) }
{
    elements.push(Element::LabelsEnd)?;
    Ok(())
}
