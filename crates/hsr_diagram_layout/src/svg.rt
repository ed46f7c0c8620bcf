//! The whole picture.
ghost use Rattle.std.specs.Prelude.{◌≡◌, ◌++◌, ◌∷◌, [], IfOk, OnOk};
ghost use Rattle.hsr_timeline.specs.Fronts.{lists_of};
ghost use Rattle.hsr_diagram_layout.specs.Drawing.{IsDrawing, IsScene, above_shapes, below_shapes, picture_shapes};
ghost use Rattle.hsr_diagram_layout.specs.Shades.{sample_shade, shade_shapes};
ghost use Rattle.hsr_svg.specs.Elements.{shapes, text as text_shape};
ghost use Rattle.hsr_svg.specs.declared.elements.Label.TheVariants as labels;
ghost use Rattle.hsr_diagram_text.specs.Title.{title_words};

use crate::arrows::{add_arrows, add_labels};
use crate::frame::add_frame;
use crate::legend::{add_foot, add_legend};
use crate::listing::{Ends, add_list};
use crate::marks::add_marks;
use crate::shades::{add_changes, add_sample_if, add_shades};
use crate::sheet::{Sheet, sheet_of};
use crate::switches::add_switches;
use crate::telling::add_incomplete;
use hsr_diagram::Picture;
use hsr_diagram_text::title_words;
use hsr_downs::{Down, Switch};
use hsr_finished_run::Closed;
use hsr_frame::NoMemory;
use hsr_svg::{Anchor, Element, Label, Reading, Spot, add_text, begin_labels, end_labels, put_svg};
use std::alloc::Global;

/// The least width of a picture.
const WIDTH: u64 = 720;

/// How wide and how high a picture is.
#[derive(Clone, Copy)]
struct Size {
    width: u64,
    height: u64,
}

/// Adds the title: how large the run is, and how much of it is shown.
fn add_title<const C: usize>(
    alloc: Global,
    elements: &mut Vec<Element>,
    closed: &Closed<C>,
    picture: &Picture,
) -> Result<(), NoMemory>
    ensures { OnOk result (shapes elements.new.items ≡ shapes elements.old.items
        ++ text_shape labels.Title (title_words closed.now.run picture.now) ∷ []) }
{
    let words = title_words(alloc, closed, picture)?;
    let spot = Spot {
        x: 14,
        y: 20,
        anchor: Anchor::Start,
        reading: Reading::Across,
    };
    add_text(elements, Label::Title, words, spot)
}

/// Adds arrows, what stands above them, and the list of sends. Where that ends.
#[tactic(auto, unfolding(crate::specs::Drawing::above_shapes))]
fn add_above<const C: usize>(
    alloc: Global,
    elements: &mut Vec<Element>,
    names: &[Vec<u8>],
    closed: &Closed<C>,
    picture: &Picture,
    downs: &[Down],
    switches: &[Switch],
    sheet: &Sheet,
) -> Result<Ends, NoMemory>
    ensures { OnOk result (shapes elements.new.items ≡ shapes elements.old.items
        ++ above_shapes (lists_of names.now) closed.now.run picture.now downs.now switches.now
        sheet.now.columns.nodes.items sheet.now.moments.items sheet.now.items.items) }
{
    let arrows = picture.arrows.as_slice();
    let sends = picture.sends.as_slice();
    let deliveries = picture.deliveries.sends.as_slice();
    let has_one = sends.len() == 1;
    add_arrows(alloc, elements, names, closed, sheet, arrows)?;
    // Labels come behind arrows, so that no arrow is drawn over one.
    begin_labels(elements)?;
    add_labels(alloc, elements, names, closed, sheet, has_one, arrows)?;
    add_marks(alloc, elements, names, sheet, deliveries, sends)?;
    let moments = sheet.moments.as_slice();
    add_changes(alloc, elements, sheet, moments, downs)?;
    let nodes = sheet.columns.nodes.as_slice();
    add_switches(alloc, elements, sheet, moments, nodes, switches)?;
    end_labels(elements)?;
    let items = sheet.items.as_slice();
    add_list(alloc, elements, names, closed, sheet, deliveries, items)
}

/// Adds what stands below, from the height `y` on. Where it ends.
#[tactic(auto, unfolding(crate::specs::Drawing::below_shapes))]
fn add_below(
    alloc: Global,
    elements: &mut Vec<Element>,
    names: &[Vec<u8>],
    picture: &Picture,
    downs: &[Down],
    moments: &[u64],
    y: u64,
) -> Result<Ends, NoMemory>
    ensures { OnOk result (shapes elements.new.items ≡ shapes elements.old.items
        ++ below_shapes (lists_of names.now) picture.now downs.now moments.now) }
{
    let deliveries = picture.deliveries.sends.as_slice();
    let sends = picture.sends.as_slice();
    let y = add_legend(alloc, elements, picture.arrows.as_slice(), y)?;
    let y = add_sample_if(alloc, elements, moments, downs, y)?;
    let ends = add_incomplete(alloc, elements, names, deliveries, sends, y)?;
    add_foot(alloc, elements, ends.bottom)?;
    Ok(Ends {
        right: ends.right,
        bottom: ends.bottom.saturating_add(12),
    })
}

/// Adds all elements of a picture that has this sheet, each behind what it covers. The width and height of the whole, in
/// user units of SVG.
#[tactic(auto, unfolding(crate::specs::Drawing::picture_shapes))]
fn add_all<const C: usize>(
    alloc: Global,
    elements: &mut Vec<Element>,
    names: &[Vec<u8>],
    closed: &Closed<C>,
    picture: &Picture,
    downs: &[Down],
    switches: &[Switch],
    sheet: &Sheet,
) -> Result<Size, NoMemory>
    ensures { OnOk result (shapes elements.new.items ≡ shapes elements.old.items
        ++ picture_shapes (lists_of names.now) closed.now.run picture.now downs.now switches.now
        sheet.now.columns.nodes.items sheet.now.columns.lanes.items sheet.now.moments.items
        sheet.now.items.items) }
{
    let places = closed.topology().places();
    let moments = sheet.moments.as_slice();
    add_title(alloc, elements, closed, picture)?;
    // Shades come first, so that all else is drawn over them.
    add_shades(elements, sheet, moments, downs)?;
    add_frame(alloc, elements, names, places, sheet)?;
    let ends = add_above(
        alloc, elements, names, closed, picture, downs, switches, sheet,
    )?;
    let below = sheet.rows.bottom.max(ends.bottom).saturating_add(44);
    let last = add_below(alloc, elements, names, picture, downs, moments, below)?;
    Ok(Size {
        width: WIDTH.max(ends.right.max(last.right).saturating_add(10)),
        height: last.bottom,
    })
}

/// Adds all elements of a picture.
fn add_scene<const C: usize>(
    alloc: Global,
    elements: &mut Vec<Element>,
    names: &[Vec<u8>],
    closed: &Closed<C>,
    picture: &Picture,
    downs: &[Down],
    switches: &[Switch],
) -> Result<Size, NoMemory>
    requires { elements.old.items ≡ [] }
    ensures { OnOk result
        (IsScene (lists_of names.now) closed.now.run picture.now downs.now switches.now
        elements.new.items) }
{
    let sheet = sheet_of(alloc, closed, names, picture, downs, switches)?;
    add_all(
        alloc, elements, names, closed, picture, downs, switches, &sheet,
    )
}

/// A picture as SVG: panels side by side, moments and steps downwards, an arrow for each copy with a hover text, the
/// sends at the right, a legend and the sends that aren't complete below; behind all a shade for each of the times in
/// which links are down, and marks of their cuts and mends, and of nodes that go off or come on, as far as their
/// moments are shown. A node without a name is `n` and its number. Each arrow of the picture is drawn once, in order,
/// and so is all else that is shown; where it stands on the paper is no part of the contract. `NoMemory` if allocation
/// fails.
pub fn drawing<const C: usize>(
    alloc: Global,
    closed: &Closed<C>,
    names: &[Vec<u8>],
    picture: &Picture,
    downs: &[Down],
    switches: &[Switch],
) -> Result<Vec<u8>, NoMemory>
    ensures { IfOk result (λ text.
        IsDrawing (lists_of names.now) closed.now.run picture.now downs.now switches.now
        text.items) }
{
    let mut elements = Vec::new(alloc);
    let size = add_scene(
        alloc,
        &mut elements,
        names,
        closed,
        picture,
        downs,
        switches,
    )?;
    let mut text = Vec::new(alloc);
    put_svg(&mut text, size.width, size.height, elements.as_slice())?;
    Ok(text)
}
