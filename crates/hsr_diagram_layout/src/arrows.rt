//! Arrows, and what stands at their points.
ghost use Rattle.std.specs.Prelude.{◌≡◌, ◌++◌, ◌∷◌, [], map, IfOk, OnOk};
ghost use Rattle.std.specs.List.{flat_map};
ghost use Rattle.hsr_timeline.specs.Fronts.{lists_of};
ghost use Rattle.hsr_capture.specs.Comments.{comment_of};
ghost use Rattle.hsr_diagram_layout.specs.Arrows.{arrow_shape, copy_if, label_by, label_shapes};
ghost use Rattle.hsr_svg.specs.Elements.{shapes, text as text_shape};
ghost use Rattle.hsr_diagram_text.specs.Sends.{send_text};
ghost use Rattle.hsr_diagram.specs.declared.arrow.Look.TheVariants.{Lost};
ghost use Rattle.hsr_svg.specs.declared.elements.Label.TheVariants as labels;

use crate::sheet::Sheet;
use hsr_capture::put_shown_comment;
use hsr_diagram::{Arrow, Look};
use hsr_diagram_text::send_words;
use hsr_finished_run::Closed;
use hsr_frame::NoMemory;
use hsr_link::Row;
use hsr_node::Probe;
use hsr_svg::{Element, Label, Spot, Way, add_arrow, add_text, add_words};
use hsr_timeline::Shown;
use std::alloc::Global;

// ---- arrows

/// What became of a copy, in words.
fn hover_text<const C: usize>(
    alloc: Global,
    names: &[Vec<u8>],
    closed: &Closed<C>,
    row: &Shown,
) -> Result<Vec<u8>, NoMemory>
    ensures { IfOk result (λ words. words.items
        ≡ comment_of (lists_of names.now) closed.now.run row.now) }
{
    let mut words = Vec::new(alloc);
    put_shown_comment(&mut words, names, closed, row)?;
    Ok(words)
}

/// Adds an arrow, with what became of its copy as hover text.
fn add_shown<const C: usize>(
    alloc: Global,
    elements: &mut Vec<Element>,
    names: &[Vec<u8>],
    closed: &Closed<C>,
    arrow: &Arrow,
    way: Way,
) -> Result<(), NoMemory>
    ensures { OnOk result (shapes elements.new.items ≡ shapes elements.old.items
        ++ arrow_shape (lists_of names.now) closed.now.run arrow.now ∷ []) }
{
    let title = hover_text(alloc, names, closed, &arrow.row)?;
    add_arrow(elements, arrow.look, title, way)
}

/// Adds all arrows.
#[tactic(auto, using(crate::proofs::Mapped::mapped_more))]
pub(crate) fn add_arrows<const C: usize>(
    alloc: Global,
    elements: &mut Vec<Element>,
    names: &[Vec<u8>],
    closed: &Closed<C>,
    sheet: &Sheet,
    arrows: &[Arrow],
) -> Result<(), NoMemory>
    ensures { OnOk result (shapes elements.new.items ≡ shapes elements.old.items
        ++ map (arrow_shape (lists_of names.now) closed.now.run) arrows.now) }
{
    for arrow in arrows {
        let way = sheet.way_of(arrow);
        add_shown(alloc, elements, names, closed, arrow, way)?;
    }
    Ok(())
}

// ---- their labels

/// Adds of which send a copy is that was taken up, if it is of one, and if several are shown.
fn add_copy_if(
    alloc: Global,
    elements: &mut Vec<Element>,
    names: &[Vec<u8>],
    has_one: bool,
    send: Option<Probe>,
    spot: Spot,
) -> Result<(), NoMemory>
    ensures { OnOk result (shapes elements.new.items ≡ shapes elements.old.items
        ++ copy_if (lists_of names.now) has_one send) }
{
    match send {
        // Of one send alone all labels would be the same.
        Some(send) if !has_one => {
            let words = send_words(alloc, names, send)?;
            let label = Label::Copy {
                look: Look::TakenUp,
            };
            add_text(elements, label, words, spot)
        }
        _ => Ok(()),
    }
}

/// Adds how a copy was lost.
fn add_loss(
    alloc: Global,
    elements: &mut Vec<Element>,
    word: &str,
    spot: Spot,
) -> Result<(), NoMemory>
    ensures { OnOk result (shapes elements.new.items ≡ shapes elements.old.items
        ++ text_shape (labels.Copy Lost) word.now ∷ []) }
{
    let label = Label::Copy { look: Look::Lost };
    add_words(alloc, elements, label, word.as_bytes(), spot)
}

/// Adds the label of the arrow of a row: how a copy was lost; of which send one is that was taken up.
fn add_label_by(
    alloc: Global,
    elements: &mut Vec<Element>,
    names: &[Vec<u8>],
    has_one: bool,
    look: Look,
    row: &Row,
    spot: Spot,
) -> Result<(), NoMemory>
    ensures { OnOk result (shapes elements.new.items ≡ shapes elements.old.items
        ++ label_by (lists_of names.now) has_one look row.now) }
{
    match look {
        Look::Lost => add_loss(alloc, elements, row.fate.word(), spot),
        Look::TakenUp => add_copy_if(alloc, elements, names, has_one, row.carried.probe, spot),
        _ => Ok(()),
    }
}

/// Adds the label of an arrow, if there is such a row.
fn add_label<const C: usize>(
    alloc: Global,
    elements: &mut Vec<Element>,
    names: &[Vec<u8>],
    closed: &Closed<C>,
    has_one: bool,
    arrow: &Arrow,
    spot: Spot,
) -> Result<(), NoMemory>
    ensures { OnOk result (shapes elements.new.items ≡ shapes elements.old.items
        ++ label_shapes (lists_of names.now) closed.now.run has_one arrow.now) }
{
    match closed.rows_at(arrow.row.link).get(arrow.row.number) {
        Some(row) => add_label_by(alloc, elements, names, has_one, arrow.look, row, spot),
        None => Ok(()),
    }
}

/// Adds the labels of all arrows.
#[tactic(auto, using(hsr_frame::proofs::OneMore::grown))]
pub(crate) fn add_labels<const C: usize>(
    alloc: Global,
    elements: &mut Vec<Element>,
    names: &[Vec<u8>],
    closed: &Closed<C>,
    sheet: &Sheet,
    has_one: bool,
    arrows: &[Arrow],
) -> Result<(), NoMemory>
    ensures { OnOk result (shapes elements.new.items ≡ shapes elements.old.items
        ++ flat_map (label_shapes (lists_of names.now) closed.now.run has_one) arrows.now) }
{
    for arrow in arrows {
        let spot = sheet.label_at(arrow);
        add_label(alloc, elements, names, closed, has_one, arrow, spot)?;
    }
    Ok(())
}
