//! The marks of sends, on the lines of their nodes.
ghost use Rattle.std.specs.Prelude.{◌≡◌, ◌++◌, OnOk};
ghost use Rattle.std.specs.List.{flat_map};
ghost use Rattle.hsr_timeline.specs.Fronts.{lists_of};
ghost use Rattle.hsr_svg.specs.Elements.{shapes};
ghost use Rattle.hsr_diagram_layout.specs.Marks.{mark_if, mark_shapes, marks_of, sent_marks};

use crate::sheet::{Mark, Sheet};
use hsr_deliveries::Delivery;
use hsr_diagram::Sent;
use hsr_diagram_text::send_words;
use hsr_frame::NoMemory;
use hsr_node::Probe;
use hsr_svg::{Element, Label, add_square, add_text};
use hsr_timeline::Stamp;
use std::alloc::Global;

/// Adds the mark of a send, with its words.
#[tactic(auto, unfolding(crate::specs::Marks::mark_shapes))]
fn add_mark(
    alloc: Global,
    elements: &mut Vec<Element>,
    names: &[Vec<u8>],
    send: Probe,
    mark: Mark,
) -> Result<(), NoMemory>
    ensures { OnOk result (shapes elements.new.items ≡ shapes elements.old.items
        ++ mark_shapes (lists_of names.now) send) }
{
    add_square(elements, mark.x, mark.y)?;
    let words = send_words(alloc, names, send)?;
    add_text(elements, Label::Mark, words, mark.label)
}

/// Adds the mark of a send, if a line is of its node.
fn add_mark_if(
    alloc: Global,
    elements: &mut Vec<Element>,
    names: &[Vec<u8>],
    send: Probe,
    node: usize,
    mark: Mark,
) -> Result<(), NoMemory>
    ensures { OnOk result (shapes elements.new.items ≡ shapes elements.old.items
        ++ mark_if (lists_of names.now) send node) }
{
    if node == send.node {
        add_mark(alloc, elements, names, send, mark)
    } else {
        Ok(())
    }
}

/// Adds the marks of a send, one on each line of its node.
#[tactic(auto, using(hsr_frame::proofs::OneMore::grown))]
fn add_marks_of(
    alloc: Global,
    elements: &mut Vec<Element>,
    names: &[Vec<u8>],
    sheet: &Sheet,
    nodes: &[usize],
    send: Probe,
    start: Option<Stamp>,
) -> Result<(), NoMemory>
    ensures { OnOk result (shapes elements.new.items ≡ shapes elements.old.items
        ++ marks_of (lists_of names.now) nodes.now send) }
{
    for (number, node) in nodes.iter().enumerate() {
        let mark = sheet.mark_at(number, start);
        add_mark_if(alloc, elements, names, send, *node, mark)?;
    }
    Ok(())
}

/// Adds the marks of a send that is listed.
fn add_sent(
    alloc: Global,
    elements: &mut Vec<Element>,
    names: &[Vec<u8>],
    sheet: &Sheet,
    deliveries: &[Delivery],
    sent: &Sent,
) -> Result<(), NoMemory>
    ensures { OnOk result (shapes elements.new.items ≡ shapes elements.old.items
        ++ sent_marks (lists_of names.now) sheet.now.columns.nodes.items deliveries.now sent.now) }
{
    match deliveries.get(sent.number) {
        Some(delivery) => {
            let nodes = sheet.columns.nodes.as_slice();
            add_marks_of(
                alloc,
                elements,
                names,
                sheet,
                nodes,
                delivery.send,
                sent.start,
            )
        }
        None => Ok(()),
    }
}

/// Adds the marks of all sends that are listed.
#[tactic(auto, using(hsr_frame::proofs::OneMore::grown))]
pub(crate) fn add_marks(
    alloc: Global,
    elements: &mut Vec<Element>,
    names: &[Vec<u8>],
    sheet: &Sheet,
    deliveries: &[Delivery],
    sends: &[Sent],
) -> Result<(), NoMemory>
    ensures { OnOk result (shapes elements.new.items ≡ shapes elements.old.items
        ++ flat_map (sent_marks
        (lists_of names.now) sheet.now.columns.nodes.items deliveries.now) sends.now) }
{
    for sent in sends {
        add_sent(alloc, elements, names, sheet, deliveries, sent)?;
    }
    Ok(())
}
