//! The sends at the right.
ghost use Rattle.std.specs.Prelude.{◌≡◌, ◌++◌, OnOk};
ghost use Rattle.std.specs.List.{flat_map};
ghost use Rattle.hsr_timeline.specs.Fronts.{lists_of};
ghost use Rattle.hsr_svg.specs.Elements.{shapes};
ghost use Rattle.hsr_diagram_layout.specs.Listing.{delivery_shapes, item_shapes, listed_shapes};

use crate::items::Item;
use crate::sheet::Sheet;
use hsr_deliveries::Delivery;
use hsr_diagram_text::sent_words;
use hsr_finished_run::Closed;
use hsr_frame::NoMemory;
use hsr_svg::{Anchor, Element, Label, Line, Reading, Spot, Way, add_line, add_text};
use hsr_timeline::Stamp;
use std::alloc::Global;

/// How high a line of the list is.
const LINE: u64 = 12;

/// How wide a letter of it is, at most.
pub(crate) const LETTER: u64 = 6;

/// Where the list ends: its right end and its lower end.
#[derive(Clone, Copy)]
pub(crate) struct Ends {
    pub right: u64,
    pub bottom: u64,
}

/// Adds a line of the list, and what joins it with its row, which stands at `row`.
#[tactic(auto, unfolding(crate::specs::Listing::listed_shapes))]
fn add_listed(
    elements: &mut Vec<Element>,
    words: Vec<u8>,
    is_complete: bool,
    row: u64,
    x: u64,
    y: u64,
) -> Result<(), NoMemory>
    ensures { OnOk result (shapes elements.new.items ≡ shapes elements.old.items
        ++ listed_shapes is_complete words.items) }
{
    let way = Way {
        x1: x.saturating_sub(20),
        y1: row,
        x2: x.saturating_sub(3),
        y2: y,
    };
    let spot = Spot {
        x,
        y: y.saturating_add(3),
        anchor: Anchor::Start,
        reading: Reading::Across,
    };
    add_line(elements, Line::Sent, way)?;
    add_text(elements, Label::Sent { is_complete }, words, spot)
}

/// Adds a send that is listed, beside its row or below what was listed before. Where the list ends then.
fn add_item<const C: usize>(
    alloc: Global,
    elements: &mut Vec<Element>,
    names: &[Vec<u8>],
    closed: &Closed<C>,
    delivery: &Delivery,
    row: u64,
    x: u64,
    ends: Ends,
) -> Result<Ends, NoMemory>
    ensures { OnOk result (shapes elements.new.items ≡ shapes elements.old.items
        ++ delivery_shapes (lists_of names.now) closed.now.run delivery.now) }
{
    let words = sent_words(alloc, names, closed, delivery)?;
    let wide = (words.len() as u64).saturating_mul(LETTER);
    // Beside its row, but never over the line before.
    let y = row.max(ends.bottom.saturating_add(LINE));
    add_listed(elements, words, delivery.is_complete(), row, x, y)?;
    Ok(Ends {
        right: ends.right.max(x.saturating_add(wide)),
        bottom: y,
    })
}

/// Adds the send of an item, if there is one. Where the list ends then.
fn add_item_if<const C: usize>(
    alloc: Global,
    elements: &mut Vec<Element>,
    names: &[Vec<u8>],
    closed: &Closed<C>,
    sheet: &Sheet,
    deliveries: &[Delivery],
    item: Item,
    ends: Ends,
) -> Result<Ends, NoMemory>
    ensures { OnOk result (shapes elements.new.items ≡ shapes elements.old.items
        ++ item_shapes (lists_of names.now) closed.now.run deliveries.now item) }
{
    let Item {
        moment,
        step,
        number,
    } = item;
    match deliveries.get(number) {
        Some(delivery) => {
            let row = sheet.rows.at_some(Some(Stamp { moment, step }));
            add_item(
                alloc, elements, names, closed, delivery, row, sheet.list, ends,
            )
        }
        None => Ok(ends),
    }
}

/// Adds the sends of items. Where the list ends.
#[tactic(auto, using(hsr_frame::proofs::OneMore::grown))]
pub(crate) fn add_list<const C: usize>(
    alloc: Global,
    elements: &mut Vec<Element>,
    names: &[Vec<u8>],
    closed: &Closed<C>,
    sheet: &Sheet,
    deliveries: &[Delivery],
    items: &[Item],
) -> Result<Ends, NoMemory>
    ensures { OnOk result (shapes elements.new.items ≡ shapes elements.old.items
        ++ flat_map (item_shapes (lists_of names.now) closed.now.run deliveries.now) items.now) }
{
    let mut ends = Ends {
        right: sheet.list,
        bottom: sheet.heads.top.saturating_sub(LINE),
    };
    for item in items {
        ends = add_item_if(
            alloc, elements, names, closed, sheet, deliveries, *item, ends,
        )?;
    }
    Ok(ends)
}
