//! The sends that aren't complete, below.
ghost use Rattle.std.specs.Prelude.{◌≡◌, ◌++◌, ◌∷◌, [], map, take, IfOk, OnOk};
ghost use Rattle.std.specs.List.{flat_map};
ghost use Rattle.hsr_timeline.specs.Fronts.{lists_of};
ghost use Rattle.hsr_svg.specs.Elements.{shapes, text as text_shape};
ghost use Rattle.hsr_svg.specs.declared.elements.Label.TheVariants as labels;
ghost use Rattle.hsr_diagram_layout.specs.Telling.{incomplete, is_incomplete, line_shape, lines_of, more_if, told_at, told_shapes};

use crate::legend::LINE;
use crate::listing::{Ends, LETTER};
use crate::widths::width_of;
use hsr_deliveries::Delivery;
use hsr_diagram::Sent;
use hsr_diagram_text::{incomplete_words, more_words, wrapped};
use hsr_finished_run::push_if;
use hsr_frame::NoMemory;
use hsr_svg::{Anchor, Element, Label, Reading, Spot, add_words};
use std::alloc::Global;

/// The most sends that aren't complete of which the foot tells; the others are counted.
const MOST_TOLD: usize = 12;

/// How far its first line stands from the left, and the later ones.
const FIRST: u64 = 14;

const LATER: u64 = 26;

// ---- which

/// Whether a send that is listed isn't complete.
fn is_incomplete(deliveries: &[Delivery], sent: &Sent) -> bool
    ensures { result ≡ is_incomplete deliveries.now sent.now }
{
    match deliveries.get(sent.number) {
        Some(delivery) => !delivery.is_complete(),
        None => false,
    }
}

/// The sends that are listed and aren't complete, by their indices among the deliveries.
#[tactic(auto, using(hsr_frame::proofs::OneMore::grown))]
fn incomplete(
    alloc: Global,
    deliveries: &[Delivery],
    sends: &[Sent],
) -> Result<Vec<usize>, NoMemory>
    ensures { IfOk result (λ numbers. numbers.items ≡ incomplete deliveries.now sends.now) }
{
    let mut numbers = Vec::new(alloc);
    for sent in sends {
        push_if(&mut numbers, is_incomplete(deliveries, sent), sent.number)?;
    }
    Ok(numbers)
}

// ---- the lines

/// Adds a line in the words of sends that aren't complete, so far from the left. Where the lines end then.
fn add_line(
    alloc: Global,
    elements: &mut Vec<Element>,
    words: &[u8],
    left: u64,
    ends: Ends,
) -> Result<Ends, NoMemory>
    ensures { OnOk result (shapes elements.new.items ≡ shapes elements.old.items
        ++ text_shape labels.Incomplete words.now ∷ []) }
{
    let spot = Spot {
        x: left,
        y: ends.bottom,
        anchor: Anchor::Start,
        reading: Reading::Across,
    };
    add_words(alloc, elements, Label::Incomplete, words, spot)?;
    Ok(Ends {
        right: ends.right.max(left.saturating_add(width_of(words, LETTER))),
        bottom: ends.bottom.saturating_add(LINE),
    })
}

/// Adds a text that is told, line by line. Where the lines end then.
#[tactic(auto, using(crate::proofs::Lines::line_more))]
fn add_lines(
    alloc: Global,
    elements: &mut Vec<Element>,
    lines: &[Vec<u8>],
    ends: Ends,
) -> Result<Ends, NoMemory>
    ensures { OnOk result (shapes elements.new.items ≡ shapes elements.old.items
        ++ map line_shape (lists_of lines.now)) }
{
    let mut ends = ends;
    let mut left = FIRST;
    for line in lines {
        ends = add_line(alloc, elements, line.as_slice(), left, ends)?;
        left = LATER;
    }
    Ok(ends)
}

/// Adds the words of sends that aren't complete. Where the lines end then.
fn add_told(
    alloc: Global,
    elements: &mut Vec<Element>,
    words: &[u8],
    ends: Ends,
) -> Result<Ends, NoMemory>
    ensures { OnOk result (shapes elements.new.items ≡ shapes elements.old.items
        ++ lines_of words.now) }
{
    // A long text would make the picture as wide as itself.
    let lines = wrapped(alloc, words)?;
    add_lines(alloc, elements, lines.as_slice(), ends)
}

/// Adds the line of a send that isn't complete, if there is such a send. Where the lines end then.
fn add_told_at(
    alloc: Global,
    elements: &mut Vec<Element>,
    names: &[Vec<u8>],
    deliveries: &[Delivery],
    number: usize,
    ends: Ends,
) -> Result<Ends, NoMemory>
    ensures { OnOk result (shapes elements.new.items ≡ shapes elements.old.items
        ++ told_at (lists_of names.now) deliveries.now number) }
{
    match deliveries.get(number) {
        Some(delivery) => {
            let words = incomplete_words(alloc, names, delivery)?;
            add_told(alloc, elements, words.as_slice(), ends)
        }
        None => Ok(ends),
    }
}

/// Adds the lines of sends that aren't complete. Where the lines end then.
#[tactic(auto, using(hsr_frame::proofs::OneMore::grown))]
fn add_all_told(
    alloc: Global,
    elements: &mut Vec<Element>,
    names: &[Vec<u8>],
    deliveries: &[Delivery],
    numbers: &[usize],
    ends: Ends,
) -> Result<Ends, NoMemory>
    ensures { OnOk result (shapes elements.new.items ≡ shapes elements.old.items
        ++ flat_map (told_at (lists_of names.now) deliveries.now) numbers.now) }
{
    let mut ends = ends;
    for number in numbers {
        ends = add_told_at(alloc, elements, names, deliveries, *number, ends)?;
    }
    Ok(ends)
}

/// The first 12 of these, or all where there are fewer: the others are counted.
fn first_of(numbers: &[usize]) -> &[usize]
    ensures { result.now ≡ take 12 numbers.now }
{
    if numbers.len() > MOST_TOLD {
        &numbers[..MOST_TOLD]
    } else {
        numbers
    }
}

/// Adds how many more aren't complete, if more are than are told of. Where the lines end then.
fn add_more(
    alloc: Global,
    elements: &mut Vec<Element>,
    count: usize,
    ends: Ends,
) -> Result<Ends, NoMemory>
    ensures { OnOk result (shapes elements.new.items ≡ shapes elements.old.items ++ more_if count) }
{
    if count > MOST_TOLD {
        let words = more_words(alloc, count - MOST_TOLD)?;
        add_told(alloc, elements, words.as_slice(), ends)
    } else {
        Ok(ends)
    }
}

/// Adds the sends that are listed and aren't complete. Where the lines end then.
#[tactic(auto, unfolding(crate::specs::Telling::told_shapes))]
pub(crate) fn add_incomplete(
    alloc: Global,
    elements: &mut Vec<Element>,
    names: &[Vec<u8>],
    deliveries: &[Delivery],
    sends: &[Sent],
    y: u64,
) -> Result<Ends, NoMemory>
    ensures { OnOk result (shapes elements.new.items ≡ shapes elements.old.items
        ++ told_shapes (lists_of names.now) deliveries.now (incomplete deliveries.now sends.now)) }
{
    let numbers = incomplete(alloc, deliveries, sends)?;
    let told = first_of(numbers.as_slice());
    let ends = Ends {
        right: 0,
        bottom: y,
    };
    let ends = add_all_told(alloc, elements, names, deliveries, told, ends)?;
    add_more(alloc, elements, numbers.len(), ends)
}
