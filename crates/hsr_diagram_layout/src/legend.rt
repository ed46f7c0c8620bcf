//! What stands below: the legend, and the foot.
ghost use Rattle.std.specs.Prelude.{◌≡◌, ◌++◌, OnOk};
ghost use Rattle.std.specs.List.{flat_map};
ghost use Rattle.hsr_svg.specs.Elements.{shapes};
ghost use Rattle.hsr_diagram_layout.specs.Legend.{foot_shapes, has_look, is_look, legend_shapes, sample_if, sample_shapes, sent_shapes};
ghost use Rattle.hsr_svg.specs.Style.{looks};

use hsr_diagram::{Arrow, Look};
use hsr_frame::NoMemory;
use hsr_svg::{
    Anchor, Element, Label, Reading, Spot, Way, add_sample, add_square, add_words, looks, words_of,
};
use std::alloc::Global;

/// How high a line is.
pub(crate) const LINE: u64 = 15;

/// Where the words of a mark or an arrow of the legend stand.
pub(crate) fn words_at(y: u64) -> Spot {
    Spot {
        x: 56,
        y,
        anchor: Anchor::Start,
        reading: Reading::Across,
    }
}

/// Adds what a mark means.
#[tactic(auto, unfolding(crate::specs::Legend::sent_shapes))]
fn add_sent(alloc: Global, elements: &mut Vec<Element>, y: u64) -> Result<(), NoMemory>
    ensures { OnOk result (shapes elements.new.items ≡ shapes elements.old.items ++ sent_shapes) }
{
    add_square(elements, 34, y.saturating_sub(3))?;
    add_words(alloc, elements, Label::Legend, b"sent", words_at(y))
}

/// Adds what an arrow of a look means.
#[tactic(auto, unfolding(crate::specs::Legend::sample_shapes))]
fn add_meaning(
    alloc: Global,
    elements: &mut Vec<Element>,
    look: Look,
    y: u64,
) -> Result<(), NoMemory>
    ensures { OnOk result (shapes elements.new.items ≡ shapes elements.old.items
        ++ sample_shapes look) }
{
    let above = y.saturating_sub(3);
    let way = Way {
        x1: 14,
        y1: above,
        x2: 48,
        y2: above,
    };
    add_sample(elements, look, way)?;
    add_words(
        alloc,
        elements,
        Label::Legend,
        words_of(look).as_bytes(),
        words_at(y),
    )
}

/// Whether two looks are the same.
fn is_look(look: Look, other: Look) -> bool
    ensures { result ≡ is_look look other }
{
    matches!(
        (look, other),
        (Look::TakenUp, Look::TakenUp)
            | (Look::SentOn, Look::SentOn)
            | (Look::Again, Look::Again)
            | (Look::Home, Look::Home)
            | (Look::Refused, Look::Refused)
            | (Look::Lost, Look::Lost)
    )
}

/// Whether there is an arrow of a look.
fn has_look(arrows: &[Arrow], look: Look) -> bool
    ensures { result ≡ has_look arrows.now look }
{
    arrows.iter().any(|arrow| is_look(look, arrow.look))
}

/// Adds what an arrow of a look means, if there is one. Where the next line stands.
fn add_meaning_if(
    alloc: Global,
    elements: &mut Vec<Element>,
    arrows: &[Arrow],
    look: Look,
    y: u64,
) -> Result<u64, NoMemory>
    ensures { OnOk result (shapes elements.new.items ≡ shapes elements.old.items
        ++ sample_if arrows.now look) }
{
    if has_look(arrows, look) {
        add_meaning(alloc, elements, look, y)?;
        Ok(y.saturating_add(LINE))
    } else {
        Ok(y)
    }
}

/// Adds what arrows of these looks mean, of those that there are. Where the next line stands.
#[tactic(auto, using(hsr_frame::proofs::OneMore::grown))]
fn add_meanings(
    alloc: Global,
    elements: &mut Vec<Element>,
    arrows: &[Arrow],
    looks: &[Look],
    y: u64,
) -> Result<u64, NoMemory>
    ensures { OnOk result (shapes elements.new.items ≡ shapes elements.old.items
        ++ flat_map (sample_if arrows.now) looks.now) }
{
    let mut y = y;
    for look in looks {
        y = add_meaning_if(alloc, elements, arrows, *look, y)?;
    }
    Ok(y)
}

/// Adds the legend, a line for each look that an arrow has. Where the next line stands.
#[tactic(auto, unfolding(crate::specs::Legend::legend_shapes))]
pub(crate) fn add_legend(
    alloc: Global,
    elements: &mut Vec<Element>,
    arrows: &[Arrow],
    y: u64,
) -> Result<u64, NoMemory>
    ensures { OnOk result (shapes elements.new.items ≡ shapes elements.old.items
        ++ legend_shapes arrows.now) }
{
    add_sent(alloc, elements, y)?;
    add_meanings(
        alloc,
        elements,
        arrows,
        looks().as_slice(),
        y.saturating_add(LINE),
    )
}

/// Adds the last line.
#[tactic(auto, unfolding(crate::specs::Legend::foot_shapes))]
pub(crate) fn add_foot(alloc: Global, elements: &mut Vec<Element>, y: u64) -> Result<(), NoMemory>
    ensures { OnOk result (shapes elements.new.items ≡ shapes elements.old.items ++ foot_shapes) }
{
    let spot = Spot {
        x: 14,
        y,
        anchor: Anchor::Start,
        reading: Reading::Across,
    };
    add_words(
        alloc,
        elements,
        Label::Foot,
        b"Downwards: moments, and within one the steps that must follow each other.",
        spot,
    )
}
