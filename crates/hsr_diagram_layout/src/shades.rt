//! The times in which links are down: shades behind all, and the marks of cuts and mends.
ghost use Rattle.std.specs.Prelude.{◌≡◌, ◌++◌, OnOk};
ghost use Rattle.std.specs.List.{flat_map, list_any};
ghost use Rattle.hsr_svg.specs.Elements.{shapes};
ghost use Rattle.hsr_diagram_layout.specs.Shades.{change_if, change_shapes, down_shapes, down_words, end_if, is_among, is_by_some, is_open_since, is_seen, is_since_some, mark_if, sample_shade, shade_if, shade_shapes};

use crate::legend::{LINE, words_at};
use crate::sheet::{Marked, Sheet};
use hsr_diagram_text::{change_word, done_words};
use hsr_downs::{Change, Down};
use hsr_frame::NoMemory;
use hsr_svg::{Area, Element, Label, Spot, add_shade, add_text, add_words};
use std::alloc::Global;

// ---- which

/// Whether a moment isn't behind all of these.
fn is_by_some(moments: &[u64], moment: u64) -> bool
    ensures { result ≡ is_by_some moments.now moment }
{
    moments.iter().any(|one| moment <= *one)
}

/// Whether a moment isn't before all of these.
fn is_since_some(moments: &[u64], moment: u64) -> bool
    ensures { result ≡ is_since_some moments.now moment }
{
    moments.iter().any(|one| *one <= moment)
}

/// Whether a picture of these moments shows some of the time in which a link is down.
fn is_seen(moments: &[u64], down: &Down) -> bool
    ensures { result ≡ is_seen moments.now down.now }
{
    let is_open = match down.end {
        Some(change) => is_since_some(moments, change.moment),
        None => true,
    };
    is_by_some(moments, down.cut.moment) && is_open
}

/// Whether the moment of a change is neither behind nor before all of these.
pub(crate) fn is_among(moments: &[u64], change: &Change) -> bool
    ensures { result ≡ is_among moments.now change.now }
{
    is_by_some(moments, change.moment) && is_since_some(moments, change.moment)
}

// ---- shades

/// Adds the shade of a time in which a link is down, if a picture of these moments shows some of it.
fn add_shade_if(
    elements: &mut Vec<Element>,
    moments: &[u64],
    down: &Down,
    area: Area,
) -> Result<(), NoMemory>
    ensures { OnOk result (shapes elements.new.items ≡ shapes elements.old.items
        ++ shade_if moments.now down.now) }
{
    if is_seen(moments, down) {
        add_shade(elements, area)
    } else {
        Ok(())
    }
}

/// Adds the shades of all times in which links are down.
#[tactic(auto, using(hsr_frame::proofs::OneMore::grown))]
pub(crate) fn add_shades(
    elements: &mut Vec<Element>,
    sheet: &Sheet,
    moments: &[u64],
    downs: &[Down],
) -> Result<(), NoMemory>
    ensures { OnOk result (shapes elements.new.items ≡ shapes elements.old.items
        ++ shade_shapes moments.now downs.now) }
{
    for (number, down) in downs.iter().enumerate() {
        let area = sheet.shade_at(number, down.cut.link);
        add_shade_if(elements, moments, down, area)?;
    }
    Ok(())
}

// ---- marks

/// Adds the mark of what was done, in a word, if a picture of these moments shows it.
pub(crate) fn add_mark_if(
    alloc: Global,
    elements: &mut Vec<Element>,
    moments: &[u64],
    word: &str,
    change: &Change,
    spot: Spot,
) -> Result<(), NoMemory>
    ensures { OnOk result (shapes elements.new.items ≡ shapes elements.old.items
        ++ mark_if moments.now word.now change.now) }
{
    if is_among(moments, change) {
        let words = done_words(alloc, word, change.moment)?;
        add_text(elements, Label::Change, words, spot)
    } else {
        Ok(())
    }
}

/// Adds the mark of a cut or a mend, if a picture of these moments shows it.
fn add_change_if(
    alloc: Global,
    elements: &mut Vec<Element>,
    moments: &[u64],
    change: &Change,
    spot: Spot,
) -> Result<(), NoMemory>
    ensures { OnOk result (shapes elements.new.items ≡ shapes elements.old.items
        ++ change_if moments.now change.now) }
{
    add_mark_if(
        alloc,
        elements,
        moments,
        change_word(change.is_cut),
        change,
        spot,
    )
}

/// Adds the mark of the mend that ends a time, if a mend ends it, and the picture shows it.
fn add_end_if(
    alloc: Global,
    elements: &mut Vec<Element>,
    moments: &[u64],
    end: Option<Change>,
    spot: Spot,
) -> Result<(), NoMemory>
    ensures { OnOk result (shapes elements.new.items ≡ shapes elements.old.items
        ++ end_if moments.now end) }
{
    match end {
        Some(change) if !change.is_cut => add_change_if(alloc, elements, moments, &change, spot),
        _ => Ok(()),
    }
}

/// Adds the marks of a time in which a link is down.
fn add_changes_of(
    alloc: Global,
    elements: &mut Vec<Element>,
    moments: &[u64],
    down: &Down,
    marked: Marked,
) -> Result<(), NoMemory>
    ensures { OnOk result (shapes elements.new.items ≡ shapes elements.old.items
        ++ change_shapes moments.now down.now) }
{
    add_change_if(alloc, elements, moments, &down.cut, marked.cut)?;
    add_end_if(alloc, elements, moments, down.end, marked.end)
}

/// Adds the marks of all cuts and mends.
#[tactic(auto, using(hsr_frame::proofs::OneMore::grown))]
pub(crate) fn add_changes(
    alloc: Global,
    elements: &mut Vec<Element>,
    sheet: &Sheet,
    moments: &[u64],
    downs: &[Down],
) -> Result<(), NoMemory>
    ensures { OnOk result (shapes elements.new.items ≡ shapes elements.old.items
        ++ flat_map (change_shapes moments.now) downs.now) }
{
    for (number, down) in downs.iter().enumerate() {
        let marked = sheet.marks_of_fall(number, down.cut.link);
        add_changes_of(alloc, elements, moments, down, marked)?;
    }
    Ok(())
}

// ---- the legend

/// Whether a picture of these moments shows a time in which a link is down.
fn has_seen(moments: &[u64], downs: &[Down]) -> bool
    ensures { result ≡ list_any (is_seen moments.now) downs.now }
{
    downs.iter().any(|down| is_seen(moments, down))
}

/// What the legend says of a shade.
#[tactic(auto, unfolding(crate::specs::Shades::down_words))]
fn down_words() -> &'static str
    ensures { result.now ≡ down_words }
{
    // In a function of its own: a long literal at the head of a text keeps search from the rest of it.
    "link down"
}

/// Adds what a shade means.
#[tactic(auto, unfolding(crate::specs::Shades::down_shapes))]
fn add_sample(alloc: Global, elements: &mut Vec<Element>, y: u64) -> Result<(), NoMemory>
    ensures { OnOk result (shapes elements.new.items ≡ shapes elements.old.items ++ down_shapes) }
{
    let area = Area {
        x: 14,
        y: y.saturating_sub(9),
        width: 34,
        height: 12,
    };
    add_shade(elements, area)?;
    add_words(
        alloc,
        elements,
        Label::Legend,
        down_words().as_bytes(),
        words_at(y),
    )
}

/// Adds what a shade means, if there is one. Where the next line stands.
pub(crate) fn add_sample_if(
    alloc: Global,
    elements: &mut Vec<Element>,
    moments: &[u64],
    downs: &[Down],
    y: u64,
) -> Result<u64, NoMemory>
    ensures { OnOk result (shapes elements.new.items ≡ shapes elements.old.items
        ++ sample_shade moments.now downs.now) }
{
    if has_seen(moments, downs) {
        add_sample(alloc, elements, y)?;
        Ok(y.saturating_add(LINE))
    } else {
        Ok(y)
    }
}
