//! What each direction of each link carries, as bars.
//!
//! No contract tells what stands here. Bars are drawn by whole tenths of a pixel.
use crate::facts::Facts;
use crate::pieces::{put_heading, put_name, put_rate};
use hsr_frame::NoMemory;
use hsr_load::ChannelLoad;
use hsr_node::Place;
use hsr_page::put_grouped;
use hsr_text::{put, put_number};
use hsr_topology::End;
use std::alloc::Global;

/// How many directions are drawn at most.
const MOST: usize = 24;

/// Where bars begin, and how long the longest may be, in pixels.
const LEFT: u64 = 210;

const WIDTH: u64 = 500;

/// How high a row is, in pixels.
const HEIGHT: u64 = 15;

/// Scales on which bars can be read, in parts of a hundred of the limit.
const SCALES: [u64; 9] = [2, 5, 10, 20, 50, 100, 200, 500, 1000];

/// What bars are drawn by: the limit in kbit/s, the scale in parts of a hundred of it, and what the whole width stands for, in kbit/s.
#[derive(Clone, Copy)]
struct Scale {
    limit: u64,
    parts: u64,
    whole: u64,
}

/// The smallest scale on which a load fits.
fn scale_for(limit: u64, most: u64) -> Scale {
    let mut parts = 2000;
    for scale in SCALES.iter().rev() {
        if most.saturating_mul(100) <= limit.saturating_mul(*scale) {
            parts = *scale;
        }
    }
    Scale {
        limit,
        parts,
        whole: (limit.saturating_mul(parts) / 100).max(1),
    }
}

/// How long the bar of a load is, in tenths of a pixel.
fn length_of(scale: Scale, load: u64) -> u64 {
    load.min(scale.whole).saturating_mul(10 * WIDTH) / scale.whole.max(1)
}

/// Puts tenths last as a number with a point.
fn put_tenths(text: &mut Vec<u8>, tenths: u64) -> Result<(), NoMemory> {
    put_number(text, tenths / 10)?;
    put(text, ".")?;
    put_number(text, tenths % 10)
}

/// Puts hundredths last as a number with a point.
fn put_hundredths(text: &mut Vec<u8>, hundredths: u64) -> Result<(), NoMemory> {
    put_number(text, hundredths / 100)?;
    put(text, ".")?;
    put_number(text, hundredths / 10 % 10)?;
    put_number(text, hundredths % 10)
}

/// Puts the begin of a text at a place last.
fn put_text_at(text: &mut Vec<u8>, class: &str, x: u64, y: u64) -> Result<(), NoMemory> {
    put(text, "<text class=\"")?;
    put(text, class)?;
    put(text, "\" x=\"")?;
    put_number(text, x)?;
    put(text, "\" y=\"")?;
    put_number(text, y)?;
    put(text, "\">")
}

/// Puts the grid last: four lines, in parts of a hundred of the limit.
fn put_grid(text: &mut Vec<u8>, scale: Scale, bottom: u64) -> Result<(), NoMemory> {
    for quarter in 0..5 {
        let x = LEFT + WIDTH * quarter / 4;
        put(text, "<path class=\"grid\" d=\"M")?;
        put_number(text, x)?;
        put(text, " 16V")?;
        put_number(text, bottom)?;
        put(text, "\"/>")?;
        put_text_at(text, "m", x, 11)?;
        put_hundredths(text, scale.parts.saturating_mul(100 * quarter) / 4)?;
        put(text, " %</text>\n")?;
    }
    Ok(())
}

/// Puts a bar last.
fn put_bar(
    text: &mut Vec<u8>,
    class: &str,
    y: u64,
    length: u64,
    height: u64,
) -> Result<(), NoMemory> {
    put(text, "<rect class=\"")?;
    put(text, class)?;
    put(text, "\" x=\"")?;
    put_number(text, LEFT)?;
    put(text, "\" y=\"")?;
    put_number(text, y)?;
    put(text, "\" width=\"")?;
    put_tenths(text, length.max(8))?;
    put(text, "\" height=\"")?;
    put_number(text, height)?;
    put(text, "\"/>")
}

/// Puts an end of a link last.
fn put_end(text: &mut Vec<u8>, names: &[&str], places: &[Place], end: End) -> Result<(), NoMemory> {
    put_name(text, names, end.node)?;
    put(text, ".")?;
    if let Some(place) = places.get(end.node) {
        text.push(place.letter(end.port))?;
    }
    Ok(())
}

/// Puts a direction of a link last, at a height.
fn put_channel(
    text: &mut Vec<u8>,
    facts: Facts<'_>,
    scale: Scale,
    load: ChannelLoad,
    y: u64,
) -> Result<(), NoMemory> {
    let baseline = y.saturating_add(11);
    put_text_at(text, "r", LEFT - 6, baseline)?;
    put_end(text, facts.names, facts.places, load.from)?;
    put(text, " → ")?;
    put_end(text, facts.names, facts.places, load.to)?;
    put(text, "</text>")?;
    let mean = if load.worst > scale.limit {
        "mean over"
    } else {
        "mean"
    };
    put_bar(
        text,
        mean,
        y.saturating_add(3),
        length_of(scale, load.mean),
        8,
    )?;
    put_bar(
        text,
        "peak",
        y.saturating_add(2),
        length_of(scale, load.worst),
        10,
    )?;
    put_text_at(text, "", LEFT + WIDTH + 8, baseline)?;
    put_rate(text, load.mean)?;
    put(text, " / ")?;
    put_rate(text, load.worst)?;
    put(text, "</text>\n")
}

/// Puts the limit last, where it is on the scale.
fn put_limit(text: &mut Vec<u8>, scale: Scale, bottom: u64) -> Result<(), NoMemory> {
    if scale.parts < 100 {
        return Ok(());
    }
    put(text, "<path class=\"limit\" d=\"M")?;
    put_tenths(
        text,
        (10 * LEFT).saturating_add(length_of(scale, scale.limit)),
    )?;
    put(text, " 14V")?;
    put_number(text, bottom)?;
    put(text, "\"/>\n")
}

/// The busiest directions, at most so many as are drawn, in the order of links.
fn busiest(alloc: Global, loads: &[ChannelLoad]) -> Result<Vec<ChannelLoad>, NoMemory> {
    let mut worst = Vec::new(alloc);
    for load in loads {
        worst.push(load.worst)?;
    }
    worst.sort_unstable();
    let least = match worst.len().checked_sub(MOST) {
        Some(at) => worst.get(at).copied().unwrap_or(0),
        None => 0,
    };
    let mut list = Vec::new(alloc);
    for load in loads {
        if load.worst >= least && list.len() < MOST {
            list.push(*load)?;
        }
    }
    Ok(list)
}

/// Puts the bars last.
fn put_bars(
    text: &mut Vec<u8>,
    facts: Facts<'_>,
    scale: Scale,
    loads: &[ChannelLoad],
) -> Result<(), NoMemory> {
    let height = (loads.len() as u64)
        .saturating_mul(HEIGHT)
        .saturating_add(22);
    put(text, "<svg class=\"load\" viewBox=\"0 0 860 ")?;
    put_number(text, height)?;
    put(
        text,
        "\" role=\"img\" aria-label=\"Load of each direction of each link\">\n",
    )?;
    put_grid(text, scale, height.saturating_sub(2))?;
    let mut y = 18;
    for load in loads {
        put_channel(text, facts, scale, *load, y)?;
        y = y.saturating_add(HEIGHT);
    }
    put_limit(text, scale, height.saturating_sub(2))?;
    put(text, "</svg>\n")
}

/// Puts what stands below the bars last.
fn put_hint(
    text: &mut Vec<u8>,
    facts: Facts<'_>,
    scale: Scale,
    drawn: usize,
) -> Result<(), NoMemory> {
    put(text, "<p class=\"hint\">")?;
    if drawn < facts.loads.len() {
        put(text, "The ")?;
        put_grouped(text, drawn as u64)?;
        put(text, " busiest of ")?;
        put_grouped(text, facts.loads.len() as u64)?;
        put(text, " directions. ")?;
    }
    put(
        text,
        "Whole bar: mean over the run. Hollow bar: its worst millisecond. Both in Mbit/s; 100 % is ",
    )?;
    put_rate(text, scale.limit)?;
    put(
        text,
        " Mbit/s. A frame counts with preamble, check and gap, filled up to Ethernet's least.</p></section>\n",
    )
}

/// Puts the load of links last.
pub(crate) fn put_load(
    alloc: Global,
    text: &mut Vec<u8>,
    facts: Facts<'_>,
) -> Result<(), NoMemory> {
    let loads = busiest(alloc, facts.loads)?;
    let limit = facts.limit_load.unwrap_or(facts.rate);
    let scale = scale_for(limit, facts.tally.load);
    put_heading(text, 3, "Load of each link", "hsr_plan run --load")?;
    put_bars(text, facts, scale, loads.as_slice())?;
    put_hint(text, facts, scale, loads.len())
}
