//! The run at a glance, below the slider: its sends, and where copies were lost, against its steps.
//!
//! No contract tells what stands here. All places are parts of a hundred, so that the strip fits each width without a script.
use crate::listing::{Listed, put_node_name};
use hsr_deliveries::Delivery;
use hsr_diagram::{Arrow, Sent};
use hsr_downs::{Down, Drain};
use hsr_frame::NoMemory;
use hsr_node::Place;
use hsr_page::{put_grouped, put_moment};
use hsr_text::{put, put_number};
use hsr_timeline::{Stamp, put_letter};
use hsr_topology::End;
use std::alloc::Global;

/// How many links that go down have a bar.
const BARS: usize = 6;

/// How many moments are marked by lines; of more some are marked in figures alone.
const MARKED: usize = 120;

/// The steps of the entries that are shown: their stamps, each once, in the order of time.
#[derive(Drop)]
pub(crate) struct Steps {
    stamps: Vec<Stamp>,
}

impl Steps {
    /// No steps.
    pub(crate) fn new(alloc: Global) -> Steps {
        Steps {
            stamps: Vec::new(alloc),
        }
    }

    /// Puts a stamp last, if it is another than the last one.
    pub(crate) fn add(&mut self, stamp: Stamp) -> Result<(), NoMemory> {
        if self.stamps.last() != Some(&stamp) {
            self.stamps.push(stamp)?;
        }
        Ok(())
    }

    /// The number of the last step, from 0.
    pub(crate) fn last(&self) -> usize {
        self.stamps.len().saturating_sub(1)
    }

    /// The number of the first step that doesn't come before a stamp.
    fn at(&self, stamp: Stamp) -> usize {
        self.stamps
            .as_slice()
            .partition_point(|step| step.is_earlier(stamp))
    }
}

/// Puts a step as a part of a hundred last, with two digits behind the point.
fn put_part(text: &mut Vec<u8>, step: usize, last: usize) -> Result<(), NoMemory> {
    let all = (last as u64).max(1);
    let parts = (step as u64).min(all).saturating_mul(10_000) / all;
    put_number(text, parts / 100)?;
    put(text, ".")?;
    put_number(text, parts / 10 % 10)?;
    put_number(text, parts % 10)?;
    put(text, "%")
}

/// Puts an upright line at a step last.
fn put_line(
    text: &mut Vec<u8>,
    class: &str,
    step: usize,
    last: usize,
    from: u64,
    to: u64,
) -> Result<(), NoMemory> {
    put(text, "<line class=\"")?;
    put(text, class)?;
    put(text, "\" x1=\"")?;
    put_part(text, step, last)?;
    put(text, "\" x2=\"")?;
    put_part(text, step, last)?;
    put(text, "\" y1=\"")?;
    put_number(text, from)?;
    put(text, "\" y2=\"")?;
    put_number(text, to)?;
    put(text, "\"/>\n")
}

/// Puts a moment in figures last, at a step.
fn put_figures(
    text: &mut Vec<u8>,
    moment: u64,
    step: usize,
    last: usize,
    height: u64,
) -> Result<(), NoMemory> {
    put(text, "<text class=\"")?;
    put(text, if step == 0 { "first" } else { "mid" })?;
    put(text, "\" x=\"")?;
    put_part(text, step, last)?;
    put(text, "\" y=\"")?;
    put_number(text, height.saturating_sub(2))?;
    put(text, "\">")?;
    put_moment(text, moment)?;
    put(text, "</text>\n")
}

/// How many moments steps have.
fn moments_of(steps: &Steps) -> usize {
    let stamps = steps.stamps.as_slice();
    let turns = stamps
        .iter()
        .zip(stamps.iter().skip(1))
        .filter(|(one, next)| one.moment != next.moment)
        .count();
    turns.saturating_add(1)
}

/// Puts the moments last: a line where each begins, and some in figures.
fn put_moments(text: &mut Vec<u8>, steps: &Steps, height: u64) -> Result<(), NoMemory> {
    let last = steps.last();
    let are_few = moments_of(steps) <= MARKED;
    let mut before: Option<u64> = None;
    let mut told: Option<usize> = None;
    for (step, stamp) in steps.stamps.iter().enumerate() {
        if before == Some(stamp.moment) {
            continue;
        }
        before = Some(stamp.moment);
        // A figure takes a fifth of the strip, and none stands at its right edge.
        let has_room = match told {
            None => true,
            Some(other) => step.saturating_sub(other).saturating_mul(5) >= last,
        };
        if has_room && step.saturating_mul(10) <= last.saturating_mul(9) {
            put_figures(text, stamp.moment, step, last, height)?;
            put_line(text, "moment", step, last, 0, height.saturating_sub(12))?;
            told = Some(step);
        } else if are_few {
            put_line(text, "moment", step, last, 0, 34)?;
        }
    }
    Ok(())
}

/// Puts the sends last that are complete, or those that aren't.
fn put_sends(
    text: &mut Vec<u8>,
    steps: &Steps,
    deliveries: &[Delivery],
    sends: &[Sent],
    are_complete: bool,
) -> Result<(), NoMemory> {
    let class = if are_complete { "sent" } else { "sent bad" };
    for sent in sends {
        let is_one = match deliveries.get(sent.number) {
            Some(delivery) => delivery.is_complete() == are_complete,
            None => false,
        };
        if let (true, Some(start)) = (is_one, sent.start) {
            put_line(text, class, steps.at(start), steps.last(), 2, 13)?;
        }
    }
    Ok(())
}

/// Puts where copies were lost last.
fn put_losses(text: &mut Vec<u8>, steps: &Steps, arrows: &[Arrow]) -> Result<(), NoMemory> {
    for arrow in arrows {
        if let (true, Some(start)) = (arrow.row.is_lost, arrow.start) {
            put_line(text, "loss", steps.at(start), steps.last(), 17, 28)?;
        }
    }
    Ok(())
}

/// Puts a sign of the strip last, with what it means behind it.
fn put_key(text: &mut Vec<u8>, class: &str, row: &str) -> Result<(), NoMemory> {
    put(
        text,
        "<span class=\"k\"><svg viewBox=\"0 0 14 12\" aria-hidden=\"true\"><line class=\"",
    )?;
    put(text, class)?;
    put(text, "\" ")?;
    put(text, row)?;
    put(text, "/></svg>")
}

const UPRIGHT: &str = "x1=\"7\" x2=\"7\" y1=\"0\" y2=\"12\"";

const SHORT: &str = "x1=\"7\" x2=\"7\" y1=\"4\" y2=\"8\"";

const LEVEL: &str = "x1=\"0\" x2=\"14\" y1=\"6\" y2=\"6\"";

/// Puts an end of a link last, by the name of its node.
fn put_link_end(
    alloc: Global,
    text: &mut Vec<u8>,
    names: &[Vec<u8>],
    places: &[Place],
    end: End,
) -> Result<(), NoMemory> {
    put_node_name(alloc, text, names, end.node)?;
    put(text, ".")?;
    put_letter(text, places, end)
}

/// Puts the sign of a link that goes down last.
fn put_bar_key(
    alloc: Global,
    text: &mut Vec<u8>,
    listed: Listed<'_>,
    links: &[[End; 2]],
    number: usize,
) -> Result<(), NoMemory> {
    put_key(text, "cutbar", LEVEL)?;
    put(text, "link ")?;
    put_number(text, number as u64)?;
    if let Some([one, other]) = links.get(number) {
        put(text, ", ")?;
        put_link_end(alloc, text, listed.names, listed.places, *one)?;
        put(text, " to ")?;
        put_link_end(alloc, text, listed.names, listed.places, *other)?;
    }
    put(text, ": down</span>\n")
}

/// The links that go down, each once, rising.
pub(crate) fn links_down(alloc: Global, downs: &[Down]) -> Result<Vec<usize>, NoMemory> {
    let mut links = Vec::new(alloc);
    for down in downs {
        links.push(down.cut.link)?;
    }
    links.sort_unstable();
    links.dedup();
    Ok(links)
}

/// Puts the signs of links that go down last; of more than there are bars it says how many.
fn put_bar_keys(
    alloc: Global,
    text: &mut Vec<u8>,
    listed: Listed<'_>,
    links: &[[End; 2]],
    down: &[usize],
) -> Result<(), NoMemory> {
    for number in down.iter().take(BARS) {
        put_bar_key(alloc, text, listed, links, *number)?;
    }
    if down.len() > BARS {
        put(text, "<span class=\"k\">and ")?;
        put_grouped(text, (down.len() - BARS) as u64)?;
        put(text, " more links that go down</span>\n")?;
    }
    Ok(())
}

/// What the strip is drawn by, beside its steps.
#[derive(Clone, Copy)]
pub(crate) struct Glance<'a> {
    pub(crate) listed: Listed<'a>,
    pub(crate) links: &'a [[End; 2]],
    pub(crate) arrows: &'a [Arrow],
    pub(crate) drains: &'a [Drain],
    /// The links that go down.
    pub(crate) down: &'a [usize],
}

/// Puts the signs of the strip last.
fn put_keys(alloc: Global, text: &mut Vec<u8>, glance: Glance<'_>) -> Result<(), NoMemory> {
    put(text, "<p class=\"keys\">")?;
    put_key(text, "sent", UPRIGHT)?;
    put(text, "sends</span>\n")?;
    put_key(text, "sent bad", UPRIGHT)?;
    put(text, "incomplete</span>\n")?;
    put_key(text, "loss", UPRIGHT)?;
    put(text, "copies lost</span>\n")?;
    if !glance.drains.is_empty() {
        put_key(text, "drain", SHORT)?;
        put(text, "drains</span>\n")?;
    }
    put_bar_keys(alloc, text, glance.listed, glance.links, glance.down)?;
    put(text, "</p>")
}

/// Puts the strip last.
pub(crate) fn put_strip(
    alloc: Global,
    text: &mut Vec<u8>,
    steps: &Steps,
    glance: Glance<'_>,
) -> Result<(), NoMemory> {
    let height = 50 + 9 * glance.down.len().min(BARS) as u64;
    let Listed {
        deliveries,
        sends,
        ..
    } = glance.listed;
    put(text, "<svg class=\"strip\" width=\"100%\" height=\"")?;
    put_number(text, height)?;
    put(
        text,
        "\" role=\"img\" aria-label=\"Sends, losses and cuts over the run\">\n",
    )?;
    put_moments(text, steps, height)?;
    put_sends(text, steps, deliveries, sends, true)?;
    // Behind the others, so that none of them hides one.
    put_sends(text, steps, deliveries, sends, false)?;
    put_losses(text, steps, glance.arrows)?;
    put(
        text,
        "<line class=\"now\" x1=\"0%\" x2=\"0%\" y1=\"0\" y2=\"",
    )?;
    put_number(text, height.saturating_sub(12))?;
    put(text, "\"/></svg>\n")?;
    put_keys(alloc, text, glance)
}
