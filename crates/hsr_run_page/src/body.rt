//! The body of a run's page: its head, the network and time, the list of sends, and the report.
//!
//! No contract tells what stands here; each text is escaped.
use crate::entries::{Stamped, is_wanted};
use crate::facts::{Head, put_head};
use crate::listing::{Listed, put_list};
use crate::pieces::{CUTS, DECK, FOOT, FRONT, KEYS, LEGEND, NO_CUTS};
use crate::reporting::put_report;
use crate::strip::{Glance, Steps, links_down, put_strip};
use hsr_diagram::{Picture, Span};
use hsr_downs::{Down, Drain};
use hsr_finished_run::Closed;
use hsr_frame::NoMemory;
use hsr_network_drawing::{Format, Kind, Words, draw, put_drawing};
use hsr_node::Probe;
use hsr_text::{put, put_number};
use hsr_timeline::{Stamp, put_name};
use std::alloc::Global;

/// What the body of a page is formed by, beside the run.
#[derive(Clone, Copy)]
pub(crate) struct Body<'a> {
    pub(crate) head: Head<'a>,
    pub(crate) names: &'a [Vec<u8>],
    pub(crate) sends: &'a [Probe],
    pub(crate) span: Span,
    pub(crate) entries: &'a [Stamped],
    pub(crate) picture: &'a Picture,
    pub(crate) downs: &'a [Down],
    pub(crate) drains: &'a [Drain],
    pub(crate) has_scenario: bool,
    pub(crate) report: &'a str,
}

/// The steps of the entries that are shown.
fn steps_of<const C: usize>(
    alloc: Global,
    closed: &Closed<C>,
    sends: &[Probe],
    span: Span,
    entries: &[Stamped],
) -> Result<Steps, NoMemory> {
    let mut steps = Steps::new(alloc);
    for at in entries {
        if let Some(entry) = closed.entries_at(at.node).get(at.place)
            && is_wanted(sends, span, *at, entry)
        {
            steps.add(Stamp {
                moment: at.moment,
                step: at.step,
            })?;
        }
    }
    Ok(steps)
}

/// The names of nodes as texts: octets that are no UTF-8 are shown as U+FFFD.
fn names_as_texts(alloc: Global, names: &[Vec<u8>], nodes: usize) -> Result<Vec<String>, NoMemory> {
    let mut texts = Vec::new(alloc);
    for node in 0..nodes {
        let mut name = Vec::new(alloc);
        put_name(&mut name, names, node)?;
        texts.push(String::from_utf8_lossy(alloc, name.as_slice())?)?;
    }
    Ok(texts)
}

/// Puts the network last as it is drawn for a room of this format.
fn put_format<const C: usize>(
    alloc: Global,
    text: &mut Vec<u8>,
    closed: &Closed<C>,
    names: &[&str],
    format: Format,
) -> Result<(), NoMemory> {
    let places = closed.topology().places();
    let links = closed.topology().links();
    let drawing = draw(alloc, format, places, links, names)?;
    let words = Words {
        title: "The network as it is wired",
        names,
        loops: &[],
    };
    put_drawing(text, &drawing, Kind::Pressed, places, links, words)
}

/// Puts the network last, once for wide windows and once for tall ones: the style shows one of both.
fn put_network<const C: usize>(
    alloc: Global,
    text: &mut Vec<u8>,
    closed: &Closed<C>,
    names: &[Vec<u8>],
) -> Result<(), NoMemory> {
    let texts = names_as_texts(alloc, names, closed.topology().places().len())?;
    let mut words = Vec::new(alloc);
    for text in &texts {
        words.push(text.as_str())?;
    }
    put_format(alloc, text, closed, words.as_slice(), Format::Wide)?;
    put_format(alloc, text, closed, words.as_slice(), Format::Tall)
}

/// Puts the network and time last.
fn put_stage<'a, const C: usize>(
    alloc: Global,
    text: &mut Vec<u8>,
    closed: &'a Closed<C>,
    page: Body<'a>,
    listed: Listed<'a>,
) -> Result<(), NoMemory> {
    let picture = page.picture;
    let steps = steps_of(alloc, closed, page.sends, page.span, page.entries)?;
    let down = links_down(alloc, page.downs)?;
    let glance = Glance {
        listed,
        links: closed.topology().links(),
        arrows: picture.arrows.as_slice(),
        drains: page.drains,
        down: down.as_slice(),
    };
    put(text, FRONT)?;
    put_network(alloc, text, closed, page.names)?;
    put(text, DECK)?;
    put_number(text, steps.last() as u64)?;
    put(text, "\" value=\"")?;
    put_number(text, steps.last() as u64)?;
    put(text, "\">\n")?;
    put_strip(alloc, text, &steps, glance)?;
    put(text, LEGEND)
}

/// Puts the foot of a page last.
fn put_foot(text: &mut Vec<u8>, has_scenario: bool) -> Result<(), NoMemory> {
    put(text, FOOT)?;
    put(text, if has_scenario { CUTS } else { NO_CUTS })?;
    put(text, KEYS)
}

/// The body of a page.
pub(crate) fn body_of<'a, const C: usize>(
    alloc: Global,
    closed: &'a Closed<C>,
    page: Body<'a>,
) -> Result<Vec<u8>, NoMemory> {
    let picture = page.picture;
    let listed = Listed {
        names: page.names,
        places: closed.topology().places(),
        deliveries: picture.deliveries.sends.as_slice(),
        sends: picture.sends.as_slice(),
    };
    let mut text = Vec::new(alloc);
    let arrows = picture.arrows.as_slice();
    put_head(
        alloc,
        &mut text,
        closed,
        arrows,
        listed.sends.len(),
        page.head,
    )?;
    put(&mut text, "<main>\n")?;
    put_stage(alloc, &mut text, closed, page, listed)?;
    put_list(alloc, &mut text, closed, listed)?;
    put_report(&mut text, page.report)?;
    put_foot(&mut text, page.has_scenario)?;
    Ok(text)
}
