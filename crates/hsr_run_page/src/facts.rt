//! The head of a page: the run's title, what it had, and the verdict on it.
//!
//! No contract tells what stands here; each text is escaped.
use hsr_deliveries::Delivery;
use hsr_diagram::Arrow;
use hsr_finished_run::Closed;
use hsr_frame::NoMemory;
use hsr_page::{put_escaped, put_escaped_octets, put_grouped};
use hsr_report::Finding;
use hsr_text::put;
use std::alloc::Global;

/// Puts a number last with what it counts, in the singular where it is one.
pub(crate) fn put_many(
    text: &mut Vec<u8>,
    number: usize,
    one: &str,
    many: &str,
) -> Result<(), NoMemory> {
    put_grouped(text, number as u64)?;
    put(text, " ")?;
    put(text, if number == 1 { one } else { many })
}

/// How many copies of these were lost.
fn lost_among(arrows: &[Arrow]) -> usize {
    arrows.iter().filter(|arrow| arrow.row.is_lost).count()
}

/// Puts what a run had last.
fn put_facts<const C: usize>(
    text: &mut Vec<u8>,
    closed: &Closed<C>,
    arrows: &[Arrow],
    sends: usize,
) -> Result<(), NoMemory> {
    put_many(text, closed.topology().places().len(), "node", "nodes")?;
    put(text, " · ")?;
    put_many(text, closed.topology().links().len(), "link", "links")?;
    put(text, " · ")?;
    put_many(text, sends, "send", "sends")?;
    put(text, " · ")?;
    put_many(text, arrows.len(), "copy", "copies")?;
    put(text, " · ")?;
    put_grouped(text, lost_among(arrows) as u64)?;
    put(text, " lost · table ")?;
    put_grouped(text, C as u64)
}

/// Whether a run is certified.
fn is_certified(finding: Finding) -> bool {
    matches!(finding, Finding::Certified(_))
}

/// Puts what a verdict means last: that of a certified run, or else these lines.
fn put_meaning(
    alloc: Global,
    text: &mut Vec<u8>,
    finding: Finding,
    lines: &[Vec<u8>],
) -> Result<(), NoMemory> {
    if is_certified(finding) {
        put(
            text,
            "Each node that a frame is for took it up exactly once, and no other node took it up.",
        )?;
    }
    for line in lines {
        put_escaped_octets(alloc, text, line.as_slice())?;
        put(text, " ")?;
    }
    Ok(())
}

/// Puts the verdict last: the last line of the report, and what it means.
fn put_verdict(
    alloc: Global,
    text: &mut Vec<u8>,
    finding: Finding,
    line: &str,
    lines: &[Vec<u8>],
) -> Result<(), NoMemory> {
    let (class, sign) = if is_certified(finding) {
        ("good", "✓ ")
    } else {
        ("bad", "! ")
    };
    put(text, "<div class=\"verdict ")?;
    put(text, class)?;
    put(text, "\"><b>")?;
    put(text, sign)?;
    put_escaped(text, line)?;
    put(text, "</b><p>")?;
    put_meaning(alloc, text, finding, lines)?;
    put(text, "</p></div>")
}

/// Puts how many copies are shown last, where some of the run's are left out.
fn put_left_out(text: &mut Vec<u8>, shown: usize, all: usize) -> Result<(), NoMemory> {
    if shown >= all {
        return Ok(());
    }
    put(text, "<p class=\"note\">")?;
    put_grouped(text, shown as u64)?;
    put(text, " of ")?;
    put_grouped(text, all as u64)?;
    put(
        text,
        " copies are shown: those of --send, --from and --until. Counters and tables tell of what is shown; the report is of the whole run.</p>\n",
    )
}

/// How many copies a run has.
fn copies_of<const C: usize>(closed: &Closed<C>) -> usize {
    let mut copies = 0usize;
    for link in 0..closed.topology().links().len() {
        copies = copies.saturating_add(closed.rows_at(link).len());
    }
    copies
}

/// What is told at the head of a page beside the run itself.
#[derive(Clone, Copy)]
pub(crate) struct Head<'a> {
    pub(crate) title: &'a str,
    pub(crate) finding: Finding,
    /// The last line of the report.
    pub(crate) last: &'a str,
    /// What a doubt means, in sentences.
    pub(crate) explained: &'a [Vec<u8>],
}

/// Puts the head of a page last.
pub(crate) fn put_head<const C: usize>(
    alloc: Global,
    text: &mut Vec<u8>,
    closed: &Closed<C>,
    arrows: &[Arrow],
    sends: usize,
    head: Head<'_>,
) -> Result<(), NoMemory> {
    put(
        text,
        "<a class=\"skip\" href=\"#list\">To the sends</a>\n<header><div><p class=\"kind\">HSR run</p><h1>",
    )?;
    put_escaped(text, head.title)?;
    put(text, "</h1><p class=\"facts\">")?;
    put_facts(text, closed, arrows, sends)?;
    put(text, "</p></div>\n")?;
    put_verdict(alloc, text, head.finding, head.last, head.explained)?;
    put(text, "</header>\n")?;
    put_left_out(text, arrows.len(), copies_of(closed))?;
    put(
        text,
        "<noscript><p class=\"note\">Scripts are off: the network, the list of sends and the report stand below, and nothing moves.</p></noscript>\n",
    )
}
