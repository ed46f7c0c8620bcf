//! The title, the verdict, and the numbers that come first.
//!
//! No contract tells what stands here; each text is escaped.
use crate::facts::{CaseRow, Facts, Verdict};
use crate::pieces::{put_many, put_rate, put_time};
use hsr_frame::NoMemory;
use hsr_page::{put_escaped, put_escaped_octets, put_grouped};
use hsr_text::put;
use std::alloc::Global;

/// How many digits of the sum stand in the head: enough to tell two papers apart at a glance.
pub(crate) const FRONT: usize = 16;

/// Puts what the plan is last: the date, its size, and the begin of its sum.
fn put_facts(text: &mut Vec<u8>, facts: Facts<'_>) -> Result<(), NoMemory> {
    put_escaped(text, facts.date.unwrap_or("no date handed in"))?;
    put(text, " · ")?;
    put_many(text, facts.places.len(), "node", "nodes")?;
    put(text, " · ")?;
    put_many(text, facts.links.len(), "link", "links")?;
    put(text, " · ")?;
    put_many(text, facts.tally.sends, "send", "sends")?;
    put(text, " · plan sum ")?;
    put_escaped(text, facts.sum.get(..FRONT).unwrap_or(facts.sum))
}

/// Puts what a verdict means last.
pub(crate) fn put_meaning(
    alloc: Global,
    text: &mut Vec<u8>,
    lines: &[Vec<u8>],
) -> Result<(), NoMemory> {
    for line in lines {
        put_escaped_octets(alloc, text, line.as_slice())?;
        put(text, " ")?;
    }
    Ok(())
}

/// Puts the verdict in any order last, which the page leads with.
fn put_verdict(alloc: Global, text: &mut Vec<u8>, verdict: Verdict<'_>) -> Result<(), NoMemory> {
    let (class, sign) = if verdict.is_certified {
        ("good", "✓ ")
    } else {
        ("bad", "! ")
    };
    put(text, "<div class=\"verdict ")?;
    put(text, class)?;
    put(text, "\"><b>")?;
    put(text, sign)?;
    put_escaped(text, verdict.line)?;
    put(text, "</b><p>")?;
    put_meaning(alloc, text, verdict.meaning)?;
    put(text, "</p></div>\n")
}

/// How a number is told: as good, as bad, or as neither.
#[derive(Clone, Copy)]
enum Mark {
    Good,
    Bad,
    Plain,
}

/// The mark of what is so, or isn't.
fn mark_of(is_good: bool) -> Mark {
    if is_good { Mark::Good } else { Mark::Bad }
}

/// Puts the begin of a tile last.
fn put_tile(text: &mut Vec<u8>, mark: Mark) -> Result<(), NoMemory> {
    let class = match mark {
        Mark::Good => "tile good",
        Mark::Bad => "tile bad",
        Mark::Plain => "tile",
    };
    put(text, "<div class=\"")?;
    put(text, class)?;
    put(text, "\"><b>")
}

/// Puts what a tile's number is last, and the command that prints it.
fn put_tile_end(text: &mut Vec<u8>, what: &str, command: &str) -> Result<(), NoMemory> {
    put(text, "</b>")?;
    put(text, what)?;
    put(text, "<span class=\"src\">")?;
    put(text, command)?;
    put(text, "</span></div>\n")
}

/// Whether a number is within its limit, if there is one.
pub(crate) fn is_within(limit: Option<u64>, number: u64) -> bool {
    match limit {
        None => true,
        Some(limit) => number <= limit,
    }
}

/// Whether a link or a node alone is off in a run in which a send isn't complete.
pub(crate) fn is_point(case: &CaseRow) -> bool {
    (case.link.is_some() || case.node.is_some())
        && case.counts.tally.complete != case.counts.tally.sends
}

/// How many links and nodes are single points of failure.
pub(crate) fn points(cases: &[CaseRow]) -> usize {
    cases.iter().filter(|case| is_point(case)).count()
}

/// The sweep that tells single points of failure: that without the plan's own events, if it has some.
pub(crate) fn bare<'a>(facts: Facts<'a>) -> &'a [CaseRow] {
    if facts.bare_cases.is_empty() {
        facts.cases
    } else {
        facts.bare_cases
    }
}

/// Puts what came of the run last.
fn put_run_tiles(text: &mut Vec<u8>, facts: Facts<'_>) -> Result<(), NoMemory> {
    let tally = facts.tally;
    put_tile(text, mark_of(facts.in_run.is_certified))?;
    put_escaped(text, facts.in_run.line)?;
    put_tile_end(
        text,
        "the run that the plan means",
        "hsr_plan run --network",
    )?;
    put_tile(text, mark_of(tally.complete == tally.sends))?;
    put_grouped(text, tally.complete as u64)?;
    put(text, " of ")?;
    put_grouped(text, tally.sends as u64)?;
    put_tile_end(text, "sends are complete", "hsr_plan sweep, undisturbed")
}

/// Puts how many links and nodes are single points of failure last.
fn put_points_tile(text: &mut Vec<u8>, facts: Facts<'_>) -> Result<(), NoMemory> {
    let cases = bare(facts);
    let points = points(cases);
    put_tile(text, mark_of(points == 0))?;
    if points == 0 {
        put(text, "none")?;
    } else {
        put_grouped(text, points as u64)?;
    }
    let what = if facts.bare_cases.is_empty() {
        "single points of failure"
    } else {
        "single points of failure, the plan's events left out"
    };
    let command = if facts.bare_cases.is_empty() {
        "hsr_plan sweep"
    } else {
        "hsr_plan sweep --without-events"
    };
    put_tile_end(text, what, command)
}

/// Puts what links carry and how long sends take last.
fn put_wire_tiles(text: &mut Vec<u8>, facts: Facts<'_>) -> Result<(), NoMemory> {
    let tally = facts.tally;
    let limit = facts.limit_load.unwrap_or(facts.rate);
    put_tile(text, mark_of(tally.load <= limit))?;
    put_rate(text, tally.load)?;
    put(text, " Mbit/s")?;
    put_tile_end(
        text,
        "busiest direction of a link, in its worst millisecond",
        "hsr_plan run --load",
    )?;
    let mark = match facts.limit_latency {
        None => Mark::Plain,
        limit => mark_of(is_within(limit, tally.latency)),
    };
    put_tile(text, mark)?;
    put_time(text, tally.latency)?;
    put_tile_end(
        text,
        "longest that a send took to a receiver",
        "hsr_plan run --latency",
    )
}

/// Puts what tables need last.
fn put_table_tiles(text: &mut Vec<u8>, facts: Facts<'_>) -> Result<(), NoMemory> {
    put_tile(text, Mark::Plain)?;
    put_grouped(text, facts.tally.needed as u64)?;
    put_tile_end(
        text,
        "table entries needed in this run",
        "hsr_plan run --needed",
    )?;
    put_tile(text, Mark::Plain)?;
    put_escaped(text, facts.budget)?;
    put_tile_end(
        text,
        "entries by the budget, in any order",
        "hsr_plan run --budget",
    )
}

/// Puts the head of the page last.
pub(crate) fn put_head(text: &mut Vec<u8>, facts: Facts<'_>) -> Result<(), NoMemory> {
    put(
        text,
        "<header><div><p class=\"kind\">HSR plan, for acceptance</p><h1>",
    )?;
    put_escaped(text, facts.title)?;
    put(text, "</h1><p class=\"facts\">")?;
    put_facts(text, facts)?;
    put(text, "</p></div></header>\n")
}

/// Puts the verdict and the numbers that come first last.
pub(crate) fn put_first(
    alloc: Global,
    text: &mut Vec<u8>,
    facts: Facts<'_>,
) -> Result<(), NoMemory> {
    put_verdict(alloc, text, facts.in_any_order)?;
    put(text, "<div class=\"tiles\">\n")?;
    put_run_tiles(text, facts)?;
    put_points_tile(text, facts)?;
    put_wire_tiles(text, facts)?;
    put_table_tiles(text, facts)?;
    put(text, "</div>\n")
}
