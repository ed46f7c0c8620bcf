//! Tables, events, doubts in words, and what the paper names.
//!
//! No contract tells what stands here; each text is escaped.
use crate::facts::{EventRow, Facts, Verdict};
use crate::head::put_meaning;
use crate::pieces::{put_heading, put_many, put_time, put_word_cell};
use hsr_frame::NoMemory;
use hsr_page::{put_escaped, put_grouped};
use hsr_text::put;
use std::alloc::Global;

/// Puts what tables need last.
fn put_tables(text: &mut Vec<u8>, facts: Facts<'_>, number: u64) -> Result<(), NoMemory> {
    put_heading(text, number, "Tables", "hsr_plan run --needed --budget")?;
    put(text, "<p>This run needed ")?;
    put_many(text, facts.tally.needed, "entry", "entries")?;
    put(
        text,
        " of a duplicate table. By the budget, which holds in whatever order copies move: ",
    )?;
    put_escaped(text, facts.budget)?;
    put(text, ". The tables of these runs have ")?;
    put_grouped(text, facts.table as u64)?;
    put(text, ".</p></section>\n")
}

/// Puts an event last.
fn put_event(alloc: Global, text: &mut Vec<u8>, event: &EventRow) -> Result<(), NoMemory> {
    put(text, "<tr><td class=\"r\">")?;
    put_time(text, event.at)?;
    put(text, "</td>")?;
    put_word_cell(alloc, text, "", event.what.as_slice())?;
    put(text, "</tr>\n")
}

/// Puts the events of the plan last.
fn put_events(
    alloc: Global,
    text: &mut Vec<u8>,
    events: &[EventRow],
    number: u64,
) -> Result<(), NoMemory> {
    put_heading(text, number, "Events of the plan", "hsr_plan")?;
    if events.is_empty() {
        return put(text, "<p>None: nothing fails in this plan.</p></section>\n");
    }
    put(
        text,
        "<table class=\"list\"><thead><tr><th scope=\"col\" class=\"r\">at</th><th scope=\"col\">event</th></tr></thead><tbody>\n",
    )?;
    for event in events {
        put_event(alloc, text, event)?;
    }
    put(text, "</tbody></table></section>\n")
}

/// Puts a verdict with what it means last.
fn put_verdict(
    alloc: Global,
    text: &mut Vec<u8>,
    of: &str,
    verdict: Verdict<'_>,
) -> Result<(), NoMemory> {
    put(text, "<li><b class=\"sum\">")?;
    put_escaped(text, verdict.line)?;
    put(text, "</b> ")?;
    put(text, of)?;
    put_meaning(alloc, text, verdict.meaning)?;
    put(text, "</li>\n")
}

/// Puts the bound within which copies are at their ends last, if the verdict has one.
fn put_within(text: &mut Vec<u8>, within: Option<u64>) -> Result<(), NoMemory> {
    match within {
        None => Ok(()),
        Some(within) => {
            put(
                text,
                "<li>The verdict in any order is of those orders alone in which each copy is at its end less than ",
            )?;
            put_time(text, within)?;
            put(text, " after its send.</li>\n")
        }
    }
}

/// Puts both verdicts in words last, and what neither covers.
fn put_doubts(
    alloc: Global,
    text: &mut Vec<u8>,
    facts: Facts<'_>,
    number: u64,
) -> Result<(), NoMemory> {
    put_heading(
        text,
        number,
        "Verdicts in words",
        "hsr_plan certify · hsr_plan run --network --explain",
    )?;
    put(text, "<ul>\n")?;
    put_verdict(alloc, text, "In any order. ", facts.in_any_order)?;
    put_verdict(alloc, text, "Of the run. ", facts.in_run)?;
    put_within(text, facts.within)?;
    put(
        text,
        "<li>No verdict covers frames to one address of a Station, supervision of a Station at a Station, or whether devices behave as the standard says.</li>\n</ul></section>\n",
    )
}

/// Puts what the paper names last, and lines for those who sign it.
fn put_names(text: &mut Vec<u8>, facts: Facts<'_>, number: u64) -> Result<(), NoMemory> {
    put_heading(text, number, "What this paper names", "sha256sum")?;
    put(
        text,
        "<table class=\"list\"><tbody><tr><th scope=\"row\">plan</th><td class=\"r\">",
    )?;
    put_grouped(text, facts.octets as u64)?;
    put(text, " octets</td><td class=\"sum\">")?;
    put_escaped(text, facts.sum)?;
    put(
        text,
        "</td></tr>\n<tr><th scope=\"row\">made by</th><td></td><td>hsr_plan ",
    )?;
    put_escaped(text, facts.version)?;
    put(
        text,
        "</td></tr></tbody></table>\n<p class=\"hint\">The sum is SHA-256. Who has the plan gets each number again by the command beside its title.</p>\n",
    )?;
    put(
        text,
        "<div class=\"sign\"><div>planned: name, date</div><div>checked: name, date</div><div>accepted: name, date</div></div></section>\n",
    )
}

/// Puts what ends the page last.
pub(crate) fn put_ends(
    alloc: Global,
    text: &mut Vec<u8>,
    facts: Facts<'_>,
) -> Result<(), NoMemory> {
    // A plan with events has one part more before these.
    let first = if facts.bare_cases.is_empty() { 7 } else { 8 };
    put_tables(text, facts, first)?;
    put_events(alloc, text, facts.events, first + 1)?;
    put_doubts(alloc, text, facts, first + 2)?;
    put_names(text, facts, first + 3)
}
