//! Each link and each node off, one by one: who is cut off from whom, and what came of each run.
//!
//! No contract tells what stands here; each text is escaped.
use crate::facts::{CaseRow, Facts, OutageRow};
use crate::head::{bare, is_point, is_within, points};
use crate::pieces::{
    put_heading, put_many, put_name, put_number_cell, put_off_row, put_rate, put_table,
    put_table_end, put_time, put_word_cell,
};
use hsr_frame::NoMemory;
use hsr_node::Place;
use hsr_page::{put_escaped_octets, put_grouped};
use hsr_text::put;
use std::alloc::Global;

/// How many rows a table has at most that also lists what misses nothing. A reader of more looks for what misses something.
const ROWS: usize = 26;

/// How many columns the matrix has at most: as many as stand side by side on a sheet of paper, with the faults before them.
const NODES: usize = 24;

// ---- who is cut off

/// The nodes that have a column: frames are for all but QuadBoxes. None where they are too many for a sheet of paper.
fn columns_of(alloc: Global, places: &[Place]) -> Result<Vec<usize>, NoMemory> {
    let mut columns = Vec::new(alloc);
    for (node, place) in places.iter().enumerate() {
        if !matches!(place, Place::QuadBox) {
            columns.push(node)?;
        }
    }
    if columns.len() > NODES {
        columns.clear();
    }
    Ok(columns)
}

/// Puts the head of the matrix last.
fn put_matrix_head(text: &mut Vec<u8>, names: &[&str], columns: &[usize]) -> Result<(), NoMemory> {
    put(
        text,
        "<div class=\"wide-table\"><table class=\"matrix\"><thead><tr><th scope=\"col\">off</th>",
    )?;
    for node in columns {
        put(text, "<th scope=\"col\">")?;
        put_name(text, names, *node)?;
        put(text, "</th>")?;
    }
    put(
        text,
        "<th scope=\"col\">who is cut off from whom</th></tr></thead><tbody>\n",
    )
}

/// Puts how many sends are cut off from a node last.
fn put_missed(text: &mut Vec<u8>, row: &OutageRow, node: usize) -> Result<(), NoMemory> {
    if row.node == Some(node) {
        return put(text, "<td class=\"off\">off</td>");
    }
    match row.missed.get(node).copied().unwrap_or(0) {
        0 => put(text, "<td>·</td>"),
        missed => {
            put(text, "<td class=\"miss\">")?;
            put_grouped(text, missed as u64)?;
            put(text, "</td>")
        }
    }
}

/// Puts what a fault cuts off last.
fn put_outage(
    alloc: Global,
    text: &mut Vec<u8>,
    columns: &[usize],
    row: &OutageRow,
) -> Result<(), NoMemory> {
    put_off_row(alloc, text, row.off.as_slice(), row.link, row.node)?;
    for node in columns {
        put_missed(text, row, *node)?;
    }
    put(text, "<td>")?;
    if row.sends == 0 {
        put(text, "nothing is cut off")?;
    } else {
        put_escaped_octets(alloc, text, row.cuts.as_slice())?;
    }
    put(text, "</td></tr>\n")
}

/// How many of the faults cut something off.
fn cutting(rows: &[OutageRow]) -> usize {
    rows.iter().filter(|row| row.sends != 0).count()
}

/// Puts the matrix last: all faults where they are few, else those that cut something off.
fn put_matrix(alloc: Global, text: &mut Vec<u8>, facts: Facts<'_>) -> Result<(), NoMemory> {
    let columns = columns_of(alloc, facts.places)?;
    let are_few = facts.outages.len() <= ROWS;
    put_matrix_head(text, facts.names, columns.as_slice())?;
    for row in facts.outages {
        if are_few || row.sends != 0 {
            put_outage(alloc, text, columns.as_slice(), row)?;
        }
    }
    put_table_end(text)
}

/// Puts who is cut off last, where one link or node is off from the start.
fn put_outages(alloc: Global, text: &mut Vec<u8>, facts: Facts<'_>) -> Result<(), NoMemory> {
    put_heading(
        text,
        5,
        "Each link and each node off: who is cut off",
        "hsr_plan certify --sweep, of the plan without its events",
    )?;
    put_matrix(alloc, text, facts)?;
    put(text, "<p>")?;
    put_grouped(text, cutting(facts.outages) as u64)?;
    put(text, " of ")?;
    put_many(text, facts.outages.len(), "fault cuts", "faults cut")?;
    put(
        text,
        " something off.</p><p class=\"hint\">A number is how many sends are cut off from that node, in some order of their copies, while this is off from the start; a dot is none. The plan's own events are left out here. What a node that is off would send isn't counted.</p></section>\n",
    )
}

// ---- what came of each run

const COLUMNS: [(&str, &str); 10] = [
    ("", "off"),
    (" class=\"r\"", "sends"),
    (" class=\"r\"", "complete"),
    (" class=\"r\"", "missed"),
    (" class=\"r\"", "twice"),
    (" class=\"r\"", "needed"),
    (" class=\"r\"", "budget"),
    (" class=\"r\"", "longest"),
    (" class=\"r\"", "most load"),
    ("", "found"),
];

/// The class of a cell whose number is over its limit, or within it.
fn class_of(limit: Option<u64>, number: u64) -> &'static str {
    if is_within(limit, number) {
        "<td class=\"r\">"
    } else {
        "<td class=\"r wrong\">"
    }
}

/// Puts what was counted of a run last.
fn put_counts(text: &mut Vec<u8>, case: &CaseRow) -> Result<(), NoMemory> {
    let tally = case.counts.tally;
    put_number_cell(text, tally.sends as u64)?;
    put(
        text,
        if tally.complete == tally.sends {
            "<td class=\"r\">"
        } else {
            "<td class=\"r wrong\">"
        },
    )?;
    put_grouped(text, tally.complete as u64)?;
    put(text, "</td>")?;
    put_number_cell(text, case.counts.missed as u64)?;
    put_number_cell(text, case.counts.twice as u64)?;
    put_number_cell(text, tally.needed as u64)
}

/// Puts the longest latency and the most load of a run last.
fn put_limited(text: &mut Vec<u8>, facts: Facts<'_>, case: &CaseRow) -> Result<(), NoMemory> {
    put(
        text,
        class_of(facts.limit_latency, case.counts.tally.latency),
    )?;
    put_time(text, case.counts.tally.latency)?;
    put(text, "</td>")?;
    put(text, class_of(facts.limit_load, case.counts.tally.load))?;
    put_rate(text, case.counts.tally.load)?;
    put(text, "</td>")
}

/// Puts what came of a run last.
fn put_case(
    alloc: Global,
    text: &mut Vec<u8>,
    facts: Facts<'_>,
    case: &CaseRow,
) -> Result<(), NoMemory> {
    put_off_row(alloc, text, case.off.as_slice(), case.link, case.node)?;
    put_counts(text, case)?;
    put_word_cell(alloc, text, " class=\"r\"", case.budget.as_slice())?;
    put_limited(text, facts, case)?;
    put_word_cell(alloc, text, "", case.found.as_slice())?;
    put(text, "</tr>\n")
}

/// Whether a run is listed where they are many: something isn't complete, or nothing is off.
fn is_told(case: &CaseRow) -> bool {
    case.counts.tally.complete != case.counts.tally.sends
        || (case.link.is_none() && case.node.is_none())
}

/// Puts the runs of a sweep last: all where they are few, else those in which something isn't complete, and the undisturbed one.
fn put_cases(
    alloc: Global,
    text: &mut Vec<u8>,
    facts: Facts<'_>,
    cases: &[CaseRow],
) -> Result<(), NoMemory> {
    let are_few = cases.len() <= ROWS + 1;
    put_table(text, "list", COLUMNS.as_slice())?;
    for case in cases {
        if are_few || is_told(case) {
            put_case(alloc, text, facts, case)?;
        }
    }
    put_table_end(text)
}

/// Puts the single points of failure last.
fn put_points(alloc: Global, text: &mut Vec<u8>, cases: &[CaseRow]) -> Result<(), NoMemory> {
    let tried = cases.len().saturating_sub(1);
    let points = points(cases);
    put(text, "<p>")?;
    if points == 0 {
        put(
            text,
            "No single point of failure: all sends are complete with each one of ",
        )?;
        put_grouped(text, tried as u64)?;
        return put(text, " off.</p>\n");
    }
    put(text, "<b>Single points of failure:</b> ")?;
    let mut mark = "";
    for case in cases {
        if is_point(case) {
            put(text, mark)?;
            put_escaped_octets(alloc, text, case.off.as_slice())?;
            mark = "; ";
        }
    }
    put(text, ". ")?;
    put_grouped(text, points as u64)?;
    put(text, " of ")?;
    put_grouped(text, tried as u64)?;
    put(text, ".</p>\n")
}

/// Puts from when on things are off last.
fn put_since(text: &mut Vec<u8>, at: u64) -> Result<(), NoMemory> {
    put(text, "<p class=\"hint\">Each of these is off from ")?;
    put_time(text, at)?;
    put(
        text,
        " on. A send is complete if each node that needs it and is on took it up once. Most load is in Mbit/s, of the worst millisecond of a direction.</p></section>\n",
    )
}

/// Puts the sweep without the plan's own events last, where it has some.
fn put_bare(alloc: Global, text: &mut Vec<u8>, facts: Facts<'_>) -> Result<(), NoMemory> {
    if facts.bare_cases.is_empty() {
        return Ok(());
    }
    put_heading(
        text,
        6,
        "Each link and each node off: what came of each run",
        "hsr_plan sweep --without-events",
    )?;
    put_cases(alloc, text, facts, facts.bare_cases)?;
    put_points(alloc, text, facts.bare_cases)?;
    put_since(text, facts.at)
}

/// Puts the sweep of the plan last.
fn put_own(alloc: Global, text: &mut Vec<u8>, facts: Facts<'_>) -> Result<(), NoMemory> {
    let (number, heading) = if facts.bare_cases.is_empty() {
        (6, "Each link and each node off: what came of each run")
    } else {
        (
            7,
            "Each link and each node off, beside the plan's own events",
        )
    };
    put_heading(text, number, heading, "hsr_plan sweep")?;
    put_cases(alloc, text, facts, facts.cases)?;
    put_points(alloc, text, facts.cases)?;
    put_since(text, facts.at)
}

/// Puts what comes of each link and each node off last.
pub(crate) fn put_sweep(
    alloc: Global,
    text: &mut Vec<u8>,
    facts: Facts<'_>,
) -> Result<(), NoMemory> {
    put_outages(alloc, text, facts)?;
    put_bare(alloc, text, facts)?;
    put_own(alloc, text, facts)
}
