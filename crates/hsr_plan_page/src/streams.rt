//! Streams, and what came of them.
//!
//! No contract tells what stands here; each text is escaped.
use crate::facts::{Facts, StreamRow};
use crate::pieces::{
    put_heading, put_names, put_number_cell, put_row, put_table, put_table_end, put_time,
    put_word_cell,
};
use hsr_frame::NoMemory;
use hsr_page::{put_escaped, put_escaped_octets, put_grouped};
use hsr_text::put;
use std::alloc::Global;

const COLUMNS: [(&str, &str); 6] = [
    ("", "stream"),
    ("", "from, to"),
    ("", "what"),
    (" class=\"r\"", "sends"),
    ("", "complete"),
    (" class=\"r\"", "longest"),
];

/// Puts what came of a stream last.
fn put_got(text: &mut Vec<u8>, names: &[&str], row: &StreamRow) -> Result<(), NoMemory> {
    if row.complete == row.sends {
        return put(text, "<td class=\"ok\">✓ all</td>");
    }
    put(text, "<td class=\"wrong\">✗ ")?;
    put_grouped(text, row.complete as u64)?;
    put(text, " of ")?;
    put_grouped(text, row.sends as u64)?;
    if !row.missing.is_empty() {
        put(text, ", missed by ")?;
        put_names(text, names, row.missing.as_slice())?;
    }
    put(text, "</td>")
}

/// Puts the longest that a send of a stream took last.
fn put_longest(text: &mut Vec<u8>, latency: Option<u64>) -> Result<(), NoMemory> {
    put(text, "<td class=\"r\">")?;
    match latency {
        Some(time) => put_time(text, time)?,
        None => put(text, "–")?,
    }
    put(text, "</td>")
}

/// Puts a stream last.
fn put_stream(
    alloc: Global,
    text: &mut Vec<u8>,
    names: &[&str],
    row: &StreamRow,
) -> Result<(), NoMemory> {
    put_row(text, &[], row.senders.as_slice())?;
    put(text, "<th scope=\"row\">")?;
    put_escaped_octets(alloc, text, row.name.as_slice())?;
    put(text, "</th><td>")?;
    put_escaped_octets(alloc, text, row.from.as_slice())?;
    put(text, " → ")?;
    put_escaped_octets(alloc, text, row.to.as_slice())?;
    put(text, "</td>")?;
    put_word_cell(alloc, text, "", row.what.as_slice())?;
    put_number_cell(text, row.sends as u64)?;
    put_got(text, names, row)?;
    put_longest(text, row.latency)?;
    put(text, "</tr>\n")
}

/// Puts all streams last.
pub(crate) fn put_streams(
    alloc: Global,
    text: &mut Vec<u8>,
    facts: Facts<'_>,
) -> Result<(), NoMemory> {
    put_heading(
        text,
        2,
        "Streams, and what came of them",
        "hsr_plan run --deliveries --latency",
    )?;
    put_table(text, "list streams", COLUMNS.as_slice())?;
    for row in facts.streams {
        put_stream(alloc, text, facts.names, row)?;
    }
    put_table_end(text)?;
    put(
        text,
        "<p class=\"hint\">A send is complete if each node that needs it and is on took it up once. Longest: from the send to where a copy was taken up. Copies move so: ",
    )?;
    put_escaped(text, facts.moves)?;
    put(text, ".</p></section>\n")
}
