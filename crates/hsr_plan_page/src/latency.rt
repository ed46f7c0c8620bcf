//! How long sends took to each receiver.
//!
//! No contract tells what stands here; each text is escaped.
use crate::facts::Facts;
use crate::head::is_within;
use crate::pieces::{
    put_heading, put_name, put_number_cell, put_row, put_table, put_table_end, put_time,
};
use hsr_frame::NoMemory;
use hsr_latency::{Delay, NodeLatency};
use hsr_naming::Naming;
use hsr_page::{put_escaped_octets, put_grouped};
use hsr_text::put;
use std::alloc::Global;

const COLUMNS: [(&str, &str); 4] = [
    ("", "receiver"),
    (" class=\"r\"", "taken up"),
    ("", "longest"),
    ("", "longest second copy"),
];

/// Puts a cell last with how long a send took, and which.
fn put_delay(
    alloc: Global,
    text: &mut Vec<u8>,
    naming: &Naming,
    class: &str,
    delay: Option<Delay>,
) -> Result<(), NoMemory> {
    put(text, "<td")?;
    put(text, class)?;
    put(text, ">")?;
    match delay {
        None => put(text, "–")?,
        Some(delay) => {
            put_time(text, delay.time)?;
            put(text, ", ")?;
            let mut send = Vec::new(alloc);
            naming.put_send(&mut send, delay.send)?;
            put_escaped_octets(alloc, text, send.as_slice())?;
        }
    }
    put(text, "</td>")
}

/// Puts a receiver last.
fn put_receiver(
    alloc: Global,
    text: &mut Vec<u8>,
    facts: Facts<'_>,
    latency: &NodeLatency,
) -> Result<(), NoMemory> {
    let class = if is_within(facts.limit_latency, latency.worst.time) {
        ""
    } else {
        " class=\"wrong\""
    };
    put_row(text, &[], &[latency.node])?;
    put(text, "<th scope=\"row\">")?;
    put_name(text, facts.names, latency.node)?;
    put(text, "</th>")?;
    put_number_cell(text, latency.frames as u64)?;
    put_delay(alloc, text, facts.naming, class, Some(latency.worst))?;
    put_delay(alloc, text, facts.naming, "", latency.second)?;
    put(text, "</tr>\n")
}

/// Puts the limit last, if one was asked for.
fn put_limit(text: &mut Vec<u8>, limit: Option<u64>) -> Result<(), NoMemory> {
    match limit {
        None => Ok(()),
        Some(limit) => {
            put(text, " The limit is ")?;
            put_grouped(text, limit)?;
            put(text, " µs.")
        }
    }
}

/// Puts the latency of each receiver last.
pub(crate) fn put_latency(
    alloc: Global,
    text: &mut Vec<u8>,
    facts: Facts<'_>,
) -> Result<(), NoMemory> {
    put_heading(
        text,
        4,
        "Latency to each receiver",
        "hsr_plan run --latency",
    )?;
    put_table(text, "list", COLUMNS.as_slice())?;
    for latency in facts.latencies {
        put_receiver(alloc, text, facts, latency)?;
    }
    put_table_end(text)?;
    put(
        text,
        "<p class=\"hint\">From a send to where a copy of it was taken up, by the moments of the run. A second copy is what a receiver would have had if the first were lost.",
    )?;
    put_limit(text, facts.limit_latency)?;
    put(text, "</p></section>\n")
}
