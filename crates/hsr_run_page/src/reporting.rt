//! The report of a run in a page: its lines, each with what it means.
//!
//! No contract tells what stands here; each text is escaped. The lines are those of the report, whose contract tells them.
use crate::facts::put_many;
use hsr_frame::NoMemory;
use hsr_page::put_escaped;
use hsr_text::put;

/// How many lines of sends that aren't complete are shown; of more it says how many.
const SHOWN: usize = 200;

/// The first word of a line.
fn kind_of(line: &str) -> &str {
    match line.split_once(' ') {
        Some((word, _)) => word,
        None => line,
    }
}

/// What a line of a report means, by its first word.
fn meaning_of(kind: &str) -> &'static str {
    match kind {
        "bench" =>
            "How many frames a table remembers, and how many nodes and links the network has.",
        "node" =>
            "What a node sent, took up, sent on, dropped as second copies, got back, and dropped else.",
        "link" => "Copies put on a link, taken at its other end, and lost.",
        "send" =>
            "A send that is not complete: who missed it, took it up twice, or took it up though it was for others.",
        "unlinked" => "A port on a ring without a link: a chain has no second way.",
        "nobody" => "A send that no node here is for.",
        "deliveries" =>
            "How many sends there are, and how many of them reached each node that they are for, once.",
        "needed" =>
            "How many entries of a table this run needed, and which entry of which node was the first to need as many.",
        "budget" =>
            "How many entries are enough in whatever order the copies move, where each comes in less than 400 ms.",
        "certified" =>
            "Each node that a frame is for took it up exactly once, and no other node took it up.",
        "doubt" => "Why the run isn't certified: the head of the page says what that means.",
        _ => "",
    }
}

/// Which lines of a report stand together.
#[derive(Clone, Copy)]
enum Part {
    /// What is said of the whole run.
    Whole,
    /// Those of sends that aren't complete.
    Sends,
    /// Those of nodes and links, which are folded away.
    Counters,
}

/// Whether a line is of a part.
fn is_of(part: Part, line: &str) -> bool {
    let kind = kind_of(line);
    match part {
        Part::Whole => !line.is_empty() && !matches!(kind, "node" | "link" | "send"),
        Part::Sends => kind == "send",
        Part::Counters => matches!(kind, "node" | "link"),
    }
}

/// Puts a line of a report last, with what it means.
fn put_line(text: &mut Vec<u8>, line: &str) -> Result<(), NoMemory> {
    put(text, "<dt>")?;
    put_escaped(text, line)?;
    put(text, "</dt><dd>")?;
    put(text, meaning_of(kind_of(line)))?;
    put(text, "</dd>\n")
}

/// Puts the lines of a part of a report last.
fn put_lines(text: &mut Vec<u8>, report: &str, part: Part) -> Result<(), NoMemory> {
    for line in report.split('\n') {
        if is_of(part, line) {
            put_line(text, line)?;
        }
    }
    Ok(())
}

/// How many lines a part of a report has.
fn count_of(report: &str, part: Part) -> usize {
    let mut count = 0usize;
    for line in report.split('\n') {
        if is_of(part, line) {
            count = count.saturating_add(1);
        }
    }
    count
}

/// Puts the first lines of sends that aren't complete last.
fn put_lacking_lines(text: &mut Vec<u8>, report: &str) -> Result<(), NoMemory> {
    let mut shown = 0usize;
    for line in report.split('\n') {
        if is_of(Part::Sends, line) && shown < SHOWN {
            shown = shown.saturating_add(1);
            put(text, "<li>")?;
            put_escaped(text, line)?;
            put(text, "</li>\n")?;
        }
    }
    Ok(())
}

/// Puts the lines of sends that aren't complete last, folded away; nothing where there are none.
fn put_lacking(text: &mut Vec<u8>, report: &str) -> Result<(), NoMemory> {
    let lacking = count_of(report, Part::Sends);
    if lacking == 0 {
        return Ok(());
    }
    put(text, "<dt>send ..</dt><dd>")?;
    put_many(text, lacking, "send is", "sends are")?;
    put(
        text,
        " not complete: who missed them stands in the list.<details><summary>",
    )?;
    put_many(text, lacking, "line", "lines")?;
    put(text, "</summary><ul class=\"mono\">\n")?;
    put_lacking_lines(text, report)?;
    if lacking > SHOWN {
        put(text, "<li>and ")?;
        put_many(text, lacking - SHOWN, "more", "more")?;
        put(text, "</li>\n")?;
    }
    put(text, "</ul></details></dd>\n")
}

/// Puts the card of a report last.
pub(crate) fn put_report(text: &mut Vec<u8>, report: &str) -> Result<(), NoMemory> {
    put(
        text,
        "<section class=\"card report\"><h2>Report</h2><p class=\"hint\">What hsr_bench audit --network --deliveries --needed --budget says of this run.</p><dl>\n",
    )?;
    put_lines(text, report, Part::Whole)?;
    put_lacking(text, report)?;
    put(text, "</dl><details><summary>Counters of nodes and links, ")?;
    put_many(text, count_of(report, Part::Counters), "line", "lines")?;
    put(text, "</summary><dl>\n")?;
    put_lines(text, report, Part::Counters)?;
    put(text, "</dl></details></section>\n")
}
