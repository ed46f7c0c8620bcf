//! Rows, cells and lists of names.
use hsr_frame::NoMemory;
use hsr_page::{put_escaped, put_escaped_octets, put_grouped, put_moment};
use hsr_text::{put, put_number};
use std::alloc::Global;

/// The name of a node, by its number; an empty one where there is none.
pub(crate) fn name_of<'a>(names: &[&'a str], node: usize) -> &'a str {
    names.get(node).copied().unwrap_or("")
}

/// Puts the name of a node last.
pub(crate) fn put_name(text: &mut Vec<u8>, names: &[&str], node: usize) -> Result<(), NoMemory> {
    put_escaped(text, name_of(names, node))
}

/// Puts the names of nodes last, with commas between.
pub(crate) fn put_names(
    text: &mut Vec<u8>,
    names: &[&str],
    nodes: &[usize],
) -> Result<(), NoMemory> {
    for (at, node) in nodes.iter().enumerate() {
        if at > 0 {
            put(text, ", ")?;
        }
        put_name(text, names, *node)?;
    }
    Ok(())
}

/// Puts numbers last, with commas between, as an attribute lists them.
pub(crate) fn put_listed(text: &mut Vec<u8>, numbers: &[usize]) -> Result<(), NoMemory> {
    for (at, number) in numbers.iter().enumerate() {
        if at > 0 {
            put(text, ",")?;
        }
        put_number(text, *number as u64)?;
    }
    Ok(())
}

/// Puts a number last with what it counts, in the singular where it is one.
pub(crate) fn put_many(
    text: &mut Vec<u8>,
    number: usize,
    one: &str,
    many: &str,
) -> Result<(), NoMemory> {
    put_grouped(text, number as u64)?;
    put(text, " ")?;
    put(text, if number == 1 { one } else { many })
}

/// Puts a length of time last: in microseconds below one millisecond, else in milliseconds.
pub(crate) fn put_time(text: &mut Vec<u8>, us: u64) -> Result<(), NoMemory> {
    if us < 1000 {
        put_grouped(text, us)?;
        put(text, "\u{202F}µs")
    } else {
        put_moment(text, us)
    }
}

/// Puts kbit/s as Mbit/s last, with three digits behind the point.
pub(crate) fn put_rate(text: &mut Vec<u8>, kbit: u64) -> Result<(), NoMemory> {
    put_grouped(text, kbit / 1000)?;
    put(text, ".")?;
    put_number(text, kbit / 100 % 10)?;
    put_number(text, kbit / 10 % 10)?;
    put_number(text, kbit % 10)
}

/// Puts the begin of a part last: its number, its heading, and the command that prints its numbers.
pub(crate) fn put_heading(
    text: &mut Vec<u8>,
    number: u64,
    heading: &str,
    command: &str,
) -> Result<(), NoMemory> {
    put(text, "<section><h2>")?;
    put_number(text, number)?;
    put(text, " ")?;
    put(text, heading)?;
    put(text, "<span class=\"src\">")?;
    put(text, command)?;
    put(text, "</span></h2>\n")
}

/// Puts the begin of a row last that has these links and nodes marked.
pub(crate) fn put_row(
    text: &mut Vec<u8>,
    links: &[usize],
    nodes: &[usize],
) -> Result<(), NoMemory> {
    put(text, "<tr data-links=\"")?;
    put_listed(text, links)?;
    put(text, "\" data-nodes=\"")?;
    put_listed(text, nodes)?;
    put(text, "\">")
}

/// Puts the begin of a row last that has this link or this node marked, with a button for what is off; none where nothing is.
pub(crate) fn put_off_row(
    alloc: Global,
    text: &mut Vec<u8>,
    off: &[u8],
    link: Option<usize>,
    node: Option<usize>,
) -> Result<(), NoMemory> {
    let links = one_if(alloc, link)?;
    let nodes = one_if(alloc, node)?;
    put_row(text, links.as_slice(), nodes.as_slice())?;
    put(text, "<th scope=\"row\">")?;
    if link.is_none() && node.is_none() {
        put_escaped_octets(alloc, text, off)?;
    } else {
        put(
            text,
            "<button type=\"button\" class=\"show\" aria-pressed=\"false\">",
        )?;
        put_escaped_octets(alloc, text, off)?;
        put(text, "</button>")?;
    }
    put(text, "</th>")
}

/// A list of a number, if there is one.
fn one_if(alloc: Global, number: Option<usize>) -> Result<Vec<usize>, NoMemory> {
    let mut list = Vec::new(alloc);
    if let Some(number) = number {
        list.push(number)?;
    }
    Ok(list)
}

/// Puts a cell with a number last.
pub(crate) fn put_number_cell(text: &mut Vec<u8>, number: u64) -> Result<(), NoMemory> {
    put(text, "<td class=\"r\">")?;
    put_grouped(text, number)?;
    put(text, "</td>")
}

/// Puts a cell with words last, of this class if it isn't empty.
pub(crate) fn put_word_cell(
    alloc: Global,
    text: &mut Vec<u8>,
    class: &str,
    words: &[u8],
) -> Result<(), NoMemory> {
    put(text, "<td")?;
    put(text, class)?;
    put(text, ">")?;
    put_escaped_octets(alloc, text, words)?;
    put(text, "</td>")
}

/// Puts the head of a table last: its class and the headings of its columns, each with its class.
pub(crate) fn put_table(
    text: &mut Vec<u8>,
    class: &str,
    columns: &[(&str, &str)],
) -> Result<(), NoMemory> {
    put(text, "<div class=\"wide-table\"><table class=\"")?;
    put(text, class)?;
    put(text, "\"><thead><tr>")?;
    for (class, heading) in columns {
        put(text, "<th scope=\"col\"")?;
        put(text, class)?;
        put(text, ">")?;
        put(text, heading)?;
        put(text, "</th>")?;
    }
    put(text, "</tr></thead><tbody>\n")
}

/// Puts the end of a table last.
pub(crate) fn put_table_end(text: &mut Vec<u8>) -> Result<(), NoMemory> {
    put(text, "</tbody></table></div>\n")
}
