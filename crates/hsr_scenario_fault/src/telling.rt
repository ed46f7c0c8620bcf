//! The line of a fault.
ghost use Rattle.std.specs.Prelude.{IfOk};
ghost use Rattle.hsr_toml.specs.Line.{IsLine};

use crate::keys::{keys_at, table_of};
use crate::wiring::spot_of;
use crate::words::{values_of, words_of};
use hsr_frame::NoMemory;
use hsr_scenario::{Key, ScenarioFault, Spot, What};
use hsr_text::put_decimal;
use hsr_toml::{
    Source, bare, fault_line, key_in, other_key, put, put_no_toml, put_place, table_at, top_key,
};
use std::alloc::Global;
use toml::Table;

// ---- where it is

/// The offset of what a fault is about: of nodes and links that do not form a valid topology, the node or link by
/// which they don't.
fn spot_in(document: &Table, fault: &ScenarioFault) -> Spot {
    match fault.what {
        What::Topology(why) => spot_of(document, why),
        _ => fault.spot,
    }
}

/// Where the table at an offset begins.
pub(crate) fn start_of(source: Source<'_>, spot: Spot) -> usize {
    match spot {
        Spot::Top => 0,
        Spot::Node(number) => table_at(source, b"node", number).unwrap_or(0),
        Spot::Link(number) => table_at(source, b"link", number).unwrap_or(0),
        Spot::Step(number) => table_at(source, b"step", number).unwrap_or(0),
    }
}

/// The key whose value names what isn't there.
fn naming_key(table: &Table) -> &'static str {
    if table.get("ends").is_some() {
        return "ends";
    }
    if table.get("port").is_some() {
        return "port";
    }
    if table.get("node").is_some() {
        return "node";
    }
    "link"
}

/// The word that a fault is about; none where that is the whole table.
fn word_of<'a>(table: &'a Table, spot: Spot, what: &What) -> &'a str {
    match what {
        What::Unknown => other_key(table, keys_at(spot, table).keys).unwrap_or(""),
        What::WrongKind(key) | What::BadValue(key) => key.text(),
        What::NameTwice => Key::Name.text(),
        What::NoSuchName => naming_key(table),
        What::Text | What::Missing(_) | What::Topology(_) | What::NoMemory => "",
    }
}

/// The offset of a word of the table that begins at an offset, if there is one.
fn word_in(source: Source<'_>, spot: Spot, start: usize, word: &str) -> Option<usize> {
    if word.is_empty() {
        return None;
    }
    match spot {
        Spot::Top => top_key(source, word.as_bytes()),
        Spot::Node(_) | Spot::Link(_) | Spot::Step(_) => key_in(source, word.as_bytes(), start),
    }
}

/// The offset of a word of a table, or else the start of that.
fn offset_of(source: Source<'_>, spot: Spot, word: &str) -> usize {
    let start = start_of(source, spot);
    match word_in(source, spot, start, word) {
        Some(at) => at,
        None => start,
    }
}

// ---- what is wrong

/// Puts a key and what its value may be last.
fn put_values(line: &mut Vec<u8>, before: &str, key: Key) -> Result<(), NoMemory> {
    put(line, before)?;
    put(line, key.text())?;
    put(line, ": ")?;
    put(line, values_of(key))
}

/// Puts a table by its number last.
fn put_spot(line: &mut Vec<u8>, name: &str, number: usize) -> Result<(), NoMemory> {
    put(line, name)?;
    put_decimal(line, number as u64)?;
    put(line, ": ")
}

/// Puts where a fault is last, as a scenario counts it.
pub(crate) fn put_spots(line: &mut Vec<u8>, spot: Spot) -> Result<(), NoMemory> {
    match spot {
        Spot::Top => Ok(()),
        Spot::Node(number) => put_spot(line, "node ", number),
        Spot::Link(number) => put_spot(line, "link ", number),
        Spot::Step(number) => put_spot(line, "step ", number),
    }
}

/// Puts what is wrong with a table last.
fn put_what(
    line: &mut Vec<u8>,
    table: &Table,
    spot: Spot,
    what: &What,
    word: &str,
) -> Result<(), NoMemory> {
    match what {
        What::Text => put(line, "no TOML"),
        What::Missing(key) => put_values(line, "missing word ", *key),
        What::Unknown => {
            put(line, "unknown word ")?;
            put(line, word)?;
            put(line, ": ")?;
            put(line, keys_at(spot, table).words)
        }
        What::WrongKind(key) => put_values(line, "another kind of value for ", *key),
        What::BadValue(key) => put_values(line, "bad value of ", *key),
        What::NameTwice => put(
            line,
            "a name that an earlier node has: give each node another",
        ),
        What::NoSuchName => {
            put(line, word)?;
            put(
                line,
                " names what isn't there: a node's name, a port of its role (A and B, of a RedBox also I, of a QuadBox also C and D, of a Station P), or a link's number from 0",
            )
        }
        What::Topology(fault) => put(line, words_of(*fault)),
        What::NoMemory => put(line, "memory"),
    }
}

/// The word of a document that is a plan, and no scenario.
fn plan_word(document: &Table, spot: Spot, what: &What) -> Option<&'static str> {
    if !matches!((spot, what), (Spot::Top, What::Unknown)) {
        return None;
    }
    if document.get("ring").is_some() {
        return Some("ring");
    }
    if document.get("rings").is_some() {
        return Some("rings");
    }
    if document.get("stream").is_some() {
        return Some("stream");
    }
    None
}

/// Puts that a document is a plan last, and where that shows.
fn put_plan(line: &mut Vec<u8>, source: Source<'_>, word: &str) -> Result<(), NoMemory> {
    put_place(line, source.text, offset_of(source, Spot::Top, word))?;
    put(
        line,
        "this is a plan, and no scenario: hsr_plan writes the scenario that it means, and hsr_plan sweep tries it",
    )
}

/// Puts where the fault of a document is and what it is last.
fn put_fault(
    line: &mut Vec<u8>,
    source: Source<'_>,
    document: &Table,
    fault: &ScenarioFault,
) -> Result<(), NoMemory> {
    let spot = spot_in(document, fault);
    // A plan given for a scenario has an unknown key at the top, and that it is a plan says more.
    if let Some(word) = plan_word(document, spot, &fault.what) {
        return put_plan(line, source, word);
    }
    let table = table_of(document, spot).unwrap_or(document);
    let word = word_of(table, spot, &fault.what);
    put_place(line, source.text, offset_of(source, spot, word))?;
    put_spots(line, spot)?;
    put_what(line, table, spot, &fault.what, word)
}

/// Puts where the fault of a text is and what it is last.
fn put_told(
    alloc: Global,
    line: &mut Vec<u8>,
    text: &str,
    fault: &ScenarioFault,
) -> Result<(), NoMemory> {
    let bare = bare(alloc, text.as_bytes())?;
    let source = Source {
        text: text.as_bytes(),
        bare: bare.as_slice(),
    };
    match toml::table_from_str(alloc, text) {
        Ok(document) => put_fault(line, source, &document, fault),
        // A failed allocation: that it is TOML was found before.
        Err(_) => Err(NoMemory),
    }
}

/// The line of a fault of a text, as `fault: scenario 12:5 step 3: unknown word too: a send has do, node, to, ..`,
/// without a line feed. Line and column are those of the word that the fault is about, in its own table, outside of
/// comments and strings; of a missing word, and of a node or link that no topology has, those of its table; and of a
/// text that is no TOML those at which that shows. `NoMemory` if allocation fails.
pub fn scenario_fault_line(
    alloc: Global,
    text: &str,
    fault: &ScenarioFault,
) -> Result<Vec<u8>, NoMemory>
    ensures { IfOk result (λ v. IsLine v.items) }
{
    let mut words = Vec::new(alloc);
    put(&mut words, "scenario ")?;
    match fault.what {
        What::Text => put_no_toml(alloc, &mut words, text)?,
        _ => put_told(alloc, &mut words, text, fault)?,
    }
    fault_line(alloc, words.as_slice())
}
