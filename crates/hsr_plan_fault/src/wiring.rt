//! Why the nodes and links of a plan do not form a valid topology, and where that is.
use hsr_frame::Mac;
use hsr_toml::{Source, member_at, top_key};
use toml::{Table, Value};

/// The most nodes of a topology.
const NODE_LIMIT: usize = 64;

/// Why nodes and links do not form a valid topology, and where that is.
#[derive(Clone, Copy)]
pub(crate) struct Reason {
    pub at: usize,
    pub words: &'static str,
}

// ---- rings

/// How many names a list has.
fn count_in(list: &Value) -> usize {
    match list.as_array() {
        Some(names) => names.len(),
        None => 0,
    }
}

/// The first ring of a table with fewer than two names.
fn small_in(rings: &Table) -> Option<&str> {
    for (word, ring) in rings.iter() {
        if count_in(ring) < 2 {
            return Some(word.as_str());
        }
    }
    None
}

/// Where the only ring of a plan stands, if it has fewer than two names.
fn small_only(source: Source<'_>, document: &Table) -> Option<usize> {
    if count_in(document.get("ring")?) < 2 {
        top_key(source, b"ring")
    } else {
        None
    }
}

/// Where the first of the rings that have names stands that has fewer than two nodes.
fn small_named(source: Source<'_>, document: &Table) -> Option<usize> {
    let word = small_in(document.get("rings")?.as_table()?)?;
    member_at(source, b"rings", word.as_bytes())
}

// ---- addresses

/// Whether an address is a group's.
fn is_group(value: &Value) -> bool {
    match value.as_str() {
        Some(text) => match Mac::from_text(text) {
            Ok(mac) => mac.is_group(),
            Err(_) => false,
        },
        None => false,
    }
}

/// The first name in a table whose address is a group's.
fn group_in(addresses: &Table) -> Option<&str> {
    for (word, address) in addresses.iter() {
        if is_group(address) {
            return Some(word.as_str());
        }
    }
    None
}

/// Where the first name stands whose address is a group's.
fn group(source: Source<'_>, document: &Table) -> Option<usize> {
    let word = group_in(document.get("address")?.as_table()?)?;
    member_at(source, b"address", word.as_bytes())
}

/// Whether two values are one address.
fn is_same(one: &Value, other: &Value) -> bool {
    match (one.as_str(), other.as_str()) {
        (Some(one), Some(other)) => match (Mac::from_text(one), Mac::from_text(other)) {
            (Ok(one), Ok(other)) => one == other,
            _ => false,
        },
        _ => false,
    }
}

/// Whether a name before this one in a table has the address.
fn stands_before(addresses: &Table, name: &str, address: &Value) -> bool {
    for (word, other) in addresses.iter() {
        if word.as_str() == name {
            return false;
        }
        if is_same(address, other) {
            return true;
        }
    }
    false
}

/// The first name in a table whose address another has before.
fn again_in(addresses: &Table) -> Option<&str> {
    for (word, address) in addresses.iter() {
        if stands_before(addresses, word.as_str(), address) {
            return Some(word.as_str());
        }
    }
    None
}

/// Where the first name stands whose address another has before.
fn again(source: Source<'_>, document: &Table) -> Option<usize> {
    let word = again_in(document.get("address")?.as_table()?)?;
    member_at(source, b"address", word.as_bytes())
}

// ---- all

/// How many names the lists of a table have.
fn count_of(lists: &Table) -> usize {
    let mut count: usize = 0;
    for (_word, list) in lists.iter() {
        count = count.saturating_add(count_in(list));
    }
    count
}

/// How many names and tables stand under a key of a document.
fn count_at(document: &Table, key: &str) -> usize {
    match document.get(key) {
        Some(value) => match value.as_table() {
            Some(lists) => count_of(lists),
            None => count_in(value),
        },
        None => 0,
    }
}

/// How many RedBoxes there are.
fn box_count(document: &Table) -> usize {
    match document.get("redbox").and_then(Value::as_table) {
        Some(boxes) => boxes.len(),
        None => 0,
    }
}

/// Whether there are more names in rings and Stations than nodes in a topology.
fn is_large(document: &Table) -> bool {
    count_at(document, "ring")
        .saturating_add(count_at(document, "rings"))
        .saturating_add(box_count(document))
        > NODE_LIMIT
}

/// Why it is where neither a ring is too small nor a given address a group's or another's.
fn other(document: &Table) -> Reason {
    let words = if is_large(document) {
        "no network: over 64 nodes, each RedBox with its Station two of them"
    } else {
        "no network: two stations behind a RedBox with one address"
    };
    Reason { at: 0, words }
}

/// Why the nodes and links of a document do not form a valid topology.
pub(crate) fn reason_of(source: Source<'_>, document: &Table) -> Reason {
    let words = "no network: a ring has at least two names";
    if let Some(at) = small_only(source, document) {
        return Reason { at, words };
    }
    if let Some(at) = small_named(source, document) {
        return Reason { at, words };
    }
    if let Some(at) = group(source, document) {
        let words = "no network: a group's address, of which the first octet is odd";
        return Reason { at, words };
    }
    if let Some(at) = again(source, document) {
        let words = "no network: an address that another name has";
        return Reason { at, words };
    }
    other(document)
}
