//! The line of a fault.
ghost use Rattle.std.specs.Prelude.{IfOk};
ghost use Rattle.hsr_toml.specs.Line.{IsLine};

use crate::misplaced::{Misplaced, out_of_place};
use crate::refusals::{put_refusal, put_word};
use crate::wiring::reason_of;
use hsr_frame::NoMemory;
use hsr_plan_text::{Key, PlanFault, Refusal, Spot, What, Word};
use hsr_toml::{
    Source, bare, fault_line, key_in, member_at, name_again, name_in, name_under, put, put_no_toml,
    put_place, table_at, top_key,
};
use std::alloc::Global;

/// The keys of an event that name nodes.
const EVENT_KEYS: [Key; 4] = [Key::Cut, Key::Mend, Key::Off, Key::On];

// ---- where it is

/// Where a name stands the second time in a list of nodes, or else where it stands last there.
fn node_again(source: Source<'_>, name: &[u8]) -> Option<usize> {
    let keys = [
        Key::Ring.text().as_bytes(),
        Key::Rings.text().as_bytes(),
        Key::RedBox.text().as_bytes(),
    ];
    name_again(source, &keys, name)
}

/// Where the table of a fault begins.
fn start_of(source: Source<'_>, spot: Spot) -> usize {
    match spot {
        Spot::Top => 0,
        Spot::Stream(number) => table_at(source, b"stream", number).unwrap_or(0),
        Spot::Event(number) => table_at(source, b"event", number).unwrap_or(0),
    }
}

/// Where a key of the table stands that begins at an offset.
fn key_of(source: Source<'_>, spot: Spot, start: usize, word: &[u8]) -> Option<usize> {
    match spot {
        Spot::Top => top_key(source, word),
        Spot::Stream(_) | Spot::Event(_) => key_in(source, word, start),
    }
}

/// Where a name stands that nobody has, in what a plan says of its nodes.
fn unknown_node(source: Source<'_>, name: &[u8]) -> Option<usize> {
    match member_at(source, b"redbox", name) {
        Some(at) => Some(at),
        None => match member_at(source, b"address", name) {
            Some(at) => Some(at),
            None => member_at(source, b"mode", name),
        },
    }
}

/// Where a name stands in the value of one of these keys of the table that begins at an offset.
fn name_of(source: Source<'_>, keys: &[Key], name: &[u8], start: usize) -> Option<usize> {
    for key in keys.iter() {
        if let Some(at) = name_in(source, key.text().as_bytes(), name, start) {
            return Some(at);
        }
    }
    None
}

/// Where a name stands that nobody has.
fn unknown_name(source: Source<'_>, spot: Spot, start: usize, name: &[u8]) -> Option<usize> {
    match spot {
        Spot::Top => unknown_node(source, name),
        Spot::Stream(_) => name_of(source, &[Key::To, Key::From, Key::For], name, start),
        Spot::Event(_) => name_of(source, &EVENT_KEYS, name, start),
    }
}

/// Where the rings stand.
fn rings_at(source: Source<'_>) -> Option<usize> {
    match top_key(source, b"ring") {
        Some(at) => Some(at),
        None => top_key(source, b"rings"),
    }
}

/// Where what is refused stands.
fn refused_at(source: Source<'_>, spot: Spot, start: usize, refusal: &Refusal) -> Option<usize> {
    match refusal {
        Refusal::NameTwice(word) => node_again(source, word.as_bytes()),
        Refusal::NoSuchName(word) | Refusal::NoAddress(word) | Refusal::OfStation(word) =>
            unknown_name(source, spot, start, word.as_bytes()),
        Refusal::AddressTaken(word) => member_at(source, b"address", word.as_bytes()),
        Refusal::ToItself(word) => name_of(source, &[Key::From], word.as_bytes(), start),
        Refusal::NotDue(word) => name_of(source, &[Key::For], word.as_bytes(), start),
        Refusal::TooMany(Key::Ring) => rings_at(source),
        Refusal::TooSmall(_) => key_of(source, spot, start, b"size"),
        Refusal::TooLong(_) => key_of(source, spot, start, b"asdus"),
        Refusal::AppidTaken => key_of(source, spot, start, b"appid"),
        Refusal::Nobody(key)
        | Refusal::NoLink(key)
        | Refusal::Endless(key)
        | Refusal::TooLate(key)
        | Refusal::Idle(key)
        | Refusal::Together(key)
        | Refusal::TooMany(key) => key_of(source, spot, start, key.text().as_bytes()),
        Refusal::Topology => None,
    }
}

/// Where a word stands that is no name, in the value of a key or as a key in it.
fn bad_name_at(
    source: Source<'_>,
    spot: Spot,
    start: usize,
    key: Key,
    word: &Word,
) -> Option<usize> {
    let key = key.text().as_bytes();
    let found = match spot {
        Spot::Top => name_under(source, key, word.as_bytes()),
        Spot::Stream(_) | Spot::Event(_) => name_in(source, key, word.as_bytes(), start),
    };
    match found {
        Some(at) => Some(at),
        None => key_of(source, spot, start, key),
    }
}

/// Where the word of a fault stands, in its table that begins at an offset.
fn word_in(source: Source<'_>, spot: Spot, start: usize, what: &What) -> Option<usize> {
    match what {
        What::Unknown(word) => key_of(source, spot, start, word.as_bytes()),
        What::BadName(key, word) => bad_name_at(source, spot, start, *key, word),
        What::WrongKind(key) | What::BadValue(key) => {
            key_of(source, spot, start, key.text().as_bytes())
        }
        What::Refused(refusal) => refused_at(source, spot, start, refusal),
        What::Text | What::Missing(_) | What::NoMemory => None,
    }
}

/// Where the word of a fault stands, or else its table.
fn offset_of(source: Source<'_>, fault: &PlanFault) -> usize {
    // Searched for in the text again: the reading proves which fault is first, and doesn't keep where its word stands.
    let start = start_of(source, fault.spot);
    match word_in(source, fault.spot, start, &fault.what) {
        Some(at) => at,
        None => start,
    }
}

// ---- what is wrong

/// What a table may have.
fn keys_at(spot: Spot) -> &'static str {
    match spot {
        Spot::Top => {
            "a plan has title, ring or rings, redbox, address, mode, capacity, life_ms, until_us, epoch, moves, hop_us, rate_mbps, residence_us, switching, stream and event"
        }
        Spot::Stream(_) => {
            "a stream has from, to, for, type, size, vlan, priority, appid, control_block, id, data_set, start_us, every_us, grow, most_us, smp_rate, asdus, count and until_us"
        }
        Spot::Event(_) => "an event has at_us and one of cut, mend, off and on",
    }
}

/// What the value of a key may be.
fn values_of(key: Key) -> &'static str {
    match key {
        Key::Title => "a text of one line",
        Key::Ring | Key::Rings =>
            "a list of names; a name has 1 to 32 small letters, digits and hyphens",
        Key::RedBox => "a table of RedBoxes, each with a list of 1 to 16 names",
        Key::Address => "a table of names, each with an address as 02-00-00-00-00-01",
        Key::Mode => "a table of names, each with H, N or U",
        Key::Capacity => "1 to 4096",
        Key::Life => "0 to 1073741824 milliseconds",
        Key::Until | Key::At => "0 to 1099511627776 microseconds",
        Key::Moves => {
            "\"each send drains\", \"each moment drains\", \"hops\" with hop_us from 1 to 1000000 microseconds, or \"wire\""
        }
        Key::Hop => "1 to 1000000 microseconds",
        Key::Rate => "1 to 100000 Mbit/s",
        Key::Residence => "0 to 1000000 microseconds",
        Key::Switching => "\"store\" or \"cut\"",
        Key::Stream | Key::Event =>
            "tables, each below a header of its own in two brackets, as [[stream]] or [[event]]",
        Key::From | Key::For => "a name, or a list of 1 to 4096 names",
        Key::To => "a name, or an address as 01-0C-CD-01-00-01",
        Key::Kind => "\"goose\", \"sv\" or a number to 65535, but neither 0x892F nor 0x8100",
        Key::Size => "0 to 1500 octets, but not 0 of goose and sv",
        Key::Vlan => "0 to 4095",
        Key::Priority => "0 to 7",
        Key::Epoch => "0 to 4294967295 seconds since 1970",
        Key::Appid => "0 to 65535",
        Key::ControlBlock | Key::DataSet => "1 to 32 letters, digits and low lines",
        Key::Id => "1 to 65 visible characters",
        Key::SampleRate => "4000, 4800, 12800 or 14400 samples a second",
        Key::Asdus => "1 to 8 samples a frame",
        Key::Start =>
            "a moment to 1099511627776 microseconds, or a list of them, each later than the one before",
        Key::Every | Key::Most => "1 to 1099511627776 microseconds",
        Key::Count => "1 to 1099511627776",
        Key::Grow => "1 to 1000",
        Key::Cut | Key::Mend => "two names, or two ends as ied1.B",
        Key::Off | Key::On => "a name",
    }
}

/// Puts a key and what its value may be last.
fn put_values(line: &mut Vec<u8>, before: &str, key: Key) -> Result<(), NoMemory> {
    put(line, before)?;
    put(line, key.text())?;
    put(line, ": ")?;
    put(line, values_of(key))
}

/// Puts a word that is no name in the value of a key last.
fn put_bad_name(line: &mut Vec<u8>, key: Key, word: &Word) -> Result<(), NoMemory> {
    put(line, "bad value of ")?;
    put(line, key.text())?;
    put_word(
        line,
        ": \"",
        word,
        "\" is no name; a name has 1 to 32 small letters, digits and hyphens",
    )
}

/// Whether a word stands at the top of a scenario, and not of a plan.
fn is_of_scenario(spot: Spot, word: &Word) -> bool {
    let word = word.as_bytes();
    // Both sides of `==` have one type, so an octet literal is compared as a slice.
    matches!(spot, Spot::Top)
        && (word == b"node".as_slice() || word == b"link".as_slice() || word == b"step".as_slice())
}

/// Puts a word that a table doesn't have last, and what it has.
fn put_unknown(line: &mut Vec<u8>, spot: Spot, word: &Word) -> Result<(), NoMemory> {
    if is_of_scenario(spot, word) {
        return put(
            line,
            "this is a scenario, and no plan: hsr_bench run plays it, and hsr_plan --check looks it over",
        );
    }
    put_word(line, "unknown word ", word, ": ")?;
    put(line, keys_at(spot))
}

/// Puts what a fault is last.
fn put_what(line: &mut Vec<u8>, spot: Spot, what: &What) -> Result<(), NoMemory> {
    match what {
        What::Text => put(line, "no TOML"),
        What::Missing(key) => put_values(line, "missing word ", *key),
        What::Unknown(word) => put_unknown(line, spot, word),
        What::BadName(key, word) => put_bad_name(line, *key, word),
        What::WrongKind(key) => put_values(line, "another kind of value for ", *key),
        What::BadValue(key) => put_values(line, "bad value of ", *key),
        What::Refused(refusal) => put_refusal(line, refusal),
        What::NoMemory => put(line, "memory"),
    }
}

/// Puts where a word of the top stands below a header last, and where it belongs.
fn put_misplaced(line: &mut Vec<u8>, text: &[u8], found: Misplaced) -> Result<(), NoMemory> {
    put_place(line, text, found.at)?;
    put(line, found.key.text())?;
    put(
        line,
        " stands below a header: it belongs at the top, before the first table",
    )
}

/// Puts where a fault is and what it is last.
fn put_fault(
    alloc: Global,
    line: &mut Vec<u8>,
    text: &str,
    fault: &PlanFault,
) -> Result<(), NoMemory> {
    let bare = bare(alloc, text.as_bytes())?;
    let source = Source {
        text: text.as_bytes(),
        bare: bare.as_slice(),
    };
    let offset = offset_of(source, fault);
    // A key that belongs at the top says more than the fault of the table into which it fell.
    if let Some(found) = out_of_place(source, fault, offset) {
        return put_misplaced(line, source.text, found);
    }
    put_place(line, source.text, offset)?;
    put_what(line, fault.spot, &fault.what)
}

/// Puts last why the nodes and links of a plan do not form a valid topology, and where that is.
fn put_topology(alloc: Global, line: &mut Vec<u8>, text: &str) -> Result<(), NoMemory> {
    let bare = bare(alloc, text.as_bytes())?;
    let source = Source {
        text: text.as_bytes(),
        bare: bare.as_slice(),
    };
    match toml::table_from_str(alloc, text) {
        Ok(document) => {
            let reason = reason_of(source, &document);
            put_place(line, source.text, reason.at)?;
            put(line, reason.words)
        }
        // A failed allocation: that it is TOML was found before.
        Err(_) => Err(NoMemory),
    }
}

/// The line of a fault of a text, as `fault: plan 12:5 unknown word evry_us: a stream has from, to, ..`, without a line
/// feed. Line and column are those of the word that the fault is about, in its own table, outside of comments and of
/// other strings; of a missing word, those of its table; and of a text that is no TOML those at which that shows.
/// `NoMemory` if allocation fails.
pub fn plan_fault_line(alloc: Global, text: &str, fault: &PlanFault) -> Result<Vec<u8>, NoMemory>
    ensures { IfOk result (λ v. IsLine v.items) }
{
    let mut words = Vec::new(alloc);
    put(&mut words, "plan ")?;
    match &fault.what {
        What::Text => put_no_toml(alloc, &mut words, text)?,
        What::Refused(Refusal::Topology) => put_topology(alloc, &mut words, text)?,
        _ => put_fault(alloc, &mut words, text, fault)?,
    }
    fault_line(alloc, words.as_slice())
}
