//! Keys of the top of a plan that stand below a header.
use hsr_plan_text::{Key, PlanFault, Spot, What};
use hsr_toml::{Source, is_list, member_at};

/// A key of the top of a plan, and where it stands.
#[derive(Clone, Copy)]
pub(crate) struct Misplaced {
    pub key: Key,
    pub at: usize,
}

/// The keys that stand at the top of a plan, and are no tables.
const TOP_KEYS: [Key; 10] = [
    Key::Title,
    Key::Capacity,
    Key::Life,
    Key::Until,
    Key::Epoch,
    Key::Moves,
    Key::Hop,
    Key::Rate,
    Key::Residence,
    Key::Switching,
];

/// The key of the top that a word is.
fn top_key_of(word: &[u8]) -> Option<Key> {
    for top in TOP_KEYS.iter() {
        if top.text().as_bytes() == word {
            return Some(*top);
        }
    }
    None
}

/// The key of the top that stands in the table of another, and is no list there, as a ring or stations are.
fn in_table(source: Source<'_>, table: Key) -> Option<Misplaced> {
    for top in TOP_KEYS.iter() {
        let word = top.text().as_bytes();
        // TOML takes a key below a header into the table of that header.
        if let Some(at) = member_at(source, table.text().as_bytes(), word) {
            if !is_list(source, word, at) {
                return Some(Misplaced { key: *top, at });
            }
        }
    }
    None
}

/// The key of the top that a stream or an event has, at an offset.
fn in_list(spot: Spot, word: &[u8], at: usize) -> Option<Misplaced> {
    match spot {
        Spot::Top => None,
        Spot::Stream(_) | Spot::Event(_) => {
            let key = top_key_of(word)?;
            Some(Misplaced { key, at })
        }
    }
}

/// The key of the top that a fault at an offset is about, and that stands below a header: a word that a stream or an
/// event doesn't have, or what is no ring, no stations, no address and no mode.
pub(crate) fn out_of_place(source: Source<'_>, fault: &PlanFault, at: usize) -> Option<Misplaced> {
    match &fault.what {
        What::Unknown(word) => in_list(fault.spot, word.as_bytes(), at),
        What::WrongKind(key) | What::BadValue(key) | What::BadName(key, _) => match key {
            Key::Rings | Key::RedBox | Key::Address | Key::Mode => in_table(source, *key),
            _ => None,
        },
        _ => None,
    }
}
