//! The words of why a plan means nothing.
use hsr_frame::NoMemory;
use hsr_plan_text::{Key, Refusal, Word};
use hsr_text::put_decimal;
use hsr_toml::put;

/// Puts a word last, between others.
pub(crate) fn put_word(
    line: &mut Vec<u8>,
    before: &str,
    word: &Word,
    behind: &str,
) -> Result<(), NoMemory> {
    put(line, before)?;
    line.extend_from_slice(word.as_bytes())?;
    put(line, behind)
}

/// What more there may not be of.
fn most_of(key: Key) -> &'static str {
    match key {
        Key::Ring => "no network: over 64 nodes, each RedBox with its Station two of them",
        Key::RedBox => "a RedBox has 1 to 16 stations",
        Key::Event => "more than 16384 events",
        Key::Life =>
            "more than 16384 rounds of supervision: a longer life_ms, 0 for none, or an earlier until_us",
        _ =>
            "more than 1048576 sends, supervision frames and events: an earlier until_us, or fewer streams",
    }
}

/// What is behind an end.
fn late(key: Key) -> &'static str {
    match key {
        Key::At => "an event behind the end of the plan: an earlier at_us, or a later until_us",
        Key::Until =>
            "a sweep from a moment behind the end of the plan: an earlier --at-us, or a later until_us",
        _ => "a start at or behind the end: an earlier start_us, or a later until_us",
    }
}

/// What changes nothing.
fn idle(key: Key) -> &'static str {
    match key {
        Key::Hop =>
            "this changes nothing: copies move by hops where moves is \"hops\", and only there",
        Key::Rate | Key::Residence | Key::Switching =>
            "this changes nothing: copies move by wires where moves is \"wire\", and only there",
        Key::On => "this changes nothing: the node isn't off then; it goes off by an earlier event",
        Key::Appid | Key::ControlBlock | Key::Id | Key::DataSet =>
            "this changes nothing: only streams of type goose and sv have appid, control_block, id and data_set",
        Key::SampleRate | Key::Asdus =>
            "this changes nothing: only streams of type sv have smp_rate and asdus",
        _ => "this changes nothing: the link isn't cut then; it is cut by an earlier event",
    }
}

/// Puts a size that is enough last.
fn put_size(line: &mut Vec<u8>, least: usize) -> Result<(), NoMemory> {
    put(line, "a size below the shortest payload of this type: ")?;
    put_decimal(line, least as u64)?;
    put(
        line,
        " octets or more for this sender, or no size for the shortest",
    )
}

/// Puts how long the shortest payload is last, where no frame takes it.
fn put_length(line: &mut Vec<u8>, least: usize) -> Result<(), NoMemory> {
    put(line, "a payload of ")?;
    put_decimal(line, least as u64)?;
    put(
        line,
        " octets at least for this sender, and a frame takes 1500: fewer asdus, or shorter names",
    )
}

/// Puts which keys may not stand together last.
fn put_together(line: &mut Vec<u8>, key: Key) -> Result<(), NoMemory> {
    match key {
        Key::Hop => put(
            line,
            "hop_us in moves and beside it: one of both; beside it moves is \"hops\"",
        ),
        Key::Every | Key::Grow | Key::Most => {
            put(line, key.text())?;
            put(
                line,
                " beside smp_rate: one of both; smp_rate tells the moments of samples",
            )
        }
        _ => put(
            line,
            "ring and rings together: one of both; rings has each ring by a name of its own",
        ),
    }
}

/// Puts why nobody is meant by a name last.
fn put_nobody(line: &mut Vec<u8>, refusal: &Refusal) -> Result<(), NoMemory> {
    match refusal {
        Refusal::NoSuchName(word) => put_word(
            line,
            "unknown name ",
            word,
            ": a DANH, a RedBox or a station of the plan, or here a node that can't do this",
        ),
        Refusal::NoAddress(word) => put_word(
            line,
            "",
            word,
            " has no address: a QuadBox or a Station neither sends nor receives; a station of a RedBox does, by its own name",
        ),
        Refusal::OfStation(word) => put_word(
            line,
            "",
            word,
            " is a station behind a RedBox: stations are off with their RedBox's Station, <redbox>-sans",
        ),
        _ => Ok(()),
    }
}

/// Puts why a name means nothing last.
fn put_name(line: &mut Vec<u8>, refusal: &Refusal) -> Result<(), NoMemory> {
    match refusal {
        Refusal::NameTwice(word) => put_word(
            line,
            "name twice ",
            word,
            ": a name stands once in a ring, in two rings at most, and a station's once in all",
        ),
        Refusal::AddressTaken(word) => put_word(
            line,
            "the address of ",
            word,
            " is another's: where none is given, a node has 02-00-00-00-RR-NN by ring and place, and a station 02-00-00-01-RR-NN by RedBox and place",
        ),
        Refusal::ToItself(word) => put_word(
            line,
            "",
            word,
            " sends to itself: another sender or another target",
        ),
        Refusal::NotDue(word) => put_word(
            line,
            "frames of this stream aren't due at ",
            word,
            ": for names who is to have them, of a group anyone but the only sender",
        ),
        _ => put_nobody(line, refusal),
    }
}

/// Puts why a plan means nothing last.
pub(crate) fn put_refusal(line: &mut Vec<u8>, refusal: &Refusal) -> Result<(), NoMemory> {
    match refusal {
        Refusal::Nobody(_) => put(line, "address of nobody: a group's, or one that a node has"),
        Refusal::NoLink(_) => put(
            line,
            "no link between these: neighbours in a ring, or a RedBox and its Station",
        ),
        Refusal::Endless(Key::Until) => put(
            line,
            "supervision without end: give until_us before the first table, or life_ms = 0",
        ),
        Refusal::Endless(_) => put(line, "a stream without end: give count or until_us"),
        Refusal::TooMany(key) => put(line, most_of(*key)),
        Refusal::TooLate(key) => put(line, late(*key)),
        Refusal::TooSmall(least) => put_size(line, *least),
        Refusal::Idle(key) => put(line, idle(*key)),
        Refusal::TooLong(least) => put_length(line, *least),
        Refusal::AppidTaken => put(
            line,
            "the APPID is another's: each sender of goose and sv has its own, to 65535; without appid 1 to 16383 for goose, 16384 to 32767 for sv",
        ),
        Refusal::Together(key) => put_together(line, *key),
        Refusal::Topology => put(line, "no network"),
        _ => put_name(line, refusal),
    }
}
