//! What an input line of `node` asks for.
ghost use Rattle.std.specs.Prelude.{◌≡◌, option_map};
ghost use Rattle.hsr_text.specs.Words.{Gives};
ghost use Rattle.hsr_node_text.specs.Request.{about_of, age_in, arrival_in, last_word, life_in, port_at, port_in, request_of, send_in, vlan_of};

use hsr_frame::{About, Mac};
use hsr_node::{Carried, Event, Octets, Place};
use hsr_text::{TimeUnit, WordFault, hex_octets_in, hex_pair, short_word, word};

/// Whom lines are for, and how they tell moments.
#[derive(Drop)]
pub struct Setting {
    /// The kind of node that answers them, with its address.
    pub place: Place,
    pub unit: TimeUnit,
}

/// What a line asks for. The moment is in microseconds.
#[derive(Drop)]
pub struct Request {
    pub at: u64,
    /// What is to happen to the node. A copy that arrives is of no send that is known.
    pub event: Event,
}

/// A word that is the last.
fn last_word<'a>(rest: Option<&'a [u8]>) -> Option<&'a [u8]>
    ensures { option_map (λ s. s.now) result ≡ last_word (option_map (λ s. s.now) rest.entry) }
{
    match short_word(rest) {
        Some((text, None)) => Some(text),
        // Nothing may follow, not even a space (RULES, Lines of `node`).
        _ => None,
    }
}

/// The word of a VLAN tag's control information, where there is one, and nothing behind it.
fn read_vlan(rest: Option<&[u8]>) -> Result<Option<u16>, WordFault>
    ensures { Gives (λ v. v) result (vlan_of (option_map (λ s. s.now) rest.entry)) }
{
    if rest.is_none() {
        return Ok(None);
    }
    let digits = last_word(rest).ok_or(WordFault::Bad)?;
    Ok(Some(hex_pair(digits).ok_or(WordFault::Bad)?))
}

/// The address of the station that a supervision is about, where there is one, and nothing behind it.
fn read_about(rest: Option<&[u8]>) -> Result<About, WordFault>
    ensures { Gives (λ a. a) result (about_of (option_map (λ s. s.now) rest.entry)) }
{
    if rest.is_none() {
        return Ok(About::Own);
    }
    let address = last_word(rest).ok_or(WordFault::Bad)?;
    let mac = Mac::from_ascii(address).ok().ok_or(WordFault::Bad)?;
    Ok(About::Proxied(mac))
}

/// The number of the port whose letter this word is, where the place has it.
fn port_in(place: &Place, word: &[u8]) -> Option<u8>
    ensures { result ≡ port_in place.now word.now }
{
    match word {
        [letter] => place.port(*letter),
        _ => None,
    }
}

/// The number of the port whose letter words begin with, where the place has it, and the words behind it.
// Inline, since a call would pass both words through memory.
#[inline(always)]
fn read_port<'a>(place: &Place, words: Option<&'a [u8]>) -> Option<(u8, Option<&'a [u8]>)>
    ensures { option_map (λ p. (p.0, option_map (λ s. s.now) p.1)) result ≡ port_at place.now (option_map (λ s. s.now) words.entry) }
{
    match words {
        // A letter and a space stand in each good line: they are looked at as they are, with no search for the end of a word.
        Some([letter, b' ', rest @ ..]) if *letter != b' ' => {
            let port = place.port(*letter)?;
            Some((port, Some(rest)))
        }
        // A line may end here, or begin with a space or a longer word: the words then say whether it is good.
        _ => {
            let (letter, rest) = short_word(words)?;
            let port = port_in(place, letter)?;
            Some((port, rest))
        }
    }
}

/// Reads `<at> <dst> <type4> <payload> [<vlan4>]`. The payload takes this room.
fn read_send(room: Vec<u8>, unit: TimeUnit, rest: Option<&[u8]>) -> Result<Request, WordFault>
    ensures { Gives (λ r. r) result (send_in unit (option_map (λ s. s.now) rest.entry)) }
{
    let (digits, rest) = short_word(rest).ok_or(WordFault::Bad)?;
    let at = unit.read(digits).ok_or(WordFault::Bad)?;
    let (address, rest) = short_word(rest).ok_or(WordFault::Bad)?;
    let dst = Mac::from_ascii(address).ok().ok_or(WordFault::Bad)?;
    let (digits, rest) = short_word(rest).ok_or(WordFault::Bad)?;
    let ethertype = hex_pair(digits).ok_or(WordFault::Bad)?;
    let (digits, rest) = word(rest).ok_or(WordFault::Bad)?;
    let payload = Octets::new(hex_octets_in(room, digits)?);
    let vlan = read_vlan(rest)?;
    let event = Event::Send {
        // `from` chooses among a Station's addresses; all other nodes have one at most.
        from: 0,
        dst,
        vlan,
        kind: ethertype,
        payload,
    };
    Ok(Request { at, event })
}

/// Reads `<at> [<station>]`.
fn read_life(unit: TimeUnit, rest: Option<&[u8]>) -> Result<Request, WordFault>
    ensures { Gives (λ r. r) result (life_in unit (option_map (λ s. s.now) rest.entry)) }
{
    let (digits, rest) = short_word(rest).ok_or(WordFault::Bad)?;
    let at = unit.read(digits).ok_or(WordFault::Bad)?;
    let about = read_about(rest)?;
    let event = Event::Supervise(about);
    Ok(Request { at, event })
}

/// Reads `<at> <port> <octets>`, with the letter of a port that the node has. The octets take this room.
// Inline, as `read_request` is: most lines are arrivals, and each call would pass what a line asks for through memory.
#[inline(always)]
#[tactic(auto, using(crate::proofs::LastOctets::spelled_by_all))]
fn read_arrival(room: Vec<u8>, setting: &Setting, rest: Option<&[u8]>) -> Result<Request, WordFault>
    ensures { Gives (λ r. r) result (arrival_in setting.now (option_map (λ s. s.now) rest.entry)) }
{
    let (digits, rest) = short_word(rest).ok_or(WordFault::Bad)?;
    let at = setting.unit.read(digits).ok_or(WordFault::Bad)?;
    let (port, rest) = read_port(&setting.place, rest).ok_or(WordFault::Bad)?;
    // No space is searched for: it is no digit, so with one behind the digits these octets spell nothing.
    let digits = rest.ok_or(WordFault::Bad)?;
    let octets = Octets::new(hex_octets_in(room, digits)?);
    let carried = Carried {
        probe: None,
        octets,
    };
    let event = Event::Arrive { port, carried };
    Ok(Request { at, event })
}

/// Reads `<at>`.
fn read_age(unit: TimeUnit, rest: Option<&[u8]>) -> Result<Request, WordFault>
    ensures { Gives (λ r. r) result (age_in unit (option_map (λ s. s.now) rest.entry)) }
{
    let digits = last_word(rest).ok_or(WordFault::Bad)?;
    let at = unit.read(digits).ok_or(WordFault::Bad)?;
    let event = Event::Age;
    Ok(Request { at, event })
}

/// Reads a line by its first word.
// Inline, since what a call gives back would be moved once more, and an arrival with it.
#[inline(always)]
#[tactic(auto, unfolding(crate::specs::Request::request_of))]
fn read_by_verb(room: Vec<u8>, setting: &Setting, line: &[u8]) -> Result<Request, WordFault>
    ensures { Gives (λ r. r) result (request_of setting.now line.now) }
{
    let (verb, rest) = short_word(Some(line)).ok_or(WordFault::Bad)?;
    if verb == b"send".as_slice() {
        return read_send(room, setting.unit, rest);
    }
    if verb == b"arrive".as_slice() {
        return read_arrival(room, setting, rest);
    }
    if verb == b"life".as_slice() {
        return read_life(setting.unit, rest);
    }
    if verb == b"age".as_slice() {
        return read_age(setting.unit, rest);
    }
    Err(WordFault::Bad)
}

/// Reads a line for a node of this kind, without its line feed. The octets of an arrival or a payload take this room.
/// `Bad` where it is no line of `node` (RULES, Lines of `node`); `Memory` where room for its octets is refused. Whether
/// such a node sends at all isn't asked.
#[inline(always)]
#[tactic(auto, unfolding(crate::specs::Request::request_of))]
pub fn read_request(room: Vec<u8>, setting: &Setting, line: &[u8]) -> Result<Request, WordFault>
    ensures { Gives (λ r. r) result (request_of setting.now line.now) }
{
    match line {
        // Most lines are arrivals: their front is compared at once, and no end of a word looked for.
        [b'a', b'r', b'r', b'i', b'v', b'e', b' ', rest @ ..] => {
            read_arrival(room, setting, Some(rest))
        }
        _ => read_by_verb(room, setting, line),
    }
}
