//! The words of lines, read.
ghost use Rattle.std.specs.Prelude.{◌≡◌, ◌<◌, ◌++◌, ◌^◌, ℕ, length, option_map};
ghost use Rattle.hsr_transcript_lines.specs.Parsed.{read_about, below, read_cause, read_fate, read_fault, has_letter, has_octet, read_port, read_ports, read_probe, read_seq, tail_of, read_vlan};

use hsr_frame::{About, Cause, FrameFault, Mac};
use hsr_link::Fate;
use hsr_node::{Place, Probe};
use hsr_text::{decimal, hex_pair, split_at};

/// A number of 16 bits.
pub(crate) fn read_number(word: &[u8]) -> Option<u16>
    ensures { result ≡ below (2 ^ 16) word.now }
{
    let n = decimal(word)?;
    // A number that is too great is no number here: it isn't cut to 16 bits.
    if n < 65536 { Some(n as u16) } else { None }
}

/// A number of 8 bits.
pub(crate) fn read_octet(word: &[u8]) -> Option<u8>
    ensures { result ≡ below 256 word.now }
{
    let n = decimal(word)?;
    if n < 256 { Some(n as u8) } else { None }
}

/// The fate of a copy that waits no more.
pub(crate) fn read_fate(word: &[u8]) -> Option<Fate>
    ensures { result ≡ read_fate word.now }
{
    match Fate::from_word(word)? {
        // In a finished run no copy waits, so no row says it.
        Fate::Queued => None,
        fate => Some(fate),
    }
}

/// The fault behind a cause's hyphen, if there is one.
fn read_fault(digits: Option<&[u8]>) -> Option<Option<FrameFault>>
    ensures { result ≡ read_fault (option_map (λ s. s.now) digits.entry) }
{
    match digits {
        None => Some(None),
        Some(digits) => {
            let fault = FrameFault::from_code(decimal(digits)?)?;
            Some(Some(fault))
        }
    }
}

/// Why an arrival went where it did.
pub(crate) fn read_cause(word: &[u8]) -> Option<Cause>
    ensures { result ≡ read_cause word.now }
{
    let (word, digits) = split_at(word, b'-');
    Cause::from_word(word, read_fault(digits)?)
}

/// A VLAN tag's control information, or a hyphen.
pub(crate) fn read_vlan(word: &[u8]) -> Option<Option<u16>>
    ensures { result ≡ read_vlan word.now }
{
    if word == b"-".as_slice() {
        return Some(None);
    }
    let control = hex_pair(word)?;
    Some(Some(control))
}

/// The number of a frame, or a hyphen.
pub(crate) fn read_seq(word: &[u8]) -> Option<Option<u16>>
    ensures { result ≡ read_seq word.now }
{
    if word == b"-".as_slice() {
        return Some(None);
    }
    let seq = read_number(word)?;
    Some(Some(seq))
}

/// The node that a supervision frame is about.
pub(crate) fn read_about(word: &[u8]) -> Option<About>
    ensures { result ≡ read_about word.now }
{
    if word == b"own".as_slice() {
        return Some(About::Own);
    }
    let mac = Mac::from_ascii(word).ok()?;
    Some(About::Proxied(mac))
}

/// The entry of a send.
pub(crate) fn read_probe(word: &[u8]) -> Option<Probe>
    ensures { result ≡ read_probe word.now }
{
    let (node, rest) = split_at(word, b':');
    let node = decimal(node)?;
    let place = decimal(rest?)?;
    Some(Probe {
        node: node as usize,
        place: place as usize,
    })
}

/// A port of this place, by a word that begins with its letter.
pub(crate) fn read_port(place: &Place, word: &[u8]) -> Option<u8>
    ensures { result ≡ read_port place.now word.now }
{
    place.port(*word.first()?)
}

/// Whether an octet is among others.
#[tactic(auto, unfolding(crate::specs::Parsed::has_octet))]
pub(crate) fn has_octet(octet: u8, text: &[u8]) -> bool
    ensures { result ≡ has_octet octet text.now }
{
    text.iter().any(|b| *b == octet)
}

/// Whether the letter of a port of this place is among these octets.
fn has_letter(place: &Place, text: &[u8], port: u8) -> bool
    ensures { result ≡ has_letter place.now text.now port }
{
    if port < place.ports() {
        has_octet(place.letter(port), text)
    } else {
        false
    }
}

/// The ports of this place whose letters are among these octets.
pub(crate) fn read_ports(place: &Place, text: &[u8]) -> [bool; 4]
    ensures { result ≡ read_ports place.now text.now }
{
    [
        // Only the letters are looked for: whether their order and spaces are right is told by spelling them again.
        has_letter(place, text, 0),
        has_letter(place, text, 1),
        has_letter(place, text, 2),
        has_letter(place, text, 3),
    ]
}

/// What follows, if something does.
pub(crate) fn tail_of(rest: Option<&[u8]>) -> &[u8]
    ensures { result.now ≡ tail_of (option_map (λ s. s.now) rest.entry) }
{
    rest.unwrap_or(&[])
}
