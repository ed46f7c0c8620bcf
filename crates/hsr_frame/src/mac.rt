//! MAC addresses and their text.
ghost use Rattle.std.specs.Prelude.{[], ◌∷◌, ◌≡◌, ◌+◌, ◌*◌, ◌<◌, ◌≤◌, ◌↔◌, ℕ, List, length, slice_index, drop, IsTrue, IfOk, IfErr, IfSome, IfNone, Ok, Some, None, ◌/◌, ◌%◌};
ghost use Rattle.hsr_frame.specs.Address.{supervision_address, IsGroup, IsAddress, IsLeftmost, IsTextFault, address_of, address_text, fault_from, hex_digit, hex_digits, hex_value, is_among, is_group, octet_of, place_fault, upper_digit, upper_text};

use crate::fault::MacFault;
use std::fmt;
use std::marker::Model;

/// The address of a station, or of a group of them (IEEE 802 clause 8): six octets.
#[derive(Clone, Copy, Default, PartialEq, Eq, PartialOrd, Ord, Hash)]
pub struct Mac {
    octets: [u8; 6],
}

impl Model for Mac {
    ghost use Rattle.std.specs.Prelude.{ℕ, List};
    ghost use Rattle.hsr_frame.specs.Address.{IsAddress};

    ghost Value = { List ℕ };

    ghost view = { λ m. m.octets };

    ghost invariant = { λ m. IsAddress m.octets };

    ghost inverse = { λ xs. record { octets = xs } };
}

/// The value of a hexadecimal digit.
fn nibble(c: u8) -> Option<u8>
    ensures { result ≡ hex_value c }
{
    match c {
        b'0'..=b'9' => Some(c - b'0'),
        b'A'..=b'F' => Some(c - b'A' + 10),
        b'a'..=b'f' => Some(c - b'a' + 10),
        _ => None,
    }
}

/// What is wrong with the octet at a place of a text.
fn octet_fault(place: usize, c: u8) -> Option<MacFault>
    ensures { result ≡ place_fault place c }
{
    // Two digits and a hyphen take three octets, so each third one is a hyphen.
    if place % 3 == 2 {
        if c == b'-' {
            None
        } else {
            Some(MacFault::Separator)
        }
    } else if nibble(c).is_some() {
        None
    } else {
        Some(MacFault::Digit)
    }
}

/// What is wrong with the leftmost wrong octet of a text.
fn text_fault(text: &[u8]) -> Option<MacFault>
    ensures first { result ≡ fault_from 0 text.now }
    ensures leftmost { IfSome result (IsLeftmost text.now) }
    ensures right { IfNone result ((k : ℕ) → k < length text.now
        → place_fault k (slice_index text.now k) ≡ None) }
{
    for (i, c) in text.iter().enumerate() {
        if let Some(fault) = octet_fault(i, *c) {
            return Some(fault);
        }
    }
    None
}

/// The octet whose two digits stand at a place.
fn octet_at(text: &[u8], at: usize) -> u8
    requires room { at + 1 < length text.now }
    requires place { at % 3 ≡ 0 }
    requires high { place_fault at (slice_index text.now at) ≡ None }
    requires low { place_fault (at + 1) (slice_index text.now (at + 1)) ≡ None }
    ensures value { result ≡ octet_of text.now at }
    ensures high { upper_digit (slice_index text.now at) ≡ hex_digit (result / 16) }
    ensures low { upper_digit (slice_index text.now (at + 1)) ≡ hex_digit (result % 16) }
{
    // Neither is `None`: both octets were found to be digits.
    16 * nibble(text[at]).unwrap() + nibble(text[at + 1]).unwrap()
}

/// Reads the text of an address.
#[tactic(auto, unfolding(crate::specs::Address::address_of))]
fn read_mac(text: &[u8]) -> Result<Mac, MacFault>
    ensures exact { result ≡ address_of text.now }
    ensures found { IfOk result (λ m. upper_text text.now ≡ address_text m) }
    ensures fault { IfErr result (λ e. IsTextFault text.now e) }
{
    // The length comes first: a wrong octet is named only in a text of 17 (RULES, Addresses).
    if text.len() != 17 {
        return Err(MacFault::Length);
    }
    if let Some(fault) = text_fault(text) {
        return Err(fault);
    }
    let (a, b, c) = (octet_at(text, 0), octet_at(text, 3), octet_at(text, 6));
    let (d, e, g) = (octet_at(text, 9), octet_at(text, 12), octet_at(text, 15));
    Ok(Mac::new([a, b, c, d, e, g]))
}

impl Mac {
    /// The group to which supervision frames are sent (IEC 62439-3 clause 5.7.3).
    pub const SUPERVISION: Mac = Mac {
        octets: [0x01, 0x15, 0x4E, 0x00, 0x01, 0x00],
    };

    /// The group to which supervision frames are sent, for clauses, which can't name a constant of this type.
    pub fn supervision() -> Mac
        ensures { result ≡ supervision_address }
    {
        Mac::SUPERVISION
    }

    /// Whether it is one of these addresses.
    pub fn is_among(self, macs: &[Mac]) -> bool
        ensures { result ≡ is_among macs.now self }
    {
        macs.iter().any(|own| *own == self)
    }

    /// The address of these octets.
    pub const fn new(octets: [u8; 6]) -> Mac
        ensures { result ≡ octets }
    {
        Mac { octets }
    }

    /// Its octets, the first to be sent first.
    pub const fn octets(&self) -> [u8; 6]
        ensures value { result ≡ self.now }
        ensures address { IsAddress self.now }
    {
        self.octets
    }

    /// Whether it is the address of a group: the lowest bit of its first octet is set.
    pub fn is_group(&self) -> bool
        ensures value { result ≡ is_group self.now }
        ensures group { IsTrue result ↔ IsGroup self.now }
    {
        // The bit that is sent first on the wire is the lowest of the first octet (IEEE 802 clause 8).
        self.octets[0] % 2 == 1
    }

    /// Whether supervision frames are sent to it.
    pub fn is_supervision(&self) -> bool
        ensures { IsTrue result ↔ (self.now ≡ supervision_address) }
    {
        *self == Mac::SUPERVISION
    }

    /// The address that a text of 17 octets spells, in digits of either case parted by hyphens. `Length` where it has
    /// another number of octets; else, by the leftmost wrong octet, `Digit` where a digit is wanted and `Separator` where
    /// a hyphen is.
    pub fn from_text(text: &str) -> Result<Mac, MacFault>
        ensures exact { result ≡ address_of text.now }
        // What is read is spelled so, but for the case of its digits.
        ensures found { IfOk result (λ m. upper_text text.now ≡ address_text m) }
        // What is printed is read, in either case of its digits.
        ensures reads { (o : List ℕ) → IsAddress o
            → upper_text text.now ≡ address_text o → result ≡ Ok o }
        ensures fault { IfErr result (λ e. IsTextFault text.now e) }
    {
        Mac::from_ascii(text.as_bytes())
    }

    /// The address that octets spell, which may be no text: 17 of them, digits of either case parted by hyphens. `Length`
    /// where there is another number of them; else, by the leftmost wrong octet, `Digit` where a digit is wanted and
    /// `Separator` where a hyphen is.
    pub fn from_ascii(text: &[u8]) -> Result<Mac, MacFault>
        ensures exact { result ≡ address_of text.now }
        ensures found { IfOk result (λ m. upper_text text.now ≡ address_text m) }
        ensures reads { (o : List ℕ) → IsAddress o
            → upper_text text.now ≡ address_text o → result ≡ Ok o }
        ensures fault { IfErr result (λ e. IsTextFault text.now e) }
    {
        read_mac(text)
    }
}

/// An octet as two digits.
#[derive(Clone, Copy)]
struct Pair(u8);

// A type of its own, whose `output` says what one octet prints: an address is then six of them.
impl fmt::Display for Pair {
    ghost output = { λ p. Some (hex_digits p.0) };

    fn fmt<W: fmt::Write>(&self, f: &mut fmt::Formatter<W>) -> fmt::Result {
        let n = self.0;
        write!(f, "{n:02X}")
    }
}

impl fmt::Display for Mac {
    ghost output = { λ m. Some (address_text m) };

    fn fmt<W: fmt::Write>(&self, f: &mut fmt::Formatter<W>) -> fmt::Result {
        // There is no `f` among the names: that is the formatter.
        let [a, b, c, d, e, g] = self.octets;
        let (a, b, c) = (Pair(a), Pair(b), Pair(c));
        let (d, e, g) = (Pair(d), Pair(e), Pair(g));
        write!(f, "{a}-{b}-{c}-{d}-{e}-{g}")
    }
}
