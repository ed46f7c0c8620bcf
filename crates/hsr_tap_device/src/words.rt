//! The words that documents have.
ghost use Rattle.std.specs.Prelude.{◌≡◌, option_map};
ghost use Rattle.hsr_tap_device.specs.Words.{end_at, end_of, end_number, end_word, had_by, has_end, has_lane, ignored_with, is_same_end, key_among, nothing_ignored, of_ring, passing_of, role_of, tap_at, tap_of};

use crate::device::{End, Ignored, Passing, Tap};
use crate::fault::Key;
use hsr_node::Role;
use hsr_text::split_at;

/// The keys of a document.
pub(crate) const TOP_KEYS: [Key; 17] = [
    Key::Role,
    Key::Address,
    Key::Mode,
    Key::Table,
    Key::Within,
    Key::Early,
    Key::From,
    Key::Until,
    Key::Warm,
    Key::Start,
    Key::LifeStart,
    Key::Host,
    Key::Stations,
    Key::Whole,
    Key::Ignore,
    Key::Down,
    Key::Interface,
];

/// The key among some that is written so.
pub(crate) fn key_among(keys: &[Key], word: &str) -> Option<Key>
    ensures { result ≡ key_among keys.now word.now }
{
    for key in keys {
        if word == key.text() {
            return Some(*key);
        }
    }
    None
}

/// A role that stands on a ring.
fn of_ring(role: Role) -> Option<Role>
    ensures { result ≡ of_ring role }
{
    match role {
        Role::Danh | Role::RedBox | Role::QuadBox => Some(role),
        Role::Station => None,
    }
}

/// The role of this word.
pub(crate) fn role_of(word: &[u8]) -> Option<Role>
    ensures { result ≡ role_of word.now }
{
    of_ring(Role::from_word(word)?)
}

impl End {
    /// Its word.
    pub fn word(self) -> &'static str
        ensures { result.now ≡ end_word self }
    {
        match self {
            End::A => "A",
            End::B => "B",
            End::C => "C",
            End::D => "D",
            End::I => "I",
            End::Up => "up",
        }
    }

    /// A number for each, from 0, in the order A, B, C, D, I, up.
    pub fn number(self) -> u8
        ensures { result ≡ end_number self }
    {
        match self {
            End::A => 0,
            End::B => 1,
            End::C => 2,
            End::D => 3,
            End::I => 4,
            End::Up => 5,
        }
    }

    /// Whether they are one end.
    pub fn is_same(self, other: End) -> bool
        ensures { result ≡ is_same_end self other }
    {
        self.number() == other.number()
    }

    /// Whether it is on a ring, where tags have lanes.
    pub fn has_lane(self) -> bool
        ensures { result ≡ has_lane self }
    {
        match self {
            End::A | End::B | End::C | End::D => true,
            End::I | End::Up => false,
        }
    }

    /// Whether a device of this role has it; each has a host.
    pub fn is_of(self, role: Role) -> bool
        ensures { result ≡ has_end role self }
    {
        match (role, self) {
            (_, End::A | End::B | End::Up) => true,
            (Role::RedBox, End::I) => true,
            (Role::QuadBox, End::C | End::D) => true,
            _ => false,
        }
    }
}

/// The end of this word.
fn end_of(word: &[u8]) -> Option<End>
    ensures { result ≡ end_of word.now }
{
    // Both sides of `==` have one type, so an octet literal is compared as a slice.
    if word == b"A".as_slice() {
        Some(End::A)
    } else if word == b"B".as_slice() {
        Some(End::B)
    } else if word == b"C".as_slice() {
        Some(End::C)
    } else if word == b"D".as_slice() {
        Some(End::D)
    } else if word == b"I".as_slice() {
        Some(End::I)
    } else if word == b"up".as_slice() {
        Some(End::Up)
    } else {
        None
    }
}

/// An end, if a device of this role has it.
fn had_by(role: Role, end: End) -> Option<End>
    ensures { result ≡ had_by role end }
{
    if end.is_of(role) { Some(end) } else { None }
}

/// The end of this word at a device of this role.
pub(crate) fn end_at(role: Role, word: &[u8]) -> Option<End>
    ensures { result ≡ end_at role word.now }
{
    had_by(role, end_of(word)?)
}

/// Which way packets pass an end, by the word behind it.
fn passing_of(end: End, word: Option<&[u8]>) -> Option<Passing>
    ensures { result ≡ passing_of end (option_map (λ w. w.now) word.entry) }
{
    let Some(word) = word else {
        // An end alone: each packet's flags tell it.
        return Some(Passing::Flags);
    };
    if word == b"in".as_slice() {
        Some(Passing::In)
    } else if word == b"out".as_slice() {
        Some(Passing::Out)
    } else if word == b"lane".as_slice() && end.has_lane() {
        Some(Passing::Lane)
    } else {
        None
    }
}

/// What an interface at an end is, by the word behind it.
fn tap_at(way: Option<&[u8]>, end: End) -> Option<Tap>
    ensures { result ≡ tap_at (option_map (λ w. w.now) way.entry) end }
{
    let passing = passing_of(end, way)?;
    Some(Tap { end, passing })
}

/// What an interface is, at a device of this role.
pub(crate) fn tap_of(role: Role, text: &[u8]) -> Option<Tap>
    ensures { result ≡ tap_of role text.now }
{
    let (word, way) = split_at(text, b' ');
    tap_at(way, end_at(role, word)?)
}

/// Everything has to agree.
pub(crate) fn nothing_ignored() -> Ignored
    ensures { result ≡ nothing_ignored }
{
    Ignored {
        path: false,
        padding: false,
        life_up: false,
        life_payload: false,
        interlink_source: false,
        interlink_flood: false,
        link_local: false,
    }
}

/// What need not agree, with what one more word says.
pub(crate) fn ignored_with(ignored: Ignored, word: &[u8]) -> Option<Ignored>
    ensures { result ≡ ignored_with ignored word.now }
{
    let mut with = ignored;
    if word == b"path".as_slice() {
        with.path = true;
    } else if word == b"padding".as_slice() {
        with.padding = true;
    } else if word == b"life-up".as_slice() {
        with.life_up = true;
    } else if word == b"life-payload".as_slice() {
        with.life_payload = true;
    } else if word == b"interlink-source".as_slice() {
        with.interlink_source = true;
    } else if word == b"interlink-flood".as_slice() {
        with.interlink_flood = true;
    } else if word == b"link-local".as_slice() {
        with.link_local = true;
    } else {
        return None;
    }
    Some(with)
}
