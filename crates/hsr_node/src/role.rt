//! The roles of places, and the letters of their ports, as texts have them.
ghost use Rattle.std.specs.Prelude.{◌≡◌, ◌==◌, ◌≤◌, ◌<◌, ℕ, IfSome, Some, length, position};
ghost use Rattle.hsr_node.specs.Place.{ports};
ghost use Rattle.hsr_node.specs.Words.{letter, letters, port_of, role_in, role_of, role_word};
ghost use Rattle.hsr_node.specs.declared.place.Place.{Place};

use crate::place::Place;

/// What a place is, without its addresses.
#[derive(Clone, Copy, PartialEq, Eq)]
pub enum Role {
    Danh,
    RedBox,
    QuadBox,
    Station,
}

impl Role {
    /// Its word in texts.
    pub fn word(self) -> &'static str
        ensures { result.now ≡ role_word self }
    {
        match self {
            Role::Danh => "danh",
            Role::RedBox => "redbox",
            Role::QuadBox => "quadbox",
            Role::Station => "station",
        }
    }

    /// The role whose word this is.
    #[tactic(auto, using(crate::proofs::Spelled::role_again))]
    pub fn from_word(word: &[u8]) -> Option<Role>
        ensures value { result ≡ role_of word.now }
        ensures again { (role : Role) → role_of (role_word role) ≡ Some role }
    {
        // Both sides of `==` have one type, so an octet literal is compared as a slice.
        if word == b"danh".as_slice() {
            Some(Role::Danh)
        } else if word == b"redbox".as_slice() {
            Some(Role::RedBox)
        } else if word == b"quadbox".as_slice() {
            Some(Role::QuadBox)
        } else if word == b"station".as_slice() {
            Some(Role::Station)
        } else {
            None
        }
    }
}

/// The place of the first octet that is equal to this one.
fn index_of(octets: &[u8], octet: u8) -> Option<usize>
    ensures value { result ≡ position (λ b. b == octet) octets.now }
    ensures within { IfSome result (λ n. n < length octets.now) }
{
    octets.iter().position(|b| *b == octet)
}

impl Place {
    /// Its role.
    pub fn role(&self) -> Role
        ensures { result ≡ role_in self.now }
    {
        match self {
            Place::Danh { .. } => Role::Danh,
            Place::RedBox { .. } => Role::RedBox,
            Place::QuadBox => Role::QuadBox,
            Place::Station { .. } => Role::Station,
        }
    }

    /// The letters of its ports, in the order of their numbers.
    pub fn letters(&self) -> &'static [u8]
        ensures value { result.now ≡ letters self.now }
        ensures most { length result.now ≤ 4 }
    {
        match self {
            Place::Danh { .. } => b"AB",
            Place::RedBox { .. } => b"ABI",
            Place::QuadBox => b"ABCD",
            Place::Station { .. } => b"P",
        }
    }

    /// The letter of a port; a question mark for one that it hasn't.
    pub fn letter(&self, port: u8) -> u8
        ensures { result ≡ letter self.now port }
    {
        self.letters()
            .get(usize::from(port))
            .copied()
            .unwrap_or(b'?')
    }

    /// The number of its port whose letter this octet is.
    #[tactic(auto, using(crate::proofs::Spelled::letter_again))]
    pub fn port(&self, octet: u8) -> Option<u8>
        ensures value { result ≡ port_of self.now octet }
        ensures again { (place : Place) (port : ℕ) → port < ports place
            → port_of place (letter place port) ≡ Some port }
    {
        match index_of(self.letters(), octet) {
            Some(port) => Some(port as u8),
            None => None,
        }
    }
}
