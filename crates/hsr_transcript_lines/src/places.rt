//! The lines of nodes, links and the main worker's order.
ghost use Rattle.std.specs.Prelude.{◌≡◌, ◌++◌, ◌∷◌, [], OnOk, map};
ghost use Rattle.std.specs.Fmt.{decimal};
ghost use Rattle.std.specs.List.{AllByRecursion};
ghost use Rattle.hsr_frame.specs.Address.{IsAddress};
ghost use Rattle.hsr_transcript_lines.specs.Fits.{IsPlaceFit};
ghost use Rattle.hsr_transcript_lines.specs.Spelled.{end_text, link_text, place_text, spaced};
ghost use Rattle.hsr_frame.specs.Words.{mode_word};
ghost use Rattle.hsr_node.specs.Words.{role_word};

use crate::lines::LineKind;
use crate::parsing::read_port;
use crate::words::{mac_fits, put_next_mac, put_number, put_word};
use arrayvec::ArrayVec;
use hsr_frame::{Mac, Mode, NoMemory};
use hsr_node::{Place, Role};
use hsr_text::{WordFault, decimal, put_decimal, short_word, split_at};
use hsr_topology::End;
use std::alloc::Global;

/// The line of a node: its role, and its addresses and mode where it has some.
#[derive(Clone, Copy)]
pub struct PlaceLine {
    pub alloc: Global,
}

/// The line of a link between two of these nodes: `<node>.<port> <node>.<port>`.
#[derive(Clone, Copy)]
pub struct LinkLine<'a> {
    pub places: &'a [Place],
}

/// A line of a number alone, in decimal.
#[derive(Clone, Copy)]
pub struct NumberLine;

/// A line of this name and a number: `<name> <count>`.
#[derive(Clone, Copy)]
pub struct CountLine<'a> {
    pub name: &'a [u8],
}

/// A line that is known, and says nothing.
#[derive(Clone, Copy)]
pub struct FixedLine<'a> {
    pub line: &'a [u8],
}

/// Puts a role, an address and a mode.
fn put_ring_node(
    alloc: Global,
    text: &mut Vec<u8>,
    role: Role,
    mac: Mac,
    mode: Mode,
) -> Result<(), NoMemory>
    ensures written { OnOk result (text.new.items
        ≡ text.old.items ++ spaced (role_word role) (mac_text mac ∷ mode_word mode ∷ [])) }
    ensures fits { IsAddress mac }
{
    // Nothing is done here: its clause tells the proof that an address has six octets.
    mac_fits(mac);
    text.extend_from_slice(role.word().as_bytes())?;
    put_next_mac(alloc, text, mac)?;
    put_word(text, mode.word().as_bytes())
}

/// Puts a word and the addresses behind it.
fn put_station(alloc: Global, text: &mut Vec<u8>, word: &[u8], macs: &[Mac]) -> Result<(), NoMemory>
    ensures written { OnOk result (text.new.items
        ≡ text.old.items ++ spaced word.now (map mac_text macs.now)) }
    ensures fit { OnOk result (AllByRecursion IsAddress macs.now) }
{
    text.extend_from_slice(word)?;
    for mac in macs {
        // Nothing is done here: its clause tells the proof that an address has six octets.
        mac_fits(*mac);
        put_next_mac(alloc, text, *mac)?;
    }
    Ok(())
}

/// Puts the line of a node.
#[tactic(auto, unfolding(crate::specs::Spelled::place_text))]
fn put_place(alloc: Global, text: &mut Vec<u8>, place: &Place) -> Result<(), NoMemory>
    ensures written { OnOk result (text.new.items ≡ text.old.items ++ place_text place.now) }
    ensures fits { OnOk result (IsPlaceFit place.now) }
{
    match place {
        Place::Danh { mac, mode } => put_ring_node(alloc, text, Role::Danh, *mac, *mode),
        Place::RedBox { mac, mode } => put_ring_node(alloc, text, Role::RedBox, *mac, *mode),
        Place::QuadBox => {
            text.extend_from_slice(Role::QuadBox.word().as_bytes())?;
            Ok(())
        }
        Place::Station { macs } => put_station(
            alloc,
            text,
            Role::Station.word().as_bytes(),
            macs.as_slice(),
        ),
    }
}

/// The letter of an end's port.
fn end_letter(places: &[Place], end: End) -> u8
    ensures { result ≡ letter (slice_index_or places.now end.node QuadBox) end.port }
{
    match places.get(end.node) {
        Some(place) => place.letter(end.port),
        // Never so in a topology. A letter stands there all the same, so that the line is total.
        None => Place::QuadBox.letter(end.port),
    }
}

ghost use Rattle.std.specs.Prelude.{slice_index_or};
ghost use Rattle.hsr_node.specs.declared.place.Place.TheVariants.{QuadBox};
ghost use Rattle.hsr_node.specs.Words.{letter};

/// Puts an end of a link.
fn put_end(text: &mut Vec<u8>, places: &[Place], end: End) -> Result<(), NoMemory>
    ensures { OnOk result (text.new.items ≡ text.old.items ++ end_text places.now end) }
{
    put_decimal(text, end.node as u64)?;
    text.push(b'.')?;
    text.push(end_letter(places, end))?;
    Ok(())
}

/// Puts the line of a link.
#[tactic(auto, unfolding(crate::specs::Spelled::link_text))]
fn put_link(text: &mut Vec<u8>, places: &[Place], ends: &[End; 2]) -> Result<(), NoMemory>
    ensures { OnOk result (text.new.items ≡ text.old.items ++ link_text places.now ends.now) }
{
    let [a, b] = *ends;
    put_end(text, places, a)?;
    text.push(b' ')?;
    put_end(text, places, b)
}

/// An address and a mode.
fn read_ring_node(rest: Option<&[u8]>) -> Option<(Mac, Mode)>
    ensures danh { option_map (λ n. Danh n.0 n.1) result
        ≡ read_ring_node Danh (option_map (λ s. s.now) rest.entry) }
    ensures redbox { option_map (λ n. RedBox n.0 n.1) result
        ≡ read_ring_node RedBox (option_map (λ s. s.now) rest.entry) }
{
    let (address, rest) = short_word(rest)?;
    let mac = Mac::from_ascii(address).ok()?;
    // What follows the mode isn't looked at: `read_line` spells the line again and compares.
    let (mode, _) = short_word(rest)?;
    let mode = Mode::from_word(mode)?;
    Some((mac, mode))
}

/// Addresses, at most sixteen.
fn read_macs(rest: Option<&[u8]>) -> Option<ArrayVec<Mac, 16>>
    ensures { option_map (λ macs. macs.items) result
        ≡ read_macs 16 (option_map (λ s. s.now) rest.entry) }
{
    let mut macs = ArrayVec::<Mac, 16>::new();
    let mut left = rest;
    while let Some((address, rest)) = short_word(left) {
        // A Station has 16 addresses at most (RULES, Stations).
        if macs.is_full() {
            return None;
        }
        macs.push(Mac::from_ascii(address).ok()?);
        left = rest;
    }
    Some(macs)
}

/// The addresses of a station, of which it has at least one.
fn read_station(rest: Option<&[u8]>) -> Option<Place>
    ensures { result ≡ read_station (option_map (λ s. s.now) rest.entry) }
{
    let macs = read_macs(rest)?;
    if macs.is_empty() {
        return None;
    }
    Some(Place::Station { macs })
}

/// What the line of a node says.
#[tactic(auto, unfolding(crate::specs::Parsed::read_place))]
fn read_place(line: &[u8]) -> Option<Place>
    ensures { result ≡ read_place line.now }
{
    let (role, rest) = short_word(Some(line))?;
    match Role::from_word(role)? {
        Role::Danh => {
            let (mac, mode) = read_ring_node(rest)?;
            Some(Place::Danh { mac, mode })
        }
        Role::RedBox => {
            let (mac, mode) = read_ring_node(rest)?;
            Some(Place::RedBox { mac, mode })
        }
        Role::QuadBox => Some(Place::QuadBox),
        Role::Station => read_station(rest),
    }
}

/// An end of a link between two of these nodes.
fn read_end(places: &[Place], word: &[u8]) -> Option<End>
    ensures { result ≡ read_end places.now word.now }
{
    let (digits, rest) = split_at(word, b'.');
    let node = decimal(digits)? as usize;
    let place = places.get(node)?;
    let port = read_port(place, rest?)?;
    Some(End { node, port })
}

/// What the line of a link says.
#[tactic(auto, unfolding(crate::specs::Parsed::read_link))]
fn read_link(places: &[Place], line: &[u8]) -> Option<[End; 2]>
    ensures { result ≡ read_link places.now line.now }
{
    let (first, rest) = short_word(Some(line))?;
    let a = read_end(places, first)?;
    // What follows isn't looked at: `read_line` spells the line again and compares.
    let (second, _) = short_word(rest)?;
    let b = read_end(places, second)?;
    Some([a, b])
}

/// The number behind a name.
fn number_behind(line: &[u8]) -> Option<u64>
    ensures { result ≡ number_in (cut 32 line.now).1 }
{
    // The name isn't looked at: `read_line` spells the line again and compares.
    let (_, rest) = short_word(Some(line))?;
    decimal(rest?)
}

ghost use Rattle.std.specs.Prelude.{option_map, Option, List, ℕ};
ghost use Rattle.hsr_text.specs.Words.{cut, decimal_of, mac_text};
ghost use Rattle.hsr_node.specs.declared.place.Place.TheVariants.{Danh, RedBox};
ghost use Rattle.hsr_transcript_lines.specs.Parsed.{read_end, read_link, read_macs, number_in, read_place, read_ring_node, read_station};
ghost use Rattle.hsr_transcript_lines.specs.Lines.{head};

impl LineKind for PlaceLine {
    ghost use Rattle.hsr_transcript_lines.specs.Fits.{IsPlaceFit};
    ghost use Rattle.hsr_transcript_lines.specs.Spelled.{place_text};
    ghost use Rattle.hsr_transcript_lines.specs.Parsed.{read_place};

    type Value = Place;

    ghost spelled = { λ _. place_text };

    ghost said = { λ _. read_place };

    ghost fits = { λ _. IsPlaceFit };

    fn put(&self, text: &mut Vec<u8>, place: &Place) -> Result<(), NoMemory> {
        put_place(self.alloc, text, place)
    }

    fn parse(
        &self,
        _alloc: Global,
        line: &[u8],
        _room: &mut Vec<u8>,
    ) -> Result<(Place, bool), WordFault> {
        let value = read_place(line).ok_or(WordFault::Bad)?;
        Ok((value, false))
    }
}

impl<'a> LineKind for LinkLine<'a> {
    ghost use Rattle.hsr_transcript_lines.specs.Spelled.{link_text};
    ghost use Rattle.hsr_transcript_lines.specs.Parsed.{read_link};

    type Value = [End; 2];

    ghost spelled = { λ s. link_text s.places.now };

    ghost said = { λ s. read_link s.places.now };

    ghost fits = { λ _ _. Unit {0} };

    fn put(&self, text: &mut Vec<u8>, ends: &[End; 2]) -> Result<(), NoMemory> {
        put_link(text, self.places, ends)
    }

    fn parse(
        &self,
        _alloc: Global,
        line: &[u8],
        _room: &mut Vec<u8>,
    ) -> Result<([End; 2], bool), WordFault> {
        let value = read_link(self.places, line).ok_or(WordFault::Bad)?;
        Ok((value, false))
    }
}

impl LineKind for NumberLine {
    ghost use Rattle.std.specs.Fmt.{decimal};
    ghost use Rattle.hsr_text.specs.Words.{decimal_of};

    type Value = u64;

    ghost spelled = { λ _. decimal };

    ghost said = { λ _. decimal_of };

    ghost fits = { λ _ _. Unit {0} };

    fn put(&self, text: &mut Vec<u8>, n: &u64) -> Result<(), NoMemory> {
        put_decimal(text, *n)
    }

    fn parse(
        &self,
        _alloc: Global,
        line: &[u8],
        _room: &mut Vec<u8>,
    ) -> Result<(u64, bool), WordFault> {
        let value = decimal(line).ok_or(WordFault::Bad)?;
        // A decimal number has one spelling, which is all that `decimal` reads.
        Ok((value, true))
    }
}

impl<'a> LineKind for CountLine<'a> {
    ghost use Rattle.hsr_text.specs.Words.{cut};
    ghost use Rattle.hsr_transcript_lines.specs.Lines.{head};
    ghost use Rattle.hsr_transcript_lines.specs.Parsed.{number_in};

    type Value = u64;

    ghost spelled = { λ s. head s.name.now };

    ghost said = { λ s line. number_in (cut 32 line).1 };

    ghost fits = { λ _ _. Unit {0} };

    fn put(&self, text: &mut Vec<u8>, n: &u64) -> Result<(), NoMemory> {
        text.extend_from_slice(self.name)?;
        put_number(text, *n)
    }

    fn parse(
        &self,
        _alloc: Global,
        line: &[u8],
        _room: &mut Vec<u8>,
    ) -> Result<(u64, bool), WordFault> {
        let value = number_behind(line).ok_or(WordFault::Bad)?;
        Ok((value, false))
    }
}

impl<'a> LineKind for FixedLine<'a> {
    ghost use Rattle.std.specs.Prelude.{Some};

    type Value = ();

    ghost spelled = { λ s _. s.line.now };

    ghost said = { λ _ _. Some tt };

    ghost fits = { λ _ _. Unit {0} };

    fn put(&self, text: &mut Vec<u8>, _value: &()) -> Result<(), NoMemory> {
        text.extend_from_slice(self.line)?;
        Ok(())
    }

    fn parse(
        &self,
        _alloc: Global,
        line: &[u8],
        _room: &mut Vec<u8>,
    ) -> Result<((), bool), WordFault> {
        Ok(((), self.line == line))
    }
}
