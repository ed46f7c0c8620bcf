//! The lines of entries.
ghost use Rattle.std.specs.Prelude.{◌≡◌, ◌++◌, ◌∷◌, OnOk, IfOk, IfSome, codes, true, false};
ghost use Rattle.hsr_transcript_lines.specs.Fits.{IsEntryFit, IsEventFit, IsOutcomeFit, IsSendFit};
ghost use Rattle.hsr_transcript_lines.specs.Spelled.{entry_text, event_text, outcome_text, port_text, ports_text, up_text};

use crate::lines::LineKind;
use crate::parsing::{
    has_octet, read_about, read_cause, read_number, read_octet, read_port, read_ports, read_probe,
    read_seq, read_vlan, tail_of,
};
use crate::upper::is_upper;
use crate::words::{
    about_fits, carried_fits, mac_fits, put_about, put_cause, put_hex_u16, put_next_mac,
    put_number, put_octets, put_probe, put_seq, put_vlan, put_word,
};
use hsr_frame::{Mac, NoMemory};
use hsr_node::{Carried, Entry, Event, Octets, Outcome, Place};
use hsr_text::{TimeUnit, WordFault, hex_octets, hex_pair, put_decimal, short_word, word};
use std::alloc::Global;

/// The line of an entry of a node at this place, with its moment in this unit: `<worker> <at> <event> = <outcome>`.
#[derive(Clone, Copy)]
pub struct EntryLine<'a> {
    pub alloc: Global,
    pub unit: TimeUnit,
    pub place: &'a Place,
}

/// Puts an event.
#[tactic(auto, unfolding(crate::specs::Spelled::event_text))]
fn put_event(
    alloc: Global,
    text: &mut Vec<u8>,
    place: &Place,
    event: &Event,
) -> Result<(), NoMemory>
    ensures { OnOk result (text.new.items ≡ text.old.items ++ event_text place.now event.now) }
{
    match event {
        Event::Send {
            from,
            dst,
            vlan,
            kind: ethertype,
            payload,
        } => {
            text.extend_from_slice(b"send")?;
            put_number(text, u64::from(*from))?;
            put_next_mac(alloc, text, *dst)?;
            put_vlan(text, *vlan)?;
            put_hex_u16(text, *ethertype)?;
            put_octets(text, payload.as_slice())
        }
        Event::Supervise(about) => {
            text.extend_from_slice(b"life")?;
            put_about(alloc, text, *about)
        }
        Event::Arrive { port, carried } => {
            text.extend_from_slice(b"arrive ")?;
            text.push(place.letter(*port))?;
            put_probe(text, carried.probe)?;
            put_octets(text, carried.octets.as_slice())
        }
        Event::Age => {
            text.extend_from_slice(b"age")?;
            Ok(())
        }
    }
}

/// Puts a space and the letter of a port, if something left by it.
fn put_port(text: &mut Vec<u8>, place: &Place, ports: &[bool; 4], port: u8) -> Result<(), NoMemory>
    ensures { OnOk result (text.new.items ≡ text.old.items ++ port_text place.now ports.now port) }
{
    // A node has four ports at most, so a port past them let nothing out.
    if ports.get(usize::from(port)).copied().unwrap_or(false) {
        put_word(text, &[place.letter(port)])
    } else {
        Ok(())
    }
}

/// Puts the letters of the ports by which something left.
fn put_ports(text: &mut Vec<u8>, place: &Place, ports: &[bool; 4]) -> Result<(), NoMemory>
    ensures { OnOk result (text.new.items ≡ text.old.items ++ ports_text place.now ports.now) }
{
    put_port(text, place, ports, 0)?;
    put_port(text, place, ports, 1)?;
    put_port(text, place, ports, 2)?;
    put_port(text, place, ports, 3)
}

/// Puts whether a frame went up.
fn put_up(text: &mut Vec<u8>, up: bool) -> Result<(), NoMemory>
    ensures { OnOk result (text.new.items ≡ text.old.items ++ up_text up) }
{
    if up {
        text.extend_from_slice(b" up")?;
        Ok(())
    } else {
        Ok(())
    }
}

/// Puts an outcome.
#[tactic(auto, unfolding(crate::specs::Spelled::outcome_text))]
fn put_outcome(text: &mut Vec<u8>, place: &Place, outcome: &Outcome) -> Result<(), NoMemory>
    ensures { OnOk result (text.new.items ≡ text.old.items ++ outcome_text place.now outcome.now) }
{
    match outcome {
        Outcome::Sent { seq, ports } => {
            text.extend_from_slice(b"sent")?;
            put_seq(text, *seq)?;
            put_ports(text, place, ports)
        }
        Outcome::Life { seq, life, ports } => {
            text.extend_from_slice(b"life")?;
            put_number(text, u64::from(*seq))?;
            put_number(text, u64::from(*life))?;
            put_ports(text, place, ports)
        }
        Outcome::Judged {
            up,
            ports,
            seq,
            cause,
        } => {
            text.extend_from_slice(b"judged")?;
            put_cause(text, *cause)?;
            put_seq(text, *seq)?;
            put_up(text, *up)?;
            put_ports(text, place, ports)
        }
        Outcome::Aged => {
            text.extend_from_slice(b"aged")?;
            Ok(())
        }
    }
}

/// Puts the line of an entry.
#[tactic(auto, unfolding(crate::specs::Spelled::entry_text))]
fn put_entry(
    alloc: Global,
    text: &mut Vec<u8>,
    unit: TimeUnit,
    place: &Place,
    entry: &Entry,
) -> Result<(), NoMemory>
    ensures { OnOk result (text.new.items ≡ text.old.items ++ entry_text unit place.now entry.now) }
{
    put_decimal(text, u64::from(entry.worker))?;
    put_number(text, unit.whole_units(entry.at))?;
    text.push(b' ')?;
    put_event(alloc, text, place, &entry.event)?;
    text.extend_from_slice(b" = ")?;
    put_outcome(text, place, &entry.outcome)
}

/// An event that some words say, and what stands behind them.
struct Leading<'a> {
    event: Event,
    rest: Option<&'a [u8]>,
    /// Whether the words are surely those that the event is spelled by.
    sure: bool,
}

/// What the words of a send say, `<from> <dst> <vlan4> <type4> <payload>`; surely so where their digits are in upper case.
fn read_send<'a>(alloc: Global, rest: Option<&'a [u8]>) -> Result<Leading<'a>, WordFault>
    ensures said { Gives (λ e. (e.event, option_map (λ s. s.now) e.rest)) result
        (read_send (option_map (λ s. s.now) rest.entry)) }
    ensures sure { IfOk result (λ e. e.sure ≡ true → (place : Place)
        → codes "send" ++ after (option_map (λ s. s.now) rest.entry)
        ≡ event_text place e.event ++ after (option_map (λ s. s.now) e.rest)) }
{
    let (from, rest) = short_word(rest).ok_or(WordFault::Bad)?;
    let from = read_octet(from).ok_or(WordFault::Bad)?;
    let (address, rest) = short_word(rest).ok_or(WordFault::Bad)?;
    let dst = Mac::from_ascii(address).ok().ok_or(WordFault::Bad)?;
    let (control, rest) = short_word(rest).ok_or(WordFault::Bad)?;
    let vlan = read_vlan(control).ok_or(WordFault::Bad)?;
    let (pair, rest) = short_word(rest).ok_or(WordFault::Bad)?;
    let ethertype = hex_pair(pair).ok_or(WordFault::Bad)?;
    let (digits, rest) = word(rest).ok_or(WordFault::Bad)?;
    let payload = Octets::new(hex_octets(alloc, digits)?);
    // `&` and not `&&`: all are looked at, so that there are no branches.
    let sure = is_upper(address) & is_upper(control) & is_upper(pair) & is_upper(digits);
    let event = Event::Send {
        from,
        dst,
        vlan,
        kind: ethertype,
        payload,
    };
    Ok(Leading { event, rest, sure })
}

/// What the word of a supervision says, `own` or an address. It is short, and spelled again.
fn read_life<'a>(rest: Option<&'a [u8]>) -> Option<Leading<'a>>
    ensures said { option_map (λ e. (e.event, option_map (λ s. s.now) e.rest)) result
        ≡ read_life (option_map (λ s. s.now) rest.entry) }
    ensures unsure { IfSome result (λ e. e.sure ≡ false) }
{
    let (about, rest) = short_word(rest)?;
    let about = read_about(about)?;
    Some(Leading {
        event: Event::Supervise(about),
        rest,
        // It is short, so spelling it again costs little.
        sure: false,
    })
}

/// What the words of an arrival at this place say, `<port> <probe> <octets>`; surely so where the port has its letter alone and
/// the digits are in upper case.
fn read_arrive<'a>(
    alloc: Global,
    place: &Place,
    rest: Option<&'a [u8]>,
) -> Result<Leading<'a>, WordFault>
    ensures said { Gives (λ e. (e.event, option_map (λ s. s.now) e.rest)) result
        (read_arrive place.now (option_map (λ s. s.now) rest.entry)) }
    ensures sure { IfOk result (λ e. e.sure ≡ true
        → codes "arrive" ++ after (option_map (λ s. s.now) rest.entry)
        ≡ event_text place.now e.event ++ after (option_map (λ s. s.now) e.rest)) }
{
    let (name, rest) = short_word(rest).ok_or(WordFault::Bad)?;
    let port = read_port(place, name).ok_or(WordFault::Bad)?;
    let (probe, rest) = short_word(rest).ok_or(WordFault::Bad)?;
    let probe = Some(read_probe(probe).ok_or(WordFault::Bad)?);
    let (digits, rest) = word(rest).ok_or(WordFault::Bad)?;
    let octets = Octets::new(hex_octets(alloc, digits)?);
    let letter = [place.letter(port)];
    // `read_port` looks at the first letter alone.
    let sure = (name == letter.as_slice()) & is_upper(digits);
    let carried = Carried { probe, octets };
    let event = Event::Arrive { port, carried };
    Ok(Leading { event, rest, sure })
}

/// What the words of an event say.
#[tactic(auto, unfolding(crate::specs::Parsed::read_event))]
fn read_event<'a>(
    alloc: Global,
    place: &Place,
    rest: Option<&'a [u8]>,
) -> Result<Leading<'a>, WordFault>
    ensures said { Gives (λ e. (e.event, option_map (λ s. s.now) e.rest)) result
        (read_event place.now (option_map (λ s. s.now) rest.entry)) }
    ensures sure { IfOk result (λ e. e.sure ≡ true
        → after (option_map (λ s. s.now) rest.entry)
        ≡ 32 ∷ (event_text place.now e.event ++ after (option_map (λ s. s.now) e.rest))) }
{
    let (verb, rest) = short_word(rest).ok_or(WordFault::Bad)?;
    if verb == b"send".as_slice() {
        return read_send(alloc, rest);
    }
    if verb == b"life".as_slice() {
        return read_life(rest).ok_or(WordFault::Bad);
    }
    if verb == b"arrive".as_slice() {
        return read_arrive(alloc, place, rest);
    }
    if verb == b"age".as_slice() {
        return Ok(Leading {
            event: Event::Age,
            rest,
            sure: true,
        });
    }
    Err(WordFault::Bad)
}

/// What the words of a send's outcome say: `<seq>` and the ports.
fn read_sent(place: &Place, rest: Option<&[u8]>) -> Option<Outcome>
    ensures { result ≡ read_sent place.now (option_map (λ s. s.now) rest.entry) }
{
    let (seq, rest) = short_word(rest)?;
    let seq = read_seq(seq)?;
    let ports = read_ports(place, tail_of(rest));
    Some(Outcome::Sent { seq, ports })
}

/// What the words of a supervision's outcome say: `<seq> <life>` and the ports.
fn read_lived(place: &Place, rest: Option<&[u8]>) -> Option<Outcome>
    ensures { result ≡ read_lived place.now (option_map (λ s. s.now) rest.entry) }
{
    let (seq, rest) = short_word(rest)?;
    let seq = read_number(seq)?;
    let (life, rest) = short_word(rest)?;
    let life = read_number(life)?;
    let ports = read_ports(place, tail_of(rest));
    Some(Outcome::Life { seq, life, ports })
}

/// What the words of an arrival's outcome say: `<cause> <seq>`, whether it went up, and the ports.
fn read_judged(place: &Place, rest: Option<&[u8]>) -> Option<Outcome>
    ensures { result ≡ read_judged place.now (option_map (λ s. s.now) rest.entry) }
{
    let (cause, rest) = short_word(rest)?;
    let cause = read_cause(cause)?;
    let (seq, rest) = short_word(rest)?;
    let seq = read_seq(seq)?;
    let tail = tail_of(rest);
    // No port has the letter `u`, so it is enough to find it: the spelling is compared afterwards.
    let up = has_octet(b'u', tail);
    let ports = read_ports(place, tail);
    Some(Outcome::Judged {
        up,
        ports,
        seq,
        cause,
    })
}

/// What the words of an outcome say.
#[tactic(auto, unfolding(crate::specs::Parsed::read_outcome))]
fn read_outcome(place: &Place, rest: Option<&[u8]>) -> Option<Outcome>
    ensures { result ≡ read_outcome place.now (option_map (λ s. s.now) rest.entry) }
{
    let (verb, rest) = short_word(rest)?;
    if verb == b"sent".as_slice() {
        return read_sent(place, rest);
    }
    if verb == b"life".as_slice() {
        return read_lived(place, rest);
    }
    if verb == b"judged".as_slice() {
        return read_judged(place, rest);
    }
    if verb == b"aged".as_slice() {
        return Some(Outcome::Aged);
    }
    None
}

/// Whether some words are the text of an outcome, which is spelled in the room for it.
fn is_text_of(
    room: &mut Vec<u8>,
    place: &Place,
    outcome: &Outcome,
    rest: Option<&[u8]>,
) -> Result<bool, NoMemory>
    ensures { IfOk result (λ same. same ≡ true
        → after (option_map (λ s. s.now) rest.entry) ≡ 32 ∷ outcome_text place.now outcome.now) }
{
    let Some(words) = rest else {
        return Ok(false);
    };
    // The same room for each line, so that comparing takes no new memory.
    room.clear();
    put_outcome(room, place, outcome)?;
    Ok(room.as_slice() == words)
}

/// What the line of an entry says, and whether it is surely spelled so. Of a sure event only the outcome is spelled again.
#[tactic(auto, unfolding(crate::specs::Parsed::read_entry))]
fn read_entry(
    alloc: Global,
    unit: TimeUnit,
    place: &Place,
    line: &[u8],
    room: &mut Vec<u8>,
) -> Result<(Entry, bool), WordFault>
    ensures said { Gives (λ e. e.0) result (read_entry unit place.now line.now) }
    ensures sure { IfOk result (λ e. e.1 ≡ true → entry_text unit place.now e.0 ≡ line.now) }
{
    let (worker, rest) = short_word(Some(line)).ok_or(WordFault::Bad)?;
    let worker = read_number(worker).ok_or(WordFault::Bad)?;
    let (at, rest) = short_word(rest).ok_or(WordFault::Bad)?;
    let at = unit.read(at).ok_or(WordFault::Bad)?;
    let Leading { event, rest, sure } = read_event(alloc, place, rest)?;
    let (equals, rest) = short_word(rest).ok_or(WordFault::Bad)?;
    let outcome = read_outcome(place, rest).ok_or(WordFault::Bad)?;
    // Only the short outcome is spelled again: the event's octets are most of a line.
    let Ok(spelled) = is_text_of(room, place, &outcome, rest) else {
        return Err(WordFault::Memory);
    };
    let entry = Entry {
        worker,
        at,
        event,
        outcome,
    };
    let sure = sure & (equals == b"=".as_slice()) & spelled;
    Ok((entry, sure))
}

ghost use Rattle.std.specs.Prelude.{option_map};
ghost use Rattle.hsr_node.specs.declared.place.Place.{Place};
ghost use Rattle.hsr_transcript_lines.specs.Exact.{after};
ghost use Rattle.hsr_text.specs.Words.{Gives};
ghost use Rattle.hsr_transcript_lines.specs.Parsed.{read_arrive, read_entry, read_event, read_judged, read_life, read_lived, read_outcome, read_send, read_sent};

/// What the types tell of a send.
fn send_fits(from: u8, dst: Mac, vlan: Option<u16>, ethertype: u16, payload: &[u8])
    ensures { IsSendFit from dst vlan ethertype payload.now }
{
    mac_fits(dst);
}

/// What the types tell of an event.
fn event_fits(event: &Event)
    ensures { IsEventFit event.now }
{
    match event {
        Event::Send {
            from,
            dst,
            vlan,
            kind: ethertype,
            payload,
        } => send_fits(*from, *dst, *vlan, *ethertype, payload.as_slice()),
        Event::Supervise(about) => about_fits(*about),
        Event::Arrive { port: _, carried } => carried_fits(carried),
        Event::Age => {}
    }
}

/// What the types tell of an outcome.
fn outcome_fits(outcome: Outcome)
    ensures { IsOutcomeFit outcome }
{}

/// What the types tell of an entry.
fn entry_fits(entry: &Entry)
    ensures { IsEntryFit entry.now }
{
    // Nothing is done with it: naming it tells the proof the bounds of its type.
    let _worker = entry.worker;
    // As above.
    let _at = entry.at;
    event_fits(&entry.event);
    outcome_fits(entry.outcome);
}

impl<'a> LineKind for EntryLine<'a> {
    ghost use Rattle.hsr_transcript_lines.specs.Fits.{IsEntryFit};
    ghost use Rattle.hsr_transcript_lines.specs.Spelled.{entry_text};
    ghost use Rattle.hsr_transcript_lines.specs.Parsed.{read_entry};

    type Value = Entry;

    ghost spelled = { λ s. entry_text s.unit s.place.now };

    ghost said = { λ s. read_entry s.unit s.place.now };

    ghost fits = { λ _. IsEntryFit };

    fn put(&self, text: &mut Vec<u8>, entry: &Entry) -> Result<(), NoMemory> {
        // Nothing is done here: its clause tells the proof what the types keep.
        entry_fits(entry);
        put_entry(self.alloc, text, self.unit, self.place, entry)
    }

    fn parse(
        &self,
        alloc: Global,
        line: &[u8],
        room: &mut Vec<u8>,
    ) -> Result<(Entry, bool), WordFault> {
        read_entry(alloc, self.unit, self.place, line, room)
    }
}
