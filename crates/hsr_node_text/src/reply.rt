//! The lines that answer an event, and the line of counters.
ghost use Rattle.std.specs.Prelude.{◌≡◌, ◌≤◌, ◌^◌, ◌++◌, ◌∷◌, [], Some, codes, OnOk};
ghost use Rattle.std.specs.Fmt.{decimal};
ghost use Rattle.hex.specs.Hex.{encode_upper};
ghost use Rattle.hsr_frame.specs.Counters.{AreWithin};
ghost use Rattle.hsr_frame.specs.Words.{cause_text, fault_text};
ghost use Rattle.hsr_node.specs.Copies.{up_octets};
ghost use Rattle.hsr_node.specs.Flow.{sent_by};
ghost use Rattle.hsr_node_text.specs.Reply.{copies_text, copy_text, counter_line, is_told_again, leaving_text, number_text, outcome_line, outcome_text, passed_text, port_text, refusal_code, refused_text, stopped_text, verdict_text, word_if};

use crate::arrived::up_pieces;
use hsr_frame::{Cause, Counters, FrameFault, NoMemory};
use hsr_node::{Event, Outcome, Place, SentView, StepFault, head_out, sent_view, spelled_out};
use hsr_text::{put, put_count, put_hex, put_octets};

/// Puts the octets of a frame, which stand in two pieces, as hexadecimal digits.
fn put_pieces(text: &mut Vec<u8>, front: &[u8], rest: &[u8]) -> Result<(), NoMemory>
    ensures { OnOk result (text.new.items ≡ text.old.items ++ encode_upper (front.now ++ rest.now)) }
{
    put_hex(text, front)?;
    put_hex(text, rest)
}

/// Ends a line.
fn end_line(text: &mut Vec<u8>) -> Result<(), NoMemory>
    ensures { OnOk result (text.new.items ≡ text.old.items ++ codes "\n") }
{
    // One octet is pushed, since to copy a slice of one takes several times as long.
    text.push(b'\n')?;
    Ok(())
}

/// Puts the octets that leave by an egress, which stand in two pieces, behind its name, and ends the line.
fn put_leaving(text: &mut Vec<u8>, front: &[u8], rest: &[u8]) -> Result<(), NoMemory>
    ensures { OnOk result (text.new.items
        ≡ text.old.items ++ leaving_text [] (Some (front.now ++ rest.now))) }
{
    text.push(b' ')?;
    put_pieces(text, front, rest)?;
    end_line(text)
}

/// Puts the line of a port with the octets that leave by it, if some do.
fn put_copy(
    text: &mut Vec<u8>,
    place: &Place,
    event: &Event,
    outcome: &Outcome,
    port: u8,
) -> Result<(), NoMemory>
    ensures { OnOk result (text.new.items
        ≡ text.old.items ++ copy_text place.now event.now outcome.now port) }
{
    match spelled_out(place, event, outcome, port) {
        None => Ok(()),
        Some(octets) => {
            text.push(place.letter(port))?;
            let (front, rest) = octets.pieces();
            put_leaving(text, front, rest)
        }
    }
}

/// Puts the line of a port with the octets of a frame of the node's own that leave by it, if they do.
fn put_own(
    text: &mut Vec<u8>,
    place: &Place,
    event: &Event,
    outcome: &Outcome,
    sent: &SentView<'_>,
    port: u8,
) -> Result<(), NoMemory>
    requires { sent_by place.now event.now outcome.now ≡ Some sent.now }
    ensures { OnOk result (text.new.items
        ≡ text.old.items ++ copy_text place.now event.now outcome.now port) }
{
    match head_out(place, event, outcome, sent, port) {
        None => Ok(()),
        Some(head) => {
            text.push(place.letter(port))?;
            put_leaving(text, head.as_slice(), sent.frame.payload.as_slice())
        }
    }
}

/// Puts the line of what goes up, if something does.
fn put_up(text: &mut Vec<u8>, event: &Event, outcome: &Outcome) -> Result<(), NoMemory>
    ensures { OnOk result (text.new.items
        ≡ text.old.items ++ leaving_text (codes "up") (up_octets event.now outcome.now)) }
{
    match up_pieces(event, outcome) {
        None => Ok(()),
        Some((front, rest)) => {
            put(text, "up")?;
            put_leaving(text, front, rest)
        }
    }
}

/// Puts the lines of what leaves by the ports, in the order of their numbers.
fn put_copies(
    text: &mut Vec<u8>,
    place: &Place,
    event: &Event,
    outcome: &Outcome,
) -> Result<(), NoMemory>
    ensures { OnOk result (text.new.items
        ≡ text.old.items ++ copies_text place.now event.now outcome.now) }
{
    // No node has more than four ports.
    if let Some(sent) = sent_view(place, event, outcome) {
        // A frame of the node's own is formed once for all of them.
        put_own(text, place, event, outcome, &sent, 0)?;
        put_own(text, place, event, outcome, &sent, 1)?;
        put_own(text, place, event, outcome, &sent, 2)?;
        return put_own(text, place, event, outcome, &sent, 3);
    }
    put_copy(text, place, event, outcome, 0)?;
    put_copy(text, place, event, outcome, 1)?;
    put_copy(text, place, event, outcome, 2)?;
    put_copy(text, place, event, outcome, 3)
}

/// Whether the octets that leave by ports are told: not those that a DANH passes on, which leave as they came.
fn is_told_again(place: &Place, outcome: &Outcome) -> bool
    ensures { result ≡ is_told_again place.now outcome.now }
{
    match place {
        Place::Danh { .. } => match outcome {
            Outcome::Judged { .. } => false,
            _ => true,
        },
        _ => true,
    }
}

/// Puts the number of a frame, or a hyphen if it got none.
fn put_number(text: &mut Vec<u8>, seq: Option<u16>) -> Result<(), NoMemory>
    ensures { OnOk result (text.new.items ≡ text.old.items ++ number_text seq) }
{
    match seq {
        None => put(text, "-"),
        Some(seq) => put_count(text, b"", u64::from(seq)),
    }
}

/// Puts a word, if it is said.
fn put_if(text: &mut Vec<u8>, said: bool, word: &[u8]) -> Result<(), NoMemory>
    ensures { OnOk result (text.new.items ≡ text.old.items ++ word_if said word.now) }
{
    if said {
        return put_octets(text, word);
    }
    Ok(())
}

/// Puts the letter of a port behind a space, if something leaves by it.
fn put_port(text: &mut Vec<u8>, place: &Place, ports: &[bool; 4], port: u8) -> Result<(), NoMemory>
    ensures { OnOk result (text.new.items ≡ text.old.items ++ port_text place.now ports.now port) }
{
    // The letter is asked for only where it is put.
    if !ports.get(usize::from(port)).copied().unwrap_or(false) {
        return Ok(());
    }
    text.push(b' ')?;
    text.push(place.letter(port))?;
    Ok(())
}

/// Puts the number of a fault behind a space, if there is one.
fn put_fault(text: &mut Vec<u8>, fault: Option<FrameFault>) -> Result<(), NoMemory>
    ensures { OnOk result (text.new.items ≡ text.old.items ++ fault_text (codes " ") fault) }
{
    match fault {
        None => Ok(()),
        Some(fault) => put_count(text, b" ", u64::from(fault.code())),
    }
}

/// Puts why an arrival went where it did.
fn put_cause(text: &mut Vec<u8>, cause: Cause) -> Result<(), NoMemory>
    ensures { OnOk result (text.new.items ≡ text.old.items ++ cause_text (codes " ") cause) }
{
    text.extend_from_slice(cause.word().as_bytes())?;
    put_fault(text, cause.fault())
}

/// Puts the letters of the ports beside A and B, which lead to an interlink or to another ring, and ends the line.
fn put_other_ports(text: &mut Vec<u8>, place: &Place, ports: &[bool; 4]) -> Result<(), NoMemory>
    ensures { OnOk result (text.new.items ≡ text.old.items
        ++ port_text place.now ports.now 2 ++ port_text place.now ports.now 3 ++ codes "\n") }
{
    put_port(text, place, ports, 2)?;
    put_port(text, place, ports, 3)?;
    end_line(text)
}

/// Puts the egresses of an arrival, up and then the ports by their numbers, and ends the line.
fn put_verdict(
    text: &mut Vec<u8>,
    place: &Place,
    up: bool,
    ports: &[bool; 4],
) -> Result<(), NoMemory>
    ensures { OnOk result (text.new.items ≡ text.old.items ++ verdict_text place.now up ports.now) }
{
    put_if(text, up, b" up")?;
    put_port(text, place, ports, 0)?;
    put_port(text, place, ports, 1)?;
    put_other_ports(text, place, ports)
}

/// Puts the first line of what a node answers.
fn put_outcome_line(text: &mut Vec<u8>, place: &Place, outcome: &Outcome) -> Result<(), NoMemory>
    ensures { OnOk result (text.new.items ≡ text.old.items ++ outcome_line place.now outcome.now) }
{
    match outcome {
        Outcome::Sent { seq, ports: _ } => {
            text.extend_from_slice(b"sent ")?;
            put_number(text, *seq)?;
            end_line(text)
        }
        Outcome::Life {
            seq,
            life,
            ports: _,
        } => {
            put_count(text, b"life ", u64::from(*seq))?;
            put_count(text, b" ", u64::from(*life))?;
            end_line(text)
        }
        Outcome::Judged {
            up,
            ports,
            seq: _,
            cause,
        } => {
            put_cause(text, *cause)?;
            put_verdict(text, place, *up, ports)
        }
        Outcome::Aged => put(text, "aged\n"),
    }
}

/// Puts the lines by which a node of this kind answers an event: the outcome with the egresses of an arrival, what goes up, and
/// what leaves by each port. `NoMemory` if allocation fails.
#[tactic(auto, unfolding(crate::specs::Reply::outcome_text))]
pub fn put_outcome(
    text: &mut Vec<u8>,
    place: &Place,
    event: &Event,
    outcome: &Outcome,
) -> Result<(), NoMemory>
    ensures { OnOk result (text.new.items
        ≡ text.old.items ++ outcome_text place.now event.now outcome.now) }
{
    put_outcome_line(text, place, outcome)?;
    put_up(text, event, outcome)?;
    if is_told_again(place, outcome) {
        return put_copies(text, place, event, outcome);
    }
    Ok(())
}

/// The number of a reason why an event is refused, where its line is answered at all.
pub fn refusal_code(fault: StepFault) -> Option<u8>
    ensures { result ≡ refusal_code fault }
{
    match fault {
        // What a kind of node doesn't do is no line of it (RULES, Lines of `node`).
        StepFault::WrongEvent => None,
        StepFault::Send(fault) => Some(fault.code()),
        StepFault::Spent => Some(3),
        StepFault::NotProxied => Some(5),
        // Not met: an event takes memory only where a record is kept.
        StepFault::NoMemory => None,
    }
}

/// Puts the line of an event that was refused, by the number of its reason.
pub fn put_refused(text: &mut Vec<u8>, code: u8) -> Result<(), NoMemory>
    ensures { OnOk result (text.new.items ≡ text.old.items ++ refused_text code) }
{
    put_count(text, b"refused ", u64::from(code))?;
    end_line(text)
}

/// Puts how often a node sent, and what of what came it passed.
fn put_passed(text: &mut Vec<u8>, counters: &Counters) -> Result<(), NoMemory>
    ensures { OnOk result (text.new.items ≡ text.old.items ++ passed_text counters.now) }
{
    put_count(text, b"sent ", counters.sent)?;
    put_count(text, b" life ", counters.life)?;
    put_count(text, b" up ", counters.up)?;
    put_count(text, b" forwarded ", counters.forwarded)
}

/// Puts what of what came a node didn't pass.
fn put_stopped(text: &mut Vec<u8>, counters: &Counters) -> Result<(), NoMemory>
    requires { AreWithin counters.now (2 ^ 62) }
    ensures { OnOk result (text.new.items ≡ text.old.items ++ stopped_text counters.now) }
{
    put_count(text, b" duplicate ", counters.duplicate)?;
    put_count(text, b" returned ", counters.returned)?;
    put_count(text, b" dropped ", counters.dropped())?;
    end_line(text)
}

/// Puts the line of a node's counters.
/// `sent`, `life`, `up`, `forwarded`, `duplicate`, `returned` and `dropped`, each with its number. `NoMemory` if
/// allocation fails.
#[tactic(auto, unfolding(crate::specs::Reply::counter_line))]
pub fn put_counters(text: &mut Vec<u8>, counters: &Counters) -> Result<(), NoMemory>
    requires { AreWithin counters.now (2 ^ 62) }
    ensures { OnOk result (text.new.items ≡ text.old.items ++ counter_line counters.now) }
{
    put_passed(text, counters)?;
    put_stopped(text, counters)
}
