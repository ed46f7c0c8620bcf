//! What a node answers to a line.
ghost use Rattle.std.specs.Prelude.{Option, Some, option_map};
ghost use Rattle.hsr_text.specs.Words.{Gives};
ghost use Rattle.hsr_node_text.specs.declared.request.Request.{Request as Asked};
ghost use Rattle.hsr_node_text.specs.Reply.{answer_of, answer_to, outcome_text, refusal_code, refused_text};

use crate::reply::{put_outcome, put_refused, refusal_code};
use crate::request::{Request, Setting, read_request};
use hsr_node::{Event, Node, Octets, Outcome, Place, StepFault};
use hsr_text::WordFault;
use std::alloc::Global;
use std::mem;

/// Makes a text the lines by which a node of this place answers an event with this outcome. What it held goes.
fn tell_outcome(
    text: &mut Vec<u8>,
    place: &Place,
    event: &Event,
    outcome: &Outcome,
) -> Result<(), WordFault>
    ensures { Gives (λ _. text.new.items) result
        (Some (outcome_text place.now event.now outcome.now)) }
{
    // The same room for each line, so that it mostly takes no new memory.
    text.clear();
    match put_outcome(text, place, event, outcome) {
        Ok(()) => Ok(()),
        Err(_) => Err(WordFault::Memory),
    }
}

/// Makes a text the line of an event that was refused. What it held goes; `Bad` where there is no such line.
fn tell_refusal(text: &mut Vec<u8>, fault: StepFault) -> Result<(), WordFault>
    ensures { Gives (λ _. text.new.items) result (option_map refused_text (refusal_code fault)) }
{
    text.clear();
    let code = refusal_code(fault).ok_or(WordFault::Bad)?;
    match put_refused(text, code) {
        Ok(()) => Ok(()),
        Err(_) => Err(WordFault::Memory),
    }
}

/// Lets what is asked for happen to a node of this place, and makes a text the lines that answer it.
/// What the text held goes. `Bad` exactly where it doesn't fit the kind of node, as a send of a QuadBox. `Memory` if allocation
/// fails: the node has done it then, and the text has a front of the answer at most.
#[tactic(auto, using(crate::proofs::Answering::accepted, crate::proofs::Answering::refused))]
fn answer_request<const C: usize>(
    place: &Place,
    node: &mut Node<C>,
    request: &Request,
    text: &mut Vec<u8>,
) -> Result<(), WordFault>
    ensures { Gives (λ _. (text.new.items, node.new)) result
        (answer_to C place.now node.old (Some request.now)) }
{
    let done = node.apply(request.at, &request.event);
    // Told where it stands: a result that is moved as soon as it is written waits for memory.
    match &done {
        Ok(outcome) => tell_outcome(text, place, &request.event, outcome),
        Err(fault) => tell_refusal(text, *fault),
    }
}

/// Lets what was read of a line happen to a node of this place, and makes a text the lines that answer it; a line that wasn't read stays
/// without answer, for the same reason.
#[tactic(auto, using(crate::proofs::Answering::asked, crate::proofs::Answering::unasked))]
fn answer_read<const C: usize>(
    place: &Place,
    node: &mut Node<C>,
    read: &Result<Request, WordFault>,
    text: &mut Vec<u8>,
) -> Result<(), WordFault>
    ensures { (said : Option Asked) → Gives (λ r. r) read.now said
        → Gives (λ _. (text.new.items, node.new)) result (answer_to C place.now node.old said) }
{
    match read {
        Ok(request) => answer_request(place, node, request, text),
        Err(fault) => Err(*fault),
    }
}

/// Takes the room that octets have for themselves, if they have such.
#[inline(always)]
fn take_back(room: &mut Vec<u8>, octets: Octets) {
    if let Some(own) = octets.into_room() {
        *room = own;
    }
}

/// Takes the room that the octets of a request have for themselves back, if they have such.
// Inline, since a call would move the request once more.
#[inline(always)]
fn put_back(room: &mut Vec<u8>, read: Result<Request, WordFault>) {
    let Ok(request) = read else {
        return;
    };
    match request.event {
        Event::Send {
            from: _,
            dst: _,
            vlan: _,
            kind: _,
            payload,
        } => take_back(room, payload),
        Event::Arrive { port: _, carried } => take_back(room, carried.octets),
        _ => {}
    }
}

/// Answers a line, without its line feed, by a node of this kind: makes a text the lines that answer it.
/// What the text held goes, and the room for the line's octets is used anew: the same for each line, it mostly takes no new memory.
/// `Bad` exactly where the line is bad, or is none of this kind of node (RULES, Lines of `node`). `Memory` if allocation fails: the node may
/// have done what the line asks for, and the text has a front of the answer at most.
#[tactic(auto, unfolding(crate::specs::Reply::answer_of))]
pub fn answer_line<const C: usize>(
    alloc: Global,
    setting: &Setting,
    node: &mut Node<C>,
    line: &[u8],
    room: &mut Vec<u8>,
    text: &mut Vec<u8>,
) -> Result<(), WordFault>
    ensures { Gives (λ _. (text.new.items, node.new)) result
        (answer_of C setting.now node.old line.now) }
{
    let read = read_request(mem::replace(room, Vec::new(alloc)), setting, line);
    // Answered where it was read: a request that is moved as soon as it is written waits for memory.
    let answered = answer_read(&setting.place, node, &read, text);
    put_back(room, read);
    answered
}
