//! A verdict in words, by names of the plan.
ghost use Rattle.std.specs.Prelude.{◌≡◌, ◌++◌, slice_get, OnOk};
ghost use Rattle.hsr_certify.specs.declared.doubt.Doubt.TheVariants.{CutOff};
ghost use Rattle.hsr_plan_certify.specs.Parts.{first_still, node_name};
ghost use Rattle.hsr_plan_certify.specs.Words.{cause_text, cut_text, doubt_text, end_text, ends_text, letter_if, line_text, link_text, mode_text, names_text, origin_text, step_text, verdict_text, word_of};

use crate::origin::{Cause, Origin, origin_of};
use crate::part::first_still;
use crate::place::name_of;
use hsr_certify::Doubt;
use hsr_certify_text::{Verdict, put_verdict};
use hsr_frame::NoMemory;
use hsr_plan_network::Node;
use hsr_plan_schedule::Meaning;
use hsr_plan_text::Word;
use hsr_text::{put, put_count, put_octets};
use hsr_topology::End;

// ---- names

/// Puts the name of the node of that number last.
fn put_node(text: &mut Vec<u8>, nodes: &[Node], number: usize) -> Result<(), NoMemory>
    ensures { OnOk result (text.new.items ≡ text.old.items ++ node_name nodes.now number) }
{
    put_octets(text, name_of(nodes, number))
}

/// Puts last why something is sent: the name of its stream, or `life`.
fn put_cause(text: &mut Vec<u8>, streams: &[Word], cause: Cause) -> Result<(), NoMemory>
    ensures { OnOk result (text.new.items ≡ text.old.items ++ cause_text streams.now cause) }
{
    match cause {
        Cause::Stream(number) => match streams.get(number) {
            Some(name) => put_octets(text, name.as_bytes()),
            None => Ok(()),
        },
        Cause::Life => put(text, "life"),
    }
}

/// Puts where an order comes from last, as `mu1@29250us/sv1`.
#[tactic(auto, unfolding(crate::specs::Words::origin_text))]
fn put_origin(text: &mut Vec<u8>, meaning: &Meaning, origin: Origin) -> Result<(), NoMemory>
    ensures { OnOk result (text.new.items ≡ text.old.items ++ origin_text meaning.now origin) }
{
    put_node(text, meaning.nodes.as_slice(), origin.node)?;
    put_count(text, b"@", origin.at)?;
    put(text, "us/")?;
    put_cause(text, meaning.streams.as_slice(), origin.cause)
}

/// Puts a space and where the order at a step comes from last; nothing, if it sends nothing.
fn put_step(text: &mut Vec<u8>, meaning: &Meaning, step: usize) -> Result<(), NoMemory>
    ensures { OnOk result (text.new.items ≡ text.old.items ++ step_text meaning.now step) }
{
    match origin_of(meaning, step) {
        Some(origin) => {
            put(text, " ")?;
            put_origin(text, meaning, origin)
        }
        None => Ok(()),
    }
}

/// The letter of a port.
fn letter_at(nodes: &[Node], end: End) -> u8
    ensures { result ≡ letter_if (slice_get nodes.now end.node) end.port }
{
    match nodes.get(end.node) {
        Some(node) => node.place.letter(end.port),
        None => b'?',
    }
}

/// Puts an end of a link last, as `bcu3.A`.
#[tactic(auto, unfolding(crate::specs::Words::end_text))]
fn put_end(text: &mut Vec<u8>, nodes: &[Node], end: End) -> Result<(), NoMemory>
    ensures { OnOk result (text.new.items ≡ text.old.items ++ end_text nodes.now end) }
{
    put_node(text, nodes, end.node)?;
    put(text, ".")?;
    text.push(letter_at(nodes, end))?;
    Ok(())
}

/// Puts a space and both ends of a link last, as ` qb1.C-bcu3.A`.
fn put_ends(text: &mut Vec<u8>, nodes: &[Node], link: &[End; 2]) -> Result<(), NoMemory>
    ensures { OnOk result (text.new.items ≡ text.old.items ++ ends_text nodes.now link.now) }
{
    let [first, second] = *link;
    put(text, " ")?;
    put_end(text, nodes, first)?;
    put(text, "-")?;
    put_end(text, nodes, second)
}

/// Puts a space and both ends of the link of that number last.
fn put_link(
    text: &mut Vec<u8>,
    nodes: &[Node],
    links: &[[End; 2]],
    number: usize,
) -> Result<(), NoMemory>
    ensures { OnOk result (text.new.items ≡ text.old.items ++ link_text nodes.now links.now number) }
{
    match links.get(number) {
        Some(link) => put_ends(text, nodes, link),
        None => Ok(()),
    }
}

/// Puts a space and the name of the first node in mode N last.
fn put_still(text: &mut Vec<u8>, nodes: &[Node]) -> Result<(), NoMemory>
    ensures { OnOk result (text.new.items ≡ text.old.items
        ++ mode_text nodes.now (first_still nodes.now)) }
{
    match first_still(nodes) {
        Some(node) => {
            put(text, " ")?;
            put_node(text, nodes, node)
        }
        None => Ok(()),
    }
}

/// Puts a send and the node that it doesn't come to last.
fn put_cut_off(
    text: &mut Vec<u8>,
    meaning: &Meaning,
    step: usize,
    node: usize,
) -> Result<(), NoMemory>
    ensures { OnOk result (text.new.items ≡ text.old.items ++ cut_text meaning.now step node) }
{
    put_step(text, meaning, step)?;
    put(text, " ")?;
    put_node(text, meaning.nodes.as_slice(), node)
}

// ---- doubts

/// The word of a doubt.
fn word_of(doubt: Doubt) -> &'static str
    ensures { result.now ≡ word_of doubt }
{
    match doubt {
        Doubt::Empty => "empty",
        Doubt::Fine { .. } => "fine",
        Doubt::Open { .. } => "open",
        Doubt::Mode => "mode",
        Doubt::SameAddress => "same-address",
        Doubt::Side { .. } => "side",
        Doubt::Refused { .. } => "refused",
        Doubt::Back { .. } => "back",
        Doubt::Late { .. } => "late",
        Doubt::Crowded { .. } => "crowded",
        Doubt::Wrapped { .. } => "wrapped",
        Doubt::Uncovered { .. } => "uncovered",
        Doubt::Queue { .. } => "queue",
        Doubt::CutOff { .. } => "cut-off",
    }
}

/// Puts last what a doubt names, each behind a space.
fn put_names(text: &mut Vec<u8>, meaning: &Meaning, doubt: Doubt) -> Result<(), NoMemory>
    ensures { OnOk result (text.new.items ≡ text.old.items ++ names_text meaning.now doubt) }
{
    match doubt {
        Doubt::Empty | Doubt::SameAddress => Ok(()),
        Doubt::Mode => put_still(text, meaning.nodes.as_slice()),
        Doubt::Side { link } => put_link(
            text,
            meaning.nodes.as_slice(),
            meaning.topology.links(),
            link,
        ),
        Doubt::Fine { step }
        | Doubt::Open { step }
        | Doubt::Refused { step }
        | Doubt::Back { step }
        | Doubt::Late { step }
        | Doubt::Crowded { step }
        | Doubt::Wrapped { step }
        | Doubt::Uncovered { step }
        | Doubt::Queue { step } => put_step(text, meaning, step),
        Doubt::CutOff { step, node } => put_cut_off(text, meaning, step, node),
    }
}

/// Puts the number of a line last, if there is one.
fn put_line(text: &mut Vec<u8>, line: Option<usize>) -> Result<(), NoMemory>
    ensures { OnOk result (text.new.items ≡ text.old.items ++ line_text line) }
{
    match line {
        Some(number) => put_count(text, b" line ", number as u64),
        None => Ok(()),
    }
}

/// Puts the line of a doubt last.
#[tactic(auto, unfolding(crate::specs::Words::doubt_text))]
fn put_doubt(
    text: &mut Vec<u8>,
    meaning: &Meaning,
    doubt: Doubt,
    line: Option<usize>,
) -> Result<(), NoMemory>
    ensures { OnOk result (text.new.items ≡ text.old.items ++ doubt_text meaning.now doubt line) }
{
    put(text, "doubt ")?;
    put(text, word_of(doubt))?;
    put_names(text, meaning, doubt)?;
    put_line(text, line)?;
    put(text, "\n")
}

/// Puts the line of a verdict last: how many sends are certified; or the doubt, what it names, and the line of the plan, if there is one.
pub(crate) fn put_told(
    text: &mut Vec<u8>,
    meaning: &Meaning,
    verdict: Verdict,
    line: Option<usize>,
) -> Result<(), NoMemory>
    ensures { OnOk result (text.new.items ≡ text.old.items
        ++ verdict_text meaning.now verdict line) }
{
    match verdict {
        Verdict::Certified(_) => put_verdict(text, verdict),
        Verdict::Doubted(doubt) => put_doubt(text, meaning, doubt, line),
    }
}
