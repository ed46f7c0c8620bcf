//! What stands before the steps of a scenario: the title, the comment that counts, the unit of moments, the capacity, nodes and links.
ghost use Rattle.std.specs.Prelude.{◌≡◌, ◌++◌, IfOk, OnOk, option_map, string_bytes};
ghost use Rattle.std.specs.List.Sorted.{IsNonDecreasing};
ghost use Rattle.std.specs.Fmt.{decimal};
ghost use Rattle.hsr_plan_scenario.specs.Spelled.{counts_text, crowd_text, front_text, moves_text, room_text, sends_text, sizes_text, summary_text, switching_text, title_text, transfer_text, wire_text};

use crate::meant::CAPACITY_LIMIT;
use crate::places::{put_links, put_nodes};
use crate::sends::send_moments;
use hsr_frame::NoMemory;
use hsr_plan_schedule::Meaning;
use hsr_plan_text::{Moves, Outline, Switching, Transfer, Wire};
use hsr_table_demand::most_of;
use hsr_text::{put, put_number};
use std::alloc::Global;

/// Puts the title as a comment last, if there is one.
fn put_title(text: &mut Vec<u8>, title: &Option<String>) -> Result<(), NoMemory>
    ensures { OnOk result (text.new.items ≡ text.old.items
        ++ title_text (option_map string_bytes title.now)) }
{
    match title {
        Some(title) => {
            put(text, "# ")?;
            put(text, title.as_str())?;
            put(text, "\n")
        }
        None => Ok(()),
    }
}

/// Puts when nodes judge what comes by wires last.
fn put_switching(text: &mut Vec<u8>, switching: Switching) -> Result<(), NoMemory>
    ensures { OnOk result (text.new.items ≡ text.old.items ++ switching_text switching) }
{
    match switching {
        Switching::Store => put(text, "store"),
        Switching::Cut => put(text, "cut"),
    }
}

/// Puts wires last.
#[tactic(auto, unfolding(crate::specs::Spelled::wire_text))]
fn put_wire(text: &mut Vec<u8>, wire: Wire) -> Result<(), NoMemory>
    ensures { OnOk result (text.new.items ≡ text.old.items ++ wire_text wire) }
{
    put(text, "wire ")?;
    put_number(text, wire.rate)?;
    put(text, " Mbit/s, ")?;
    put_number(text, wire.residence)?;
    put(text, " us, ")?;
    put_switching(text, wire.switching)
}

/// Puts how long copies take last.
fn put_pace(text: &mut Vec<u8>, transfer: Transfer) -> Result<(), NoMemory>
    ensures { OnOk result (text.new.items ≡ text.old.items ++ transfer_text transfer) }
{
    match transfer {
        Transfer::Hop(us) => {
            put(text, "hop_us = ")?;
            put_number(text, us)
        }
        Transfer::Wire(wire) => put_wire(text, wire),
    }
}

/// Puts how copies move last.
fn put_moves(text: &mut Vec<u8>, moves: Moves) -> Result<(), NoMemory>
    ensures { OnOk result (text.new.items ≡ text.old.items ++ moves_text moves) }
{
    match moves {
        Moves::EachSendDrains => put(text, "each send drains"),
        Moves::EachMomentDrains => put(text, "each moment drains"),
        Moves::Timed(transfer) => put_pace(text, transfer),
    }
}

/// Puts a number and what it counts last.
fn put_count(text: &mut Vec<u8>, number: usize, words: &str) -> Result<(), NoMemory>
    ensures { OnOk result (text.new.items ≡ text.old.items ++ (decimal number ++ words.now)) }
{
    put_number(text, number as u64)?;
    put(text, words)
}

/// Puts two numbers, each with what it counts, last.
fn put_two_counts(
    text: &mut Vec<u8>,
    first: usize,
    words: &str,
    second: usize,
    others: &str,
) -> Result<(), NoMemory>
    ensures { OnOk result (text.new.items ≡ text.old.items
        ++ (decimal first ++ words.now ++ decimal second ++ others.now)) }
{
    put_count(text, first, words)?;
    put_count(text, second, others)
}

/// Puts how many nodes and links there are last.
#[tactic(auto, unfolding(crate::specs::Spelled::sizes_text))]
fn put_sizes(text: &mut Vec<u8>, nodes: usize, links: usize) -> Result<(), NoMemory>
    ensures { OnOk result (text.new.items ≡ text.old.items ++ sizes_text nodes links) }
{
    put(text, "# ")?;
    put_count(text, nodes, " nodes, ")?;
    put_count(text, links, " links, ")
}

/// Puts last how many sends there are, by their moments, which rise, and how many of these in 800 ms at most.
#[tactic(auto, unfolding(crate::specs::Spelled::sends_text))]
fn put_sends(text: &mut Vec<u8>, sends: &[u64]) -> Result<(), NoMemory>
    requires { IsNonDecreasing sends.now }
    ensures { OnOk result (text.new.items ≡ text.old.items ++ sends_text sends.now) }
{
    put_two_counts(
        text,
        sends.len(),
        " sends, at most ",
        most_of(sends),
        " in 800 ms; copies: ",
    )
}

/// Puts the comment of how many nodes and links there are, of sends at these moments, which rise, and of how copies move, last.
#[tactic(auto, unfolding(crate::specs::Spelled::counts_text))]
fn put_counts(
    text: &mut Vec<u8>,
    nodes: usize,
    links: usize,
    sends: &[u64],
    moves: Moves,
) -> Result<(), NoMemory>
    requires { IsNonDecreasing sends.now }
    ensures { OnOk result (text.new.items ≡ text.old.items
        ++ counts_text nodes links sends.now moves) }
{
    put_sizes(text, nodes, links)?;
    put_sends(text, sends)?;
    put_moves(text, moves)?;
    put(text, "\n")
}

/// Puts the comment that counts what is meant last.
#[tactic(auto, unfolding(crate::specs::Spelled::summary_text))]
fn put_summary(
    alloc: Global,
    text: &mut Vec<u8>,
    moves: Moves,
    meaning: &Meaning,
) -> Result<(), NoMemory>
    ensures { OnOk result (text.new.items ≡ text.old.items ++ summary_text moves meaning.now) }
{
    let sends = send_moments(alloc, meaning.orders.as_slice())?;
    let nodes = meaning.nodes.len();
    let links = meaning.topology.links().len();
    put_counts(text, nodes, links, sends.as_slice(), moves)
}

/// Puts a number between words last.
fn put_between(
    text: &mut Vec<u8>,
    before: &str,
    number: usize,
    behind: &str,
) -> Result<(), NoMemory>
    ensures { OnOk result (text.new.items ≡ text.old.items
        ++ (before.now ++ decimal number ++ behind.now)) }
{
    put(text, before)?;
    put_number(text, number as u64)?;
    put(text, behind)
}

/// Puts last how many sends may be under way at once, where no capacity is said, and they are more than the largest holds.
fn put_crowd(text: &mut Vec<u8>, said: Option<usize>, sends: usize) -> Result<(), NoMemory>
    ensures { OnOk result (text.new.items ≡ text.old.items ++ crowd_text said sends) }
{
    match said {
        Some(_) => Ok(()),
        None => {
            if sends > CAPACITY_LIMIT {
                put_between(
                    text,
                    "  # the most that there is: up to ",
                    sends,
                    " sends may be under way at once",
                )
            } else {
                Ok(())
            }
        }
    }
}

/// Puts what ends the line of the capacity last.
#[tactic(auto, unfolding(crate::specs::Spelled::room_text))]
fn put_room(text: &mut Vec<u8>, said: Option<usize>, sends: usize) -> Result<(), NoMemory>
    ensures { OnOk result (text.new.items ≡ text.old.items ++ room_text said sends) }
{
    put_crowd(text, said, sends)?;
    put(text, "\n")
}

/// What stands before the lines of steps: the title, the comment that counts, the unit of moments, the capacity, then nodes and links, one a line.
#[tactic(auto, unfolding(crate::specs::Spelled::front_text))]
pub(crate) fn begun(
    alloc: Global,
    outline: &Outline,
    meaning: &Meaning,
) -> Result<Vec<u8>, NoMemory>
    ensures { IfOk result (λ text. text.items ≡ front_text outline.now meaning.now) }
{
    let nodes = meaning.nodes.as_slice();
    let mut text = Vec::new(alloc);
    put_title(&mut text, &outline.title)?;
    put_summary(alloc, &mut text, outline.moves, meaning)?;
    // Plans tell microseconds, and a scenario without a unit would mean milliseconds.
    put(&mut text, "unit = \"us\"\ncapacity = ")?;
    put_number(&mut text, meaning.capacity as u64)?;
    put_room(&mut text, outline.capacity, meaning.at_once)?;
    put_nodes(&mut text, nodes)?;
    put_links(&mut text, nodes, meaning.topology.links())?;
    put(&mut text, "step = [\n")?;
    Ok(text)
}
