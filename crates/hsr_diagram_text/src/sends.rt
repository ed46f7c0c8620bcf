//! Sends, and names of nodes.
ghost use Rattle.std.specs.Prelude.{◌≡◌, ◌++◌, IfOk, OnOk};
ghost use Rattle.std.specs.List.{flat_map};
ghost use Rattle.hsr_timeline.specs.Fronts.{lists_of};
ghost use Rattle.hsr_diagram_text.specs.Sends.{next_node, nodes_text, send_text};

use hsr_frame::NoMemory;
use hsr_node::Probe;
use hsr_text::{put, put_number};
use hsr_timeline::put_name;
use std::alloc::Global;

/// Puts a send last, by the name of its node and its place.
#[tactic(auto, unfolding(crate::specs::Sends::send_text))]
pub(crate) fn put_send(text: &mut Vec<u8>, names: &[Vec<u8>], send: Probe) -> Result<(), NoMemory>
    ensures { OnOk result (text.new.items ≡ text.old.items ++ send_text (lists_of names.now) send) }
{
    put_name(text, names, send.node)?;
    put(text, ":")?;
    put_number(text, send.place as u64)
}

/// A send, by the name of its node and its place. `NoMemory` if allocation fails.
pub fn send_words(alloc: Global, names: &[Vec<u8>], send: Probe) -> Result<Vec<u8>, NoMemory>
    ensures { IfOk result (λ words. words.items ≡ send_text (lists_of names.now) send) }
{
    let mut words = Vec::new(alloc);
    put_send(&mut words, names, send)?;
    Ok(words)
}

/// Puts the name of a node last, behind a comma.
fn put_next_node(text: &mut Vec<u8>, names: &[Vec<u8>], node: usize) -> Result<(), NoMemory>
    ensures { OnOk result (text.new.items ≡ text.old.items ++ next_node (lists_of names.now) node) }
{
    put(text, ", ")?;
    put_name(text, names, node)
}

/// Puts the names of nodes last, each behind a comma.
#[tactic(auto, using(hsr_frame::proofs::OneMore::grown))]
fn put_next_nodes(text: &mut Vec<u8>, names: &[Vec<u8>], nodes: &[usize]) -> Result<(), NoMemory>
    ensures { OnOk result (text.new.items ≡ text.old.items
        ++ flat_map (next_node (lists_of names.now)) nodes.now) }
{
    for node in nodes {
        put_next_node(text, names, *node)?;
    }
    Ok(())
}

/// Puts the names of nodes last, behind a word, parted by commas; nothing where there are none.
pub(crate) fn put_nodes(
    text: &mut Vec<u8>,
    names: &[Vec<u8>],
    word: &str,
    nodes: &[usize],
) -> Result<(), NoMemory>
    ensures { OnOk result (text.new.items ≡ text.old.items
        ++ nodes_text (lists_of names.now) word.now nodes.now) }
{
    match nodes.split_first() {
        None => Ok(()),
        Some((node, others)) => {
            put(text, word)?;
            put_name(text, names, *node)?;
            put_next_nodes(text, names, others)
        }
    }
}
