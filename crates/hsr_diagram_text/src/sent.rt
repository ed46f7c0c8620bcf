//! Sends as they are listed.
ghost use Rattle.std.specs.Prelude.{◌≡◌, ◌++◌, option_map, IfOk, OnOk};
ghost use Rattle.hsr_timeline.specs.Fronts.{lists_of};
ghost use Rattle.hsr_diagram_text.specs.Sent.{address_words, complete_if, entry_is_supervision, is_supervision, sent_words, target_text};

use crate::sends::{put_nodes, put_send};
use hsr_deliveries::Delivery;
use hsr_finished_run::Closed;
use hsr_frame::{Mac, NoMemory};
use hsr_node::{Entry, Event, Probe};
use hsr_text::{put, put_mac};
use std::alloc::Global;

/// Whether an entry is a supervision frame's.
fn entry_is_supervision(entry: Option<&Entry>) -> bool
    ensures { result ≡ entry_is_supervision (option_map (λ e. e.now) entry.entry) }
{
    match entry {
        Some(entry) => matches!(entry.event, Event::Supervise(_)),
        None => false,
    }
}

/// Whether a send is a supervision frame.
fn is_supervision<const C: usize>(closed: &Closed<C>, send: Probe) -> bool
    ensures { result ≡ is_supervision closed.now.run send }
{
    entry_is_supervision(closed.entries_at(send.node).get(send.place))
}

/// Puts to whom a send goes last: to a node that it is due at, or to an address.
fn put_address(
    alloc: Global,
    text: &mut Vec<u8>,
    names: &[Vec<u8>],
    dst: Mac,
    due: &[usize],
) -> Result<(), NoMemory>
    ensures { OnOk result (text.new.items ≡ text.old.items
        ++ address_words (lists_of names.now) dst due.now) }
{
    // An address that no node has can only be shown as it is.
    if dst.is_group() || due.is_empty() {
        put(text, " to ")?;
        put_mac(alloc, text, dst)?;
        Ok(())
    } else {
        put_nodes(text, names, " to ", due)
    }
}

/// Puts last to whom a send goes, or that it is a supervision frame.
fn put_target<const C: usize>(
    alloc: Global,
    text: &mut Vec<u8>,
    names: &[Vec<u8>],
    closed: &Closed<C>,
    delivery: &Delivery,
) -> Result<(), NoMemory>
    ensures { OnOk result (text.new.items ≡ text.old.items
        ++ target_text (lists_of names.now) closed.now.run delivery.now) }
{
    if is_supervision(closed, delivery.send) {
        put(text, " supervision")
    } else {
        put_address(alloc, text, names, delivery.dst, delivery.due.as_slice())
    }
}

/// Puts last that a send isn't complete, if it isn't.
fn put_completeness(text: &mut Vec<u8>, is_complete: bool) -> Result<(), NoMemory>
    ensures { OnOk result (text.new.items ≡ text.old.items ++ complete_if is_complete) }
{
    if is_complete {
        Ok(())
    } else {
        put(text, " (incomplete)")
    }
}

/// A send as it is listed: who sent it, to whom, and whether it is complete. `NoMemory` if allocation fails.
#[tactic(auto, unfolding(crate::specs::Sent::sent_words))]
pub fn sent_words<const C: usize>(
    alloc: Global,
    names: &[Vec<u8>],
    closed: &Closed<C>,
    delivery: &Delivery,
) -> Result<Vec<u8>, NoMemory>
    ensures { IfOk result (λ words. words.items
        ≡ sent_words (lists_of names.now) closed.now.run delivery.now) }
{
    let mut words = Vec::new(alloc);
    put_send(&mut words, names, delivery.send)?;
    put_target(alloc, &mut words, names, closed, delivery)?;
    put_completeness(&mut words, delivery.is_complete())?;
    Ok(words)
}
