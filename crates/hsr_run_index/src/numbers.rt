//! The numbers that nodes gave to sends, by an index.
ghost use Rattle.std.specs.Prelude.{◌≡◌, ℕ, ◌==◌, ◌&&◌, nat_eq, if◌then◌else◌, Some, None, slice_get, IfOk, OnOk};
ghost use Rattle.std.specs.Option.{option_or};
ghost use Rattle.hsr_run_index.specs.Indexed.{given_where, gives_to, number_of};
ghost use Rattle.hsr_run_index.specs.Origin.{given_of};
ghost use Rattle.hsr_run_laws.specs.Run.{gives};
ghost use Rattle.hsr_node.specs.declared.event.Probe as spec;

use hsr_frame::NoMemory;
use hsr_node::{Entry, Event, Kept, Outcome, Probe};
use indexmap::IndexMap;
use std::alloc::Global;
use std::marker::Model;

/// Records, and the first number that each node gave to a send, by the node, and the send's node and place.
#[derive(Drop)]
pub struct Numbers<'a, const C: usize> {
    kept: &'a [Kept<C>],
    given: IndexMap<(usize, usize, usize), u16>,
}

impl<'a, const C: usize> Model for Numbers<'a, C> {
    ghost use Rattle.std.specs.Prelude.{◌≡◌, ℕ, List, slice_get};
    ghost use Rattle.hsr_run_index.specs.Indexed.{number_of};
    ghost use Rattle.hsr_run_index.specs.Origin.{given_of};
    ghost use Rattle.hsr_node.specs.Kept.{Record};
    ghost use Rattle.hsr_node.specs.declared.event.Probe as spec;

    ghost Value = { List Record };

    ghost view = { λ n. n.kept.now };

    ghost invariant = { λ n. (node : ℕ) (send : spec.Probe) → number_of n.given node send
        ≡ given_of send (slice_get n.kept.now node) };
}

/// The send to which an entry gave a number, and the number.
fn given_by(entry: &Entry) -> Option<(Probe, u16)>
    ensures { (send : spec.Probe) → gives_to send result
        ≡ gives send entry.now.event entry.now.outcome }
{
    let Event::Arrive { port: _, carried } = &entry.event else {
        return None;
    };
    let Outcome::Judged { seq, .. } = entry.outcome else {
        return None;
    };
    match (carried.probe, seq) {
        (Some(send), Some(seq)) => Some((send, seq)),
        _ => None,
    }
}

/// The number that an index has of a node for a send.
fn number_of(given: &IndexMap<(usize, usize, usize), u16>, node: usize, send: Probe) -> Option<u16>
    ensures { result ≡ number_of given.now node send }
{
    given.get(&(node, send.node, send.place)).copied()
}

/// Puts the number that a node gave to a send, where it gave none so far.
fn put_number(
    given: &mut IndexMap<(usize, usize, usize), u16>,
    node: usize,
    send: Probe,
    seq: u16,
) -> Result<(), NoMemory>
    ensures { OnOk result ((k : ℕ) (p : spec.Probe) → number_of given.new k p
        ≡ option_or (number_of given.old k p) (if (nat_eq node k && nat_eq send.node p.node)
        && nat_eq send.place p.place then Some seq else None)) }
{
    // The first number counts.
    if number_of(given, node, send).is_some() {
        return Ok(());
    }
    match given.insert((node, send.node, send.place), seq) {
        Ok(_) => Ok(()),
        Err(_) => Err(NoMemory),
    }
}

/// Puts the number that an entry of a node gave, if it gave one.
#[tactic(auto, using(crate::proofs::Indexing::gave_none, crate::proofs::Indexing::gave_one))]
fn put_entry(
    given: &mut IndexMap<(usize, usize, usize), u16>,
    node: usize,
    entry: &Entry,
) -> Result<(), NoMemory>
    ensures { OnOk result ((k : ℕ) (p : spec.Probe) → number_of given.new k p
        ≡ option_or (number_of given.old k p)
        (if node == k then gives p entry.now.event entry.now.outcome else None)) }
{
    match given_by(entry) {
        Some((send, seq)) => put_number(given, node, send, seq),
        None => Ok(()),
    }
}

/// Puts the numbers that the entries of a node gave.
#[tactic(auto, using(crate::proofs::Indexing::given_more, crate::proofs::Indexing::given_start))]
fn put_entries(
    given: &mut IndexMap<(usize, usize, usize), u16>,
    node: usize,
    entries: &[Entry],
) -> Result<(), NoMemory>
    ensures { OnOk result ((k : ℕ) (p : spec.Probe) → number_of given.new k p
        ≡ option_or (number_of given.old k p) (given_where node k p entries.now)) }
{
    // The index is used by the loop's invariant alone.
    for (i, entry) in entries.iter().enumerate() {
        put_entry(given, node, entry)?;
    }
    Ok(())
}

/// The index of the numbers that nodes gave.
#[tactic(auto, using(crate::proofs::Indexing::nodes_more))]
fn numbers_of<const C: usize>(
    alloc: Global,
    kept: &[Kept<C>],
) -> Result<IndexMap<(usize, usize, usize), u16>, NoMemory>
    ensures { IfOk result (λ given. (node : ℕ) (send : spec.Probe) → number_of given node send
        ≡ given_of send (slice_get kept.now node)) }
{
    let mut given = IndexMap::new(alloc);
    for (node, record) in kept.iter().enumerate() {
        put_entries(&mut given, node, record.entries())?;
    }
    Ok(given)
}

impl<'a, const C: usize> Numbers<'a, C> {
    /// The numbers that nodes gave. `NoMemory` if allocation fails.
    pub fn new(alloc: Global, kept: &'a [Kept<C>]) -> Result<Numbers<'a, C>, NoMemory>
        ensures { IfOk result (λ numbers. numbers ≡ kept.now) }
    {
        let given = numbers_of(alloc, kept)?;
        Ok(Numbers { kept, given })
    }

    /// The records.
    pub fn kept(&self) -> &'a [Kept<C>]
        ensures { result.now ≡ self.now }
    {
        self.kept
    }

    /// The first number that a node gave to a send.
    pub fn given(&self, node: usize, send: Probe) -> Option<u16>
        ensures { result ≡ given_of send (slice_get self.now node) }
    {
        number_of(&self.given, node, send)
    }
}
