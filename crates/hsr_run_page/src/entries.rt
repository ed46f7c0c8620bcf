//! The entries of a run in the order of time.
ghost use Rattle.std.specs.Prelude.{◌≡◌, ◌++◌, ◌∷◌, [], IsPermutation, IfErr, IfOk, OnOk};
ghost use Rattle.std.specs.List.Sorted.{IsSorted};
ghost use Rattle.hsr_timeline.specs.Causes.{origins};
ghost use Rattle.hsr_timeline.specs.Fronts.{lists_of};
ghost use Rattle.hsr_timeline.specs.Stamps.{HasNoStamps};
ghost use Rattle.hsr_timeline.specs.Story.{IfCircle};
ghost use Rattle.hsr_run_page.specs.Entries.{AreEntries, is_of_sends, is_wanted, stamped_all, stamped_at, stamped_cmp, stamped_from};

use hsr_diagram::{Span, is_among};
use hsr_finished_run::Closed;
use hsr_frame::NoMemory;
use hsr_node::{Entry, Probe};
use hsr_timeline::{Stamp, StoryFault, entry_stamps};
use std::alloc::Global;

// The derived order goes by the fields as they stand, so their order is that of time.
/// An entry of a finished run, by node and place, with its stamp: its moment in microseconds, and its step within that moment, the
/// length of the longest chain of entries that lead to it there.
#[derive(Clone, Copy, PartialEq, Eq, PartialOrd, Ord)]
pub struct Stamped {
    pub moment: u64,
    pub step: u64,
    pub node: usize,
    pub place: usize,
}

/// An entry of a node with its stamp.
fn stamped_at(node: usize, place: usize, stamp: Stamp) -> Stamped
    ensures { result ≡ stamped_at node place stamp }
{
    Stamped {
        moment: stamp.moment,
        step: stamp.step,
        node,
        place,
    }
}

/// Puts an entry last.
fn put_one(all: &mut Vec<Stamped>, one: Stamped) -> Result<(), NoMemory>
    ensures { OnOk result (all.new.items ≡ all.old.items ++ one ∷ []) }
{
    all.push(one)?;
    Ok(())
}

/// Puts the entries of a node last.
fn put_node(all: &mut Vec<Stamped>, node: usize, stamps: &[Stamp]) -> Result<(), NoMemory>
    ensures { OnOk result (all.new.items ≡ all.old.items ++ stamped_from node 0 stamps.now) }
{
    let mut place = 0usize;
    let mut left = stamps;
    // What is left is a variable, since the loop's invariant speaks of it.
    while let Some((stamp, more)) = left.split_first() {
        put_one(all, stamped_at(node, place, *stamp))?;
        place += 1;
        left = more;
    }
    Ok(())
}

/// All entries, by node and place.
fn stamped_all(alloc: Global, stamps: &[Vec<Stamp>]) -> Result<Vec<Stamped>, NoMemory>
    ensures { IfOk result (λ all. all.items ≡ stamped_all (lists_of stamps.now)) }
{
    let mut all = Vec::new(alloc);
    let mut node = 0usize;
    let mut left = stamps;
    while let Some((list, more)) = left.split_first() {
        put_node(&mut all, node, list.as_slice())?;
        node += 1;
        left = more;
    }
    Ok(all)
}

/// Puts entries into the order of time.
fn sort(entries: &mut Vec<Stamped>)
    ensures rise { IsSorted stamped_cmp entries.new.items }
    ensures same { IsPermutation entries.old.items entries.new.items }
{
    // No two entries are equal, since node and place are part of them: so the order is one.
    entries.sort_unstable();
}

/// The entries of a finished run, each once, in the order of time: by moment, by step within it, then by node and place. `Circle` exactly
/// where entries follow one another in a circle. `NoMemory` if allocation fails.
pub fn entries_in_time<const C: usize>(
    alloc: Global,
    closed: &Closed<C>,
) -> Result<Vec<Stamped>, StoryFault>
    ensures entries { IfOk result (λ entries. AreEntries closed.now.run closed.now.plan entries.items) }
    ensures circle { IfErr result (IfCircle (HasNoStamps (origins closed.now.run closed.now.plan))) }
{
    let stamps = entry_stamps(alloc, closed)?;
    let mut all = stamped_all(alloc, stamps.as_slice())?;
    sort(&mut all);
    Ok(all)
}

/// Whether an entry has to do with one of these sends.
fn is_of_sends(sends: &[Probe], send: Option<Probe>) -> bool
    ensures { result ≡ is_of_sends sends.now send }
{
    match send {
        None => false,
        Some(send) => is_among(sends, send),
    }
}

/// Whether an entry is of the moments and of the sends that are asked for.
pub(crate) fn is_wanted(sends: &[Probe], span: Span, at: Stamped, entry: &Entry) -> bool
    ensures { result ≡ is_wanted sends.now span at entry.now }
{
    let here = Probe {
        node: at.node,
        place: at.place,
    };
    span.has(at.moment) && (sends.is_empty() || is_of_sends(sends, entry.event.probe(here)))
}
