//! How often a node took each send up.
ghost use Rattle.std.specs.Prelude.{◌≡◌, ◌+◌, ◌<◌, ◌^◌, count_by, if◌then◌else◌, IfOk, OnOk, Some};
ghost use Rattle.hsr_run_laws.specs.Once.{delivers};
ghost use Rattle.hsr_run_laws.specs.Run.{is_of};
ghost use Rattle.hsr_deliveries.specs.Counted.{times_in};
ghost use Rattle.hsr_node.specs.declared.event.Probe as spec;

use hsr_frame::NoMemory;
use hsr_node::{Entry, Event, Outcome, Probe};
use indexmap::IndexMap;
use std::alloc::Global;
use std::marker::Model;

/// How often each send was counted, by its node and place.
type Counts = IndexMap<(usize, usize), usize>;

/// A node's record, and how often the node took each send up, found in one walk over the record.
#[derive(Drop)]
pub struct Tally<'a> {
    // Kept for its model: contracts speak of a tally by the entries that it counts.
    entries: &'a [Entry],
    counts: Counts,
}

impl<'a> Model for Tally<'a> {
    ghost use Rattle.std.specs.Prelude.{◌≡◌, List, count_by};
    ghost use Rattle.hsr_run_laws.specs.Once.{delivers};
    ghost use Rattle.hsr_node.specs.declared.entry.Entry.{Entry};
    ghost use Rattle.hsr_node.specs.declared.event.Probe as spec;
    ghost use Rattle.hsr_deliveries.specs.Counted.{times_in};

    ghost Value = { List Entry };

    ghost view = { λ t. t.entries.now };

    ghost invariant = { λ t. (send : spec.Probe) → times_in t.counts send
        ≡ count_by (delivers send) t.entries.now };
}

/// The send of an entry that is an arrival and went up; none of any other.
pub fn taken_up(x: &Entry) -> Option<Probe>
    ensures { (send : spec.Probe) → is_of send result ≡ delivers send x.now }
{
    let Event::Arrive { port: _, carried } = &x.event else {
        return None;
    };
    match x.outcome {
        Outcome::Judged { up: true, .. } => carried.probe,
        _ => None,
    }
}

/// How often a send was counted; 0 where it never was.
fn times_in(counts: &Counts, send: Probe) -> usize
    ensures { result ≡ times_in counts.now send }
{
    counts.get(&(send.node, send.place)).copied().unwrap_or(0)
}

/// Counts a send once more.
fn count_one(counts: &mut Counts, send: Probe) -> Result<(), NoMemory>
    requires { times_in counts.old send + 1 < 2 ^ 64 }
    ensures { OnOk result ((other : spec.Probe) → times_in counts.new other
        ≡ times_in counts.old other + (if is_of other (Some send) then 1 else 0)) }
{
    *counts.entry((send.node, send.place))?.or_insert(0) += 1;
    Ok(())
}

/// How often each send was taken up by the entries of a record.
#[tactic(auto, using(hsr_frame::proofs::OneMore::count_fits, hsr_frame::proofs::OneMore::counted_more))]
fn counted(alloc: Global, entries: &[Entry]) -> Result<Counts, NoMemory>
    ensures { IfOk result (λ counts. (send : spec.Probe) → times_in counts send
        ≡ count_by (delivers send) entries.now) }
{
    let mut counts = IndexMap::new(alloc);
    // The index is used by the loop's invariant alone.
    for (i, x) in entries.iter().enumerate() {
        if let Some(send) = taken_up(x) {
            count_one(&mut counts, send)?;
        }
    }
    Ok(counts)
}

impl<'a> Tally<'a> {
    /// The tally of a record. `NoMemory` if allocation fails.
    pub fn new(alloc: Global, entries: &'a [Entry]) -> Result<Tally<'a>, NoMemory>
        ensures { IfOk result (λ tally. tally ≡ entries.now) }
    {
        let counts = counted(alloc, entries)?;
        Ok(Tally { entries, counts })
    }

    /// How often the node took a send up.
    pub fn times(&self, send: Probe) -> usize
        ensures { result ≡ count_by (delivers send) self.now }
    {
        times_in(&self.counts, send)
    }
}
