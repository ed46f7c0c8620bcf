//! Whether records and rows are a topology's.
ghost use Rattle.std.specs.Prelude.{◌≡◌, ◌↔◌, ◌<◌, length, map, IsTrue, List, Vec};
ghost use Rattle.std.specs.Global.{Global};
ghost use Rattle.hsr_duptable.specs.Table.{IsTableSize};
ghost use Rattle.hsr_node.specs.Kept.{Record};
ghost use Rattle.hsr_link.specs.declared.row.Row.{Row};
ghost use Rattle.hsr_finished_run.specs.Checked.{AreLegal};
ghost use Rattle.hsr_finished_run.specs.Shape.{AreLinked, HasShape, NodesFit, is_linked};
ghost use Rattle.hsr_topology.specs.Wired.{IsWired};

use hsr_link::Row;
use hsr_node::{Entry, Event, Kept, Place};
use hsr_run_index::Ends;
use hsr_topology::{End, Topology, is_same_place};

/// The most entries that a duplicate table has.
// One less than there are sequence numbers.
const TABLE_LIMIT: usize = 65535;

/// Whether a duplicate table may have this number of entries.
fn is_table_size(entries: usize) -> bool
    ensures { IsTrue result ↔ IsTableSize entries }
{
    1 <= entries && entries <= TABLE_LIMIT
}

/// Whether nothing came by a port without a link with this entry.
fn is_linked(ends: &Ends<'_>, node: usize, entry: &Entry) -> bool
    ensures { result ≡ is_linked ends.now node entry.now.event }
{
    match entry.event {
        Event::Arrive { port, .. } => ends.has(End { node, port }),
        _ => true,
    }
}

fn are_linked(ends: &Ends<'_>, node: usize, entries: &[Entry]) -> bool
    ensures { IsTrue result ↔ AreLinked ends.now node entries.now (length entries.now) }
{
    // The index is used by the loop's invariant alone.
    for (i, entry) in entries.iter().enumerate() {
        if !is_linked(ends, node, entry) {
            return false;
        }
    }
    true
}

/// Whether each record has its index as its number, and nothing came by a port without a link.
fn nodes_fit<const C: usize>(ends: &Ends<'_>, kept: &[Kept<C>]) -> bool
    ensures { IsTrue result ↔ NodesFit ends.now kept.now (length kept.now) }
{
    for (node, record) in kept.iter().enumerate() {
        if record.node() != node || !are_linked(ends, node, record.entries()) {
            return false;
        }
    }
    true
}

/// Whether the records are of nodes at these places.
fn are_at<const C: usize>(places: &[Place], kept: &[Kept<C>]) -> bool
    ensures { IsTrue result ↔ (map (λ (r : Record). r.place) kept.now ≡ places.now) }
{
    // What is left is a variable, since the loop's invariant speaks of it.
    let mut left = places;
    // The index is used by the loop's invariant alone.
    for (node, record) in kept.iter().enumerate() {
        let Some((place, more)) = left.split_first() else {
            return false;
        };
        if !is_same_place(record.place(), place) {
            return false;
        }
        left = more;
    }
    left.is_empty()
}

/// Whether tables have 1 to 65535 entries, there is a record for each node, at its index, and a list of rows for each link,
/// and nothing came by a port without one.
pub(crate) fn is_shaped<const C: usize>(
    topology: &Topology,
    ends: &Ends<'_>,
    kept: &[Kept<C>],
    rows: &[Vec<Row>],
) -> bool
    requires { ends.now ≡ topology.now.links }
    ensures shaped { IsTrue result ↔ HasShape C topology.now kept.now rows.now }
    ensures wired { IsWired topology.now.places topology.now.links }
{
    let places = topology.places();
    is_table_size(C)
        && are_at(places, kept)
        && rows.len() == topology.links().len()
        && nodes_fit(ends, kept)
}

/// Records are legal: each outcome is what the past of its node answers.
pub(crate) fn are_legal<const C: usize>(kept: &[Kept<C>])
    ensures { AreLegal C kept.now (length kept.now) }
{
    // The index is used by the loop's invariant alone.
    for (node, record) in kept.iter().enumerate() {
        // What it answers isn't used: its contract says that the record is legal.
        let _ = record.entries();
    }
}
