//! The first link that doesn't agree with the records of the nodes at its ends.
ghost use Rattle.std.specs.Prelude.{◌≡◌, ◌↔◌, ◌<◌, [], length, map, slice_index_or, IfOk, IsTrue, MatchOption};
ghost use Rattle.hsr_finished_run.specs.Checked.{AllAgree, IsFirstNoisy, IsFirstOther, IsQuiet, ToldAgrees, is_noisy};
ghost use Rattle.hsr_run_laws.specs.Closed.{PutAgrees, TakenAgrees};
ghost use Rattle.hsr_finished_run.specs.Finished.{items_of, run_of};
ghost use Rattle.hsr_finished_run.specs.Shape.{IsShaped};

use crate::ends::{from_end, to_end};
use hsr_frame::NoMemory;
use hsr_link::{Dir, Fate, Row};
use hsr_node::Kept;
use hsr_run_index::{Passage, puts_fit, takens_fit};
use hsr_topology::Topology;
use std::alloc::Global;

/// The rows of a link.
pub(crate) fn rows_at(rows: &[Vec<Row>], link: usize) -> &[Row]
    requires { link < length rows.now }
    ensures { result.now ≡ slice_index_or (map items_of rows.now) link [] }
{
    rows[link].as_slice()
}

/// Whether what was put on a link in a direction is what the node at the one end passed there, each copy as often.
fn put_agrees<const C: usize>(
    alloc: Global,
    topology: &Topology,
    kept: &[Kept<C>],
    rows: &[Vec<Row>],
    link: usize,
    dir: Dir,
) -> Result<bool, NoMemory>
    requires shaped { IsShaped topology.now kept.now rows.now }
    requires below { link < length topology.now.links }
    ensures { IfOk result (λ agrees. IsTrue agrees
        ↔ PutAgrees (run_of C topology.now kept.now rows.now) link dir) }
{
    let end = from_end(topology.links()[link], dir);
    puts_fit(alloc, &kept[end.node], end.port, dir, rows_at(rows, link))
}

/// Whether what was taken from a link in a direction is what came to the node at the other end, each copy as often.
fn taken_agrees<const C: usize>(
    alloc: Global,
    topology: &Topology,
    kept: &[Kept<C>],
    rows: &[Vec<Row>],
    link: usize,
    dir: Dir,
) -> Result<bool, NoMemory>
    requires shaped { IsShaped topology.now kept.now rows.now }
    requires below { link < length topology.now.links }
    ensures { IfOk result (λ agrees. IsTrue agrees
        ↔ TakenAgrees (run_of C topology.now kept.now rows.now) link dir) }
{
    let end = to_end(topology.links()[link], dir);
    takens_fit(alloc, &kept[end.node], end.port, dir, rows_at(rows, link))
}

/// Whether what was put on a link in a direction, or taken, is what the record of the node at that end tells.
fn told_agrees<const C: usize>(
    alloc: Global,
    which: Passage,
    topology: &Topology,
    kept: &[Kept<C>],
    rows: &[Vec<Row>],
    link: usize,
    dir: Dir,
) -> Result<bool, NoMemory>
    requires shaped { IsShaped topology.now kept.now rows.now }
    requires below { link < length topology.now.links }
    ensures { IfOk result (λ agrees. IsTrue agrees
        ↔ ToldAgrees which (run_of C topology.now kept.now rows.now) link dir) }
{
    match which {
        Passage::Put => put_agrees(alloc, topology, kept, rows, link, dir),
        Passage::Taken => taken_agrees(alloc, topology, kept, rows, link, dir),
    }
}

/// The first link and direction in which what was put isn't what was passed, or what was taken isn't what came.
#[tactic(auto, unfolding(crate::specs::Checked::AllAgree))]
pub(crate) fn first_other<const C: usize>(
    alloc: Global,
    which: Passage,
    topology: &Topology,
    kept: &[Kept<C>],
    rows: &[Vec<Row>],
) -> Result<Option<(usize, Dir)>, NoMemory>
    requires shaped { IsShaped topology.now kept.now rows.now }
    ensures { IfOk result (λ r.
        MatchOption r (AllAgree which (run_of C topology.now kept.now rows.now)
        (length topology.now.links)) (λ f.
        IsFirstOther which (run_of C topology.now kept.now rows.now) f.0 f.1)) }
{
    for link in 0..topology.links().len() {
        if !told_agrees(alloc, which, topology, kept, rows, link, Dir::Forth)? {
            return Ok(Some((link, Dir::Forth)));
        }
        if !told_agrees(alloc, which, topology, kept, rows, link, Dir::Back)? {
            return Ok(Some((link, Dir::Back)));
        }
    }
    Ok(None)
}

/// Whether one of these copies waits to be taken.
pub fn is_noisy(rows: &[Row]) -> bool
    ensures { result ≡ is_noisy rows.now }
{
    rows.iter().any(|row| row.fate == Fate::Queued)
}

/// The first link on which a copy waits.
#[tactic(auto, unfolding(crate::specs::Checked::IsQuiet))]
pub(crate) fn first_noisy<const C: usize>(
    topology: &Topology,
    kept: &[Kept<C>],
    rows: &[Vec<Row>],
) -> Option<usize>
    requires shaped { IsShaped topology.now kept.now rows.now }
    ensures { MatchOption result (IsQuiet (run_of C topology.now kept.now rows.now)
        (length topology.now.links)) (λ link.
        IsFirstNoisy (run_of C topology.now kept.now rows.now) link) }
{
    for link in 0..topology.links().len() {
        if is_noisy(rows_at(rows, link)) {
            return Some(link);
        }
    }
    None
}
