//! The copies that wait in one direction of a link, each beside the index of its row.
ghost use Rattle.std.specs.Prelude.{◌≡◌, ◌<◌, true, false, [], ◌∷◌, ◌++◌, length, map, is_some, slice_get, OnOk, OnErr, IfOk, IfErr};
ghost use Rattle.std.specs.List.{count_by};
ghost use Rattle.circular_buffer.specs.Buffer.{buffer};
ghost use Rattle.hsr_link.specs.Rows.{first_copy, is_queued, lost, lost_of, put_fate, turned};
ghost use Rattle.hsr_link.specs.Queue.{waiting};
ghost use Rattle.hsr_link.specs.declared.row.Dir.TheVariants.{Forth, Back};

use crate::row::{Dir, Fate, Row};
use circular_buffer::HeapCircularBuffer;
use hsr_frame::NoMemory;
use hsr_node::{Carried, make_room};

/// The index of a row, and the copy that a take gives, so that it needs no memory.
#[derive(Drop)]
pub(crate) struct Waiting {
    pub(crate) index: usize,
    pub(crate) carried: Carried,
}

/// What becomes of a copy that is put where these wait.
pub(crate) fn put_fate(is_cut: bool, queue: &HeapCircularBuffer<Waiting>) -> Fate
    ensures fate { result ≡ put_fate is_cut (length queue.now.items) queue.now.capacity }
    ensures room { is_queued result ≡ true → length queue.now.items < queue.now.capacity }
{
    if is_cut {
        Fate::LostDown
    } else if queue.len() == queue.capacity() {
        Fate::LostOverrun
    } else {
        Fate::Queued
    }
}

/// Lets a copy of a row wait, if the row does.
// Inline, since a call would pass the copy through memory.
#[inline(always)]
fn queue_up(
    queue: &mut HeapCircularBuffer<Waiting>,
    index: usize,
    row: &Row,
) -> Result<(), NoMemory>
    requires { is_queued row.now.fate ≡ true → length queue.old.items < queue.old.capacity }
    ensures ok { OnOk result (queue.new ≡ buffer
        (queue.old.items ++ waiting row.now.dir index (row.now ∷ [])) queue.old.capacity) }
    ensures err { OnErr result (queue.new ≡ queue.old) }
{
    if row.fate == Fate::Queued {
        // The row keeps its copy for good, so a take gives this one and needs no memory.
        let carried = row.carried.copy()?;
        queue.push_back(Waiting { index, carried });
    }
    Ok(())
}

/// Adds a row, whose copy waits in the queue of its direction if it is queued; `expected` is how many rows are expected in all.
#[inline(always)]
#[tactic(auto, using(crate::proofs::Waiting::waiting_push))]
pub(crate) fn enter(
    queue: &mut HeapCircularBuffer<Waiting>,
    rows: &mut Vec<Row>,
    expected: usize,
    row: Row,
) -> Result<Fate, (Carried, NoMemory)>
    requires holds { queue.old.items ≡ waiting row.dir 0 rows.old.items }
    requires room { is_queued row.fate ≡ true → length queue.old.items < queue.old.capacity }
    ensures ok { IfOk result (λ fate. (fate ≡ row.fate)
        × (rows.new.items ≡ rows.old.items ++ row ∷ [])
        × (queue.new ≡ buffer (waiting row.dir 0 rows.new.items) queue.old.capacity)) }
    ensures err { IfErr result (λ e. (rows.new.items ≡ rows.old.items) × (queue.new ≡ queue.old)
        × (e.0 ≡ row.carried)) }
{
    // All that may be refused comes before the first change.
    if make_room(rows, expected).is_err() {
        return Err((row.carried, NoMemory));
    }
    if queue_up(queue, rows.len(), &row).is_err() {
        return Err((row.carried, NoMemory));
    }
    let fate = row.fate;
    // Room was made above, so this push isn't refused.
    let Ok(()) = rows.push(row) else {
        unreachable!()
    };
    Ok(fate)
}

/// Whether a copy waits.
pub(crate) fn has_first(queue: &HeapCircularBuffer<Waiting>) -> bool
    ensures { result ≡ is_some (slice_get queue.now.items 0) }
{
    !queue.is_empty()
}

/// Gives the first copy that waits, and turns its row to another fate.
// Inline, since a call would pass the copy through memory.
#[inline(always)]
pub(crate) fn turn_first(
    queue: &mut HeapCircularBuffer<Waiting>,
    rows: &mut [Row],
    dir: Dir,
    fate: Fate,
) -> Option<Carried>
    requires holds { queue.old.items ≡ waiting dir 0 rows.old }
    requires ends { is_queued fate ≡ false }
    ensures copy { result ≡ first_copy dir rows.old }
    ensures rows { rows.new ≡ turned fate dir rows.old }
    ensures queue { queue.new ≡ buffer (waiting dir 0 rows.new) queue.old.capacity }
{
    let Some(Waiting { index, carried }) = queue.pop_front() else {
        return None;
    };
    rows[index].fate = fate;
    Some(carried)
}

/// Loses all copies that wait, by a walk over the queue alone.
pub(crate) fn lose_all(queue: &mut HeapCircularBuffer<Waiting>, rows: &mut [Row], dir: Dir)
    requires { queue.old.items ≡ waiting dir 0 rows.old }
    ensures rows { rows.new ≡ map (lost_of dir) rows.old }
    ensures queue { queue.new ≡ buffer [] queue.old.capacity }
{
    // What is lost is dropped: its row keeps the octets.
    while let Some(_lost) = turn_first(queue, rows, dir, Fate::LostCut) {}
}

/// Loses all copies that wait in either direction, and tells how many.
pub(crate) fn lose_both(
    forth: &mut HeapCircularBuffer<Waiting>,
    back: &mut HeapCircularBuffer<Waiting>,
    rows: &mut [Row],
) -> usize
    requires forth { forth.old.items ≡ waiting Forth 0 rows.old }
    requires back { back.old.items ≡ waiting Back 0 rows.old }
    ensures count { result ≡ count_by (λ row. is_queued row.fate) rows.old }
    ensures rows { rows.new ≡ map lost rows.old }
    ensures forth { forth.new ≡ buffer [] forth.old.capacity }
    ensures back { back.new ≡ buffer [] back.old.capacity }
{
    // Counted first: both queues are empty afterwards.
    let count = forth.len() + back.len();
    lose_all(forth, rows, Dir::Forth);
    lose_all(back, rows, Dir::Back);
    count
}
