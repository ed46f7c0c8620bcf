//! A link: two queues, and a row for each copy that was put on them.
ghost use Rattle.std.specs.Prelude.{◌≡◌, ◌≤◌, IfOk, IfErr, is_some};
ghost use Rattle.hsr_link.specs.Calls.{TakesInOrder};

use crate::queue::{Waiting, enter, has_first, lose_both, put_fate, turn_first};
use crate::row::{Dir, Fate, Row};
use circular_buffer::HeapCircularBuffer;
use hsr_frame::NoMemory;
use hsr_node::Carried;
use std::alloc::Global;
use std::marker::Model;

/// A link between two ports. In each direction a bounded number of copies may wait, and each copy has a row.
///
/// A clause sees its rows, whether it is cut, and its capacity.
#[derive(Drop)]
pub struct Link {
    capacity: usize,
    is_cut: bool,
    forth: HeapCircularBuffer<Waiting>,
    back: HeapCircularBuffer<Waiting>,
    rows: Vec<Row>,
    // How many rows are expected in all: no part of what a clause sees.
    expected: usize,
}

impl Model for Link {
    ghost use Rattle.hsr_link.specs.Link.{Link};
    ghost use Rattle.hsr_link.specs.Queue.{IsSound};

    ghost Value = { Link };

    ghost view = { λ l. record { rows = l.rows.items; is_cut = l.is_cut; capacity = l.capacity } };

    ghost invariant = { λ l. IsSound l.capacity l.rows.items l.forth l.back };
}

impl Link {
    ghost use Rattle.hsr_link.specs.Link.{new_link, put_step, inject_step, add_step, take_step, cut_step, mended};
    ghost use Rattle.hsr_link.specs.Rows.{first_copy};

    /// A link that is not cut, on which `capacity` copies, 1 to 4096, may wait in each direction; `NoMemory` where room for them
    /// is refused.
    pub fn new(alloc: Global, capacity: usize) -> Result<Link, NoMemory>
        requires { (1 ≤ capacity) × (capacity ≤ 4096) }
        ensures { IfOk result (λ link. link ≡ new_link capacity) }
    {
        let forth = HeapCircularBuffer::with_capacity(alloc, capacity)?;
        let back = HeapCircularBuffer::with_capacity(alloc, capacity)?;
        Ok(Link {
            capacity,
            is_cut: false,
            forth,
            back,
            rows: Vec::new(alloc),
            expected: 0,
        })
    }

    /// Tells how many rows are expected in all, so that they aren't moved as they grow. Nothing else depends on it.
    pub fn expect(&mut self, rows: usize)
        ensures { self.new ≡ self.old }
    {
        self.expected = rows;
    }

    /// Puts a copy, and tells what became of it: Queued, LostDown on a cut link, or LostOverrun where its queue is
    /// full. `NoMemory` if allocation fails: then nothing changes, and the copy comes back.
    // Inline, as `add` and `queue::enter` are: each call would pass the copy and its way back through memory.
    #[inline(always)]
    pub fn put(&mut self, dir: Dir, carried: Carried) -> Result<Fate, (Carried, NoMemory)>
        ensures ok { IfOk result (λ fate. (fate, self.new) ≡ put_step self.old dir carried) }
        ensures err { IfErr result (λ e. (self.new ≡ self.old) × (e.0 ≡ carried)) }
    {
        self.add(dir, carried, false)
    }

    /// Puts a copy that no port sent, whose row says so, and tells what became of it: Queued, LostDown on a cut link, or
    /// LostOverrun where its queue is full. `NoMemory` if allocation fails: then nothing changes, and the copy comes back.
    pub fn inject(&mut self, dir: Dir, carried: Carried) -> Result<Fate, (Carried, NoMemory)>
        ensures ok { IfOk result (λ fate. (fate, self.new) ≡ inject_step self.old dir carried) }
        ensures err { IfErr result (λ e. (self.new ≡ self.old) × (e.0 ≡ carried)) }
    {
        self.add(dir, carried, true)
    }

    /// Adds the row of a copy that was put or injected, and lets the copy wait if it is Queued.
    #[inline(always)]
    pub(crate) fn add(
        &mut self,
        dir: Dir,
        carried: Carried,
        injected: bool,
    ) -> Result<Fate, (Carried, NoMemory)>
        ensures ok { IfOk result (λ fate. (fate, self.new)
            ≡ add_step self.old dir carried injected) }
        ensures err { IfErr result (λ e. (self.new ≡ self.old) × (e.0 ≡ carried)) }
    {
        match dir {
            Dir::Forth => {
                // A cut link is told before a full queue: what is put on it is lost either way.
                let fate = put_fate(self.is_cut, &self.forth);
                let row = Row {
                    dir,
                    carried,
                    injected,
                    fate,
                };
                enter(&mut self.forth, &mut self.rows, self.expected, row)
            }
            Dir::Back => {
                let fate = put_fate(self.is_cut, &self.back);
                let row = Row {
                    dir,
                    carried,
                    injected,
                    fate,
                };
                enter(&mut self.back, &mut self.rows, self.expected, row)
            }
        }
    }

    /// Takes the oldest copy that waits in a direction, if one does. Needs no memory.
    // Inline, since a call would pass the copy through memory.
    #[inline(always)]
    pub fn take(&mut self, dir: Dir) -> Option<Carried>
        ensures { (result, self.new) ≡ take_step self.old dir }
    {
        match dir {
            Dir::Forth => turn_first(&mut self.forth, self.rows.as_mut_slice(), dir, Fate::Taken),
            Dir::Back => turn_first(&mut self.back, self.rows.as_mut_slice(), dir, Fate::Taken),
        }
    }

    /// Whether a copy waits in a direction: whether `take` would give one. It asks the queue, however many rows there are.
    pub fn waits(&self, dir: Dir) -> bool
        ensures { result ≡ is_some (first_copy dir self.now.rows) }
    {
        match dir {
            // The queue is asked and not the rows, so the answer takes the same time however many rows there are.
            Dir::Forth => has_first(&self.forth),
            Dir::Back => has_first(&self.back),
        }
    }

    /// Cuts the link: all copies that wait are lost, and it tells how many. Needs no memory.
    pub fn cut(&mut self) -> usize
        ensures { (result, self.new) ≡ cut_step self.old }
    {
        self.is_cut = true;
        lose_both(&mut self.forth, &mut self.back, self.rows.as_mut_slice())
    }

    /// Mends the link; what was lost stays so.
    pub fn mend(&mut self)
        ensures { self.new ≡ mended self.old }
    {
        self.is_cut = false;
    }

    /// The row of each copy, in the order in which they were put.
    pub fn rows(&self) -> &[Row]
        ensures { result.now ≡ self.now.rows }
    {
        self.rows.as_slice()
    }

    /// The rows, in the order in which the copies were put.
    pub fn into_rows(self) -> Vec<Row>
        ensures { result.items ≡ self.rows }
    {
        let Link {
            capacity: _,
            is_cut: _,
            forth: _,
            back: _,
            rows,
            expected: _,
        } = self;
        rows
    }
}

/// What a link is but its rows: the copies that wait in each direction, how many may, and whether it is cut.
/// A world that is closed hands its rows over, and keeps this to join them again if the run is refused: so no row is
/// copied.
#[derive(Drop)]
pub struct Queues {
    capacity: usize,
    is_cut: bool,
    forth: HeapCircularBuffer<Waiting>,
    back: HeapCircularBuffer<Waiting>,
}

impl Model for Queues {
    ghost use Rattle.hsr_link.specs.Parts.{AreSized, Queues};

    ghost Value = { Queues };

    ghost view = { λ q. record { forth = q.forth; back = q.back; is_cut = q.is_cut; capacity = q.capacity } };

    ghost invariant = { λ q. AreSized q.capacity };
}

impl Link {
    ghost use Rattle.hsr_link.specs.Parts.{link_of, queues_of};

    /// The link in two: its rows, in the order in which the copies were put, and all else. Needs no memory.
    pub fn into_parts(self) -> (Vec<Row>, Queues)
        ensures rows { result.0.items ≡ self.rows }
        ensures queues { result.1 ≡ queues_of self }
    {
        let Link {
            capacity,
            is_cut,
            forth,
            back,
            rows,
            expected: _,
        } = self;
        let queues = Queues {
            capacity,
            is_cut,
            forth,
            back,
        };
        (rows, queues)
    }

    /// The link of rows and of the queues that were taken from it: in each direction the copies of the rows that are Queued wait.
    /// Needs no memory.
    pub fn of_parts(rows: Vec<Row>, queues: Queues) -> Link
        requires { queues ≡ queues_of (link_of rows.items queues) }
        ensures { result ≡ link_of rows.items queues }
    {
        let Queues {
            capacity,
            is_cut,
            forth,
            back,
        } = queues;
        Link {
            capacity,
            is_cut,
            forth,
            back,
            rows,
            // A link that was taken apart was mostly done with: what is put on it yet isn't known.
            expected: 0,
        }
    }
}

/// Whatever is done to a new link, the copies taken in a direction are those of its Taken rows, in the order in which they
/// were put.
pub fn takes_in_order()
    ensures { TakesInOrder }
{}
