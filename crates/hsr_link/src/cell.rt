//! A link that threads share.
//!
//! What is done under the lock is a private function of the desk, with a contract. No clause can name what stands under
//! a lock, so each call of `LinkCell` does just that one function.
ghost use Rattle.std.specs.Prelude.{◌≡◌, true, false, IfErr, IfOk, MatchBool, None, is_some};
ghost use Rattle.hsr_link.specs.Cell.{is_put_fate, is_ready};
ghost use Rattle.hsr_link.specs.Link.{add_step, cut_step, mended, take_step};

use crate::link::Link;
use crate::row::{Dir, Fate};
use hsr_frame::NoMemory;
use hsr_node::Carried;
use std::sync::{Condvar, Mutex, Wait};

/// What stands under the lock: the link, and whether nobody is to wait for a copy any more.
#[derive(Drop)]
struct Desk {
    link: Link,
    closed: bool,
}

/// The desk of a link, which isn't closed.
fn desk_of(link: Link) -> Desk
    ensures { result ≡ record { link = link; closed = false } }
{
    Desk {
        link,
        closed: false,
    }
}

/// The link of a desk.
fn link_of(desk: Desk) -> Link
    ensures { result ≡ desk.link }
{
    desk.link
}

/// Adds the row of a copy that was put or injected.
fn add_at(
    desk: &mut Desk,
    dir: Dir,
    carried: Carried,
    injected: bool,
) -> Result<Fate, (Carried, NoMemory)>
    ensures ok { IfOk result (λ fate. (fate, desk.new.link)
        ≡ add_step desk.old.link dir carried injected) }
    ensures err { IfErr result (λ e. (desk.new ≡ desk.old) × (e.0 ≡ carried)) }
    ensures closed { desk.new.closed ≡ desk.old.closed }
{
    desk.link.add(dir, carried, injected)
}

/// Cuts the link, and tells how many copies that waited are lost.
fn cut_at(desk: &mut Desk) -> usize
    ensures link { (result, desk.new.link) ≡ cut_step desk.old.link }
    ensures closed { desk.new.closed ≡ desk.old.closed }
{
    desk.link.cut()
}

/// Mends the link.
fn mend_at(desk: &mut Desk)
    ensures { desk.new ≡ record desk.old { link = mended desk.old.link } }
{
    desk.link.mend();
}

/// Closes the desk.
fn close_at(desk: &mut Desk)
    ensures { desk.new ≡ record desk.old { closed = true } }
{
    desk.closed = true;
}

/// Whether there is nothing to wait for in a direction: a copy is there, or the desk is closed.
fn is_ready(desk: &Desk, dir: Dir) -> bool
    ensures { result ≡ is_ready desk.now dir }
{
    desk.closed || desk.link.waits(dir)
}

/// Takes the oldest copy that waits in a direction, or none where the desk is closed.
fn take_ready(desk: &mut Desk, dir: Dir) -> Option<Carried>
    requires { is_ready desk.old dir ≡ true }
    ensures copy { MatchBool desk.old.closed (result ≡ None) (is_some result ≡ true) }
    ensures link { MatchBool desk.old.closed (desk.new ≡ desk.old)
        ((result, desk.new.link) ≡ take_step desk.old.link dir) }
    ensures closed { desk.new.closed ≡ desk.old.closed }
{
    // A closed desk gives nothing, even where copies wait: who takes is to end.
    if desk.closed {
        return None;
    }
    desk.link.take(dir)
}

/// A link under a lock, and those who wait for its copies, in each direction on their own.
///
/// Whenever the lock is free its value is a `Link`, whose queues are its rows that are Queued. No clause names that value:
/// nothing is proved of what a cell holds at a moment or what a call did to it, nor of waiting, fairness or order.
#[derive(Drop)]
pub struct LinkCell {
    desk: Mutex<Desk>,
    // One for each direction, so that a copy wakes nobody who waits for one of the other.
    forth: Condvar,
    back: Condvar,
}

impl LinkCell {
    /// Puts a link under a lock. Waits for nobody, and needs no memory.
    pub fn new(link: Link) -> LinkCell {
        LinkCell {
            desk: Mutex::new(desk_of(link)),
            forth: Condvar::new(),
            back: Condvar::new(),
        }
    }

    /// Where those wait who take copies of a direction.
    fn takers(&self, dir: Dir) -> &Condvar {
        match dir {
            Dir::Forth => &self.forth,
            Dir::Back => &self.back,
        }
    }

    /// Waits for the lock, puts a copy, wakes one who waits for one in its direction, and tells what became of it: Queued,
    /// LostDown on a cut link, or LostOverrun where its queue is full. A closed cell takes copies as before. `NoMemory` if
    /// allocation fails: then the copy comes back.
    pub fn put(
        &self,
        rt: &impl Wait,
        dir: Dir,
        carried: Carried,
    ) -> Result<Fate, (Carried, NoMemory)>
        ensures ok { IfOk result (λ fate. is_put_fate fate ≡ true) }
        ensures err { IfErr result (λ e. e.0 ≡ carried) }
    {
        self.add(rt, dir, carried, false)
    }

    /// Waits for the lock, puts a copy that no port sent, whose row says so, wakes one who waits for one in its direction, and
    /// tells what became of it: Queued, LostDown on a cut link, or LostOverrun where its queue is full. A closed cell takes
    /// copies as before. `NoMemory` if allocation fails: then the copy comes back.
    pub fn inject(
        &self,
        rt: &impl Wait,
        dir: Dir,
        carried: Carried,
    ) -> Result<Fate, (Carried, NoMemory)>
        ensures ok { IfOk result (λ fate. is_put_fate fate ≡ true) }
        ensures err { IfErr result (λ e. e.0 ≡ carried) }
    {
        self.add(rt, dir, carried, true)
    }

    /// Waits for the lock, adds the row of a copy that was put or injected, and wakes one who waits for one in its direction.
    fn add(
        &self,
        rt: &impl Wait,
        dir: Dir,
        carried: Carried,
        injected: bool,
    ) -> Result<Fate, (Carried, NoMemory)>
        ensures ok { IfOk result (λ fate. is_put_fate fate ≡ true) }
        ensures err { IfErr result (λ e. e.0 ≡ carried) }
    {
        let fate = add_at(&mut self.desk.lock(rt), dir, carried, injected)?;
        // A copy that is lost is there for nobody.
        if fate == Fate::Queued {
            self.takers(dir).notify_one();
        }
        Ok(fate)
    }

    /// Waits for the lock and cuts the link: all copies that wait are lost, and it tells how many. Needs no memory.
    pub fn cut(&self, rt: &impl Wait) -> usize {
        // Nobody is woken: a cut gives no copy to take.
        cut_at(&mut self.desk.lock(rt))
    }

    /// Waits for the lock and mends the link; what was lost stays so. Needs no memory.
    pub fn mend(&self, rt: &impl Wait) {
        mend_at(&mut self.desk.lock(rt));
    }

    /// Waits until a copy waits in a direction or the cell is closed. Takes the oldest such copy, or none once the cell is
    /// closed, whatever waits there. Needs no memory.
    pub fn take_or_closed(&self, rt: &impl Wait, dir: Dir) -> Option<Carried> {
        // The lock is kept from the wait to the take, so no other takes the copy in between.
        let desk = self.desk.lock(rt);
        let mut desk = self
            .takers(dir)
            .wait_while(rt, desk, |desk| !is_ready(desk, dir));
        take_ready(&mut desk, dir)
    }

    /// Waits for the lock and closes the cell for good: it wakes all who wait for a copy, and nobody waits for one again.
    /// Needs no memory.
    pub fn close(&self, rt: &impl Wait) {
        close_at(&mut self.desk.lock(rt));
        self.forth.notify_all();
        self.back.notify_all();
    }

    /// The link, out of the lock. Waits for nobody, and needs no memory.
    pub fn into_link(self) -> Link {
        let LinkCell { desk, .. } = self;
        link_of(desk.into_inner())
    }
}
