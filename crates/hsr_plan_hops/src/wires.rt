//! How the copies of a finished run went over their wires.
ghost use Rattle.std.specs.Prelude.{◌≡◌, fold, slice_get};
ghost use Rattle.hsr_run_laws.specs.Run.{rows_of};
ghost use Rattle.hsr_plan_hops.specs.Hops.{moment_at};
ghost use Rattle.hsr_plan_hops.specs.Wires.{at_first, begins_on, ends_on, follows, free_of, freed, is_judged, is_judged_at, judged_early, judged_whole, on_link, taken_on, went, went_if};

use crate::arrivals::HEAD_OCTETS;
use crate::flights::{later, time_on};
use crate::timing::moment_at;
use hsr_finished_run::Closed;
use hsr_link::{Dir, Fate, Row};
use hsr_plan_text::{Switching, Wire};
use hsr_timeline::Hop;
use hsr_wire::wire_octets;

/// What is known of a link: from when on each direction is free, and whether all copies so far were judged in time.
#[derive(Clone, Copy, PartialEq, Eq)]
pub(crate) struct Course {
    link: usize,
    forth: u64,
    back: u64,
    fits: bool,
}

/// When a copy began to go.
fn begins_on(free: u64, passed: Option<u64>) -> u64
    ensures { result ≡ begins_on free passed }
{
    match passed {
        None => free,
        Some(passed) => passed.max(free),
    }
}

/// When its direction was free behind it.
fn ends_on(wire: Wire, begins: u64, row: &Row) -> u64
    ensures { result ≡ ends_on wire begins row.now }
{
    let octets = wire_octets(row.carried.octets.as_slice());
    later(begins, time_on(wire, octets))
}

/// When a copy is judged that is there as a whole.
fn judged_whole(wire: Wire, ends: u64) -> u64
    ensures { result ≡ judged_whole wire ends }
{
    later(ends, wire.residence)
}

/// When a copy is judged that cuts through.
fn judged_early(wire: Wire, begins: u64) -> u64
    ensures { result ≡ judged_early wire begins }
{
    later(later(begins, time_on(wire, HEAD_OCTETS)), wire.residence)
}

fn is_judged_at(wire: Wire, begins: u64, ends: u64, at: u64) -> bool
    ensures { result ≡ is_judged_at wire wire.switching begins ends at }
{
    match wire.switching {
        Switching::Store => at == judged_whole(wire, ends),
        Switching::Cut => at == judged_whole(wire, ends) || at == judged_early(wire, begins),
    }
}

/// Whether a copy was judged in time.
fn is_judged(wire: Wire, begins: u64, ends: u64, judged: Option<u64>) -> bool
    ensures { result ≡ is_judged wire begins ends judged }
{
    match judged {
        None => false,
        Some(at) => is_judged_at(wire, begins, ends, at),
    }
}

impl Course {
    /// From when on a direction is free.
    fn free_of(self, dir: Dir) -> u64
        ensures { result ≡ free_of dir self }
    {
        match dir {
            Dir::Forth => self.forth,
            Dir::Back => self.back,
        }
    }

    /// The course where a direction is free from a moment on.
    fn freed(self, dir: Dir, free: u64) -> Course
        ensures { result ≡ freed dir free self }
    {
        match dir {
            Dir::Forth => Course {
                forth: free,
                ..self
            },
            Dir::Back => Course { back: free, ..self },
        }
    }

    /// The course on a link, over which nothing went yet if it is another.
    fn on_link(self, link: usize) -> Course
        ensures { result ≡ on_link link self }
    {
        if link == self.link {
            self
        } else {
            Course {
                link,
                forth: 0,
                back: 0,
                fits: self.fits,
            }
        }
    }

    /// Behind a copy that was taken.
    fn taken_on<const C: usize>(
        self,
        closed: &Closed<C>,
        wire: Wire,
        hop: &Hop,
        row: &Row,
        begins: u64,
    ) -> Course
        ensures { result ≡ taken_on wire closed.now.run hop.now row.now self begins }
    {
        let ends = ends_on(wire, begins, row);
        let judged = moment_at(closed, hop.judged);
        let fits = self.fits && is_judged(wire, begins, ends, judged);
        let freed = self.freed(row.dir, ends);
        Course { fits, ..freed }
    }

    /// Behind the copy of a row.
    fn went<const C: usize>(self, closed: &Closed<C>, wire: Wire, hop: &Hop, row: &Row) -> Course
        ensures { result ≡ went wire closed.now.run hop.now row.now row.now.fate self }
    {
        match row.fate {
            Fate::Taken => {
                let begins = begins_on(self.free_of(row.dir), moment_at(closed, hop.passed));
                self.taken_on(closed, wire, hop, row, begins)
            }
            // A cut leaves nothing on the wire.
            Fate::LostCut => self.freed(row.dir, 0),
            Fate::Queued | Fate::LostDown | Fate::LostOverrun => self,
        }
    }
}

/// The rows of a link; none where there is no such link.
fn rows_of<const C: usize>(closed: &Closed<C>, link: usize) -> &[Row]
    ensures { result.now ≡ rows_of closed.now.run link }
{
    if link < closed.topology().links().len() {
        closed.rows(link)
    } else {
        &[]
    }
}

/// What is known of a link behind one copy more.
fn follows<const C: usize>(closed: &Closed<C>, wire: Wire, course: Course, hop: &Hop) -> Course
    ensures { result ≡ follows wire closed.now.run course hop.now }
{
    let course = course.on_link(hop.link);
    match rows_of(closed, hop.link).get(hop.number) {
        None => course,
        Some(row) => course.went(closed, wire, hop, row),
    }
}

/// Whether these copies, those of one link behind those of another, were judged in time if they were taken.
pub(crate) fn fit<const C: usize>(closed: &Closed<C>, wire: Wire, hops: &[Hop]) -> bool
    ensures { result ≡ (fold (follows wire closed.now.run) at_first hops.now).fits }
{
    let mut course = Course {
        link: 0,
        forth: 0,
        back: 0,
        fits: true,
    };
    for hop in hops {
        course = follows(closed, wire, course, hop);
    }
    course.fits
}
