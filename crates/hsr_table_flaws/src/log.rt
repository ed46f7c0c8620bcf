//! What a node noted and heard, and what of it is forgotten, mistaken or numbered late.
ghost use Rattle.std.specs.Prelude.{◌≡◌, [], IfOk, OnOk};
ghost use Rattle.hsr_frame.specs.Egress.{Egress};
ghost use Rattle.hsr_node.specs.Record.{key_handled};
ghost use Rattle.hsr_table_flaws.specs.Looked.{IsAged, IsLoggedAfter, IsNotedAfter, IsReadyFor, came_in, forgets_by, is_late_by, marks_at, mistakes_by, moment_of, read_by, was_marked};
ghost use Rattle.hsr_tables.specs.Proxies.{no_proxies};

use crate::keys::{came_in, key_handled};
use crate::marks::Marks;
use hsr_duptable::Key;
use hsr_frame::NoMemory;
use hsr_node::{Entry, Event, Outcome, Place, Probe};
use hsr_table_demand::{Reading, hear, read};
use hsr_tables::ProxyTable;
use std::alloc::Global;

/// What is found at one entry.
#[derive(Clone, Copy)]
pub(crate) struct Look {
    pub(crate) forgets: bool,
    pub(crate) mistakes: bool,
    pub(crate) is_late: bool,
}

/// What an entry asks of the notes of its node, the source and number of what came, and those under which it is noted.
#[derive(Clone, Copy)]
struct Question {
    reading: Reading,
    came: Option<Key>,
    key: Option<Key>,
}

/// The effective moment of a node in microseconds, the stations that it knows, and what it noted at each egress.
#[derive(Drop)]
pub(crate) struct Log {
    moment: u64,
    stations: ProxyTable,
    up: Marks,
    a: Marks,
    b: Marks,
    c: Marks,
    d: Marks,
}

impl Log {
    /// A node that did nothing.
    pub(crate) fn new(alloc: Global) -> Log
        ensures moment { result.moment ≡ 0 }
        ensures stations { result.stations ≡ no_proxies }
        ensures marks { (e : Egress) → marks_at result e ≡ [] }
    {
        Log {
            moment: 0,
            stations: ProxyTable::new(),
            up: Marks::new(alloc),
            a: Marks::new(alloc),
            b: Marks::new(alloc),
            c: Marks::new(alloc),
            d: Marks::new(alloc),
        }
    }

    /// Whether what came at this moment wants an egress where its send was noted and isn't remembered.
    fn forgets(&self, capacity: usize, q: &Question, at: u64) -> bool
        requires { IsReadyFor self.now at }
        ensures { result ≡ forgets_by capacity self.now q.now.reading at }
    {
        let r = &q.reading;
        (r.wanted.up && self.up.is_gone(capacity, at, r.send))
            || (r.wanted.a && self.a.is_gone(capacity, at, r.send))
            || (r.wanted.b && self.b.is_gone(capacity, at, r.send))
            || (r.wanted.c && self.c.is_gone(capacity, at, r.send))
            || (r.wanted.d && self.d.is_gone(capacity, at, r.send))
    }

    /// Whether what came at this moment wants an egress where its source and number are remembered of another send.
    fn mistakes(&self, capacity: usize, q: &Question, at: u64) -> bool
        requires { IsReadyFor self.now at }
        ensures { result ≡ mistakes_by capacity self.now q.now.reading q.now.came at }
    {
        let r = &q.reading;
        (r.wanted.up && self.up.is_mixed_up(capacity, at, q.came, r.send))
            || (r.wanted.a && self.a.is_mixed_up(capacity, at, q.came, r.send))
            || (r.wanted.b && self.b.is_mixed_up(capacity, at, q.came, r.send))
            || (r.wanted.c && self.c.is_mixed_up(capacity, at, q.came, r.send))
            || (r.wanted.d && self.d.is_mixed_up(capacity, at, q.came, r.send))
    }

    /// Whether a send was noted at some egress.
    fn was_noted(&self, send: Option<Probe>) -> bool
        ensures { result ≡ was_marked self.now send }
    {
        self.up.has(send)
            || self.a.has(send)
            || self.b.has(send)
            || self.c.has(send)
            || self.d.has(send)
    }

    /// Whether an entry gives what came its number, and its send was noted.
    fn is_late(&self, x: &Entry) -> bool
        ensures { result ≡ is_late_by self.now x.now.event x.now.outcome }
    {
        match (&x.event, &x.outcome) {
            (Event::Arrive { carried, .. }, Outcome::Judged { seq: Some(_), .. }) => {
                self.was_noted(carried.probe)
            }
            _ => false,
        }
    }

    /// Notes what passed at this moment.
    fn note(&mut self, q: &Question, at: u64) -> Result<(), NoMemory>
        ensures moment { self.new.moment ≡ self.old.moment }
        ensures stations { self.new.stations ≡ self.old.stations }
        ensures noted { OnOk result (IsNotedAfter self.old q.now.reading q.now.key at self.new) }
    {
        let r = &q.reading;
        self.up.note(r.noted.up, q.key, at, r.send)?;
        self.a.note(r.noted.a, q.key, at, r.send)?;
        self.b.note(r.noted.b, q.key, at, r.send)?;
        self.c.note(r.noted.c, q.key, at, r.send)?;
        self.d.note(r.noted.d, q.key, at, r.send)
    }

    /// Goes on by an entry that stands here, and tells what was forgotten, mistaken or numbered late there.
    pub(crate) fn step(
        &mut self,
        capacity: usize,
        place: &Place,
        here: Probe,
        x: &Entry,
    ) -> Result<Look, NoMemory>
        requires { IsAged self.old }
        ensures forgets { IfOk result (λ l. l.forgets ≡ forgets_by capacity self.old
            (read_by self.old place.now here x.now) (moment_of self.old x.now)) }
        ensures mistakes { IfOk result (λ l. l.mistakes ≡ mistakes_by capacity self.old
            (read_by self.old place.now here x.now) (came_in x.now.event)
            (moment_of self.old x.now)) }
        ensures is_late { IfOk result (λ l. l.is_late
            ≡ is_late_by self.old x.now.event x.now.outcome) }
        ensures logged { OnOk result (IsLoggedAfter self.old place.now here x.now self.new) }
    {
        self.moment = self.moment.max(x.at);
        // Heard first: a RedBox knows a frame's source before it decides on the frame.
        hear(&mut self.stations, place, self.moment, &x.event);
        let question = Question {
            reading: read(place, &self.stations, self.moment, here, x),
            came: came_in(&x.event),
            key: key_handled(place, x),
        };
        // Before the note: what came asks for notes that were made earlier.
        let look = Look {
            forgets: self.forgets(capacity, &question, self.moment),
            mistakes: self.mistakes(capacity, &question, self.moment),
            is_late: self.is_late(x),
        };
        self.note(&question, self.moment)?;
        Ok(look)
    }
}
