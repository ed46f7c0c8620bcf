//! What a node noted and heard.
ghost use Rattle.std.specs.Prelude.{◌≡◌, ◌≤◌, [], IfOk, OnOk};
ghost use Rattle.hsr_frame.specs.Egress.{Egress};
ghost use Rattle.hsr_table_demand.specs.Logged.{HasRoom, IsLoggedAfter, IsNotedAfter, moment_of, needs_by, read_by, tally_at};
ghost use Rattle.hsr_table_demand.specs.Tallied.{Tells};
ghost use Rattle.hsr_tables.specs.Proxies.{no_proxies};

use crate::reading::{Reading, hear, read};
use crate::tally::Tally;
use hsr_frame::NoMemory;
use hsr_node::{Entry, Place, Probe};
use hsr_tables::ProxyTable;
use std::alloc::Global;

/// The effective moment of a node in microseconds, the stations that it knows, and its notes at each egress.
#[derive(Drop)]
pub(crate) struct Log {
    moment: u64,
    stations: ProxyTable,
    up: Tally,
    a: Tally,
    b: Tally,
    c: Tally,
    d: Tally,
}

impl Log {
    /// A node that did nothing.
    pub(crate) fn new(alloc: Global) -> Log
        ensures moment { result.moment ≡ 0 }
        ensures stations { result.stations ≡ no_proxies }
        ensures tells { (e : Egress) → Tells (tally_at result e) [] }
    {
        Log {
            moment: 0,
            stations: ProxyTable::new(),
            up: Tally::new(alloc),
            a: Tally::new(alloc),
            b: Tally::new(alloc),
            c: Tally::new(alloc),
            d: Tally::new(alloc),
        }
    }

    /// How many notes what came at this moment needs: the most that there are, at an egress that it wants, from the
    /// latest of its send on.
    fn needs(&self, r: Reading, at: u64) -> usize
        ensures { result ≡ needs_by self.now r at }
    {
        let reach = |is_wanted: bool, tally: &Tally| if is_wanted {
            tally.reach(at, r.send)
        } else {
            0
        };
        reach(r.wanted.up, &self.up)
            .max(reach(r.wanted.a, &self.a))
            .max(reach(r.wanted.b, &self.b))
            .max(reach(r.wanted.c, &self.c))
            .max(reach(r.wanted.d, &self.d))
    }

    /// Notes what passed at this moment.
    fn note(&mut self, r: Reading, at: u64) -> Result<(), NoMemory>
        requires { HasRoom self.old }
        ensures moment { self.new.moment ≡ self.old.moment }
        ensures stations { self.new.stations ≡ self.old.stations }
        ensures noted { OnOk result (IsNotedAfter self.old r at self.new) }
    {
        self.up.note(r.noted.up, at, r.send)?;
        self.a.note(r.noted.a, at, r.send)?;
        self.b.note(r.noted.b, at, r.send)?;
        self.c.note(r.noted.c, at, r.send)?;
        self.d.note(r.noted.d, at, r.send)
    }

    /// Goes on by an entry that stands here, and tells how many notes it needed.
    pub(crate) fn step(&mut self, place: &Place, here: Probe, x: &Entry) -> Result<usize, NoMemory>
        requires aged { self.old.stations.last ≤ self.old.moment }
        requires room { HasRoom self.old }
        ensures needs { IfOk result (λ n.
            n ≡ needs_by self.old (read_by self.old place.now here x.now)
            (moment_of self.old x.now)) }
        ensures logged { OnOk result (IsLoggedAfter self.old place.now here x.now self.new) }
    {
        self.moment = self.moment.max(x.at);
        // Heard first: a RedBox knows a frame's source before it decides on the frame.
        hear(&mut self.stations, place, self.moment, &x.event);
        let r = read(place, &self.stations, self.moment, here, x);
        // Before the note: what came asks for notes that were made earlier.
        let needs = self.needs(r, self.moment);
        self.note(r, self.moment)?;
        Ok(needs)
    }
}
