//! A node with two ports in each of two rings.
ghost use Rattle.std.specs.Prelude.{◌≡◌, ◌^◌, IfOk};
ghost use Rattle.hsr_frame.specs.Counters.{step_limit};
ghost use Rattle.hsr_duptable.specs.Table.{IsTableSize};
ghost use Rattle.hsr_quadbox.specs.Step.{verdict_of};

use crate::wanted::{QuadPort, arrival_wants};
use hsr_forwarding::{EgressTables, Judged, count};
use hsr_frame::{Cause, Counters, Exits, NoMemory, STEP_LIMIT, Spent};
use hsr_tag::look_at;
use std::alloc::Global;
use std::marker::Model;

/// Which of the ports A, B, C and D an arrival left by, in this order, and why.
#[derive(Clone, Copy, PartialEq, Eq)]
pub struct QuadVerdict {
    pub out: [bool; 4],
    pub cause: Cause,
}

/// A QuadBox (IEC 62439-3 clause 5), which joins two rings. It has no address and sends nothing of its own. Each of
/// its ports has a duplicate table of `C` entries, `C` from 1 to 65535. Moments are in microseconds; one that is
/// earlier than the last is read as the last. Only `new` takes memory.
#[derive(Drop)]
pub struct QuadBox<const C: usize> {
    tables: EgressTables<C>,
    counters: Counters,
    moment: u64,
    accepted: u64,
}

impl<const C: usize> Model for QuadBox<C> {
    ghost use Rattle.hsr_quadbox.specs.Machine.{IsSound, Machine};

    ghost Value = { Machine };

    ghost view = { λ q. record { notes = q.tables; counters = q.counters; moment = q.moment; accepted = q.accepted } };

    ghost invariant = { λ q. IsSound (record {
      notes = q.tables;
      counters = q.counters;
      moment = q.moment;
      accepted = q.accepted;
    }) };
}

impl<const C: usize> QuadBox<C> {
    ghost use Rattle.hsr_frame.specs.Counters.{AreWithin};
    ghost use Rattle.hsr_quadbox.specs.Machine.{new_machine};
    ghost use Rattle.hsr_quadbox.specs.Step.{arrive_step, age_step};

    /// A QuadBox to which nothing came yet; `NoMemory` if allocation fails.
    pub fn new(alloc: Global) -> Result<Self, NoMemory>
        requires { IsTableSize C }
        ensures { IfOk result (λ quad. quad ≡ new_machine) }
    {
        // Nothing goes up: a QuadBox has no address, and takes no frame for itself.
        let egresses = Exits {
            c: true,
            d: true,
            ..Exits::both_ports()
        };
        let tables = EgressTables::new(alloc, egresses)?;
        Ok(QuadBox {
            tables,
            counters: Counters::new(),
            moment: 0,
            accepted: 0,
        })
    }

    /// Judges octets that came to a port, at a moment in microseconds: a tagged frame leaves by each of the other
    /// ports that doesn't remember it, and is noted there (IEC 62439-3 clause 5.3); what is no tagged frame is counted
    /// and dropped. `Spent` where `STEP_LIMIT` arrivals were accepted; that changes nothing.
    pub fn arrive(&mut self, at: u64, port: QuadPort, octets: &[u8]) -> Result<QuadVerdict, Spent>
        ensures { (result, self.new) ≡ arrive_step C self.old at port octets.now }
    {
        if self.accepted == STEP_LIMIT {
            return Err(Spent);
        }
        // An earlier moment counts as the last one (RULES, Sending).
        let now = self.moment.max(at);
        let seen = look_at(octets);
        let wants = arrival_wants(port, &seen);
        let judged = self.tables.judge(wants, &seen, now);
        // A QuadBox hears no supervision, so nothing was unreadable.
        count(&mut self.counters, judged, true);
        self.moment = now;
        self.accepted += 1;
        Ok(verdict_of(judged))
    }

    /// Drops what is expired at a moment in microseconds. That changes no later answer.
    pub fn age(&mut self, at: u64)
        ensures { self.new ≡ age_step self.old at }
    {
        let now = self.moment.max(at);
        self.tables.age(now);
        self.moment = now;
    }

    /// How often each thing happened here.
    pub fn counters(&self) -> Counters
        ensures value { result ≡ self.now.counters }
        ensures within { AreWithin result step_limit }
    {
        self.counters
    }
}

/// The verdict of a QuadBox, by its ports.
fn verdict_of(judged: Judged) -> QuadVerdict
    ensures { result ≡ verdict_of judged }
{
    let passes = judged.passes;
    QuadVerdict {
        out: [passes.a, passes.b, passes.c, passes.d],
        cause: judged.cause,
    }
}
