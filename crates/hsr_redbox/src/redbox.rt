//! A node with two ring ports and an interlink, its tables and its counters.
ghost use Rattle.std.specs.Prelude.{◌≡◌, ◌≢◌, ◌+◌, ◌-◌, ◌≤◌, ◌<◌, ◌^◌, length, map, true, IfOk, OnOk, IfNone, Option, Result};
ghost use Rattle.hsr_frame.specs.Counters.{step_limit};
ghost use Rattle.hsr_frame.specs.Layout.{ethertype_hsr, ethertype_vlan, max_payload};
ghost use Rattle.hsr_duptable.specs.Table.{IsTableSize};

use crate::call::{BoxPort, BoxSent, BoxVerdict, LifeFault};
use crate::marking::mark_numbered;
use crate::wanted::{interlink_handling, send_handling};
use arrayvec::ArrayVec;
use hsr_forwarding::{EgressTables, Judged, NUMBER_RANGE, count, hear, learn, ring_wants};
use hsr_frame::{
    About, Counters, Exits, FrameFault, Life, Mac, Mode, NoMemory, RingPort, STEP_LIMIT, SendFault,
    Spent, send_fault,
};
use hsr_tables::{NodeRow, NodeTable, ProxyTable, ROW_LIMIT};
use hsr_tag::{SeenView, look_at};
use std::alloc::Global;
use std::marker::Model;

/// A node between a ring and the stations of its interlink (IEC 62439-3 clause 5.3), whose duplicate tables have
/// `C` entries each, `C` from 1 to 65535. Moments are in microseconds; one that is earlier than the last is read
/// as the last. Only `new` takes memory.
#[derive(Drop)]
pub struct RedBox<const C: usize> {
    own: Mac,
    mode: Mode,
    tables: EgressTables<C>,
    proxies: ProxyTable,
    nodes: NodeTable,
    next: u16,
    counters: Counters,
    moment: u64,
    accepted: u64,
}

impl<const C: usize> Model for RedBox<C> {
    ghost use Rattle.hsr_redbox.specs.Machine.{IsSound, Machine};

    ghost Value = { Machine };

    ghost view = { λ d. record { own = d.own; mode = d.mode; notes = d.tables; proxies = d.proxies; nodes = d.nodes; next = d.next; counters = d.counters; moment = d.moment; accepted = d.accepted } };

    ghost invariant = { λ d. IsSound (record {
      own = d.own;
      mode = d.mode;
      notes = d.tables;
      proxies = d.proxies;
      nodes = d.nodes;
      next = d.next;
      counters = d.counters;
      moment = d.moment;
      accepted = d.accepted;
    }) };
}

impl<const C: usize> RedBox<C> {
    ghost use Rattle.hsr_frame.specs.Address.{IsGroup};
    ghost use Rattle.hsr_frame.specs.Counters.{AreWithin};
    ghost use Rattle.hsr_tables.specs.Known.{known};
    ghost use Rattle.hsr_forwarding.specs.Tables.{among};
    ghost use Rattle.hsr_redbox.specs.Machine.{new_machine};
    ghost use Rattle.hsr_redbox.specs.Step.{after_frame, after_interlink, after_ring, age_step, arrive_step, life_step, now_at, send_step};
    ghost use Rattle.hsr_redbox.specs.Wanted.{egresses};

    /// A node that has done nothing. No group has its address. `NoMemory` if allocation fails.
    pub fn new(alloc: Global, own: Mac, mode: Mode) -> Result<Self, NoMemory>
        requires station { ¬ IsGroup own }
        requires entries { IsTableSize C }
        ensures { IfOk result (λ redbox. redbox ≡ new_machine own mode) }
    {
        let egresses = Exits {
            up: true,
            c: true,
            ..Exits::both_ports()
        };
        let tables = EgressTables::new(alloc, egresses)?;
        Ok(RedBox {
            own,
            mode,
            tables,
            proxies: ProxyTable::new(),
            nodes: NodeTable::new(),
            next: 0,
            counters: Counters::new(),
            moment: 0,
            accepted: 0,
        })
    }

    /// Sends a frame of this node's own at a moment in microseconds (IEC 62439-3 clause 5.3): to a station of the
    /// interlink with no number and by the interlink alone; any other with the next number by both ring ports, and one
    /// to a group by the interlink too unless it is a supervision frame. It refuses a frame to itself, one of the type of a VLAN or HSR tag, any
    /// where `STEP_LIMIT` steps are spent, and one whose payload has more than `MAX_PAYLOAD` octets, in this order; a
    /// refusal changes nothing.
    pub fn send(
        &mut self,
        at: u64,
        dst: Mac,
        _vlan: Option<u16>,
        ethertype: u16,
        payload: &[u8],
    ) -> Result<BoxSent, SendFault>
        ensures step { (result, self.new)
            ≡ send_step C self.old at dst ethertype (length payload.now) }
        // What is sent is a frame.
        ensures formed { OnOk result ((ethertype ≢ ethertype_vlan) × (ethertype ≢ ethertype_hsr)
            × (length payload.now ≤ max_payload)) }
    {
        if let Some(fault) = send_fault(self.own, self.accepted, dst, ethertype, payload.len()) {
            return Err(fault);
        }
        // An earlier moment counts as the last one (RULES, Sending).
        let now = self.moment.max(at);
        let handling = send_handling(self.own, &self.proxies, dst, ethertype, now);
        let exits = handling.wants.exits;
        let sent = BoxSent {
            seq: number_of(handling.source, self.next),
            a: exits.a,
            b: exits.b,
            interlink: exits.c,
        };
        // A copy, which `leave` puts in place together with the note, the number and the moment.
        let counters = Counters {
            sent: self.counters.sent + 1,
            ..self.counters
        };
        self.leave(exits, handling.source, counters, now);
        Ok(sent)
    }

    /// Numbers a supervision frame about this node or a station of its interlink, and sends it by both ring ports
    /// under its own address (IEC 62439-3 clause 5.7); `life` counts the earlier ones, modulo `NUMBER_RANGE`. `NotProxied`
    /// where it is about an address that isn't known at this moment, and then `Spent` where `STEP_LIMIT` steps were accepted;
    /// a refusal changes nothing.
    pub fn supervise(&mut self, at: u64, about: About) -> Result<Life, LifeFault>
        ensures { (result, self.new) ≡ life_step C self.old at about }
    {
        let now = self.moment.max(at);
        if let Some(fault) = life_fault(&self.proxies, self.accepted, about, now) {
            return Err(fault);
        }
        let life = Life {
            seq: self.next,
            life: (self.counters.life % NUMBER_RANGE) as u16,
        };
        let counters = Counters {
            life: self.counters.life + 1,
            ..self.counters
        };
        let own = self.own;
        self.leave(Exits::both_ports(), Some(own), counters, now);
        Ok(life)
    }

    /// Judges what came to a port (IEC 62439-3 clause 5.3). Octets that are no frame are counted. Of a ring port plain
    /// frames are dropped, and tagged ones pass where they are wanted and not remembered. Of the interlink
    /// tagged frames are dropped; the source of a plain one is heard, and it passes wherever it is wanted: to the
    /// ring with the next number. `Spent` where `STEP_LIMIT` steps were accepted: then nothing changes.
    pub fn arrive(&mut self, at: u64, port: BoxPort, octets: &[u8]) -> Result<BoxVerdict, Spent>
        ensures { (result, self.new) ≡ arrive_step C self.old at port octets.now }
    {
        if self.accepted == STEP_LIMIT {
            return Err(Spent);
        }
        let now = self.moment.max(at);
        let seen = look_at(octets);
        match port {
            BoxPort::A => Ok(self.from_ring(RingPort::A, &seen, now)),
            BoxPort::B => Ok(self.from_ring(RingPort::B, &seen, now)),
            BoxPort::I => Ok(self.from_interlink(&seen, now)),
        }
    }

    /// Judges what came to a ring port, at the effective moment.
    fn from_ring(
        &mut self,
        x: RingPort,
        seen: &Result<SeenView<'_>, FrameFault>,
        now: u64,
    ) -> BoxVerdict
        requires steps { self.old.accepted < step_limit }
        requires later { self.old.moment ≤ now }
        ensures { (result, self.new) ≡ after_ring C self.old now x seen.now }
    {
        // A RedBox asks its stations: what is to a known one leaves by the interlink.
        let wants = ring_wants(self.own, self.mode, Some(&self.proxies), x, seen, now);
        let judged = self.tables.judge(wants, seen, now);
        // Heard whatever the verdict: a duplicate tells too that its ring port is reached (IEC 62439-3 clause 5.7).
        let readable = hear(&mut self.nodes, self.own, x, seen, now);
        count(&mut self.counters, judged, readable);
        self.moment = now;
        self.accepted += 1;
        verdict_of(judged, None)
    }

    /// Judges what came to the interlink, at the effective moment.
    fn from_interlink(&mut self, seen: &Result<SeenView<'_>, FrameFault>, now: u64) -> BoxVerdict
        requires steps { self.old.accepted < step_limit }
        requires later { self.old.moment ≤ now }
        ensures { (result, self.new) ≡ after_interlink C self.old now seen.now }
    {
        // Heard before anything is decided (RULES, RedBoxes and QuadBoxes).
        learn(&mut self.proxies, self.own, seen, now);
        self.moment = now;
        let handling = interlink_handling(self.own, &self.proxies, seen, now);
        let exits = handling.wants.exits;
        let seq = number_of(handling.source, self.next);
        // No table is asked: what the interlink gives and an egress wants passes.
        let judged = Judged::new(handling.wants, exits);
        let mut counters = self.counters;
        // Supervision is heard on the ring alone, so nothing was unreadable here.
        count(&mut counters, judged, true);
        // Noted on the interlink too, so that a copy that comes round the ring isn't given back there.
        self.leave(Exits { c: true, ..exits }, handling.source, counters, now);
        verdict_of(judged, seq)
    }

    /// Takes one more step, in which a frame leaves by these egresses: one with a number is noted there.
    fn leave(&mut self, exits: Exits, source: Option<Mac>, counters: Counters, now: u64)
        requires steps { self.old.accepted < step_limit }
        requires later { self.old.moment ≤ now }
        requires there { exits ≡ among exits egresses }
        requires within { AreWithin counters (self.old.accepted + 1) }
        ensures { self.new ≡ after_frame C self.old now exits source counters }
    {
        mark_numbered(&mut self.tables, exits, source, self.next, now);
        self.next = self.next.wrapping_add(u16::from(source.is_some()));
        self.counters = counters;
        self.moment = now;
        self.accepted += 1;
    }

    /// Drops the notes that are expired at a moment in microseconds. That changes no later answer.
    pub fn age(&mut self, at: u64)
        ensures { self.new ≡ age_step self.old at }
    {
        let now = self.moment.max(at);
        self.tables.age(now);
        self.moment = now;
    }

    /// The node's own address: no group's.
    pub fn address(&self) -> Mac
        ensures own { result ≡ self.now.own }
        ensures station { ¬ IsGroup result }
    {
        self.own
    }

    /// How often each thing happened here.
    pub fn counters(&self) -> Counters
        ensures value { result ≡ self.now.counters }
        ensures within { AreWithin result step_limit }
    {
        self.counters
    }

    /// The nodes that were heard on the ring less than `NODE_FORGET` microseconds ago, the latest first.
    pub fn nodes(&self, at: u64) -> ArrayVec<NodeRow, ROW_LIMIT>
        ensures { result.items ≡ map (λ r. r.0) (known (now_at self.now at) self.now.nodes.rows) }
    {
        self.nodes.rows(self.moment.max(at))
    }

    /// The addresses that were heard on the interlink less than `NODE_FORGET` microseconds ago, each with the
    /// moment when it was heard last, the latest first.
    pub fn proxies(&self, at: u64) -> ArrayVec<(Mac, u64), ROW_LIMIT>
        ensures { result.items ≡ known (now_at self.now at) self.now.proxies.heard }
    {
        self.proxies.list(self.moment.max(at))
    }
}

ghost use Rattle.hsr_tables.specs.Proxies.{is_known};
ghost use Rattle.hsr_redbox.specs.Step.{life_refusal, number_of, speaks_for, verdict_of};

/// The number that a frame gets, if it has a source to get it for.
fn number_of(source: Option<Mac>, next: u16) -> Option<u16>
    ensures { result ≡ number_of source next }
{
    match source {
        Some(_) => Some(next),
        None => None,
    }
}

/// Whether a supervision frame may be about this.
fn speaks_for(proxies: &ProxyTable, about: About, now: u64) -> bool
    requires { proxies.now.last ≤ now }
    ensures { result ≡ speaks_for (is_known now proxies.now.heard) about }
{
    match about {
        About::Own => true,
        About::Proxied(mac) => proxies.knows(mac, now),
    }
}

/// Why a supervision is refused, if it is.
fn life_fault(proxies: &ProxyTable, accepted: u64, about: About, now: u64) -> Option<LifeFault>
    requires later { proxies.now.last ≤ now }
    requires steps { accepted ≤ step_limit }
    ensures fault { result ≡ life_refusal (is_known now proxies.now.heard) accepted about }
    ensures room { IfNone result (accepted < step_limit) }
{
    // An address that isn't known is refused before any other reason (RULES, RedBoxes and QuadBoxes).
    if !speaks_for(proxies, about, now) {
        Some(LifeFault::NotProxied)
    } else if accepted == STEP_LIMIT {
        Some(LifeFault::Spent)
    } else {
        None
    }
}

/// The verdict of a RedBox, by its egresses, on what got this number, if it got one.
fn verdict_of(judged: Judged, seq: Option<u16>) -> BoxVerdict
    ensures { result ≡ verdict_of judged seq }
{
    BoxVerdict {
        up: judged.passes.up,
        a: judged.passes.a,
        b: judged.passes.b,
        interlink: judged.passes.c,
        seq,
        cause: judged.cause,
    }
}
