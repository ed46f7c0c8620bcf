//! A node with two ring ports, its tables and its counters.
ghost use Rattle.std.specs.Prelude.{◌≡◌, ◌≢◌, ◌≤◌, ◌<◌, ◌^◌, length, map, IfOk, OnOk};
ghost use Rattle.hsr_frame.specs.Counters.{step_limit};
ghost use Rattle.hsr_frame.specs.Layout.{ethertype_hsr, ethertype_vlan, max_payload};
ghost use Rattle.hsr_duptable.specs.Table.{IsTableSize};

use arrayvec::ArrayVec;
use hsr_duptable::Key;
use hsr_forwarding::{EgressTables, Judged, NUMBER_RANGE, count, hear, ring_wants};
use hsr_frame::{
    Cause, Counters, Exits, Life, Mac, Mode, NoMemory, RingPort, STEP_LIMIT, SendFault, Spent,
    send_fault,
};
use hsr_tables::{NodeRow, NodeTable, ROW_LIMIT};
use hsr_tag::look_at;
use std::alloc::Global;
use std::marker::Model;

/// The number of a frame that was sent: it leaves by both ports, with the path 0 on A and 1 on B.
#[derive(Clone, Copy, PartialEq, Eq)]
pub struct Sent {
    pub seq: u16,
}

/// Where an arrival passed, and why.
#[derive(Clone, Copy, PartialEq, Eq)]
pub struct Verdict {
    pub up: bool,
    pub a: bool,
    pub b: bool,
    pub cause: Cause,
}

/// A doubly attached node (IEC 62439-3 clause 5.3), whose duplicate tables have `C` entries each, `C` from 1
/// to 65535. Moments are in microseconds; one that is earlier than the last is read as the last. Only `new`
/// takes memory.
#[derive(Drop)]
pub struct Danh<const C: usize> {
    own: Mac,
    mode: Mode,
    tables: EgressTables<C>,
    nodes: NodeTable,
    next: u16,
    counters: Counters,
    moment: u64,
    // Counts steps of all kinds, so that one comparison with `STEP_LIMIT` keeps every counter within 64 bits.
    accepted: u64,
}

impl<const C: usize> Model for Danh<C> {
    ghost use Rattle.hsr_danh.specs.Machine.{IsSound, Machine};

    ghost Value = { Machine };

    ghost view = { λ d. record { own = d.own; mode = d.mode; notes = d.tables; nodes = d.nodes; next = d.next; counters = d.counters; moment = d.moment; accepted = d.accepted } };

    ghost invariant = { λ d. IsSound (record {
      own = d.own;
      mode = d.mode;
      notes = d.tables;
      nodes = d.nodes;
      next = d.next;
      counters = d.counters;
      moment = d.moment;
      accepted = d.accepted;
    }) };
}

impl<const C: usize> Danh<C> {
    ghost use Rattle.hsr_frame.specs.Address.{IsGroup};
    ghost use Rattle.hsr_frame.specs.Counters.{AreWithin};
    ghost use Rattle.hsr_tables.specs.Known.{known};
    ghost use Rattle.hsr_danh.specs.Machine.{new_machine};
    ghost use Rattle.hsr_danh.specs.Step.{age_step, arrive_step, life_step, now_at, send_step};

    /// A node that has done nothing. No group has its address. `NoMemory` if allocation fails.
    pub fn new(alloc: Global, own: Mac, mode: Mode) -> Result<Self, NoMemory>
        requires station { ¬ IsGroup own }
        requires entries { IsTableSize C }
        ensures { IfOk result (λ danh. danh ≡ new_machine own mode) }
    {
        let egresses = Exits {
            up: true,
            ..Exits::both_ports()
        };
        let tables = EgressTables::new(alloc, egresses)?;
        Ok(Danh {
            own,
            mode,
            tables,
            nodes: NodeTable::new(),
            next: 0,
            counters: Counters::new(),
            moment: 0,
            accepted: 0,
        })
    }

    /// Numbers a frame of this node's own and sends it by both ports (IEC 62439-3 clause 5.3); `at` is the moment in
    /// microseconds. It refuses a frame to itself, one of the type of a VLAN or HSR tag, any where `STEP_LIMIT` steps are
    /// spent, and one whose payload has more than `MAX_PAYLOAD` octets, in this order; a refusal changes nothing.
    /// The VLAN tag isn't looked at: a send is judged by address, type and length, and its frame is formed elsewhere
    /// (`asked_frame` of hsr_node). It is taken so that a call says all of the frame.
    pub fn send(
        &mut self,
        at: u64,
        dst: Mac,
        _vlan: Option<u16>,
        ethertype: u16,
        payload: &[u8],
    ) -> Result<Sent, SendFault>
        ensures step { (result, self.new)
            ≡ send_step C self.old at dst ethertype (length payload.now) }
        // What is sent is a frame.
        ensures formed { OnOk result ((ethertype ≢ ethertype_vlan) × (ethertype ≢ ethertype_hsr)
            × (length payload.now ≤ max_payload)) }
    {
        if let Some(fault) = send_fault(self.own, self.accepted, dst, ethertype, payload.len()) {
            return Err(fault);
        }
        // An earlier moment counts as the last one (RULES, Sending).
        let now = self.moment.max(at);
        let seq = self.next;
        // Noted without a look: a send that gets a number is new (RULES, Arrivals).
        self.tables
            .mark(Exits::both_ports(), Key { src: self.own, seq }, now);
        self.next = seq.wrapping_add(1);
        self.counters.sent += 1;
        self.moment = now;
        self.accepted += 1;
        Ok(Sent { seq })
    }

    /// Numbers a supervision frame and sends it by both ports (IEC 62439-3 clause 5.7); `life` counts the
    /// earlier ones, modulo `NUMBER_RANGE`. `Spent` where `STEP_LIMIT` steps were accepted: then nothing changes.
    pub fn supervise(&mut self, at: u64) -> Result<Life, Spent>
        ensures { (result, self.new) ≡ life_step C self.old at }
    {
        if self.accepted == STEP_LIMIT {
            return Err(Spent);
        }
        let now = self.moment.max(at);
        let seq = self.next;
        // The count goes on, and the frame has room for 16 bits of it.
        let life = (self.counters.life % NUMBER_RANGE) as u16;
        self.tables
            .mark(Exits::both_ports(), Key { src: self.own, seq }, now);
        self.next = seq.wrapping_add(1);
        self.counters.life += 1;
        self.moment = now;
        self.accepted += 1;
        Ok(Life { seq, life })
    }

    /// Judges what came to a ring port (IEC 62439-3 clause 5.3): octets that are no frame and plain frames are counted
    /// and dropped, tagged ones passed where they are wanted and not remembered. `Spent` where `STEP_LIMIT` steps
    /// were accepted: then nothing changes.
    pub fn arrive(&mut self, at: u64, port: RingPort, octets: &[u8]) -> Result<Verdict, Spent>
        ensures { (result, self.new) ≡ arrive_step C self.old at port octets.now }
    {
        if self.accepted == STEP_LIMIT {
            return Err(Spent);
        }
        let now = self.moment.max(at);
        let seen = look_at(octets);
        // A DANH has no interlink, so it has no stations.
        let wants = ring_wants(self.own, self.mode, None, port, &seen, now);
        let judged = self.tables.judge(wants, &seen, now);
        // Heard whatever the verdict: a duplicate tells too that its ring port is reached (IEC 62439-3 clause 5.7).
        let readable = hear(&mut self.nodes, self.own, port, &seen, now);
        count(&mut self.counters, judged, readable);
        self.moment = now;
        self.accepted += 1;
        Ok(verdict_of(judged))
    }

    /// Drops the notes that are expired at a moment in microseconds. That changes no later answer.
    pub fn age(&mut self, at: u64)
        ensures { self.new ≡ age_step self.old at }
    {
        let now = self.moment.max(at);
        self.tables.age(now);
        self.moment = now;
    }

    /// The node's own address: no group's.
    pub fn address(&self) -> Mac
        ensures own { result ≡ self.now.own }
        ensures station { ¬ IsGroup result }
    {
        self.own
    }

    /// How often each thing happened here.
    pub fn counters(&self) -> Counters
        ensures value { result ≡ self.now.counters }
        ensures within { AreWithin result step_limit }
    {
        self.counters
    }

    /// The nodes that were heard less than `NODE_FORGET` microseconds ago, the latest first.
    pub fn nodes(&self, at: u64) -> ArrayVec<NodeRow, ROW_LIMIT>
        ensures { result.items ≡ map (λ r. r.0) (known (now_at self.now at) self.now.nodes.rows) }
    {
        self.nodes.rows(self.moment.max(at))
    }
}

ghost use Rattle.hsr_danh.specs.Step.{verdict_of};

/// The verdict of a DANH, by its egresses.
fn verdict_of(judged: Judged) -> Verdict
    ensures { result ≡ verdict_of judged }
{
    Verdict {
        up: judged.passes.up,
        a: judged.passes.a,
        b: judged.passes.b,
        cause: judged.cause,
    }
}
