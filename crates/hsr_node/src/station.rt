//! A node that sends plain frames and keeps no table.
ghost use Rattle.std.specs.Prelude.{◌≡◌, ◌≤◌, ◌^◌, IfSome};
ghost use Rattle.hsr_frame.specs.Address.{is_among};
ghost use Rattle.hsr_node.specs.Station.{judged_plain, judged_seen};

use crate::event::{Event, Outcome, StepFault};
use arrayvec::ArrayVec;
use hsr_frame::{Cause, Counters, FrameFault, Mac, STEP_LIMIT, send_fault};
use hsr_tag::{EitherView, FrameView, SeenView, look_at};
use std::marker::Model;

/// A node with up to 16 addresses and one port, behind a RedBox (a SAN of IEC 62439-3 clause 5). It sends plain frames,
/// numbers nothing, keeps no table, and takes each frame for one of its addresses or for a group. Moments are in
/// microseconds; one that is earlier than the last is read as the last. It takes no memory.
#[derive(Drop)]
pub struct Station {
    macs: ArrayVec<Mac, 16>,
    counters: Counters,
    moment: u64,
    accepted: u64,
}

impl Model for Station {
    ghost use Rattle.std.specs.Prelude.{◌≤◌, ◌^◌};
    ghost use Rattle.hsr_frame.specs.Counters.{AreWithin};
    ghost use Rattle.hsr_node.specs.Station.{Machine};

    ghost Value = { Machine };

    ghost view = { λ s. record { macs = s.macs.items; counters = s.counters; moment = s.moment; accepted = s.accepted } };

    ghost invariant = { λ s. (s.accepted ≤ 2 ^ 62) × AreWithin s.counters s.accepted };
}

impl Station {
    ghost use Rattle.std.specs.Prelude.{length};
    ghost use Rattle.hsr_frame.specs.Counters.{AreWithin};
    ghost use Rattle.hsr_node.specs.Station.{after_age, after_arrival, after_send, new_machine, station_step};

    /// A station that has done nothing, with these addresses.
    pub fn new(macs: &ArrayVec<Mac, 16>) -> Station
        ensures { result ≡ new_machine macs.now.items }
    {
        Station {
            macs: copied_addresses(macs.as_slice()),
            counters: Counters::new(),
            moment: 0,
            accepted: 0,
        }
    }

    /// Sends a plain frame from the address at a place among its own. `WrongEvent` where none stands there; else it
    /// refuses as every node does: a frame to its source, a reserved type, steps spent, a payload over `MAX_PAYLOAD`
    /// octets. A refusal changes nothing.
    #[tactic(auto, unfolding(crate::specs::Station::after_send))]
    fn send(
        &mut self,
        at: u64,
        from: u8,
        dst: Mac,
        ethertype: u16,
        len: usize,
    ) -> Result<Outcome, StepFault>
        ensures { (result, self.new) ≡ after_send self.old at from dst ethertype len }
    {
        // An event that doesn't fit comes before all other reasons (RULES, Stations, and what leaves by a port).
        let Some(src) = self.macs.as_slice().get(usize::from(from)) else {
            return Err(StepFault::WrongEvent);
        };
        if let Some(fault) = send_fault(*src, self.accepted, dst, ethertype, len) {
            return Err(StepFault::Send(fault));
        }
        self.counters.sent += 1;
        self.moment = self.moment.max(at);
        self.accepted += 1;
        Ok(Outcome::Sent {
            seq: None,
            ports: [true, false, false, false],
        })
    }

    /// Judges what came to the port. `Spent` where `STEP_LIMIT` steps were accepted; that changes nothing.
    #[tactic(auto, unfolding(crate::specs::Station::after_arrival))]
    fn arrive(&mut self, at: u64, octets: &[u8]) -> Result<Outcome, StepFault>
        ensures { (result, self.new) ≡ after_arrival self.old at octets.now }
    {
        if self.accepted == STEP_LIMIT {
            return Err(StepFault::Spent);
        }
        let cause = cause_of(self.macs.as_slice(), &look_at(octets));
        let up = cause == Cause::Passed;
        // No copies: a Station passes nothing on.
        self.counters.count(cause, up, 0);
        self.moment = self.moment.max(at);
        self.accepted += 1;
        Ok(Outcome::Judged {
            up,
            ports: [false, false, false, false],
            seq: None,
            cause,
        })
    }

    /// Goes on to a moment.
    fn age(&mut self, at: u64)
        ensures { self.new ≡ after_age self.old at }
    {
        // A Station remembers nothing that it could drop.
        self.moment = self.moment.max(at);
    }

    /// Lets an event happen, at a moment in microseconds. `WrongEvent` where it doesn't fit: a Station has no supervision
    /// frames, only the port 0, and sends from one of its own addresses. A refusal changes nothing.
    pub fn apply(&mut self, at: u64, event: &Event) -> Result<Outcome, StepFault>
        ensures { (result, self.new) ≡ station_step self.old at event.now }
    {
        match event {
            Event::Send {
                from,
                dst,
                vlan: _,
                kind: ethertype,
                payload,
            } => self.send(at, *from, *dst, *ethertype, payload.as_slice().len()),
            Event::Supervise(_) => Err(StepFault::WrongEvent),
            Event::Arrive { port, carried } => {
                if *port == 0 {
                    self.arrive(at, carried.octets.as_slice())
                } else {
                    Err(StepFault::WrongEvent)
                }
            }
            Event::Age => {
                self.age(at);
                Ok(Outcome::Aged)
            }
        }
    }

    /// How often each thing happened here.
    pub fn counters(&self) -> Counters
        ensures value { result ≡ self.now.counters }
        ensures within { AreWithin result (2 ^ 62) }
    {
        self.counters
    }
}

/// A copy of addresses.
fn copied_addresses(macs: &[Mac]) -> ArrayVec<Mac, 16>
    requires { length macs.now ≤ 16 }
    ensures { result.items ≡ macs.now }
{
    let mut out = ArrayVec::new();
    // Not refused: there are 16 at most.
    out.try_extend_from_slice(macs).unwrap();
    out
}

ghost use Rattle.std.specs.Prelude.{length};

/// Why what came goes where it does: up for `Passed`, else nowhere.
fn cause_of(macs: &[Mac], seen: &Result<SeenView<'_>, FrameFault>) -> Cause
    ensures { result ≡ judged_seen macs.now seen.now }
{
    let seen = match seen {
        Ok(seen) => seen,
        Err(fault) => return Cause::Malformed(*fault),
    };
    match &seen.frame {
        EitherView::Tagged(_) => Cause::Tagged,
        EitherView::Plain(frame) => plain_cause(macs, frame),
    }
}

/// Why a plain frame goes where it does.
fn plain_cause(macs: &[Mac], frame: &FrameView<'_>) -> Cause
    ensures { result ≡ judged_plain macs.now frame.now }
{
    if frame.src.is_among(macs) {
        Cause::Returned
    } else if frame.dst.is_among(macs) || frame.dst.is_group() {
        Cause::Passed
    } else {
        Cause::Foreign
    }
}
