//! The events of a DANH.
ghost use Rattle.std.specs.Prelude.{◌≡◌, length, Option};
ghost use Rattle.hsr_node.specs.Step.{danh_arrive, danh_life, danh_send, danh_step};

use crate::event::{Event, Outcome, StepFault};
use crate::port::ring_port;
use hsr_danh::Danh;
use hsr_frame::{About, Mac, RingPort};

/// Sends a frame of the node's own at a moment in microseconds; `vlan` is the control information of a VLAN tag
/// (IEEE 802.1Q). A refusal changes nothing.
fn send<const C: usize>(
    danh: &mut Danh<C>,
    at: u64,
    dst: Mac,
    vlan: Option<u16>,
    ethertype: u16,
    payload: &[u8],
) -> Result<Outcome, StepFault>
    ensures { (result, danh.new) ≡ danh_send C danh.old at dst ethertype (length payload.now) }
{
    match danh.send(at, dst, vlan, ethertype, payload) {
        Ok(sent) => Ok(Outcome::Sent {
            seq: Some(sent.seq),
            ports: [true, true, false, false],
        }),
        Err(fault) => Err(StepFault::Send(fault)),
    }
}

/// Sends a supervision frame.
fn supervise<const C: usize>(danh: &mut Danh<C>, at: u64) -> Result<Outcome, StepFault>
    ensures { (result, danh.new) ≡ danh_life C danh.old at }
{
    match danh.supervise(at) {
        Ok(sent) => Ok(Outcome::Life {
            seq: sent.seq,
            life: sent.life,
            ports: [true, true, false, false],
        }),
        Err(_) => Err(StepFault::Spent),
    }
}

/// Judges what came to a port, if the node has it.
fn arrive<const C: usize>(
    danh: &mut Danh<C>,
    at: u64,
    port: Option<RingPort>,
    octets: &[u8],
) -> Result<Outcome, StepFault>
    ensures { (result, danh.new) ≡ danh_arrive C danh.old at port octets.now }
{
    let Some(port) = port else {
        return Err(StepFault::WrongEvent);
    };
    match danh.arrive(at, port, octets) {
        Ok(verdict) => Ok(Outcome::Judged {
            up: verdict.up,
            ports: [verdict.a, verdict.b, false, false],
            seq: None,
            cause: verdict.cause,
        }),
        Err(_) => Err(StepFault::Spent),
    }
}

/// Lets an event happen to a DANH, which speaks for itself alone (IEC 62439-3 clause 5.3).
#[tactic(auto, unfolding(crate::specs::Step::danh_step))]
pub(crate) fn apply_danh<const C: usize>(
    danh: &mut Danh<C>,
    at: u64,
    event: &Event,
) -> Result<Outcome, StepFault>
    ensures { (result, danh.new) ≡ danh_step C danh.old at event.now }
{
    match event {
        Event::Send {
            from,
            dst,
            vlan,
            kind: ethertype,
            payload,
        } => {
            // `from` chooses among a Station's addresses; a DANH has one.
            if *from == 0 {
                send(danh, at, *dst, *vlan, *ethertype, payload.as_slice())
            } else {
                Err(StepFault::WrongEvent)
            }
        }
        Event::Supervise(About::Own) => supervise(danh, at),
        // Not even with its own address: a DANH speaks for itself without a name (RULES, Stations, and what leaves by a port).
        Event::Supervise(About::Proxied(_)) => Err(StepFault::WrongEvent),
        Event::Arrive { port, carried } => {
            arrive(danh, at, ring_port(*port), carried.octets.as_slice())
        }
        Event::Age => {
            danh.age(at);
            Ok(Outcome::Aged)
        }
    }
}
