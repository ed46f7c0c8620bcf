//! The events of a RedBox.
ghost use Rattle.std.specs.Prelude.{◌≡◌, length, Option};
ghost use Rattle.hsr_node.specs.Step.{life_fault, redbox_arrive, redbox_send, redbox_step, redbox_supervise};

use crate::event::{Event, Outcome, StepFault};
use crate::port::box_port;
use hsr_frame::Mac;
use hsr_redbox::{About, BoxPort, LifeFault, RedBox};

/// Why a node refuses what its RedBox refuses.
fn step_fault(fault: LifeFault) -> StepFault
    ensures { result ≡ life_fault fault }
{
    match fault {
        LifeFault::NotProxied => StepFault::NotProxied,
        LifeFault::Spent => StepFault::Spent,
    }
}

/// Sends a frame of the node's own at a moment in microseconds; `vlan` is the control information of a VLAN tag
/// (IEEE 802.1Q). A refusal changes nothing.
fn send<const C: usize>(
    redbox: &mut RedBox<C>,
    at: u64,
    dst: Mac,
    vlan: Option<u16>,
    ethertype: u16,
    payload: &[u8],
) -> Result<Outcome, StepFault>
    ensures { (result, redbox.new)
        ≡ redbox_send C redbox.old at dst ethertype (length payload.now) }
{
    match redbox.send(at, dst, vlan, ethertype, payload) {
        Ok(sent) => Ok(Outcome::Sent {
            seq: sent.seq,
            ports: [sent.a, sent.b, sent.interlink, false],
        }),
        Err(fault) => Err(StepFault::Send(fault)),
    }
}

/// Sends a supervision frame about the node itself or a station of its interlink.
fn supervise<const C: usize>(
    redbox: &mut RedBox<C>,
    at: u64,
    about: About,
) -> Result<Outcome, StepFault>
    ensures { (result, redbox.new) ≡ redbox_supervise C redbox.old at about }
{
    match redbox.supervise(at, about) {
        Ok(sent) => Ok(Outcome::Life {
            seq: sent.seq,
            life: sent.life,
            ports: [true, true, false, false],
        }),
        Err(fault) => Err(step_fault(fault)),
    }
}

/// Judges what came to a port, if the node has it.
fn arrive<const C: usize>(
    redbox: &mut RedBox<C>,
    at: u64,
    port: Option<BoxPort>,
    octets: &[u8],
) -> Result<Outcome, StepFault>
    ensures { (result, redbox.new) ≡ redbox_arrive C redbox.old at port octets.now }
{
    let Some(port) = port else {
        return Err(StepFault::WrongEvent);
    };
    match redbox.arrive(at, port, octets) {
        Ok(verdict) => Ok(Outcome::Judged {
            up: verdict.up,
            ports: [verdict.a, verdict.b, verdict.interlink, false],
            seq: verdict.seq,
            cause: verdict.cause,
        }),
        Err(_) => Err(StepFault::Spent),
    }
}

/// Lets an event happen to a RedBox (IEC 62439-3 clause 5.3).
#[tactic(auto, unfolding(crate::specs::Step::redbox_step))]
pub(crate) fn apply_redbox<const C: usize>(
    redbox: &mut RedBox<C>,
    at: u64,
    event: &Event,
) -> Result<Outcome, StepFault>
    ensures { (result, redbox.new) ≡ redbox_step C redbox.old at event.now }
{
    match event {
        Event::Send {
            from,
            dst,
            vlan,
            kind: ethertype,
            payload,
        } => {
            // `from` chooses among a Station's addresses; a RedBox has one of its own.
            if *from == 0 {
                send(redbox, at, *dst, *vlan, *ethertype, payload.as_slice())
            } else {
                Err(StepFault::WrongEvent)
            }
        }
        Event::Supervise(about) => supervise(redbox, at, *about),
        Event::Arrive { port, carried } => {
            arrive(redbox, at, box_port(*port), carried.octets.as_slice())
        }
        Event::Age => {
            redbox.age(at);
            Ok(Outcome::Aged)
        }
    }
}
