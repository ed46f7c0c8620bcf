//! The events of a QuadBox.
ghost use Rattle.std.specs.Prelude.{◌≡◌, Option};
ghost use Rattle.hsr_node.specs.Step.{quadbox_arrive, quadbox_step};

use crate::event::{Event, Outcome, StepFault};
use crate::port::quad_port;
use hsr_quadbox::{QuadBox, QuadPort};

/// Judges what came to a port, if the node has it.
fn arrive<const C: usize>(
    quadbox: &mut QuadBox<C>,
    at: u64,
    port: Option<QuadPort>,
    octets: &[u8],
) -> Result<Outcome, StepFault>
    ensures { (result, quadbox.new) ≡ quadbox_arrive C quadbox.old at port octets.now }
{
    let Some(port) = port else {
        return Err(StepFault::WrongEvent);
    };
    match quadbox.arrive(at, port, octets) {
        Ok(verdict) => {
            let ports = verdict.out;
            Ok(Outcome::Judged {
                up: false,
                ports,
                seq: None,
                cause: verdict.cause,
            })
        }
        Err(_) => Err(StepFault::Spent),
    }
}

/// Lets an event happen to a QuadBox, which sends nothing of its own (IEC 62439-3 clause 5).
#[tactic(auto, unfolding(crate::specs::Step::quadbox_step))]
pub(crate) fn apply_quadbox<const C: usize>(
    quadbox: &mut QuadBox<C>,
    at: u64,
    event: &Event,
) -> Result<Outcome, StepFault>
    ensures { (result, quadbox.new) ≡ quadbox_step C quadbox.old at event.now }
{
    match event {
        // A QuadBox has no address to send from.
        Event::Send { .. } | Event::Supervise(_) => Err(StepFault::WrongEvent),
        Event::Arrive { port, carried } => {
            arrive(quadbox, at, quad_port(*port), carried.octets.as_slice())
        }
        Event::Age => {
            quadbox.age(at);
            Ok(Outcome::Aged)
        }
    }
}
