//! The worker of a port.
ghost use Rattle.std.specs.Prelude.{◌≡◌, IfErr};
ghost use Rattle.hsr_runner.specs.Endings.{IsEnding, ending_of};

use crate::cells::{Cells, Seat};
use crate::ending::Ending;
use crate::gate::Gate;
use crate::leaving::put_all;
use hsr_link::{Dir, LinkCell};
use hsr_node::{Carried, Event, Pass, StepFault};
use std::alloc::Global;
use std::sync::Wait;

/// Where a worker stands: the number of its node and of its port, and the direction of its link in which copies come.
#[derive(Clone, Copy)]
pub(crate) struct Post {
    pub(crate) node: usize,
    pub(crate) port: u8,
    pub(crate) into: Dir,
}

/// How a worker ends whose node refused a copy.
fn ending_of(fault: StepFault) -> Ending
    ensures { result ≡ ending_of fault }
{
    match fault {
        StepFault::NoMemory => Ending::NoMemory,
        _ => Ending::Refused(fault),
    }
}

/// Asks the gate, judges a copy that was taken, and puts what leaves. The gate is asked while no lock is held.
#[tactic(auto, using(crate::proofs::Refusals::copy_refused))]
fn judge_copy<const C: usize, G: Gate>(
    rt: &impl Wait,
    alloc: Global,
    cells: &Cells<C>,
    seat: &Seat<C>,
    gate: &G,
    post: Post,
    pass: &mut Pass,
    carried: Carried,
) -> Result<(), Ending>
    ensures { IfErr result (λ ending. IsEnding C G.may_shut ending) }
{
    if !gate.pass(rt, post.node, post.port, carried.probe) {
        return Err(Ending::Shut);
    }
    // The moment is read behind the gate, so that a gate can bring about an order of events.
    let at = cells.moment();
    let event = Event::Arrive {
        port: post.port,
        carried,
    };
    let receipt = match seat.cell.step(rt, pass, at, event) {
        Ok(receipt) => receipt,
        Err((_event, fault)) => return Err(ending_of(fault)),
    };
    match put_all(rt, alloc, cells, seat, &receipt) {
        Ok(()) => Ok(()),
        Err(_refused) => Err(Ending::NoMemory),
    }
}

/// Takes copies and judges them, one after another, until the link is closed or the run can't go on. A copy is on its way until all
/// is put that it gave.
pub(crate) fn judge<const C: usize, G: Gate>(
    rt: &impl Wait,
    alloc: Global,
    cells: &Cells<C>,
    seat: &Seat<C>,
    link: &LinkCell,
    gate: &G,
    post: Post,
    pass: &mut Pass,
) -> Ending
    ensures { IsEnding C G.may_shut result }
{
    for _ in rt.forever() {
        let Some(carried) = link.take_or_closed(rt, post.into) else {
            return Ending::Stopped;
        };
        match judge_copy(rt, alloc, cells, seat, gate, post, pass, carried) {
            // The copy counts until what it gave is put, so that the count never shows a rest too early.
            Ok(()) => cells.flight.fall(1),
            Err(ending) => return ending,
        }
    }
    unreachable!()
}
