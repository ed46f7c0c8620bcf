//! What a world hands over where it is closed.
//!
//! All is handed over by value and comes back where the world isn't closed, so the caller has the same world as before.
ghost use Rattle.std.specs.Prelude.{◌≡◌, IfErr, IfOk, map};
ghost use Rattle.hsr_finished_run.specs.Checked.{IfDisagree};
ghost use Rattle.hsr_ring.specs.Ending.{IsKnownOnceEnded, IsToldClosed, IsToldOpen};
ghost use Rattle.hsr_world_links.specs.Views.{span_view};

use hsr_finished_run::{CheckFault, Closed, Planned, Records};
use hsr_node::Kept;
use hsr_topology::Topology;
use hsr_world_links::{Parted, Span, are_ended, join, part};
use std::alloc::Global;

/// What a world is made of, but its links.
#[derive(Drop)]
pub(crate) struct Rest<const C: usize> {
    pub(crate) topology: Topology,
    pub(crate) nodes: Vec<Kept<C>>,
    pub(crate) plan: Vec<Planned>,
}

/// What was handed in where a world isn't closed, and the first cause.
#[derive(Drop)]
pub(crate) struct Open<const C: usize> {
    pub(crate) rest: Rest<C>,
    pub(crate) spans: Vec<Span>,
    pub(crate) fault: CheckFault,
}

/// The finished run of a world, or what was handed in, with the first cause why it is none. The records, the plan and the rows
/// of the links are moved, so that no room is needed for copies.
pub(crate) fn closed_of<const C: usize>(
    alloc: Global,
    rest: Rest<C>,
    spans: Vec<Span>,
) -> Result<Closed<C>, Open<C>>
    requires known { IsKnownOnceEnded C rest.topology rest.nodes.items rest.plan.items
        (map span_view spans.items) }
    ensures closed { IfOk result (λ closed.
        IsToldClosed C rest.entry.topology rest.entry.nodes.items rest.entry.plan.items
        (map span_view spans.items) closed) }
    ensures open { IfErr result (λ e. IfDisagree e.fault
        (IsToldOpen C rest.entry.topology rest.entry.nodes.items rest.entry.plan.items
        (map span_view spans.items))) }
    ensures rest { IfErr result (λ e. e.rest ≡ rest.entry) }
    ensures spans { IfErr result (λ e. map span_view e.spans.items ≡ map span_view spans.items) }
{
    let is_ended = are_ended(spans.as_slice());
    let Parted { rows, bares, home } = match part(alloc, spans) {
        Ok(parted) => parted,
        // Room for the parts was refused before any link was taken apart.
        Err(spans) => {
            return Err(Open {
                rest,
                spans,
                fault: CheckFault::NoMemory,
            });
        }
    };
    let Rest {
        topology,
        nodes,
        plan,
    } = rest;
    let records = Records {
        topology,
        plan,
        kept: nodes,
        rows,
    };
    // Records and rows of a world were made of one another, and it keeps that they agree. So where it has ended nothing is left to
    // compare; where it hasn't, the comparison finds the first cause.
    if is_ended {
        return Ok(Closed::known(records));
    }
    match Closed::of_records(alloc, records) {
        Ok(closed) => Ok(closed),
        Err((records, fault)) => {
            let Records {
                topology,
                plan,
                kept,
                rows,
            } = records;
            Err(Open {
                rest: Rest {
                    topology,
                    nodes: kept,
                    plan,
                },
                spans: join(rows, bares, home),
                fault,
            })
        }
    }
}
