//! A plan in which a link or a node is off from a moment on.
ghost use Rattle.std.specs.Prelude.{◌≡◌, slice_get, IfOk, OnOk};
ghost use Rattle.hsr_plan_sweep.specs.Variants.{cut_if, cut_of, deed_of, end_if, named_end, off_if, varied, with_deed, with_off};

use crate::cases::Case;
use hsr_faults::{Fault, Off};
use hsr_frame::NoMemory;
use hsr_plan_network::Node;
use hsr_plan_text::{Deed, Event, LinkEnd, Plan, Word};
use hsr_topology::End;
use std::alloc::Global;
use std::marker::Model;

/// From which moment on something is off, in microseconds, and the nodes and links among which that is.
#[derive(Drop)]
pub(crate) struct Ground<'a> {
    pub at: u64,
    pub nodes: &'a [Node],
    pub links: &'a [[End; 2]],
}

impl<'a> Model for Ground<'a> {
    ghost use Rattle.hsr_plan_sweep.specs.Variants.{Ground};

    ghost Value = { Ground };

    ghost view = { λ g. record { at = g.at; nodes = g.nodes.now; links = g.links.now } };
}

/// An end by the name of its node and the letter of its port.
fn named_end(alloc: Global, nodes: &[Node], end: End) -> Result<LinkEnd, NoMemory>
    ensures { IfOk result (λ e. e ≡ named_end nodes.now end) }
{
    match nodes.get(end.node) {
        Some(node) => {
            let letter = Some(node.place.letter(end.port));
            let name = node.name.copy(alloc)?;
            Ok(LinkEnd { name, letter })
        }
        None => {
            // Not met: the ends of links have nodes.
            let name = Word::of(alloc, b"")?;
            Ok(LinkEnd { name, letter: None })
        }
    }
}

/// The cut of a link.
fn cut_of(alloc: Global, nodes: &[Node], link: &[End; 2]) -> Result<Deed, NoMemory>
    ensures { IfOk result (λ d. d ≡ cut_of nodes.now link.now) }
{
    let [one, other] = *link;
    let first = named_end(alloc, nodes, one)?;
    let second = named_end(alloc, nodes, other)?;
    Ok(Deed::Cut { first, second })
}

/// What happens to nobody: no plan has a node without a name.
fn off_nobody(alloc: Global) -> Result<Deed, NoMemory>
    ensures { IfOk result (λ d. d ≡ off_if None) }
{
    let name = Word::of(alloc, b"")?;
    Ok(Deed::Off(name))
}

/// The cut of the link of that number.
fn cut_if(
    alloc: Global,
    nodes: &[Node],
    links: &[[End; 2]],
    number: usize,
) -> Result<Deed, NoMemory>
    ensures { IfOk result (λ d. d ≡ cut_if nodes.now (slice_get links.now number)) }
{
    match links.get(number) {
        Some(link) => cut_of(alloc, nodes, link),
        None => off_nobody(alloc),
    }
}

/// The node of that number goes off.
fn off_if(alloc: Global, nodes: &[Node], number: usize) -> Result<Deed, NoMemory>
    ensures { IfOk result (λ d. d ≡ off_if (slice_get nodes.now number)) }
{
    match nodes.get(number) {
        Some(node) => {
            let name = node.name.copy(alloc)?;
            Ok(Deed::Off(name))
        }
        None => off_nobody(alloc),
    }
}

/// What happens where a link or a node is off.
fn deed_of(alloc: Global, ground: &Ground<'_>, off: Off) -> Result<Deed, NoMemory>
    ensures { IfOk result (λ d. d ≡ deed_of ground.now off) }
{
    match off {
        Off::Link(number) => cut_if(alloc, ground.nodes, ground.links, number),
        Off::Node(number) => off_if(alloc, ground.nodes, number),
    }
}

/// Puts what happens where a link or a node is off behind the events of a plan.
fn turn_off(alloc: Global, plan: &mut Plan, ground: &Ground<'_>, off: Off) -> Result<(), NoMemory>
    ensures { OnOk result (plan.new ≡ with_off ground.now off plan.old) }
{
    let deed = deed_of(alloc, ground, off)?;
    plan.events.push(Event {
        at: ground.at,
        deed,
    })?;
    Ok(())
}

/// Makes a plan the one of a case: what is off then goes off behind its own events.
pub(crate) fn vary(
    alloc: Global,
    plan: &mut Plan,
    ground: &Ground<'_>,
    case: Case,
) -> Result<(), NoMemory>
    ensures { OnOk result (plan.new ≡ varied ground.now case plan.old) }
{
    match case {
        Case::Undisturbed => Ok(()),
        Case::Off(Fault::One(off)) => turn_off(alloc, plan, ground, off),
        Case::Off(Fault::Two(first, second)) => {
            turn_off(alloc, plan, ground, first)?;
            turn_off(alloc, plan, ground, second)
        }
    }
}
