//! The verdict.
ghost use Rattle.std.specs.Prelude.{◌≡◌, ◌<◌, ◌^◌, true, length, IfErr, IfOk, None};
ghost use Rattle.std.specs.List.{list_any};
ghost use Rattle.hsr_plays.specs.Law.{is_send};
ghost use Rattle.hsr_plays.specs.Spans.{spans, spans_from};
ghost use Rattle.hsr_duptable.specs.Table.{IsTableSize};
ghost use Rattle.hsr_certify.specs.AnyOrder.{HoldsInAnyOrder};
ghost use Rattle.hsr_certify.specs.Doubts.{IsDoubted, IsFirstFault, IsPremised};
ghost use Rattle.hsr_certify.specs.Firsts.{first_step};
ghost use Rattle.hsr_certify.specs.Served.{AreSentIn};
ghost use Rattle.hsr_certify.specs.Standing.{Rise};
ghost use Rattle.hsr_certify.specs.Tested.{IsFirstFound, IsPassed, subject_of};
ghost use Rattle.hsr_certify.specs.Tests.{is_coarse};
ghost use Rattle.hsr_certify.specs.Verdict.{IsBegun, IsKept, IsWelcome, setup_of, subject_in};

use crate::accepting::first_refused;
use crate::counting::{first_crowded, first_full, first_wrapped};
use crate::covering::first_uncovered;
use crate::doubt::{CertifyFault, Doubt};
use crate::fine::{first_fine, first_unended, has_send};
use crate::fit::{have_few_addresses, orders_fit, places_fit};
use crate::law::run_certifies;
use crate::rising::{first_back, first_late};
use crate::serving::{CutOff, first_cut_off};
use hsr_play_laws::{
    ends_certain, goes_on, lost_down, moves_are_few, never_overruns, never_refused, never_twice,
};
use hsr_plays::SendSpan;
use hsr_routes::{are_going_round, first_unlike_link, have_own_addresses};
use hsr_scenario::Order;
use hsr_send_spans::spans_of;
use hsr_topology::Topology;
use std::alloc::Global;

/// That a scenario is certified in any order: how many sends it asks for.
#[derive(Clone, Copy, PartialEq, Eq)]
pub struct Certified {
    pub sends: usize,
}

/// Whether nodes and links are a network, and no play refuses a step; else the first doubt.
fn check_welcome(
    topology: &Topology,
    room: usize,
    table: usize,
    orders: &[Order],
    spans: &[SendSpan],
) -> Result<(), CertifyFault>
    requires { IsBegun (subject_in topology.now room table orders.now spans.now) }
    ensures welcome { IfOk result (λ _.
        IsWelcome (subject_in topology.now room table orders.now spans.now)) }
    ensures fault { IfErr result (IsFirstFound
        (subject_in topology.now room table orders.now spans.now)) }
{
    if !are_going_round(topology) {
        return Err(CertifyFault::Doubt(Doubt::Mode));
    }
    if !have_own_addresses(topology) {
        return Err(CertifyFault::Doubt(Doubt::SameAddress));
    }
    if let Some(link) = first_unlike_link(topology) {
        return Err(CertifyFault::Doubt(Doubt::Side { link }));
    }
    match first_refused(topology, orders, spans) {
        Some(step) => Err(CertifyFault::Doubt(Doubt::Refused { step })),
        None => Ok(()),
    }
}

/// Whether the clock and tables are as they should, too; else the first doubt.
fn check_kept(
    topology: &Topology,
    room: usize,
    table: usize,
    orders: &[Order],
    spans: &[SendSpan],
) -> Result<(), CertifyFault>
    requires welcome { IsWelcome (subject_in topology.now room table orders.now spans.now) }
    requires rise { Rise spans.now }
    ensures kept { IfOk result (λ _. IsKept (subject_in topology.now room table orders.now spans.now)) }
    ensures fault { IfErr result (IsFirstFound
        (subject_in topology.now room table orders.now spans.now)) }
{
    if let Some(step) = first_back(orders) {
        return Err(CertifyFault::Doubt(Doubt::Back { step }));
    }
    if let Some(step) = first_late(orders, spans) {
        return Err(CertifyFault::Doubt(Doubt::Late { step }));
    }
    if let Some(step) = first_crowded(table, spans) {
        return Err(CertifyFault::Doubt(Doubt::Crowded { step }));
    }
    match first_wrapped(topology, spans) {
        Some(step) => Err(CertifyFault::Doubt(Doubt::Wrapped { step })),
        None => Ok(()),
    }
}

/// Whether sends are covered, have room and are served, too; else the first doubt.
fn check_sends(
    alloc: Global,
    topology: &Topology,
    room: usize,
    table: usize,
    orders: &[Order],
    spans: &[SendSpan],
) -> Result<(), CertifyFault>
    requires kept { IsKept (subject_in topology.now room table orders.now spans.now) }
    requires sent { AreSentIn topology.now.places spans.now }
    requires rise { Rise spans.now }
    ensures passed { IfOk result (λ _.
        IsPassed (subject_in topology.now room table orders.now spans.now)) }
    ensures fault { IfErr result (IsFirstFound
        (subject_in topology.now room table orders.now spans.now)) }
{
    if let Some(step) = first_uncovered(topology, spans) {
        return Err(CertifyFault::Doubt(Doubt::Uncovered { step }));
    }
    if let Some(step) = first_full(room, spans) {
        return Err(CertifyFault::Doubt(Doubt::Queue { step }));
    }
    match first_cut_off(alloc, topology, orders, spans)? {
        Some(CutOff { step, node }) => Err(CertifyFault::Doubt(Doubt::CutOff { step, node })),
        None => Ok(()),
    }
}

/// The verdict on steps that move no copy themselves, by their spans.
fn certify_spans(
    alloc: Global,
    topology: &Topology,
    room: usize,
    table: usize,
    orders: &[Order],
    within: Option<u64>,
    spans: &[SendSpan],
) -> Result<Certified, CertifyFault>
    requires sends { list_any is_send orders.now ≡ true }
    requires fine { first_step is_coarse 0 orders.now ≡ None }
    requires spans { spans.now ≡ spans_from within 0 0 orders.now }
    ensures certified { IfOk result (λ c.
        IsPassed (subject_in topology.now room table orders.now spans.now)
        × (c.sends ≡ length spans.now)) }
    ensures first { IfErr result (IsFirstFound
        (subject_in topology.now room table orders.now spans.now)) }
{
    if let Some(step) = first_unended(orders.len(), spans) {
        return Err(CertifyFault::Doubt(Doubt::Open { step }));
    }
    check_welcome(topology, room, table, orders, spans)?;
    check_kept(topology, room, table, orders, spans)?;
    check_sends(alloc, topology, room, table, orders, spans)?;
    // How long a copy lives is told to the proof alone: the spans have it.
    let _ = within;
    Ok(Certified { sends: spans.len() })
}

/// What tests of all conditions find.
fn tested(
    alloc: Global,
    topology: &Topology,
    room: usize,
    table: usize,
    orders: &[Order],
    within: Option<u64>,
) -> Result<Certified, CertifyFault>
    ensures certified { IfOk result (λ c. IsPassed
        (subject_of (setup_of topology.now room table orders.now within))
        × (c.sends ≡ length (spans (setup_of topology.now room table orders.now within)))) }
    ensures first { IfErr result (IsFirstFound
        (subject_of (setup_of topology.now room table orders.now within))) }
{
    // In the order of the table, which names the first doubt.
    if !has_send(orders) {
        return Err(CertifyFault::Doubt(Doubt::Empty));
    }
    if let Some(step) = first_fine(orders) {
        return Err(CertifyFault::Doubt(Doubt::Fine { step }));
    }
    let spans = spans_of(alloc, within, orders)?;
    certify_spans(
        alloc,
        topology,
        room,
        table,
        orders,
        within,
        spans.as_slice(),
    )
}

/// A verdict on a scenario, in any order of its copies: how many sends it has, or the first doubt.
///
/// `room` copies wait in each direction of a link, a table has `table` entries, and with `within` only those orders are meant in which a
/// copy lives less than so many microseconds behind its send.
/// It is certified exactly where something is sent, and all conditions hold: no step moves a copy itself; each span ends; nodes and links
/// are a network; no order refuses a step; the clock never goes back, and rises by less than 400 milliseconds in each span; no span meets
/// more spans than a table has entries; no number comes again; each send is to a group, or to an address that no Station has, and none is
/// supervision of a Station that is joined with a Station; no more sends are open than there is room; and routes over links that are up in
/// all its span lead each send to each node that it is due at.
///
/// Then, with a table of 1 to 65535 entries and fewer than 2^32 steps, in each of these orders no step is refused, no copy is lost by a full
/// queue, and no direction of a link carries a send twice; the moves are few, and some move can be done while anything is under way; and at
/// the end each node that a send is due at took it up just once, and nothing else went up (IEC 62439-3 clause 5). Without `within`
/// `audit_network` certifies what `run` plays. `NoMemory` if allocation fails.
pub fn certify(
    alloc: Global,
    topology: &Topology,
    room: usize,
    table: usize,
    orders: &[Order],
    within: Option<u64>,
) -> Result<Certified, CertifyFault>
    ensures certified { IfOk result (λ c.
        IsPremised (setup_of topology.now room table orders.now within)
        × (c.sends ≡ length (spans (setup_of topology.now room table orders.now within)))) }
    ensures in_any_order { IfOk result (λ _. IsTableSize table → length orders.now < 2 ^ 32
        → HoldsInAnyOrder (setup_of topology.now room table orders.now within)) }
    ensures first { IfErr result (IsFirstFault (setup_of topology.now room table orders.now within)) }
    ensures refused { IfErr result (IsDoubted (setup_of topology.now room table orders.now within)) }
{
    // What it answers isn't used: its contract says that nodes and links are wired.
    let _ = topology.links();
    places_fit(topology.places());
    have_few_addresses(topology.places());
    orders_fit(orders);
    // Laws: they do nothing when they run, and give `in_any_order` its proof.
    never_refused();
    never_twice();
    never_overruns();
    lost_down();
    moves_are_few();
    goes_on();
    ends_certain();
    run_certifies();
    match tested(alloc, topology, room, table, orders, within) {
        Ok(certified) => Ok(certified),
        Err(fault) => Err(fault),
    }
}
