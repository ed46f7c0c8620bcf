//! The main worker.
ghost use Rattle.std.specs.Prelude.{◌≡◌, ◌⊎◌, IfErr, IfOk, None, Some, length, vec_len};
ghost use Rattle.hsr_world_steps.specs.declared.step.WorldFault.TheVariants.{NoMemory as NoRoom};
ghost use Rattle.hsr_runner.specs.Faults.{if_link, if_node, misfit, too_long};
ghost use Rattle.hsr_scenario.specs.Meaning.{scenario_view};
ghost use Rattle.hsr_runner.specs.Endings.{FitsNode, IsConducted, IsOrderEnd, IsPlanEnd};
ghost use Rattle.hsr_runner.specs.Plan.{planned_at};

use crate::cells::Cells;
use crate::gate::Gate;
use crate::leaving::{inject, put_all};
use crate::plan::{clock_after, planned_at};
use hsr_finished_run::Planned;
use hsr_link::Dir;
use hsr_node::{Octets, Pass};
use hsr_scenario::{Order, Scenario};
use hsr_topology::Topology;
use hsr_world_steps::{INJECT_LIMIT, Step, WorldFault};
use std::alloc::Global;
use std::sync::Wait;

/// How the main worker's steps went.
#[derive(Clone, Copy, PartialEq, Eq)]
pub(crate) enum Conducted {
    /// All were done, and no copy is on its way.
    All,
    /// It was told to stop when it was at the step with this index.
    Left(usize),
    /// The step with this index was refused.
    Own(usize, WorldFault),
    /// The gate answered false before a step.
    Shut,
    /// A thread couldn't be started, so that no step was done.
    NoThread,
    /// Room for the threads was refused, so that no step was done.
    NoMemory,
}

/// Brings about what is planned, and puts on their links the copies that leave.
#[tactic(auto, using(crate::proofs::Refusals::plan_refused))]
fn bring<const C: usize>(
    rt: &impl Wait,
    alloc: Global,
    cells: &Cells<C>,
    topology: &Topology,
    pass: &mut Pass,
    planned: Planned,
) -> Result<(), WorldFault>
    requires { vec_len cells.now.seats ≡ length topology.now.places }
    ensures fits { IfOk result (λ u. if_node topology.now planned.node ≡ None) }
    ensures fault { IfErr result (λ fault. IsPlanEnd C topology.now planned fault) }
{
    let Some(seat) = cells.seats.get(planned.node) else {
        return Err(WorldFault::NoSuchNode);
    };
    let receipt = match seat.cell.step(rt, pass, planned.at, planned.event) {
        Ok(receipt) => receipt,
        // The event is let go: the run ends here.
        Err((_event, fault)) => return Err(WorldFault::of_node(fault)),
    };
    match put_all(rt, alloc, cells, seat, &receipt) {
        Ok(()) => Ok(()),
        Err(_refused) => Err(WorldFault::NoMemory),
    }
}

/// Brings about what an order asks of a node, if it does.
#[tactic(auto, using(crate::proofs::Refusals::order_refused))]
fn bring_order<const C: usize>(
    rt: &impl Wait,
    alloc: Global,
    cells: &Cells<C>,
    topology: &Topology,
    pass: &mut Pass,
    at: u64,
    order: &Order,
) -> Result<(), WorldFault>
    requires { vec_len cells.now.seats ≡ length topology.now.places }
    ensures fits { IfOk result (λ u. FitsNode topology.now (planned_at at order.now)) }
    ensures fault { IfErr result (λ fault. IsOrderEnd C topology.now order.now fault) }
{
    let planned = match planned_at(at, order) {
        Ok(Some(planned)) => planned,
        Ok(None) => return Ok(()),
        Err(_refused) => return Err(WorldFault::NoMemory),
    };
    bring(rt, alloc, cells, topology, pass, planned)
}

/// Cuts a link. The copies that waited there are on their way no more.
fn cut<const C: usize>(
    rt: &impl Wait,
    cells: &Cells<C>,
    topology: &Topology,
    link: usize,
) -> Result<(), WorldFault>
    requires { vec_len cells.now.links ≡ length topology.now.links }
    ensures fits { IfOk result (λ u. if_link topology.now link None ≡ None) }
    ensures fault { IfErr result (λ fault. if_link topology.now link None ≡ Some fault) }
{
    let Some(cell) = cells.links.get(link) else {
        return Err(WorldFault::NoSuchLink);
    };
    // What waited there would else be waited for at the next drain.
    cells.flight.fall(cell.cut(rt) as u64);
    Ok(())
}

/// Mends a link.
fn mend<const C: usize>(
    rt: &impl Wait,
    cells: &Cells<C>,
    topology: &Topology,
    link: usize,
) -> Result<(), WorldFault>
    requires { vec_len cells.now.links ≡ length topology.now.links }
    ensures fits { IfOk result (λ u. if_link topology.now link None ≡ None) }
    ensures fault { IfErr result (λ fault. if_link topology.now link None ≡ Some fault) }
{
    let Some(cell) = cells.links.get(link) else {
        return Err(WorldFault::NoSuchLink);
    };
    cell.mend(rt);
    Ok(())
}

/// Puts octets that no port sent on a link.
fn inject_on<const C: usize>(
    rt: &impl Wait,
    cells: &Cells<C>,
    topology: &Topology,
    link: usize,
    dir: Dir,
    octets: &Octets,
) -> Result<(), WorldFault>
    requires { vec_len cells.now.links ≡ length topology.now.links }
    ensures fits { IfOk result (λ u. if_link topology.now link (too_long octets.now) ≡ None) }
    ensures fault { IfErr result (λ fault.
        (fault ≡ NoRoom) ⊎ (if_link topology.now link (too_long octets.now) ≡ Some fault)) }
{
    // Both are asked before the lock, so that a refused step changes nothing.
    if link >= cells.links.len() {
        return Err(WorldFault::NoSuchLink);
    }
    if octets.as_slice().len() > INJECT_LIMIT {
        return Err(WorldFault::TooLong);
    }
    match inject(rt, cells, link, dir, octets) {
        Ok(()) => Ok(()),
        Err(_refused) => Err(WorldFault::NoMemory),
    }
}

/// Does an order, and tells whether there is more to do: at a drain, not if it was told to stop.
#[tactic(auto, using(crate::proofs::Refusals::inject_refused, crate::proofs::Refusals::misfit_refused))]
fn obey<const C: usize>(
    rt: &impl Wait,
    alloc: Global,
    cells: &Cells<C>,
    topology: &Topology,
    pass: &mut Pass,
    at: u64,
    order: &Order,
) -> Result<bool, WorldFault>
    requires nodes { vec_len cells.now.seats ≡ length topology.now.places }
    requires links { vec_len cells.now.links ≡ length topology.now.links }
    ensures fits { IfOk result (λ more. misfit topology.now order.now ≡ None) }
    ensures fault { IfErr result (λ fault. IsOrderEnd C topology.now order.now fault) }
{
    // A drain is waited for: the workers move the copies by themselves.
    let Order::Step(step) = order else {
        return Ok(cells.flight.settles(rt));
    };
    let done = match step {
        Step::Clock { at } => {
            cells.set_clock(*at);
            Ok(())
        }
        Step::Cut { link } => cut(rt, cells, topology, *link),
        Step::Mend { link } => mend(rt, cells, topology, *link),
        Step::Inject { link, dir, octets } => {
            inject_on(rt, cells, topology, *link, *dir, octets)
        }
        // Each kind is named, so that a new one does not pass for an event unseen. No put, take or judge comes here.
        Step::Send { .. }
        | Step::Supervise { .. }
        | Step::Age { .. }
        | Step::Put { .. }
        | Step::Take { .. }
        | Step::Judge { .. } => bring_order(rt, alloc, cells, topology, pass, at, order),
    };
    match done {
        Ok(()) => Ok(true),
        Err(fault) => Err(fault),
    }
}

/// Does the steps of a scenario, one after another, and waits at each drain and at the end until no copy is on its way. It asks the
/// gate before each step, while no lock is held. It ends early where the gate shuts, where a step is refused, or where it was told
/// to stop while it waited.
pub(crate) fn conduct<const C: usize, G: Gate>(
    rt: &impl Wait,
    alloc: Global,
    cells: &Cells<C>,
    scenario: &Scenario,
    gate: &G,
    pass: &mut Pass,
) -> Conducted
    requires nodes { vec_len cells.now.seats ≡ length scenario.now.topology.places }
    requires links { vec_len cells.now.links ≡ length scenario.now.topology.links }
    ensures { IsConducted C G.may_shut (scenario_view scenario.now) result }
{
    // The main worker's own moment: the clock word is for the other threads.
    let mut at = 0;
    for (step, order) in scenario.steps.iter().enumerate() {
        if !gate.before(rt, step) {
            return Conducted::Shut;
        }
        match obey(rt, alloc, cells, &scenario.topology, pass, at, order) {
            Ok(true) => at = clock_after(at, order),
            Ok(false) => return Conducted::Left(step),
            Err(fault) => return Conducted::Own(step, fault),
        }
    }
    if cells.flight.settles(rt) {
        Conducted::All
    } else {
        Conducted::Left(scenario.steps.len())
    }
}
