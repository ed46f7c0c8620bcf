//! The threads of a run.
ghost use Rattle.std.specs.Prelude.{◌≡◌, IfErr, IfOk, IfSome, length, vec_len};
ghost use Rattle.hsr_scenario.specs.Meaning.{scenario_view};
ghost use Rattle.hsr_runner.specs.Endings.{IsConducted, IsEnding, IsPlayFault, fault_of, worker_fault};
ghost use Rattle.hsr_runner.specs.Faults.{AllFit};

use crate::ager::age;
use crate::cells::Cells;
use crate::conduct::{Conducted, conduct};
use crate::ending::Ending;
use crate::fault::RunFault;
use crate::gate::Gate;
use crate::role::{Role, Task};
use crate::worker::{Post, judge};
use hsr_node::Pass;
use hsr_scenario::Scenario;
use hsr_world_steps::WorldFault;
use std::alloc::Global;
use std::marker::{PhantomData, Sync};
use std::sync::Wait;
use std::thread;
use std::thread::{Promise, PromisedHandle, Threads};

/// What a thread hands back.
#[derive(Drop)]
struct Done {
    pass: Pass,
    ending: Ending,
}

/// A thread ends by its gate only where that may shut, and by its node only where that refused a copy.
#[derive(Clone, Copy)]
struct EndsAsItMay<const C: usize, G: Gate> {
    // A promise holds nothing: it only names the gate, whose type says whether it may shut.
    of: PhantomData<G>,
}

impl<const C: usize, G: Gate> Promise<Done> for EndsAsItMay<C, G> {
    ghost use Rattle.hsr_runner.specs.Endings.{IsEnding};

    ghost kept_by = { λ p r. IsEnding C G.may_shut r.ending };
}

/// Does what a thread is there for, until it ends.
#[tactic(auto, using(crate::proofs::Endings::unshut))]
fn work<const C: usize, G: Gate>(
    rt: &impl Wait,
    alloc: Global,
    cells: &Cells<C>,
    gate: &G,
    role: Role,
    pass: &mut Pass,
) -> Ending
    ensures { IsEnding C G.may_shut result }
{
    // Never so: roles are of the same topology as the seats.
    let Some(seat) = cells.seats.get(role.node) else {
        return Ending::Stopped;
    };
    match role.task {
        Task::Age => age(rt, cells, seat, pass),
        Task::Judge { port, wire } => {
            let Some(link) = cells.links.get(wire.link) else {
                return Ending::Stopped;
            };
            let post = Post {
                node: role.node,
                port,
                into: wire.into(),
            };
            judge(rt, alloc, cells, seat, link, gate, post, pass)
        }
    }
}

/// The life of a thread. One that gives up says "stop".
fn live<const C: usize, G: Gate>(
    rt: &impl Wait,
    alloc: Global,
    cells: &Cells<C>,
    gate: &G,
    role: Role,
) -> Done
    ensures { IsEnding C G.may_shut result.ending }
{
    let mut pass = Pass::new(alloc, role.worker);
    let ending = work(rt, alloc, cells, gate, role, &mut pass);
    // All others have to end too, since a copy that nobody judges would be waited for.
    if ending != Ending::Stopped {
        cells.flight.stop();
    }
    Done { pass, ending }
}

/// Joins threads, keeps their passes, and tells how the first ended that gave up, if one did.
fn join_all<const C: usize, G: Gate, R: Threads>(
    rt: &R,
    handles: Vec<PromisedHandle<Done, EndsAsItMay<C, G>>>,
    passes: &mut Vec<Pass>,
) -> Ending
    ensures { IsEnding C G.may_shut result }
{
    let mut first = Ending::Stopped;
    // Each is joined, also after a fault: no thread may outlive the run.
    for handle in handles {
        let Done { pass, ending } = handle.join(rt);
        let ending = match passes.push(pass) {
            Ok(()) => ending,
            Err(_full) => Ending::NoMemory,
        };
        // Handles stand by the numbers of their workers, so this is the lowest that gave up.
        if first == Ending::Stopped {
            first = ending;
        }
    }
    first
}

/// Why there is no run where the main worker was at a step when the lowest of the others that gave up ended so.
fn worker_fault(step: usize, ending: Ending) -> Option<RunFault>
    ensures { result ≡ worker_fault step ending }
{
    match ending {
        Ending::Stopped => None,
        Ending::Shut => Some(RunFault::GateShut),
        Ending::Refused(fault) => Some(RunFault::Step {
            step,
            fault: WorldFault::Node(fault),
        }),
        Ending::NoMemory => Some(RunFault::NoMemory),
    }
}

/// Why there is no run where the main worker and the others ended so, in the order of the faults; none where all is done. `last` is the
/// index after the last step.
fn fault_of(conducted: Conducted, ending: Ending, last: usize) -> Option<RunFault>
    ensures { result ≡ fault_of conducted ending last }
{
    match conducted {
        Conducted::All => worker_fault(last, ending),
        // it was told to stop by one that gave up, so there is a reason
        Conducted::Left(step) => worker_fault(step, ending).or(Some(RunFault::Thread)),
        Conducted::Own(_, WorldFault::NoMemory) | Conducted::NoMemory => Some(RunFault::NoMemory),
        Conducted::Own(step, fault) => Some(RunFault::Step { step, fault }),
        Conducted::Shut => Some(RunFault::GateShut),
        Conducted::NoThread => Some(RunFault::Thread),
    }
}

/// Does the scenario's own steps, unless a thread is missing; tells all to stop, and joins them. The passes come by the numbers of their
/// workers, the main worker's first.
#[tactic(auto, using(crate::proofs::Endings::play_fault, crate::proofs::Endings::all_fit))]
fn finish<const C: usize, G: Gate, R: Threads + Wait>(
    rt: &R,
    alloc: Global,
    cells: &Cells<C>,
    scenario: &Scenario,
    gate: &G,
    handles: Vec<PromisedHandle<Done, EndsAsItMay<C, G>>>,
    unstarted: Option<Conducted>,
) -> Result<Vec<Pass>, RunFault>
    requires nodes { vec_len cells.now.seats ≡ length scenario.now.topology.places }
    requires links { vec_len cells.now.links ≡ length scenario.now.topology.links }
    requires unstarted { IfSome unstarted (λ c.
        IsConducted C G.may_shut (scenario_view scenario.now) c) }
    ensures fits { IfOk result (λ passes. AllFit scenario.now.topology scenario.now.steps.items) }
    ensures fault { IfErr result (λ fault.
        IsPlayFault C G.may_shut (scenario_view scenario.now) fault) }
{
    let mut main = Pass::new(alloc, 0);
    let conducted = match unstarted {
        Some(unstarted) => unstarted,
        None => conduct(rt, alloc, cells, scenario, gate, &mut main),
    };
    // Closed before the join, or workers would wait for copies for ever.
    cells.close(rt);
    let mut passes = Vec::new(alloc);
    let conducted = match passes.push(main) {
        Ok(()) => conducted,
        Err(_full) => Conducted::NoMemory,
    };
    let ending = join_all(rt, handles, &mut passes);
    match fault_of(conducted, ending, scenario.steps.len()) {
        Some(fault) => Err(fault),
        None => Ok(passes),
    }
}

/// Starts a thread for each role, does the scenario's own steps, and joins all threads.
pub(crate) fn play<const C: usize, G: Gate, R: Threads + Wait + Sync>(
    rt: &R,
    alloc: Global,
    cells: &Cells<C>,
    scenario: &Scenario,
    gate: &G,
    roles: &[Role],
) -> Result<Vec<Pass>, RunFault>
    requires nodes { vec_len cells.now.seats ≡ length scenario.now.topology.places }
    requires links { vec_len cells.now.links ≡ length scenario.now.topology.links }
    ensures fits { IfOk result (λ passes. AllFit scenario.now.topology scenario.now.steps.items) }
    ensures fault { IfErr result (λ fault.
        IsPlayFault C G.may_shut (scenario_view scenario.now) fault) }
{
    thread::scope(
        thread::scope_env(),
        rt,
        |scope| -> Result<Vec<Pass>, RunFault>
            requires nodes { vec_len cells.now.seats ≡ length scenario.now.topology.places }
            requires links { vec_len cells.now.links ≡ length scenario.now.topology.links }
            ensures fits { IfOk result
                (λ passes. AllFit scenario.entry.now.topology scenario.entry.now.steps.items) }
            ensures fault { IfErr result (λ fault.
                IsPlayFault C G.may_shut (scenario_view scenario.entry.now) fault) }
        {
            let Ok(mut handles) = Vec::with_capacity(alloc, roles.len()) else {
                return Err(RunFault::NoMemory);
            };
            let mut unstarted = None;
            for role in roles {
                let role = *role;
                let promise: EndsAsItMay<C, G> = EndsAsItMay { of: PhantomData };
                let life = move || -> Done
                    ensures { IsEnding C G.may_shut result.ending }
                { live(rt, alloc, cells, gate, role) };
                match scope.spawn_with(promise, life) {
                    Ok(handle) => {
                        // Room was made for all; the case stands since a push answers so.
                        if handles.push(handle).is_err() {
                            unstarted = Some(Conducted::NoMemory);
                            break;
                        }
                    }
                    Err(_refused) => {
                        unstarted = Some(Conducted::NoThread);
                        break;
                    }
                }
            }
            finish(rt, alloc, cells, scenario, gate, handles, unstarted)
        },
    )
}
