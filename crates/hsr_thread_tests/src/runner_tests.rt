//! Rings that run in threads under gates, which bring about an order of events that a run seldom has by itself.
use hsr_finished_run::Closed;
use hsr_link::Fate;
use hsr_node::{Event, Probe, StepFault};
use hsr_runner::{Gate, RunFault, run_threads};
use hsr_scenario::Scenario;
use hsr_world_steps::WorldFault;
use std::alloc::Global;
use std::marker::Sync;
use std::sync::Wait;
use std::sync::atomic::{AtomicU64, Ordering};
use std::test::Fail;
use std::thread;
use std::thread::Threads;

/// How many turns a gate waits before it shuts.
const LIMIT: u64 = 1_000_000_000;

// ---- scenarios

/// Three DANHs in a ring, behind the capacity of its links.
const RING: &str = r#"
node = [
  {name="n0", role="danh", mac="02-00-00-00-00-01"},
  {name="n1", role="danh", mac="02-00-00-00-00-02"},
  {name="n2", role="danh", mac="02-00-00-00-00-03"},
]
link = [{ends=["n0.B","n1.A"]}, {ends=["n1.B","n2.A"]}, {ends=["n2.B","n0.A"]}]
"#;

/// A send round the ring, and a drain.
const ROUND: &str = r#"
{do="send", node="n0", to="01-00-5E-00-00-01", type=0x0800, payload="AABB"},
{do="drain"},
"#;

/// The same, and then a step that the node refuses.
const REFUSED: &str = r#"
{do="send", node="n0", to="01-00-5E-00-00-01", type=0x0800, payload="AABB"},
{do="drain"},
{do="life", node="n0", about="02-00-00-00-00-09"},
"#;

/// A send, and a link that is cut and mended while its copies are on their way.
const CUT: &str = r#"
{do="send", node="n0", to="01-00-5E-00-00-01", type=0x0800, payload="AABB"},
{do="cut", link=1},
{do="mend", link=1},
{do="drain"},
"#;

/// Three sends before a drain.
const THREE: &str = r#"
{do="send", node="n0", to="01-00-5E-00-00-01", type=0x0800, payload="AABB"},
{do="send", node="n0", to="01-00-5E-00-00-01", type=0x0800, payload="AABB"},
{do="send", node="n0", to="01-00-5E-00-00-01", type=0x0800, payload="AABB"},
{do="drain"},
"#;

/// The scenario with these steps in the ring, in which `capacity` copies may wait in each direction of a link.
fn scenario(rt: &HostRuntime, capacity: u16, steps: &str) -> Result<Scenario, Fail> {
    let text = format!(in rt.alloc(); "capacity = {capacity}{RING}step = [{steps}]\n")?;
    match hsr_scenario::read(rt.alloc(), text.as_str()) {
        Ok(scenario) => Ok(scenario),
        Err(_fault) => Err("no scenario".into()),
    }
}

// ---- what is compared

/// What is told of a run of three nodes: how many arrivals went up at the second and the third, by which port the second had its
/// first, and how many copies each link lost.
#[derive(Clone, Copy, PartialEq, Eq)]
struct Told {
    up: [u64; 2],
    first: Option<u8>,
    lost: [usize; 3],
}

/// The port at which a node had its first arrival.
fn first_port(closed: &Closed<4>, node: usize) -> Option<u8> {
    if node >= closed.topology().places().len() {
        return None;
    }
    match closed.entries(node) {
        [first, ..] => match &first.event {
            Event::Arrive { port, carried: _ } => Some(*port),
            _ => None,
        },
        [] => None,
    }
}

/// How many arrivals went up at a node.
fn up_at(closed: &Closed<4>, node: usize) -> u64 {
    if node >= closed.topology().places().len() {
        return 0;
    }
    closed.counters(node).up
}

/// How many copies a link lost.
fn lost_on(closed: &Closed<4>, link: usize) -> usize {
    if link >= closed.topology().links().len() {
        return 0;
    }
    closed
        .rows(link)
        .iter()
        .filter(|row| row.fate != Fate::Taken)
        .count()
}

/// What is compared of a run.
fn compared(closed: &Closed<4>) -> Told {
    Told {
        up: [up_at(closed, 1), up_at(closed, 2)],
        first: first_port(closed, 1),
        lost: [lost_on(closed, 0), lost_on(closed, 1), lost_on(closed, 2)],
    }
}

/// What a scenario's run is under a gate.
fn run<G: Gate, R: Threads + Wait + Sync>(
    rt: &R,
    alloc: Global,
    scenario: &Scenario,
    gate: &G,
) -> Result<Told, RunFault> {
    match run_threads::<4, _, _>(rt, alloc, scenario, gate) {
        Ok(closed) => Ok(compared(&closed)),
        Err(fault) => Err(fault),
    }
}

// ---- gates

/// Shuts before a step, or at the first pass.
#[derive(Drop)]
struct Shut {
    before: usize,
    passes: bool,
}

impl Gate for Shut {
    ghost use Rattle.std.specs.Prelude.{true};

    ghost may_shut = { true };

    fn pass(&self, _rt: &impl Wait, _node: usize, _port: u8, _probe: Option<Probe>) -> bool {
        self.passes
    }

    fn before(&self, _rt: &impl Wait, step: usize) -> bool {
        step != self.before
    }
}

#[test]
fn shut_gate_ends_a_run(rt: HostRuntime) -> Result<(), Fail> {
    let scenario = scenario(&rt, 64, REFUSED)?;
    for before in 0..3usize {
        let gate = Shut {
            before,
            passes: true,
        };
        assert!(rt; run(&rt, rt.alloc(), &scenario, &gate) == Err(RunFault::GateShut));
    }
    let refused = RunFault::Step {
        step: 2,
        fault: WorldFault::Node(StepFault::WrongEvent),
    };
    let open = Shut {
        before: 3,
        passes: true,
    };
    assert!(rt; run(&rt, rt.alloc(), &scenario, &open) == Err(refused));
    Ok(())
}

#[test]
fn gate_shut_before_a_judgement(rt: HostRuntime) -> Result<(), Fail> {
    let scenario = scenario(&rt, 64, ROUND)?;
    let gate = Shut {
        before: 3,
        passes: false,
    };
    assert!(rt; run(&rt, rt.alloc(), &scenario, &gate) == Err(RunFault::GateShut));
    Ok(())
}

/// Takes turns until a word isn't 0, up to a limit; whether it was.
fn comes(word: &AtomicU64) -> bool {
    for _ in 0..LIMIT {
        if word.load(Ordering::SeqCst) != 0 {
            return true;
        }
        thread::yield_now();
    }
    false
}

/// Holds node 1's first copy until copies stand at both its ports.
#[derive(Drop)]
struct BothPorts {
    at: [AtomicU64; 2],
}

impl Gate for BothPorts {
    ghost use Rattle.std.specs.Prelude.{true};

    ghost may_shut = { true };

    fn pass(&self, _rt: &impl Wait, node: usize, port: u8, _probe: Option<Probe>) -> bool {
        if node != 1 || port > 1 {
            return true;
        }
        let (here, there) = if port == 0 { (0, 1) } else { (1, 0) };
        self.at[here].fetch_add(1, Ordering::SeqCst);
        comes(&self.at[there])
    }
}

#[test]
fn both_ports_at_once(rt: HostRuntime) -> Result<(), Fail> {
    let scenario = scenario(&rt, 64, ROUND)?;
    let gate = BothPorts {
        at: [AtomicU64::new(0), AtomicU64::new(0)],
    };
    let Ok(told) = run(&rt, rt.alloc(), &scenario, &gate) else {
        return Err("no run".into());
    };
    assert!(rt; told.up == [1, 1]);
    assert!(rt; told.lost == [0, 0, 0]);
    let [a, b] = &gate.at;
    assert!(rt; a.load(Ordering::SeqCst) == 1);
    assert!(rt; b.load(Ordering::SeqCst) == 1);
    Ok(())
}

/// Holds node 1's pass at one port until the pass at the other port of node 0 has begun, and counts the passes of the send.
#[derive(Drop)]
struct InOrder {
    held: u8,
    begun: AtomicU64,
    passes: AtomicU64,
}

impl Gate for InOrder {
    ghost use Rattle.std.specs.Prelude.{true};

    ghost may_shut = { true };

    fn pass(&self, _rt: &impl Wait, node: usize, port: u8, probe: Option<Probe>) -> bool {
        if probe == Some(Probe { node: 0, place: 0 }) {
            self.passes.fetch_add(1, Ordering::SeqCst);
        }
        if node == 0 && port != self.held {
            self.begun.fetch_add(1, Ordering::SeqCst);
        }
        if node == 1 && port == self.held {
            return comes(&self.begun);
        }
        true
    }
}

#[test]
fn arrivals_in_the_order_of_a_gate(rt: HostRuntime) -> Result<(), Fail> {
    let scenario = scenario(&rt, 64, ROUND)?;
    for held in 0..2u8 {
        let gate = InOrder {
            held,
            begun: AtomicU64::new(0),
            passes: AtomicU64::new(0),
        };
        let in_order = Told {
            up: [1, 1],
            first: Some(1 - held),
            lost: [0, 0, 0],
        };
        assert!(rt; run(&rt, rt.alloc(), &scenario, &gate) == Ok(in_order));
        assert!(rt; gate.passes.load(Ordering::SeqCst) == 6);
    }
    Ok(())
}

/// Lets the first cut come when the pass of this number has begun, of all passes in the order in which they begin, and holds that
/// pass until the main worker is at its drain.
#[derive(Drop)]
struct CutUnderPass {
    held: u64,
    passes: AtomicU64,
    begun: AtomicU64,
    drained: AtomicU64,
}

impl Gate for CutUnderPass {
    ghost use Rattle.std.specs.Prelude.{true};

    ghost may_shut = { true };

    fn pass(&self, _rt: &impl Wait, _node: usize, _port: u8, _probe: Option<Probe>) -> bool {
        if self.passes.fetch_add(1, Ordering::SeqCst) != self.held {
            return true;
        }
        self.begun.fetch_add(1, Ordering::SeqCst);
        comes(&self.drained)
    }

    fn before(&self, _rt: &impl Wait, step: usize) -> bool {
        if step == 1 {
            return comes(&self.begun);
        }
        if step == 3 {
            self.drained.fetch_add(1, Ordering::SeqCst);
        }
        true
    }
}

#[test]
fn cut_in_a_running_ring(rt: HostRuntime) -> Result<(), Fail> {
    let scenario = scenario(&rt, 64, CUT)?;
    for held in 0..6u64 {
        let gate = CutUnderPass {
            held,
            passes: AtomicU64::new(0),
            begun: AtomicU64::new(0),
            drained: AtomicU64::new(0),
        };
        let Ok(told) = run(&rt, rt.alloc(), &scenario, &gate) else {
            return Err("no run".into());
        };
        // Each node took the frame up once, and no link but the one that was cut lost a copy.
        assert!(rt; told.up == [1, 1]);
        let [first, _cut, last] = told.lost;
        assert!(rt; first == 0);
        assert!(rt; last == 0);
    }
    Ok(())
}

/// Holds every pass until the main worker is at its drain.
#[derive(Drop)]
struct AllHeld {
    drained: AtomicU64,
}

impl Gate for AllHeld {
    ghost use Rattle.std.specs.Prelude.{true};

    ghost may_shut = { true };

    fn pass(&self, _rt: &impl Wait, _node: usize, _port: u8, _probe: Option<Probe>) -> bool {
        comes(&self.drained)
    }

    fn before(&self, _rt: &impl Wait, step: usize) -> bool {
        if step == 3 {
            self.drained.fetch_add(1, Ordering::SeqCst);
        }
        true
    }
}

/// Of three sends at most one copy waits on each link while one is at its end, so both links of the sender lose one.
#[test]
fn overrun_in_a_running_ring(rt: HostRuntime) -> Result<(), Fail> {
    let scenario = scenario(&rt, 1, THREE)?;
    let gate = AllHeld {
        drained: AtomicU64::new(0),
    };
    let Ok(told) = run(&rt, rt.alloc(), &scenario, &gate) else {
        return Err("no run".into());
    };
    assert!(rt; told.lost[0] >= 1);
    assert!(rt; told.lost[2] >= 1);
    Ok(())
}
