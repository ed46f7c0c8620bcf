//! Steps, lists of steps and drains of a ring, and its end.
use crate::fixtures::{danh, group, octets};
use hsr_finished_run::CheckFault;
use hsr_frame::About;
use hsr_link::{Dir, Fate};
use hsr_node::Octets;
use hsr_ring::{DrainFault, Step, World, WorldFault};
use hsr_topology::{End, Topology};
use std::alloc::Global;
use std::test::Fail;

/// A link from B of a node to A of another.
fn joint(node: usize, next: usize) -> [End; 2] {
    [
        End { node, port: 1 },
        End {
            node: next,
            port: 0,
        },
    ]
}

fn ring_once(alloc: Global) -> Option<World<4>> {
    let places = vec![in alloc; danh(1), danh(2), danh(3)].ok()?;
    let links = vec![in alloc; joint(0, 1), joint(1, 2), joint(2, 0)].ok()?;
    let topology = Topology::new(places, links).ok()?;
    World::new(alloc, topology, 64).ok()
}

/// Three DANHs in a ring, in which nothing was done; if allocation fails, they are asked for again.
fn ring(alloc: Global) -> Option<World<4>> {
    match ring_once(alloc) {
        Some(world) => Some(world),
        None => ring_once(alloc),
    }
}

/// Node 0 sends to a group.
fn send(alloc: Global) -> Option<Step> {
    Some(Step::Send {
        node: 0,
        from: 0,
        dst: group(),
        vlan: None,
        kind: 0x0800,
        payload: octets(alloc)?,
    })
}

/// How many entries the records of a world have, and how many rows its links.
fn size(world: &World<4>) -> (usize, usize) {
    let mut entries = 0usize;
    for node in 0..world.node_count() {
        entries = entries.saturating_add(world.entries(node).len());
    }
    let mut rows = 0usize;
    for link in 0..world.link_count() {
        rows = rows.saturating_add(world.rows(link).len());
    }
    (entries, rows)
}

/// Does a step, and does it again if allocation fails.
fn step(world: &mut World<4>, step: &Step) -> Result<(), Fail> {
    let before = size(world);
    match world.step(step) {
        Ok(()) => Ok(()),
        Err(WorldFault::NoMemory) => {
            if size(world) != before {
                return Err("changed by a refusal".into());
            }
            Ok(world.step(step).ok().ok_or("refused twice")?)
        }
        Err(_other) => Err("refused".into()),
    }
}

/// A step of each kind but a judging that nobody waits for.
fn each_kind(send: Step, injected: Octets) -> [Step; 10] {
    [
        Step::Clock { at: 5 },
        send,
        Step::Supervise {
            node: 0,
            about: About::Own,
        },
        Step::Age { node: 2 },
        Step::Put { node: 0, port: 1 },
        Step::Take {
            link: 0,
            dir: Dir::Forth,
        },
        Step::Judge { node: 1, port: 0 },
        Step::Cut { link: 1 },
        Step::Mend { link: 1 },
        Step::Inject {
            link: 1,
            dir: Dir::Back,
            octets: injected,
        },
    ]
}

/// How many entries and rows a ring has after these steps.
fn size_after(alloc: Global, steps: &[Step]) -> Result<(usize, usize), Fail> {
    let mut world = ring(alloc).ok_or("ring")?;
    for one in steps {
        step(&mut world, one)?;
    }
    Ok(size(&world))
}

#[test]
fn each_step(rt: HostRuntime) -> Result<(), Fail> {
    let send = send(rt.alloc()).ok_or("send")?;
    let injected = octets(rt.alloc()).ok_or("octets")?;
    let steps = each_kind(send, injected);
    assert!(rt; size_after(rt.alloc(), &steps)? == (4, 2));
    Ok(())
}

/// How many entries a node's record has.
fn entries_of(world: &World<4>, node: usize) -> usize {
    if node < world.node_count() {
        world.entries(node).len()
    } else {
        0
    }
}

/// Two sends, and what needs no memory for octets between them.
fn two_sends(alloc: Global) -> Option<[Step; 3]> {
    let (first, second) = (send(alloc)?, send(alloc)?);
    Some([first, Step::Age { node: 0 }, second])
}

/// Runs steps. If allocation fails it runs the rest of them: the steps before the refusal stand.
fn run_on(world: &mut World<4>, steps: &[Step]) -> Result<(), Fail> {
    let Err((done, fault)) = world.run(steps) else {
        return Ok(());
    };
    if fault != WorldFault::NoMemory {
        return Err("other than refused".into());
    }
    if entries_of(world, 0) != done {
        return Err("another place".into());
    }
    let rest = steps.get(done..).ok_or("rest")?;
    Ok(world.run(rest).ok().ok_or("refused twice")?)
}

/// Of a run that stops the steps before the refusal stand, and the rest can be run.
#[test]
fn run_of_steps(rt: HostRuntime) -> Result<(), Fail> {
    let steps = two_sends(rt.alloc()).ok_or("sends")?;
    let mut world = ring(rt.alloc()).ok_or("ring")?;
    run_on(&mut world, &steps)?;
    assert!(rt; entries_of(&world, 0) == 3);
    Ok(())
}

/// How many steps of a drain a world has seen in which one frame was sent: a row is put, taken and then judged.
fn drained(world: &World<4>) -> usize {
    let (entries, rows) = size(world);
    let mut taken = 0usize;
    for link in 0..world.link_count() {
        let rows = world.rows(link).iter();
        taken = taken.saturating_add(rows.filter(|row| row.fate == Fate::Taken).count());
    }
    entries
        .saturating_add(rows)
        .saturating_add(taken)
        .saturating_sub(1)
}

/// Lets a node send to a group.
fn send_in(world: &mut World<4>, alloc: Global) -> Result<(), Fail> {
    let send = send(alloc).ok_or("send")?;
    step(world, &send)
}

/// Lets a frame go round, and goes on if allocation fails.
fn go_round(world: &mut World<4>) -> Result<(), Fail> {
    match world.drain(18) {
        Ok(_steps) => Ok(()),
        Err(DrainFault::World(WorldFault::NoMemory)) => {
            let _steps = world.drain(18).ok().ok_or("refused twice")?;
            Ok(())
        }
        Err(_other) => Err("drain".into()),
    }
}

/// A ring in which a frame went round.
fn settled(alloc: Global) -> Result<World<4>, Fail> {
    let mut world = ring(alloc).ok_or("ring")?;
    send_in(&mut world, alloc)?;
    go_round(&mut world)?;
    Ok(world)
}

/// Drains a world, and goes on if allocation fails: the steps before the refusal stand.
fn drain_on(world: &mut World<4>) -> Result<(), Fail> {
    let Err(fault) = world.drain(18) else {
        return Ok(());
    };
    let done = drained(world) as u64;
    let rest = world.drain(18).ok().ok_or("refused twice")?;
    if fault != DrainFault::World(WorldFault::NoMemory) {
        return Err("other than refused".into());
    }
    if rest.checked_add(done) != Some(18) {
        return Err("another number of steps".into());
    }
    Ok(())
}

/// Of a drain that stops the steps before the refusal stand, and it can be gone on with.
#[test]
fn drain(rt: HostRuntime) -> Result<(), Fail> {
    let mut world = ring(rt.alloc()).ok_or("ring")?;
    send_in(&mut world, rt.alloc())?;
    drain_on(&mut world)?;
    assert!(rt; drained(&world) == 18);
    Ok(())
}

/// How many sends a ring's plan has once it is closed. It comes back if allocation fails, and is closed then.
fn closes(world: World<4>) -> Result<usize, Fail> {
    let before = size(&world);
    match world.close() {
        Ok(closed) => Ok(closed.plan().len()),
        Err((world, CheckFault::NoMemory)) => {
            if size(&world) != before {
                return Err("changed by a refusal".into());
            }
            match world.close() {
                Ok(closed) => Ok(closed.plan().len()),
                Err(_refused) => Err("refused twice".into()),
            }
        }
        Err(_other) => Err("not closed".into()),
    }
}

#[test]
fn close(rt: HostRuntime) -> Result<(), Fail> {
    assert!(rt; closes(settled(rt.alloc())?)? == 1);
    Ok(())
}
