//! A node and a link under locks, between two threads.
ghost use Rattle.hsr_node.specs.Place.{HasOwnAddress};

use hsr_frame::{Mac, Mode};
use hsr_link::{Dir, Fate, Link, LinkCell};
use hsr_node::{Carried, Event, Kept, NodeCell, Octets, Pass, Place, Probe};
use std::alloc::Global;
use std::marker::Sync;
use std::sync::Wait;
use std::thread;
use std::thread::Threads;

/// How many steps or copies a thread brings.
const TURNS: usize = 40;

// ---- a node

/// A node in a network.
fn danh() -> Place
    ensures { HasOwnAddress result }
{
    Place::Danh {
        mac: Mac::new([2, 0, 0, 0, 0, 1]),
        mode: Mode::H,
    }
}

/// Lets a worker age a node time after time, and tells whether it had a receipt for each.
fn ages(rt: &impl Wait, alloc: Global, cell: &NodeCell<4>, worker: u16) -> bool {
    let mut pass = Pass::new(alloc, worker);
    for _turn in 0..TURNS {
        if cell.step(rt, &mut pass, 5, Event::Age).is_err() {
            return false;
        }
    }
    pass.receipts().is_sorted_by(|a, b| a.place < b.place)
}

/// Whether each of two workers could age one node, both at once.
fn age_both<R: Threads + Wait + Sync>(rt: &R, alloc: Global, cell: &NodeCell<4>) -> (bool, bool) {
    thread::scope(thread::scope_env(), rt, |scope| {
        let Ok(other) = scope.spawn(move || ages(rt, alloc, cell, 8)) else {
            return (false, false);
        };
        let one = ages(rt, alloc, cell, 1);
        (one, other.join(rt))
    })
}

/// How many entries of a node's record are of a worker.
fn entries_of(kept: &Kept<4>, worker: u16) -> usize {
    kept.entries()
        .iter()
        .filter(|entry| entry.worker == worker)
        .count()
}

#[test]
fn one_node_stepped_by_two_threads(rt: HostRuntime) {
    let kept = Kept::<4>::new(rt.alloc(), 0, danh()).ok();
    let cell = NodeCell::new(kept.expect(&rt, "room for a node"));
    let (one, other) = age_both(&rt, rt.alloc(), &cell);
    assert!(rt; one);
    assert!(rt; other);
    let kept = cell.into_kept();
    assert!(rt; entries_of(&kept, 1) == TURNS);
    assert!(rt; entries_of(&kept, 8) == TURNS);
}

// ---- a link

/// A copy without octets, whose probe names a place.
fn copy_of(alloc: Global, place: usize) -> Carried {
    Carried {
        probe: Some(Probe { node: 0, place }),
        octets: Octets::new(Vec::new(alloc)),
    }
}

/// Whether the next copy of a direction names this place. It waits for it.
fn comes(rt: &impl Wait, cell: &LinkCell, dir: Dir, place: usize) -> bool {
    match cell.take_or_closed(rt, dir) {
        Some(carried) => carried.probe == Some(Probe { node: 0, place }),
        None => false,
    }
}

/// Waits for the copy of each turn, and then puts one the other way.
fn answers(rt: &impl Wait, alloc: Global, cell: &LinkCell) -> bool {
    for turn in 0..TURNS {
        if !comes(rt, cell, Dir::Forth, turn) {
            return false;
        }
        if cell.put(rt, Dir::Back, copy_of(alloc, turn)).is_err() {
            cell.close(rt);
            return false;
        }
    }
    true
}

/// Puts a copy for each turn, and waits for the one that comes back. Then it closes the cell.
fn asks(rt: &impl Wait, alloc: Global, cell: &LinkCell) -> bool {
    let mut came = true;
    for turn in 0..TURNS {
        if cell.put(rt, Dir::Forth, copy_of(alloc, turn)).is_err() {
            cell.close(rt);
        }
        came = came && comes(rt, cell, Dir::Back, turn);
    }
    cell.close(rt);
    came
}

/// Whether all copies came between two threads, back to the one and forth to the other.
fn exchange<R: Threads + Wait + Sync>(rt: &R, alloc: Global, cell: &LinkCell) -> (bool, bool) {
    thread::scope(thread::scope_env(), rt, |scope| {
        let Ok(other) = scope.spawn(move || answers(rt, alloc, cell)) else {
            return (false, false);
        };
        let one = asks(rt, alloc, cell);
        (one, other.join(rt))
    })
}

/// How many copies were put on a link and taken.
fn taken_on(link: &Link) -> usize {
    link.rows()
        .iter()
        .filter(|row| row.fate == Fate::Taken)
        .count()
}

#[test]
fn copies_between_two_threads(rt: HostRuntime) {
    let link = Link::new(rt.alloc(), 1).ok();
    let cell = LinkCell::new(link.expect(&rt, "room for a link"));
    let (back, forth) = exchange(&rt, rt.alloc(), &cell);
    assert!(rt; back);
    assert!(rt; forth);
    assert!(rt; taken_on(&cell.into_link()) == 2 * TURNS);
}
