//! Why a run isn't certified.
use crate::lines::Explanation;
use crate::losing::put_lossy;
use crate::naming::{put_entry, put_link, put_node};
use hsr_audit::Doubt;
use hsr_finished_run::Closed;
use hsr_frame::NoMemory;
use hsr_node::Place;
use hsr_report::Finding;
use hsr_routes::{is_in_h_or_u, share_address};
use hsr_toml::put;
use std::alloc::Global;

// ---- nodes

/// Puts each node in mode N last.
fn put_silent(line: &mut Vec<u8>, places: &[Place], names: &[Vec<u8>]) -> Result<(), NoMemory> {
    let mut parted = "";
    for (node, place) in places.iter().enumerate() {
        if !is_in_h_or_u(place) {
            put(line, parted)?;
            put_node(line, names, node)?;
            parted = ", ";
        }
    }
    Ok(())
}

/// The first node before another with an address in common.
fn first_like(places: &[Place], node: usize) -> Option<usize> {
    let place = places.get(node)?;
    let earlier = places.get(..node)?;
    earlier.iter().position(|other| share_address(other, place))
}

/// Puts two nodes last.
fn put_both(
    line: &mut Vec<u8>,
    names: &[Vec<u8>],
    one: usize,
    other: usize,
) -> Result<(), NoMemory> {
    put_node(line, names, one)?;
    put(line, " and ")?;
    put_node(line, names, other)
}

/// Puts each node that has an address of an earlier one last.
fn put_same(line: &mut Vec<u8>, places: &[Place], names: &[Vec<u8>]) -> Result<(), NoMemory> {
    let mut parted = "";
    for node in 0..places.len() {
        if let Some(first) = first_like(places, node) {
            put(line, parted)?;
            put_both(line, names, first, node)?;
            parted = ", ";
        }
    }
    Ok(())
}

// ---- doubts

/// A line of an entry, between words.
fn of_entry<const C: usize>(
    alloc: Global,
    closed: &Closed<C>,
    names: &[Vec<u8>],
    at: (usize, usize),
    words: &str,
) -> Result<Vec<u8>, NoMemory> {
    let mut line = Vec::new(alloc);
    let (node, place) = at;
    put_entry(&mut line, closed, names, node, place)?;
    put(&mut line, words)?;
    Ok(line)
}

/// A line of these words.
fn of_words(alloc: Global, words: &str) -> Result<Vec<u8>, NoMemory> {
    let mut line = Vec::new(alloc);
    put(&mut line, words)?;
    Ok(line)
}

/// Which nodes are in mode N.
fn of_mode<const C: usize>(
    alloc: Global,
    closed: &Closed<C>,
    names: &[Vec<u8>],
) -> Result<Vec<u8>, NoMemory> {
    let mut line = of_words(alloc, "in mode N, in which nothing is sent on: ")?;
    put_silent(&mut line, closed.topology().places(), names)?;
    put(
        &mut line,
        ": set it to mode H or U, or expect no second way round",
    )?;
    Ok(line)
}

/// Which nodes have one address.
fn of_same_address<const C: usize>(
    alloc: Global,
    closed: &Closed<C>,
    names: &[Vec<u8>],
) -> Result<Vec<u8>, NoMemory> {
    let mut line = of_words(alloc, "one address is that of ")?;
    put_same(&mut line, closed.topology().places(), names)?;
    put(&mut line, ": give each its own")?;
    Ok(line)
}

/// Which links lost copies.
fn of_two_links<const C: usize>(
    alloc: Global,
    closed: &Closed<C>,
    names: &[Vec<u8>],
) -> Result<Vec<u8>, NoMemory> {
    let mut line = of_words(alloc, "copies were lost on more links than one: ")?;
    put_lossy(&mut line, closed, names)?;
    put(
        &mut line,
        ": find the second break; for a full queue drain earlier, or raise capacity",
    )?;
    Ok(line)
}

/// Which link has wrong ends.
fn of_side<const C: usize>(
    alloc: Global,
    closed: &Closed<C>,
    names: &[Vec<u8>],
    link: usize,
) -> Result<Vec<u8>, NoMemory> {
    let topology = closed.topology();
    let mut line = Vec::new(alloc);
    put_link(&mut line, names, topology.places(), topology.links(), link)?;
    put(
        &mut line,
        " joins a ring's port with a Station's: join a Station with the interlink of a RedBox",
    )?;
    Ok(line)
}

/// Which receiver was cut off from a send.
fn of_cut_off<const C: usize>(
    alloc: Global,
    closed: &Closed<C>,
    names: &[Vec<u8>],
    at: (usize, usize),
    receiver: usize,
) -> Result<Vec<u8>, NoMemory> {
    let mut line = of_entry(alloc, closed, names, at, " is a send that is due at ")?;
    put_node(&mut line, names, receiver)?;
    put(
        &mut line,
        ", and each way there lost a copy of it; copies were lost on ",
    )?;
    put_lossy(&mut line, closed, names)?;
    put(
        &mut line,
        ": --deliveries says where; mend a link there, or add one",
    )?;
    Ok(line)
}

const NOT_RING: &str =
    "the network isn't one ring of DANHs, link i from B of node i to A of the next: --network certifies any network";

const EMPTY: &str =
    "nothing was sent, so nothing is certified: look at what came here, a pipe whose first part failed gives an empty text";

const FORGOT: &str =
    " is a copy whose frame was no longer remembered, so it may go round or up twice: where it came 400 ms or more after it was noted there, find what held it up; else take a larger table, or send less in 800 ms";

const MISTAKEN: &str =
    " is a copy that met the number of another frame, and may have been dropped for it: a number came round too soon: send less in 400 ms";

const NUMBERED_LATE: &str =
    " is where the RedBox numbered a frame that it had noted before: look at the order of that record in the transcript";

const UNKNOWN: &str =
    " is a send to a Station whose RedBox didn't know it then: let the Station send something first, and again within 60 s";

const UNCOVERED: &str =
    " is a supervision frame of a Station that is joined with a Station, of which nothing is certified: look at it by --deliveries";

/// What a doubt means.
fn of_doubt<const C: usize>(
    alloc: Global,
    closed: &Closed<C>,
    names: &[Vec<u8>],
    doubt: Doubt,
) -> Result<Vec<u8>, NoMemory> {
    match doubt {
        Doubt::NotRing => of_words(alloc, NOT_RING),
        Doubt::Empty => of_words(alloc, EMPTY),
        Doubt::Mode => of_mode(alloc, closed, names),
        Doubt::SameAddress => of_same_address(alloc, closed, names),
        Doubt::Side { link } => of_side(alloc, closed, names, link),
        Doubt::TwoLinks => of_two_links(alloc, closed, names),
        Doubt::Forgot { node, place } => of_entry(alloc, closed, names, (node, place), FORGOT),
        Doubt::Mistaken { node, place } => of_entry(alloc, closed, names, (node, place), MISTAKEN),
        Doubt::NumberedLate { node, place } => {
            of_entry(alloc, closed, names, (node, place), NUMBERED_LATE)
        }
        Doubt::CutOff {
            node,
            place,
            receiver,
        } => of_cut_off(alloc, closed, names, (node, place), receiver),
        Doubt::UnknownStation { node, place } => {
            of_entry(alloc, closed, names, (node, place), UNKNOWN)
        }
        Doubt::Uncovered { node, place } => {
            of_entry(alloc, closed, names, (node, place), UNCOVERED)
        }
    }
}

/// What was found of a run: nothing more where it is certified; of a doubt what it means, whom it is about, by these
/// names, and what to do. `NoMemory` if allocation fails.
pub fn explain_finding<const C: usize>(
    alloc: Global,
    closed: &Closed<C>,
    names: &[Vec<u8>],
    finding: Finding,
) -> Result<Explanation, NoMemory> {
    let mut explanation = Explanation::new(alloc);
    match finding {
        Finding::Certified(_) => {}
        Finding::Doubt(doubt) => explanation.add(of_doubt(alloc, closed, names, doubt)?)?,
    }
    Ok(explanation)
}
