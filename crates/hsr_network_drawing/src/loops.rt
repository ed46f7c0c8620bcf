//! Which loops ring ports make: from the lowest link on, out by B or D, in by A or C and on by the partner port.
use crate::stops::{Loop, Oblong, Passage, Room, Stop, unplaced_stop};
use crate::wiring::{end_behind, has_beside, is_beside, is_same, partner, passage_from};
use hsr_frame::NoMemory;
use hsr_node::Place;
use hsr_topology::End;
use std::alloc::Global;

/// A link that was gone through, and the node to which it led.
#[derive(Clone, Copy)]
struct Step {
    passage: Passage,
    node: usize,
}

/// Where a walk stands.
#[derive(Clone, Copy)]
struct Stand {
    step: Step,
    out: End,
}

/// Whether a link was gone through.
fn is_used(used: &[bool], link: usize) -> bool {
    used.get(link).copied().unwrap_or(true)
}

/// Notes that a link was gone through.
fn use_up(used: &mut Vec<bool>, link: usize) {
    if let Some(is_used) = used.get_mut(link) {
        *is_used = true;
    }
}

/// The next step from a port, by a link of loops that wasn't gone through.
fn step_from(places: &[Place], links: &[[End; 2]], used: &[bool], from: End) -> Option<Stand> {
    let passage = passage_from(links, from)?;
    let link = links.get(passage.link)?;
    if is_used(used, passage.link) || is_beside(places, *link) {
        return None;
    }
    let end = end_behind(links, passage)?;
    Some(Stand {
        step: Step {
            passage,
            node: end.node,
        },
        out: partner(end),
    })
}

/// Goes from a port as far as links lead. Puts each step, and gives the port from which it doesn't go on.
fn walk(
    places: &[Place],
    links: &[[End; 2]],
    used: &mut Vec<bool>,
    steps: &mut Vec<Step>,
    start: End,
) -> Result<End, NoMemory> {
    let mut from = start;
    for _ in 0..links.len() {
        match step_from(places, links, used.as_slice(), from) {
            Some(stand) => {
                use_up(used, stand.step.passage.link);
                steps.push(stand.step)?;
                from = stand.out;
            }
            None => break,
        }
    }
    Ok(from)
}

/// Puts the stops of steps back from a node, the last one first, without the node itself.
fn put_back(stops: &mut Vec<Stop>, steps: &[Step]) -> Result<(), NoMemory> {
    for step in steps.iter().rev() {
        stops.push(unplaced_stop(step.node, Some(step.passage.reversed())))?;
    }
    Ok(())
}

/// Puts the stops of steps from a node on, and gives the last node, which isn't put.
fn put_forth(stops: &mut Vec<Stop>, first: usize, steps: &[Step]) -> Result<usize, NoMemory> {
    let mut node = first;
    for step in steps {
        stops.push(unplaced_stop(node, Some(step.passage)))?;
        node = step.node;
    }
    Ok(node)
}

/// The stops of a line, from its start back and forth.
fn line_stops(
    alloc: Global,
    start: usize,
    back: &[Step],
    forth: &[Step],
) -> Result<Vec<Stop>, NoMemory> {
    let mut stops = Vec::new(alloc);
    put_back(&mut stops, back)?;
    let last = put_forth(&mut stops, start, forth)?;
    stops.push(unplaced_stop(last, None))?;
    Ok(stops)
}

/// The stops of a ring.
fn ring_stops(alloc: Global, start: usize, steps: &[Step]) -> Result<Vec<Stop>, NoMemory> {
    let mut stops = Vec::new(alloc);
    let _start = put_forth(&mut stops, start, steps)?;
    Ok(stops)
}

/// The port by which a walk from a link begins: B or D of one of its ends, else its first end.
fn start_of(link: [End; 2]) -> End {
    let [a, b] = link;
    if a.port % 2 == 1 {
        a
    } else if b.port % 2 == 1 {
        b
    } else {
        a
    }
}

/// The stops of the line of which these steps were gone.
fn opened(
    alloc: Global,
    places: &[Place],
    links: &[[End; 2]],
    used: &mut Vec<bool>,
    start: End,
    forth: &[Step],
) -> Result<Vec<Stop>, NoMemory> {
    let mut back = Vec::new(alloc);
    let _last = walk(places, links, used, &mut back, partner(start))?;
    line_stops(alloc, start.node, back.as_slice(), forth)
}

/// The stops of the loop of a link.
fn loop_stops(
    alloc: Global,
    places: &[Place],
    links: &[[End; 2]],
    used: &mut Vec<bool>,
    link: [End; 2],
) -> Result<Vec<Stop>, NoMemory> {
    let start = start_of(link);
    let mut steps = Vec::new(alloc);
    let last = walk(places, links, used, &mut steps, start)?;
    if is_same(last, start) && steps.len() > 1 {
        ring_stops(alloc, start.node, steps.as_slice())
    } else {
        opened(alloc, places, links, used, start, steps.as_slice())
    }
}

/// Says at each stop whether a node without a loop hangs there.
fn note_stations(places: &[Place], links: &[[End; 2]], stops: &mut Vec<Stop>) {
    for stop in stops.iter_mut() {
        stop.has_station = has_beside(places, links, stop.node);
    }
}

/// A loop of these stops, which stands nowhere yet.
fn unplaced(number: usize, stops: Vec<Stop>) -> Loop {
    Loop {
        number,
        group: 0,
        is_alone: true,
        parent: None,
        stops,
        room: Room::EMPTY,
        oblong: Oblong::EMPTY,
    }
}

/// Adds the loop of a link, if it is a part of one and wasn't gone through.
fn add_loop(
    alloc: Global,
    places: &[Place],
    links: &[[End; 2]],
    used: &mut Vec<bool>,
    loops: &mut Vec<Loop>,
    at: usize,
) -> Result<(), NoMemory> {
    let Some(link) = links.get(at) else {
        return Ok(());
    };
    if is_used(used.as_slice(), at) || is_beside(places, *link) {
        return Ok(());
    }
    let mut stops = loop_stops(alloc, places, links, used, *link)?;
    note_stations(places, links, &mut stops);
    loops.push(unplaced(loops.len(), stops))?;
    Ok(())
}

/// The loops of a network, in the order of their lowest links.
pub(crate) fn find_loops(
    alloc: Global,
    places: &[Place],
    links: &[[End; 2]],
) -> Result<Vec<Loop>, NoMemory> {
    let mut loops = Vec::new(alloc);
    let mut used = vec![in alloc; false; links.len()]?;
    for at in 0..links.len() {
        add_loop(alloc, places, links, &mut used, &mut loops, at)?;
    }
    Ok(loops)
}

/// The nodes of a loop.
fn nodes_of(alloc: Global, stops: &[Stop]) -> Result<Vec<usize>, NoMemory> {
    let mut nodes = Vec::new(alloc);
    for stop in stops {
        nodes.push(stop.node)?;
    }
    Ok(nodes)
}

/// The nodes of each loop in the order of its links, and loops by their numbers, that is in the order of their lowest links. A node that stands
/// on two loops is in both, one that stands on a loop twice is there twice. `NoMemory` if allocation fails.
pub fn loop_nodes(
    alloc: Global,
    places: &[Place],
    links: &[[End; 2]],
) -> Result<Vec<Vec<usize>>, NoMemory> {
    let loops = find_loops(alloc, places, links)?;
    let mut all = Vec::new(alloc);
    for it in loops.iter() {
        all.push(nodes_of(alloc, it.stops.as_slice())?)?;
    }
    Ok(all)
}
