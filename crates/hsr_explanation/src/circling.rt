//! On which links copies circle.
use crate::naming::{put_link, put_number};
use hsr_frame::NoMemory;
use hsr_link::Row;
use hsr_ring::World;
use hsr_scenario::Names;
use hsr_timeline::put_name;
use hsr_toml::put;
use std::alloc::Global;

/// The copies that were put on a link; none where there is no such link.
fn rows_of<const C: usize>(world: &World<C>, link: usize) -> &[Row] {
    if link < world.link_count() {
        world.rows(link)
    } else {
        &[]
    }
}

/// The most copies that were put on one link.
fn most_of<const C: usize>(world: &World<C>) -> usize {
    let mut most = 0;
    for link in 0..world.link_count() {
        most = rows_of(world, link).len().max(most);
    }
    most
}

/// Puts of which send the last copy on a link is last, if it is of one.
fn put_send(line: &mut Vec<u8>, names: &[Vec<u8>], rows: &[Row]) -> Result<(), NoMemory> {
    let Some(row) = rows.last() else {
        return Ok(());
    };
    let Some(probe) = row.carried.probe else {
        return Ok(());
    };
    put(line, ", the last of send ")?;
    put_name(line, names, probe.node)?;
    put_number(line, ":", probe.place)
}

/// Puts a link and how many copies were put there last.
fn put_circling(
    line: &mut Vec<u8>,
    named: &Names,
    link: usize,
    rows: &[Row],
) -> Result<(), NoMemory> {
    let names = named.names.as_slice();
    let topology = &named.topology;
    put_link(line, names, topology.places(), topology.links(), link)?;
    put_number(line, ": ", rows.len())?;
    put_send(line, names, rows)
}

/// On which links most copies were put: those with at least half as many as the one with the most.
pub(crate) fn circling_of<const C: usize>(
    alloc: Global,
    world: &World<C>,
    named: &Names,
) -> Result<Vec<u8>, NoMemory> {
    let most = most_of(world);
    let mut line = Vec::new(alloc);
    put(&mut line, "most copies were put on ")?;
    let mut parted = "";
    for link in 0..world.link_count() {
        let rows = rows_of(world, link);
        // Each link of a circle has about as many copies as its fullest one.
        if rows.len() >= most / 2 {
            put(&mut line, parted)?;
            put_circling(&mut line, named, link, rows)?;
            parted = "; ";
        }
    }
    Ok(line)
}
