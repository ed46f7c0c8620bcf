//! The lines of a device.
ghost use Rattle.std.specs.Prelude.{◌≡◌, ◌++◌, IfOk, OnOk};
ghost use Rattle.std.specs.List.{flat_map};
ghost use Rattle.hsr_devices.specs.Lines.{arrivals_text, cell_text, counted_if, counted_row, counts, departures_text, label_of, lost_row, node_cell, octets_row, row_text, unwanted_text, wanted_text, way_text};

use crate::cells::{put_count, put_label};
use crate::counted::{Counted, count};
use hsr_frame::{Counters, NoMemory};
use hsr_node::Entry;
use hsr_text::put;
use std::alloc::Global;

/// A table of a node: what its record counts at each of its ports, in columns of this width.
#[derive(Clone, Copy)]
pub(crate) struct Columns<'a> {
    pub(crate) entries: &'a [Entry],
    pub(crate) ports: u8,
    pub(crate) width: usize,
}

/// Puts counts last, each in a column.
#[tactic(auto, using(hsr_frame::proofs::OneMore::grown))]
fn put_cells(alloc: Global, text: &mut Vec<u8>, width: usize, cells: &[u64]) -> Result<(), NoMemory>
    ensures { OnOk result (text.new.items ≡ text.old.items
        ++ flat_map (cell_text width) cells.now) }
{
    for cell in cells {
        put_count(alloc, text, width, *cell)?;
    }
    Ok(())
}

/// Puts the node's own counter last, in a column, if it has one.
fn put_node_cell(
    alloc: Global,
    text: &mut Vec<u8>,
    width: usize,
    node: Option<u64>,
) -> Result<(), NoMemory>
    ensures { OnOk result (text.new.items ≡ text.old.items ++ node_cell width node) }
{
    match node {
        Some(n) => put_count(alloc, text, width, n),
        None => Ok(()),
    }
}

/// Puts a row last: what is counted, the count at each port, and the node's own counter.
#[tactic(auto, unfolding(crate::specs::Lines::row_text))]
pub(crate) fn put_row(
    alloc: Global,
    text: &mut Vec<u8>,
    width: usize,
    label: &[u8],
    cells: &[u64],
    node: Option<u64>,
) -> Result<(), NoMemory>
    ensures { OnOk result (text.new.items ≡ text.old.items
        ++ row_text width label.now cells.now node) }
{
    put_label(text, label)?;
    put_cells(alloc, text, width, cells)?;
    put_node_cell(alloc, text, width, node)?;
    put(text, "\n")
}

/// What is counted at each port.
#[tactic(auto, unfolding(crate::specs::Lines::counts))]
fn counts(alloc: Global, columns: &Columns<'_>, what: Counted) -> Result<Vec<u64>, NoMemory>
    ensures { IfOk result (λ cells. cells.items
        ≡ counts columns.now.entries.now columns.now.ports what) }
{
    let mut cells = Vec::new(alloc);
    for port in 0..columns.ports {
        cells.push(count(columns.entries, port, what) as u64)?;
    }
    Ok(cells)
}

/// What is counted, in words.
#[tactic(auto, unfolding(crate::specs::Lines::label_of))]
fn label(what: Counted) -> &'static [u8]
    ensures { result.now ≡ label_of what }
{
    match what {
        Counted::Arrived => b"  in",
        Counted::Up => b"      of it taken up",
        Counted::Passed => b"    passed",
        Counted::Duplicate => b"    duplicate",
        Counted::Returned => b"    returned",
        Counted::Foreign => b"    foreign",
        Counted::Local => b"    local",
        Counted::Untagged => b"    untagged",
        Counted::Tagged => b"    tagged",
        Counted::Malformed => b"    malformed",
        Counted::Own => b"  out, its own",
        Counted::Forwarded => b"  out, passed on",
    }
}

/// Puts the row of what is counted last.
#[tactic(auto, unfolding(crate::specs::Lines::counted_row))]
fn put_counted(
    alloc: Global,
    text: &mut Vec<u8>,
    columns: &Columns<'_>,
    what: Counted,
    node: Option<u64>,
) -> Result<(), NoMemory>
    ensures { OnOk result (text.new.items ≡ text.old.items
        ++ counted_row columns.now.width columns.now.entries.now columns.now.ports what node) }
{
    let cells = counts(alloc, columns, what)?;
    put_row(
        alloc,
        text,
        columns.width,
        label(what),
        cells.as_slice(),
        node,
    )
}

/// Puts the row of what is counted last, where the node counted anything of it.
#[tactic(auto, unfolding(crate::specs::Lines::counted_if))]
fn put_counted_if(
    alloc: Global,
    text: &mut Vec<u8>,
    columns: &Columns<'_>,
    what: Counted,
    node: u64,
) -> Result<(), NoMemory>
    ensures { OnOk result (text.new.items ≡ text.old.items
        ++ counted_if columns.now.width columns.now.entries.now columns.now.ports what node) }
{
    // Rows of what never came are left out.
    if node == 0 {
        return Ok(());
    }
    put_counted(alloc, text, columns, what, Some(node))
}

/// Puts the row of octets at each port last.
#[tactic(auto, unfolding(crate::specs::Lines::octets_row))]
fn put_octets(
    alloc: Global,
    text: &mut Vec<u8>,
    width: usize,
    octets: &[u64],
) -> Result<(), NoMemory>
    ensures { OnOk result (text.new.items ≡ text.old.items ++ octets_row width octets.now) }
{
    put_row(alloc, text, width, b"    octets", octets, None)
}

/// Puts the row of what was lost at each port last.
#[tactic(auto, unfolding(crate::specs::Lines::lost_row))]
fn put_lost(alloc: Global, text: &mut Vec<u8>, width: usize, lost: &[u64]) -> Result<(), NoMemory>
    ensures { OnOk result (text.new.items ≡ text.old.items ++ lost_row width lost.now) }
{
    put_row(alloc, text, width, b"    lost on the way", lost, None)
}

/// Puts the rows of octets and of what was lost on the way last.
#[tactic(auto, unfolding(crate::specs::Lines::way_text))]
fn put_way(
    alloc: Global,
    text: &mut Vec<u8>,
    width: usize,
    octets: &[u64],
    lost: &[u64],
) -> Result<(), NoMemory>
    ensures { OnOk result (text.new.items ≡ text.old.items
        ++ way_text width octets.now lost.now) }
{
    put_octets(alloc, text, width, octets)?;
    put_lost(alloc, text, width, lost)
}

/// Puts the rows of all arrivals last, and of those that were wanted.
#[tactic(auto, unfolding(crate::specs::Lines::wanted_text))]
fn put_wanted(
    alloc: Global,
    text: &mut Vec<u8>,
    columns: &Columns<'_>,
    node: Counters,
) -> Result<(), NoMemory>
    ensures { OnOk result (text.new.items ≡ text.old.items
        ++ wanted_text columns.now.width columns.now.entries.now columns.now.ports node) }
{
    put_counted(alloc, text, columns, Counted::Arrived, None)?;
    put_counted(alloc, text, columns, Counted::Passed, None)?;
    put_counted(alloc, text, columns, Counted::Up, Some(node.up))?;
    put_counted(
        alloc,
        text,
        columns,
        Counted::Duplicate,
        Some(node.duplicate),
    )
}

/// Puts the rows of the other arrivals last.
#[tactic(auto, unfolding(crate::specs::Lines::unwanted_text))]
fn put_unwanted(
    alloc: Global,
    text: &mut Vec<u8>,
    columns: &Columns<'_>,
    node: Counters,
) -> Result<(), NoMemory>
    ensures { OnOk result (text.new.items ≡ text.old.items
        ++ unwanted_text columns.now.width columns.now.entries.now columns.now.ports node) }
{
    put_counted_if(alloc, text, columns, Counted::Returned, node.returned)?;
    put_counted_if(alloc, text, columns, Counted::Foreign, node.foreign)?;
    put_counted_if(alloc, text, columns, Counted::Local, node.local)?;
    put_counted_if(alloc, text, columns, Counted::Untagged, node.untagged)?;
    put_counted_if(alloc, text, columns, Counted::Tagged, node.tagged)?;
    put_counted_if(alloc, text, columns, Counted::Malformed, node.malformed)
}

/// Puts the rows of arrivals last, by what became of them.
#[tactic(auto, unfolding(crate::specs::Lines::arrivals_text))]
pub(crate) fn put_arrivals(
    alloc: Global,
    text: &mut Vec<u8>,
    columns: &Columns<'_>,
    node: Counters,
    octets: &[u64],
    lost: &[u64],
) -> Result<(), NoMemory>
    ensures { OnOk result (text.new.items ≡ text.old.items
        ++ arrivals_text columns.now.width columns.now.entries.now columns.now.ports node octets.now
        lost.now) }
{
    put_wanted(alloc, text, columns, node)?;
    put_unwanted(alloc, text, columns, node)?;
    put_way(alloc, text, columns.width, octets, lost)
}

/// Puts the rows of what left last.
#[tactic(auto, unfolding(crate::specs::Lines::departures_text))]
pub(crate) fn put_departures(
    alloc: Global,
    text: &mut Vec<u8>,
    columns: &Columns<'_>,
    node: Counters,
    octets: &[u64],
    lost: &[u64],
) -> Result<(), NoMemory>
    ensures { OnOk result (text.new.items ≡ text.old.items
        ++ departures_text columns.now.width columns.now.entries.now columns.now.ports node
        octets.now lost.now) }
{
    put_counted(alloc, text, columns, Counted::Own, None)?;
    put_counted(
        alloc,
        text,
        columns,
        Counted::Forwarded,
        Some(node.forwarded),
    )?;
    put_way(alloc, text, columns.width, octets, lost)
}
