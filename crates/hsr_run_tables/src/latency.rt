//! The table of latency.
ghost use Rattle.std.specs.Prelude.{◌≡◌, ◌++◌, map, IfOk, OnOk};
ghost use Rattle.std.specs.List.{flat_map};
ghost use Rattle.hsr_run_tables.specs.Rows.{delay_cells, latency_row};
ghost use Rattle.hsr_run_tables.specs.Table.{IsBetween, line, written};
ghost use Rattle.hsr_run_tables.specs.Tables.{latency_table};

use crate::row::Row;
use crate::table::{put_row, table_with, text_of};
use csv::Writer;
use hsr_finished_run::Closed;
use hsr_frame::NoMemory;
use hsr_latency::{Delay, NodeLatency, latency_of};
use hsr_naming::Naming;
use std::alloc::Global;

/// Puts how long a send took last, and which it was; two empty cells where there is none.
fn put_delay(row: &mut Row, naming: &Naming, delay: Option<Delay>) -> Result<(), NoMemory>
    ensures { OnOk result (row.new ≡ row.old ++ delay_cells naming.now delay) }
{
    match delay {
        None => {
            row.put_empty()?;
            row.put_empty()
        }
        Some(delay) => {
            row.put_number(delay.time)?;
            row.put_send(naming, delay.send)
        }
    }
}

/// The row of a node.
#[tactic(auto, unfolding(crate::specs::Rows::latency_row))]
fn latency_row(alloc: Global, naming: &Naming, latency: NodeLatency) -> Result<Row, NoMemory>
    ensures { IfOk result (λ row. row ≡ latency_row naming.now latency) }
{
    let mut row = Row::new(alloc);
    row.put_node(naming, latency.node)?;
    row.put_number(latency.frames as u64)?;
    put_delay(&mut row, naming, Some(latency.worst))?;
    put_delay(&mut row, naming, latency.second)?;
    Ok(row)
}

/// Puts the rows of nodes last.
#[tactic(auto, using(crate::proofs::Growing::grown))]
fn put_latencies(
    alloc: Global,
    table: &mut Writer<Vec<u8>>,
    naming: &Naming,
    latencies: &[NodeLatency],
) -> Result<(), NoMemory>
    requires { IsBetween table.old }
    ensures { OnOk result (written table.new ≡ written table.old
        ++ flat_map line (map (latency_row naming.now) latencies.now)) }
{
    for latency in latencies {
        let row = latency_row(alloc, naming, *latency)?;
        put_row(table, &row)?;
    }
    Ok(())
}

/// The table of latency: a row for each node that took up a frame.
pub(crate) fn latency_table<const C: usize>(
    alloc: Global,
    naming: &Naming,
    closed: &Closed<C>,
) -> Result<Vec<u8>, NoMemory>
    ensures { IfOk result (λ text. text.items ≡ latency_table naming.now closed.now.run) }
{
    let latency = latency_of(alloc, closed)?;
    let mut table = table_with(
        alloc,
        &[
            b"node",
            b"frames",
            b"worst_us",
            b"worst_send",
            b"second_us",
            b"second_send",
        ],
    )?;
    put_latencies(alloc, &mut table, naming, latency.nodes.as_slice())?;
    text_of(table)
}
