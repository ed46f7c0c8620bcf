//! The table of load.
ghost use Rattle.std.specs.Prelude.{◌≡◌, ◌++◌, map, IfOk, OnOk};
ghost use Rattle.std.specs.List.{flat_map};
ghost use Rattle.hsr_run_tables.specs.Rows.{load_row};
ghost use Rattle.hsr_run_tables.specs.Table.{IsBetween, line, table_text, written};
ghost use Rattle.hsr_run_tables.specs.Tables.{IsLoadTable, load_head};

use crate::row::Row;
use crate::table::{put_row, table_with, text_of};
use csv::Writer;
use hsr_finished_run::Closed;
use hsr_frame::NoMemory;
use hsr_load::{ChannelLoad, load_of};
use hsr_naming::Naming;
use hsr_node::Place;
use std::alloc::Global;

/// The row of a channel.
#[tactic(auto, unfolding(crate::specs::Rows::load_row))]
fn load_row(
    alloc: Global,
    naming: &Naming,
    places: &[Place],
    load: ChannelLoad,
) -> Result<Row, NoMemory>
    ensures { IfOk result (λ row. row ≡ load_row naming.now places.now load) }
{
    let mut row = Row::new(alloc);
    row.put_port(naming, places, load.from)?;
    row.put_port(naming, places, load.to)?;
    row.put_number(load.frames as u64)?;
    row.put_number(load.octets)?;
    row.put_number(load.mean)?;
    row.put_number(load.worst)?;
    row.put_number(load.at)?;
    Ok(row)
}

/// Puts the rows of channels last.
#[tactic(auto, using(crate::proofs::Growing::grown))]
fn put_loads(
    alloc: Global,
    table: &mut Writer<Vec<u8>>,
    naming: &Naming,
    places: &[Place],
    loads: &[ChannelLoad],
) -> Result<(), NoMemory>
    requires { IsBetween table.old }
    ensures { OnOk result (written table.new ≡ written table.old
        ++ flat_map line (map (load_row naming.now places.now) loads.now)) }
{
    for load in loads {
        let row = load_row(alloc, naming, places, *load)?;
        put_row(table, &row)?;
    }
    Ok(())
}

/// The table of these channels.
fn table_of(
    alloc: Global,
    naming: &Naming,
    places: &[Place],
    loads: &[ChannelLoad],
) -> Result<Vec<u8>, NoMemory>
    ensures { IfOk result (λ text. text.items
        ≡ table_text load_head (map (load_row naming.now places.now) loads.now)) }
{
    let mut table = table_with(
        alloc,
        &[
            b"from",
            b"to",
            b"frames",
            b"octets",
            b"mean_kbit_s",
            b"worst_ms_kbit_s",
            b"at_us",
        ],
    )?;
    put_loads(alloc, &mut table, naming, places, loads)?;
    text_of(table)
}

/// The table of load: a row for each channel that carried a copy.
pub(crate) fn load_table<const C: usize>(
    alloc: Global,
    naming: &Naming,
    closed: &Closed<C>,
) -> Result<Vec<u8>, NoMemory>
    ensures { IfOk result (λ text. IsLoadTable naming.now closed.now.run text.items) }
{
    let load = load_of(alloc, closed)?;
    table_of(
        alloc,
        naming,
        closed.topology().places(),
        load.channels.as_slice(),
    )
}
