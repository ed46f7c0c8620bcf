//! The table of sends.
ghost use Rattle.std.specs.Prelude.{◌≡◌, ◌++◌, map, IfOk, OnOk};
ghost use Rattle.std.specs.List.{flat_map};
ghost use Rattle.hsr_run_tables.specs.Rows.{got_cells, send_row, yes_or_no};
ghost use Rattle.hsr_run_tables.specs.Table.{IsBetween, line, table_text, written};
ghost use Rattle.hsr_run_tables.specs.Tables.{send_head, send_table};

use crate::row::Row;
use crate::table::{put_row, table_with, text_of};
use csv::Writer;
use hsr_deliveries::{Delivery, deliveries};
use hsr_finished_run::Closed;
use hsr_frame::NoMemory;
use hsr_naming::Naming;
use std::alloc::Global;

/// A word for a truth.
fn yes_or_no(is_so: bool) -> &'static str
    ensures { result.now ≡ yes_or_no is_so }
{
    if is_so { "yes" } else { "no" }
}

/// Puts who got a send last.
#[tactic(auto, unfolding(crate::specs::Rows::got_cells))]
fn put_got(row: &mut Row, naming: &Naming, delivery: &Delivery) -> Result<(), NoMemory>
    ensures { OnOk result (row.new ≡ row.old ++ got_cells naming.now delivery.now) }
{
    row.put_word(yes_or_no(delivery.is_complete()))?;
    row.put_nodes(naming, delivery.due.as_slice())?;
    row.put_nodes(naming, delivery.missed.as_slice())?;
    row.put_nodes(naming, delivery.twice.as_slice())?;
    row.put_nodes(naming, delivery.strayed.as_slice())?;
    row.put_losses(delivery.lost.as_slice())
}

/// The row of a send.
fn send_row(alloc: Global, naming: &Naming, delivery: &Delivery) -> Result<Row, NoMemory>
    ensures { IfOk result (λ row. row ≡ send_row naming.now delivery.now) }
{
    let mut row = Row::new(alloc);
    row.put_entry(naming, delivery.send)?;
    row.put_number(delivery.at)?;
    row.put_mac(delivery.dst)?;
    put_got(&mut row, naming, delivery)?;
    Ok(row)
}

/// Puts the rows of sends last.
#[tactic(auto, using(crate::proofs::Growing::grown))]
fn put_sends(
    alloc: Global,
    table: &mut Writer<Vec<u8>>,
    naming: &Naming,
    sends: &[Delivery],
) -> Result<(), NoMemory>
    requires { IsBetween table.old }
    ensures { OnOk result (written table.new ≡ written table.old
        ++ flat_map line (map (send_row naming.now) sends.now)) }
{
    for delivery in sends {
        let row = send_row(alloc, naming, delivery)?;
        put_row(table, &row)?;
    }
    Ok(())
}

/// The table of these sends.
fn table_of(alloc: Global, naming: &Naming, sends: &[Delivery]) -> Result<Vec<u8>, NoMemory>
    ensures { IfOk result (λ text. text.items
        ≡ table_text send_head (map (send_row naming.now) sends.now)) }
{
    let mut table = table_with(
        alloc,
        &[
            b"send",
            b"node",
            b"place",
            b"at_us",
            b"to",
            b"complete",
            b"due",
            b"missed",
            b"twice",
            b"strayed",
            b"lost",
        ],
    )?;
    put_sends(alloc, &mut table, naming, sends)?;
    text_of(table)
}

/// The table of sends: a row for each, with who got it.
pub(crate) fn send_table<const C: usize>(
    alloc: Global,
    naming: &Naming,
    closed: &Closed<C>,
) -> Result<Vec<u8>, NoMemory>
    ensures { IfOk result (λ text. text.items ≡ send_table naming.now closed.now.run) }
{
    let deliveries = deliveries(alloc, closed)?;
    table_of(alloc, naming, deliveries.sends.as_slice())
}
