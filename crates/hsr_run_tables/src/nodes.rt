//! The table of nodes.
ghost use Rattle.std.specs.Prelude.{◌≡◌, ◌^◌, IfOk};
ghost use Rattle.hsr_frame.specs.Counters.{AreWithin};
ghost use Rattle.hsr_run_tables.specs.Rows.{node_cells};
ghost use Rattle.hsr_run_tables.specs.Tables.{node_table};

use crate::row::Row;
use crate::table::{put_row, table_with, text_of};
use hsr_finished_run::Closed;
use hsr_frame::{Counters, NoMemory};
use hsr_naming::Naming;
use hsr_node::Role;
use std::alloc::Global;

/// The row of a node.
#[tactic(auto, unfolding(crate::specs::Rows::node_cells))]
fn node_row(
    alloc: Global,
    naming: &Naming,
    node: usize,
    role: Role,
    counters: &Counters,
) -> Result<Row, NoMemory>
    requires { AreWithin counters.now (2 ^ 62) }
    ensures { IfOk result (λ row. row ≡ node_cells naming.now node role counters.now) }
{
    let mut row = Row::new(alloc);
    row.put_node(naming, node)?;
    row.put_word(role.word())?;
    row.put_number(counters.sent)?;
    row.put_number(counters.life)?;
    row.put_number(counters.up)?;
    row.put_number(counters.forwarded)?;
    row.put_number(counters.duplicate)?;
    row.put_number(counters.returned)?;
    row.put_number(counters.dropped())?;
    Ok(row)
}

/// The table of nodes: a row for each, with its counters.
#[tactic(auto, using(crate::proofs::Growing::one_more))]
pub(crate) fn node_table<const C: usize>(
    alloc: Global,
    naming: &Naming,
    closed: &Closed<C>,
) -> Result<Vec<u8>, NoMemory>
    ensures { IfOk result (λ text. text.items ≡ node_table naming.now closed.now.run) }
{
    let mut table = table_with(
        alloc,
        &[
            b"node",
            b"role",
            b"sent",
            b"life",
            b"up",
            b"forwarded",
            b"duplicate",
            b"returned",
            b"dropped",
        ],
    )?;
    for (node, place) in closed.topology().places().iter().enumerate() {
        let row = node_row(alloc, naming, node, place.role(), &closed.counters(node))?;
        put_row(&mut table, &row)?;
    }
    text_of(table)
}
