//! The text of a table: its head and its rows, as records of comma-separated values.
ghost use Rattle.std.specs.Prelude.{◌≡◌, ◌++◌, map, IfOk, OnOk};
ghost use Rattle.hsr_run_tables.specs.Table.{IsBetween, line, written};

use crate::row::Row;
use csv::{Writer, WriterBuilder};
use hsr_frame::NoMemory;
use std::alloc::Global;

/// A table with this head, and no row yet.
#[tactic(auto, unfolding(crate::specs::Table::line, crate::specs::Table::written))]
pub(crate) fn table_with(alloc: Global, head: &[&[u8]]) -> Result<Writer<Vec<u8>>, NoMemory>
    ensures between { IfOk result (λ table. IsBetween table) }
    ensures text { IfOk result (λ table. written table ≡ line (map (λ name. name.now) head.now)) }
{
    let mut table = WriterBuilder::new().from_writer(Vec::new(alloc));
    match table.write_fields(head) {
        Ok(()) => Ok(table),
        Err(_) => Err(NoMemory),
    }
}

/// Puts a row last. It has as many cells as the head, so that only memory is refused.
#[tactic(auto, unfolding(crate::specs::Table::line, crate::specs::Table::written))]
pub(crate) fn put_row(table: &mut Writer<Vec<u8>>, row: &Row) -> Result<(), NoMemory>
    requires { IsBetween table.old }
    ensures between { OnOk result (IsBetween table.new) }
    ensures text { OnOk result (written table.new ≡ written table.old ++ line row.now) }
{
    match table.write_byte_record(row.record()) {
        Ok(()) => Ok(()),
        Err(_) => Err(NoMemory),
    }
}

/// The text of a table.
#[tactic(auto, unfolding(crate::specs::Table::written))]
pub(crate) fn text_of(table: Writer<Vec<u8>>) -> Result<Vec<u8>, NoMemory>
    ensures { IfOk result (λ text. text.items ≡ written table) }
{
    match table.into_inner() {
        Ok(text) => Ok(text),
        Err(_) => Err(NoMemory),
    }
}
