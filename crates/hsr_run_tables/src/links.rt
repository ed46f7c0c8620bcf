//! The table of links.
ghost use Rattle.std.specs.Prelude.{◌≡◌, ◌<◌, ◌++◌, count_by, length, IfOk, OnOk};
ghost use Rattle.hsr_run_tables.specs.Rows.{copies_cells, has_fate, is_row_lost, is_same_fate, link_row};
ghost use Rattle.hsr_run_tables.specs.Tables.{link_table};

use crate::row::Row;
use crate::table::{put_row, table_with, text_of};
use hsr_finished_run::Closed;
use hsr_frame::NoMemory;
use hsr_link::{Dir, Fate, Row as Copied};
use hsr_naming::Naming;
use std::alloc::Global;

/// Whether two fates are one.
fn is_same_fate(one: Fate, other: Fate) -> bool
    ensures { result ≡ is_same_fate one other }
{
    matches!(
        (one, other),
        (Fate::Queued, Fate::Queued)
            | (Fate::Taken, Fate::Taken)
            | (Fate::LostDown, Fate::LostDown)
            | (Fate::LostCut, Fate::LostCut)
            | (Fate::LostOverrun, Fate::LostOverrun)
    )
}

/// How many copies of a link met a fate.
fn count_of(copies: &[Copied], fate: Fate) -> usize
    ensures { result ≡ count_by (has_fate fate) copies.now }
{
    copies
        .iter()
        .filter(|copy| is_same_fate(fate, copy.fate))
        .count()
}

/// How many copies of a link were lost.
fn lost_of(copies: &[Copied]) -> usize
    ensures { result ≡ count_by is_row_lost copies.now }
{
    copies.iter().filter(|copy| copy.fate.is_lost()).count()
}

/// Puts what became of the copies of a link last.
#[tactic(auto, unfolding(crate::specs::Rows::copies_cells))]
fn put_copies(row: &mut Row, copies: &[Copied]) -> Result<(), NoMemory>
    ensures { OnOk result (row.new ≡ row.old ++ copies_cells copies.now) }
{
    row.put_number(copies.len() as u64)?;
    row.put_number(count_of(copies, Fate::Taken) as u64)?;
    row.put_number(lost_of(copies) as u64)?;
    row.put_number(count_of(copies, Fate::LostDown) as u64)?;
    row.put_number(count_of(copies, Fate::LostCut) as u64)?;
    row.put_number(count_of(copies, Fate::LostOverrun) as u64)
}

/// The row of a link.
fn link_row<const C: usize>(
    alloc: Global,
    naming: &Naming,
    closed: &Closed<C>,
    link: usize,
) -> Result<Row, NoMemory>
    requires { link < length closed.now.run.links }
    ensures { IfOk result (λ row. row ≡ link_row naming.now closed.now.run link) }
{
    let places = closed.topology().places();
    let mut row = Row::new(alloc);
    row.put_number(link as u64)?;
    row.put_port(naming, places, closed.from_end(link, Dir::Forth))?;
    row.put_port(naming, places, closed.to_end(link, Dir::Forth))?;
    put_copies(&mut row, closed.rows(link))?;
    Ok(row)
}

/// The table of links: a row for each, with its ends and what became of its copies.
#[tactic(auto, using(crate::proofs::Growing::one_more))]
pub(crate) fn link_table<const C: usize>(
    alloc: Global,
    naming: &Naming,
    closed: &Closed<C>,
) -> Result<Vec<u8>, NoMemory>
    ensures { IfOk result (λ text. text.items ≡ link_table naming.now closed.now.run) }
{
    let mut table = table_with(
        alloc,
        &[
            b"link",
            b"from",
            b"to",
            b"put",
            b"taken",
            b"lost",
            b"lost_down",
            b"lost_cut",
            b"lost_overrun",
        ],
    )?;
    for link in 0..closed.topology().links().len() {
        let row = link_row(alloc, naming, closed, link)?;
        put_row(&mut table, &row)?;
    }
    text_of(table)
}
