//! Which links lost copies.
use crate::naming::{put_link, put_number};
use hsr_finished_run::Closed;
use hsr_frame::NoMemory;
use hsr_link::{Fate, Row};
use hsr_toml::put;

/// How many copies of a link have this fate.
fn count_of(rows: &[Row], fate: Fate) -> usize {
    rows.iter().filter(|row| row.fate == fate).count()
}

/// Puts how many copies of a link have a fate last, if any have.
fn put_count_of(line: &mut Vec<u8>, rows: &[Row], fate: Fate, words: &str) -> Result<(), NoMemory> {
    let count = count_of(rows, fate);
    if count == 0 {
        return Ok(());
    }
    put_number(line, " ", count)?;
    put(line, words)
}

/// Puts a link and how it lost copies last.
fn put_losses<const C: usize>(
    line: &mut Vec<u8>,
    closed: &Closed<C>,
    names: &[Vec<u8>],
    link: usize,
    rows: &[Row],
) -> Result<(), NoMemory> {
    let topology = closed.topology();
    put_link(line, names, topology.places(), topology.links(), link)?;
    put_count_of(line, rows, Fate::LostDown, " put while it was down")?;
    put_count_of(line, rows, Fate::LostCut, " on it as it was cut")?;
    put_count_of(
        line,
        rows,
        Fate::LostOverrun,
        " for which its queue was full",
    )
}

/// Whether a link lost copies.
fn is_lossy(rows: &[Row]) -> bool {
    rows.iter().any(|row| row.fate.is_lost())
}

/// Puts each link that lost copies last, with how many, and how.
pub(crate) fn put_lossy<const C: usize>(
    line: &mut Vec<u8>,
    closed: &Closed<C>,
    names: &[Vec<u8>],
) -> Result<(), NoMemory> {
    let mut parted = "";
    for link in 0..closed.topology().links().len() {
        let rows = closed.rows(link);
        if is_lossy(rows) {
            put(line, parted)?;
            put_losses(line, closed, names, link, rows)?;
            parted = ", ";
        }
    }
    Ok(())
}
