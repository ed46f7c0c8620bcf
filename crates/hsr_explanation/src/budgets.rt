//! Why a run isn't within the budget of its tables.
use crate::lines::Explanation;
use crate::naming::{put_entry, put_number};
use hsr_audit::{BudgetFault, budget, most_sends};
use hsr_finished_run::Closed;
use hsr_frame::NoMemory;
use hsr_text::put_decimal;
use hsr_toml::put;
use std::alloc::Global;

/// What it means that a copy came late.
fn of_late<const C: usize>(
    alloc: Global,
    closed: &Closed<C>,
    names: &[Vec<u8>],
    node: usize,
    place: usize,
) -> Result<Vec<u8>, NoMemory> {
    let mut line = Vec::new(alloc);
    put_entry(&mut line, closed, names, node, place)?;
    put(
        &mut line,
        " is a copy that came 400 ms or more after its send, or before it: find what held it up",
    )?;
    Ok(line)
}

/// What it means that too much was sent, and how many entries would do.
fn of_crowded<const C: usize>(
    alloc: Global,
    closed: &Closed<C>,
    moment: u64,
) -> Result<Vec<u8>, NoMemory> {
    let most = most_sends(alloc, closed)?;
    let mut line = Vec::new(alloc);
    put(&mut line, "in the 800 ms from ")?;
    put_decimal(&mut line, moment)?;
    put_number(&mut line, " us on more frames were sent than the ", C)?;
    put_number(
        &mut line,
        " entries of a table; in any 800 ms at most ",
        most,
    )?;
    put_number(&mut line, ": tables of ", most)?;
    put(&mut line, " entries would be enough")?;
    Ok(line)
}

/// Why a run isn't within the budget of its tables, and how many entries would be enough; nothing where it is.
/// `NoMemory` if allocation fails.
pub fn explain_budget<const C: usize>(
    alloc: Global,
    closed: &Closed<C>,
    names: &[Vec<u8>],
) -> Result<Explanation, NoMemory> {
    let mut explanation = Explanation::new(alloc);
    match budget(alloc, closed) {
        Ok(_) => {}
        Err(BudgetFault::Late { node, place }) => {
            explanation.add(of_late(alloc, closed, names, node, place)?)?
        }
        Err(BudgetFault::Crowded { moment }) => {
            explanation.add(of_crowded(alloc, closed, moment)?)?
        }
        Err(BudgetFault::NoMemory) => return Err(NoMemory),
    }
    Ok(explanation)
}
