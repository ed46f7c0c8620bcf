//! The parts of a report that are asked for.
ghost use Rattle.std.specs.Prelude.{IfOk};
ghost use Rattle.hsr_report.specs.LoadLines.{TellsLoad};
ghost use Rattle.hsr_report.specs.Found.{IsPart, TellsAsked, TellsBudget, TellsDeliveries, TellsLatency, TellsNeeded};

use crate::delivery_lines::put_deliveries;
use crate::latency_lines::put_latency;
use crate::load_lines::put_load;
use crate::needs::put_needed;
use crate::spending::{put_spending, spending_of};
use hsr_audit::needed;
use hsr_deliveries::deliveries;
use hsr_finished_run::Closed;
use hsr_frame::NoMemory;
use hsr_latency::latency_of;
use hsr_load::load_of;
use hsr_naming::Naming;
use hsr_options::Asked;
use std::alloc::Global;

/// The lines of load.
fn load_text<const C: usize>(
    alloc: Global,
    closed: &Closed<C>,
    naming: &Naming,
) -> Result<Vec<u8>, NoMemory>
    ensures { IfOk result (λ text. TellsLoad naming.now closed.now.run text.items) }
{
    let load = load_of(alloc, closed)?;
    let mut text = Vec::new(alloc);
    put_load(&mut text, naming, closed.topology().places(), &load)?;
    Ok(text)
}

/// The lines of latency.
fn latency_text<const C: usize>(
    alloc: Global,
    closed: &Closed<C>,
    naming: &Naming,
) -> Result<Vec<u8>, NoMemory>
    ensures { IfOk result (λ text. TellsLatency naming.now closed.now.run text.items) }
{
    let latency = latency_of(alloc, closed)?;
    let mut text = Vec::new(alloc);
    put_latency(&mut text, naming, &latency)?;
    Ok(text)
}

/// The lines of deliveries.
fn deliveries_text<const C: usize>(
    alloc: Global,
    closed: &Closed<C>,
    naming: &Naming,
) -> Result<Vec<u8>, NoMemory>
    ensures { IfOk result (λ text. TellsDeliveries naming.now closed.now.run text.items) }
{
    let deliveries = deliveries(alloc, closed)?;
    let mut text = Vec::new(alloc);
    put_deliveries(alloc, &mut text, naming, &deliveries)?;
    Ok(text)
}

/// The line of how many entries were needed.
fn needed_text<const C: usize>(
    alloc: Global,
    closed: &Closed<C>,
    naming: &Naming,
) -> Result<Vec<u8>, NoMemory>
    ensures { IfOk result (λ text. TellsNeeded naming.now closed.now.run text.items) }
{
    let needed = needed(alloc, closed)?;
    let mut text = Vec::new(alloc);
    put_needed(&mut text, naming, needed)?;
    Ok(text)
}

/// The line of the budget.
fn budget_text<const C: usize>(
    alloc: Global,
    closed: &Closed<C>,
    naming: &Naming,
) -> Result<Vec<u8>, NoMemory>
    ensures { IfOk result (λ text. TellsBudget naming.now closed.now.run text.items) }
{
    let spending = spending_of(alloc, closed)?;
    let mut text = Vec::new(alloc);
    put_spending(&mut text, naming, spending)?;
    Ok(text)
}

/// The lines of load, where they are asked for.
fn load_part<const C: usize>(
    alloc: Global,
    closed: &Closed<C>,
    naming: &Naming,
    is_asked: bool,
) -> Result<Vec<u8>, NoMemory>
    ensures { IfOk result (λ text. IsPart is_asked (TellsLoad naming.now closed.now.run) text.items) }
{
    if is_asked {
        load_text(alloc, closed, naming)
    } else {
        Ok(Vec::new(alloc))
    }
}

/// The lines of latency, where they are asked for.
fn latency_part<const C: usize>(
    alloc: Global,
    closed: &Closed<C>,
    naming: &Naming,
    is_asked: bool,
) -> Result<Vec<u8>, NoMemory>
    ensures { IfOk result (λ text. IsPart is_asked (TellsLatency naming.now closed.now.run) text.items) }
{
    if is_asked {
        latency_text(alloc, closed, naming)
    } else {
        Ok(Vec::new(alloc))
    }
}

/// The lines of deliveries, where they are asked for.
fn deliveries_part<const C: usize>(
    alloc: Global,
    closed: &Closed<C>,
    naming: &Naming,
    is_asked: bool,
) -> Result<Vec<u8>, NoMemory>
    ensures { IfOk result (λ text. IsPart is_asked (TellsDeliveries naming.now closed.now.run) text.items) }
{
    if is_asked {
        deliveries_text(alloc, closed, naming)
    } else {
        Ok(Vec::new(alloc))
    }
}

/// The line of how many entries were needed, where it is asked for.
fn needed_part<const C: usize>(
    alloc: Global,
    closed: &Closed<C>,
    naming: &Naming,
    is_asked: bool,
) -> Result<Vec<u8>, NoMemory>
    ensures { IfOk result (λ text. IsPart is_asked (TellsNeeded naming.now closed.now.run) text.items) }
{
    if is_asked {
        needed_text(alloc, closed, naming)
    } else {
        Ok(Vec::new(alloc))
    }
}

/// The line of the budget, where it is asked for.
fn budget_part<const C: usize>(
    alloc: Global,
    closed: &Closed<C>,
    naming: &Naming,
    is_asked: bool,
) -> Result<Vec<u8>, NoMemory>
    ensures { IfOk result (λ text. IsPart is_asked (TellsBudget naming.now closed.now.run) text.items) }
{
    if is_asked {
        budget_text(alloc, closed, naming)
    } else {
        Ok(Vec::new(alloc))
    }
}

/// The parts that are asked for, one behind the other: load, latency, deliveries, entries needed, budget. `NoMemory` if allocation
/// fails.
pub fn parts<const C: usize>(
    alloc: Global,
    closed: &Closed<C>,
    naming: &Naming,
    asked: Asked,
) -> Result<Vec<u8>, NoMemory>
    ensures { IfOk result (λ text. TellsAsked naming.now asked closed.now.run text.items) }
{
    // In this order, whatever order the flags have (RULES, The report).
    let mut text = load_part(alloc, closed, naming, asked.load)?;
    text.extend_from_slice(latency_part(alloc, closed, naming, asked.latency)?.as_slice())?;
    text.extend_from_slice(deliveries_part(alloc, closed, naming, asked.deliveries)?.as_slice())?;
    text.extend_from_slice(needed_part(alloc, closed, naming, asked.needed)?.as_slice())?;
    text.extend_from_slice(budget_part(alloc, closed, naming, asked.budget)?.as_slice())?;
    Ok(text)
}
