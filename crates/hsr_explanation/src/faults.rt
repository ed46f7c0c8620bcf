//! Why there is no run.
use crate::circling::circling_of;
use crate::given::given;
use crate::lines::Explanation;
use hsr_finished_run::Disagree;
use hsr_frame::NoMemory;
use hsr_ring::World;
use hsr_scenario::{ScenarioFault, read_names};
use hsr_scenario_fault::{refused_step_line, scenario_fault_line, words_of_check, words_of_step};
use hsr_toml::put;
use hsr_world_steps::DrainFault;
use std::alloc::Global;

/// How long `fault: ` is.
const FAULT: usize = 7;

/// The words of a line, by the words of a fault's.
fn behind_fault(alloc: Global, line: &[u8]) -> Result<Vec<u8>, NoMemory> {
    let mut words = Vec::new(alloc);
    // `explain: ` comes in front of it instead.
    words.extend_from_slice(line.get(FAULT..).unwrap_or(line))?;
    Ok(words)
}

/// A line of these words.
fn words_of(alloc: Global, words: &str) -> Result<Vec<u8>, NoMemory> {
    let mut line = Vec::new(alloc);
    put(&mut line, words)?;
    Ok(line)
}

/// Why octets are no scenario: what they are, where that shows, and, with line and column, what is wrong and what would
/// be right. `NoMemory` if allocation fails.
pub fn explain_scenario(
    alloc: Global,
    octets: &[u8],
    fault: &ScenarioFault,
) -> Result<Explanation, NoMemory> {
    let mut explanation = Explanation::new(alloc);
    // What was given in place of a scenario says more than the first fault in it.
    if let Some(words) = given(alloc, octets) {
        explanation.add(words_of(alloc, words)?)?;
        return Ok(explanation);
    }
    match str::from_utf8(octets) {
        Ok(text) => {
            let line = scenario_fault_line(alloc, text, fault)?;
            explanation.add(behind_fault(alloc, line.as_slice())?)?;
        }
        Err(_) => explanation.add(words_of(alloc, "the text isn't in UTF-8: save it so")?)?,
    }
    Ok(explanation)
}

// ---- a step

/// Where a step of a scenario stands, what it does, and why it can't, in these words.
fn of_step(
    alloc: Global,
    octets: &[u8],
    number: usize,
    why: &str,
) -> Result<Explanation, NoMemory> {
    let mut explanation = Explanation::new(alloc);
    // It was read before, so it is UTF-8.
    let text = str::from_utf8(octets).unwrap_or("");
    let line = refused_step_line(alloc, text, number, why)?;
    explanation.add(behind_fault(alloc, line.as_slice())?)?;
    Ok(explanation)
}

/// Why a step of a scenario was refused: its line and column, what it does, why it can't, and what would do. `NoMemory`
/// if allocation fails.
pub fn explain_step(
    alloc: Global,
    octets: &[u8],
    number: usize,
    fault: &DrainFault,
) -> Result<Explanation, NoMemory> {
    of_step(alloc, octets, number, words_of_step(fault))
}

/// Why a drain of a scenario didn't end, as `explain_step` says it, and on which links most copies were put, and of
/// which sends. `NoMemory` if allocation fails.
pub fn explain_unsettled<const C: usize>(
    alloc: Global,
    octets: &[u8],
    number: usize,
    world: &World<C>,
) -> Result<Explanation, NoMemory> {
    let mut explanation = explain_step(alloc, octets, number, &DrainFault::Unsettled)?;
    let named = read_names(alloc, str::from_utf8(octets).unwrap_or(""));
    // Where names can't be read this line is left out: the status stays.
    if let Ok(named) = named {
        explanation.add(circling_of(alloc, world, &named)?)?;
    }
    Ok(explanation)
}

/// That threads do a step by themselves: its line and column, and what would do. `NoMemory` if allocation fails.
pub fn explain_fine(alloc: Global, octets: &[u8], number: usize) -> Result<Explanation, NoMemory> {
    let why =
        "threads put, take and judge by themselves: leave the step out, or play the scenario by run";
    of_step(alloc, octets, number, why)
}

// ---- a run that can't be closed, and a text that is no run's

/// Why a run can't be closed, and what would do. `NoMemory` if allocation fails.
pub fn explain_check(alloc: Global, disagree: Disagree) -> Result<Explanation, NoMemory> {
    let mut explanation = Explanation::new(alloc);
    explanation.add(words_of(alloc, words_of_check(disagree))?)?;
    Ok(explanation)
}

/// What a fault means, in these words. `NoMemory` if allocation fails.
pub fn explain_words(alloc: Global, words: &str) -> Result<Explanation, NoMemory> {
    let mut explanation = Explanation::new(alloc);
    explanation.add(words_of(alloc, words)?)?;
    Ok(explanation)
}
