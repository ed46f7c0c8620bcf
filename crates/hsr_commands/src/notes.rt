//! What is said of how a run ended, beyond its agreed lines.
use crate::fault::{Fault, TranscriptFault};
use hsr_explanation::{
    Explanation, explain_budget, explain_check, explain_finding, explain_fine, explain_scenario,
    explain_step, explain_unsettled, explain_words, names_in,
};
use hsr_finished_run::Closed;
use hsr_frame::NoMemory;
use hsr_given::Unnamed;
use hsr_report::Finding;
use hsr_ring::World;
use hsr_world_steps::DrainFault;
use std::alloc::Global;

/// Whether more is to be said of how a run ended, and what is. It changes neither what is written of the run nor its status.
#[derive(Drop)]
pub struct Notes {
    pub explains: bool,
    pub explanation: Explanation,
}

/// What it means that a table can't be put into its folder.
const TABLES_WORDS: &str =
    "the folder of --csv isn't there, or a file can't be written in it: make the folder first, or give another";

/// What it means that names aren't there, by what was given in place of a scenario.
fn explain_names(alloc: Global, instead: Unnamed) -> Result<Explanation, NoMemory> {
    match format!(in alloc; "{instead}") {
        Ok(words) => explain_words(alloc, words.as_str()),
        Err(_) => Err(NoMemory),
    }
}

/// What it means that a text isn't read as a transcript.
fn words_of(fault: TranscriptFault) -> &'static str {
    match fault {
        TranscriptFault::Version =>
            "the first line is neither hsr-bench 2 nor hsr-bench 1: a transcript is what hsr_bench run --transcript writes; a scenario goes to run, a plan to hsr_plan",
        TranscriptFault::Line(2) =>
            "the second line has another size of tables, or one that there isn't: give the --table with which the transcript was written, or auto",
        TranscriptFault::Line(_) =>
            "the line is out of form, or isn't what the node answers: the text was changed",
        TranscriptFault::End => "the text breaks off: fetch the whole",
    }
}

/// What was found of a run, and where its budget is asked for, why the run isn't within that.
fn explained_run<const C: usize>(
    alloc: Global,
    names: &[Vec<u8>],
    closed: &Closed<C>,
    finding: Finding,
    budget: bool,
) -> Result<Explanation, NoMemory> {
    let mut explanation = explain_finding(alloc, closed, names, finding)?;
    if budget {
        explanation.join(explain_budget(alloc, closed, names)?)?;
    }
    Ok(explanation)
}

/// What a fault means; nothing more where its line says all.
fn explained(alloc: Global, octets: &[u8], fault: &Fault) -> Result<Explanation, NoMemory> {
    match fault {
        Fault::Scenario(fault) => explain_scenario(alloc, octets, fault),
        Fault::Step { step, fault } => explain_step(alloc, octets, *step, fault),
        Fault::Fine { step } => explain_fine(alloc, octets, *step),
        Fault::Check(disagree) => explain_check(alloc, *disagree),
        Fault::Transcript(fault) => explain_words(alloc, words_of(*fault)),
        Fault::Names(instead) => explain_names(alloc, *instead),
        Fault::Tables => explain_words(alloc, TABLES_WORDS),
        Fault::Line(_) | Fault::Read | Fault::Write | Fault::Memory | Fault::Thread | Fault::Gate =>
            Ok(Explanation::new(alloc)),
    }
}

impl Notes {
    /// Nothing is said yet.
    pub fn new(alloc: Global, explains: bool) -> Notes {
        Notes {
            explains,
            explanation: Explanation::new(alloc),
        }
    }

    /// Notes what is explained; nothing where an allocation failed, which is no reason to stop.
    fn note(&mut self, explained: Result<Explanation, NoMemory>) {
        // A failed allocation leaves out what is explained, and nothing else: the status is that of the run.
        if let Ok(explanation) = explained {
            self.explanation = explanation;
        }
    }

    /// Notes why a text led to no finished run, unless that is noted.
    pub fn of_fault(&mut self, alloc: Global, octets: &[u8], fault: &Fault) {
        // What was noted closer to the fault says more.
        if self.explains && self.explanation.lines.is_empty() {
            self.note(explained(alloc, octets, fault));
        }
    }

    /// Notes why a run that was audited isn't shown, in place of what was found of it.
    pub(crate) fn of_unshown(&mut self, alloc: Global, fault: &Fault) {
        self.explanation.lines.clear();
        self.of_fault(alloc, &[], fault);
    }

    /// Notes where copies circle, if that is why an order wasn't done.
    pub(crate) fn of_order<const C: usize>(
        &mut self,
        alloc: Global,
        octets: &[u8],
        number: usize,
        fault: &DrainFault,
        world: &World<C>,
    ) {
        if self.explains && matches!(fault, DrainFault::Unsettled) {
            self.note(explain_unsettled(alloc, octets, number, world));
        }
    }

    /// Notes what was found of a run, with the names of a scenario's text, and of its budget, where that is asked for.
    pub(crate) fn of_run<const C: usize>(
        &mut self,
        alloc: Global,
        octets: &[u8],
        closed: &Closed<C>,
        finding: Finding,
        budget: bool,
    ) {
        if self.explains {
            let names = names_in(alloc, octets);
            self.of_named_run(alloc, names.as_slice(), closed, finding, budget);
        }
    }

    /// Notes what was found of a run, whose nodes have these names, and of its budget, where that is asked for.
    pub fn of_named_run<const C: usize>(
        &mut self,
        alloc: Global,
        names: &[Vec<u8>],
        closed: &Closed<C>,
        finding: Finding,
        budget: bool,
    ) {
        if self.explains {
            self.note(explained_run(alloc, names, closed, finding, budget));
        }
    }
}
