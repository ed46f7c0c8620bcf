//! All passages, played to the reference.
ghost use Rattle.std.specs.Prelude.{◌≡◌, ◌++◌, IfOk, OnOk, Result};
ghost use Rattle.hsr_duptable.specs.Table.{IsTableSize};
ghost use Rattle.hsr_playback.specs.Letting.{done_of, refused_of, said_of};
ghost use Rattle.hsr_node.specs.Step.{counters_of};
ghost use Rattle.hsr_playback.specs.Playing.{answer_if, answers_to, begins_at, first_if, nothing_played, played_after, played_if, taken_at, without};

use crate::asked::{Asked, asked_by};
use crate::expected::{Expected, Source, put_copies};
use crate::passage::Passage;
use crate::reference::Reference;
use crate::taken::Taken;
use crate::taps::Taps;
use hsr_frame::{Cause, Counters, Mac, NoMemory, SendFault};
use hsr_node::{Event, Outcome, StepFault};
use hsr_tap_device::Device;
use std::alloc::Global;
use std::marker::Model;

/// What the reference said of what came.
#[derive(Clone, Copy, PartialEq, Eq)]
pub enum Said {
    /// Of what came to a port.
    Judged(Cause),
    /// Of what the host handed down.
    Sent,
    /// Of what the host handed down and can't be sent.
    Refused(SendFault),
}

/// What the reference said of a passage, by its index.
#[derive(Clone, Copy, PartialEq, Eq)]
pub struct Answer {
    pub passage: usize,
    pub said: Said,
}

/// What came of all passages.
#[derive(Drop)]
pub struct Played {
    /// The copies that the reference let out at tapped ends, in the order of time.
    pub expected: Vec<Expected>,
    /// What it said of what came in.
    pub answers: Vec<Answer>,
    /// How often each thing happened at it.
    pub counters: Counters,
}

impl Model for Played {
    ghost use Rattle.hsr_playback.specs.Playing.{PlayedFields};

    ghost Value = { PlayedFields };

    ghost view = { λ p. record { expected = p.expected.items; answers = p.answers.items; counters = p.counters } };
}

/// What is said of an event that happened.
fn done_of(outcome: &Outcome) -> Option<Said>
    ensures { result ≡ done_of outcome.now }
{
    match outcome {
        Outcome::Judged { cause, .. } => Some(Said::Judged(*cause)),
        Outcome::Sent { .. } => Some(Said::Sent),
        Outcome::Life { .. } => None,
        Outcome::Aged => None,
    }
}

/// What is said of an event that was refused.
fn refused_of(fault: &StepFault) -> Option<Said>
    ensures { result ≡ refused_of fault.now }
{
    match fault {
        StepFault::Send(fault) => Some(Said::Refused(*fault)),
        _ => None,
    }
}

/// What is said of an outcome.
fn said_of(outcome: &Result<Outcome, StepFault>) -> Option<Said>
    ensures { result ≡ said_of outcome.now }
{
    match outcome {
        Ok(outcome) => done_of(outcome),
        Err(fault) => refused_of(fault),
    }
}

/// Puts what was said of a passage last, if something was.
fn put_answer(answers: &mut Vec<Answer>, passage: usize, said: Option<Said>) -> Result<(), NoMemory>
    ensures { OnOk result (answers.new.items ≡ answers.old.items ++ answer_if passage said) }
{
    match said {
        Some(said) => {
            answers.push(Answer { passage, said })?;
            Ok(())
        }
        None => Ok(()),
    }
}

/// Whether a passage begins a frame of the device's own.
fn begins_at(begins: &[bool], i: usize) -> bool
    ensures { result ≡ begins_at begins.now i }
{
    begins.get(i).copied().unwrap_or(false)
}

/// The numbers that were taken over for a passage.
fn taken_at(taken: &[Taken], i: usize) -> Taken
    ensures { result ≡ taken_at taken.now i }
{
    let none = Taken {
        number: None,
        life: None,
    };
    taken.get(i).copied().unwrap_or(none)
}

/// A run of the reference.
#[derive(Drop)]
struct Run<const C: usize> {
    reference: Reference<C>,
    expected: Vec<Expected>,
    answers: Vec<Answer>,
}

impl<const C: usize> Model for Run<C> {
    ghost use Rattle.hsr_playback.specs.Playing.{RunFields};

    ghost Value = { RunFields C };

    ghost view = { λ r. record { reference = r.reference; expected = r.expected.items; answers = r.answers.items } };
}

impl<const C: usize> Run<C> {
    ghost use Rattle.hsr_playback.specs.Playing.{answers_by, asked_of, let_out, played_from, played_one, step_by};

    /// How often each thing happened at the reference.
    fn counters(&self) -> Counters
        ensures { result ≡ counters_of C self.now.reference.node }
    {
        self.reference.counters()
    }

    /// Puts what the reference said of what came last, if it said something.
    fn answer(
        &mut self,
        source: &Source<'_>,
        outcome: &Result<Outcome, StepFault>,
    ) -> Result<(), NoMemory>
        ensures { OnOk result (self.new ≡ record self.old {
          answers = self.old.answers ++ answers_by source.now.index source.now.by outcome.now;
        }) }
    {
        match source.by {
            Some(_) => put_answer(&mut self.answers, source.index, said_of(outcome)),
            None => Ok(()),
        }
    }

    /// Puts the copies last that an event let out.
    fn let_out(
        &mut self,
        alloc: Global,
        taps: &Taps,
        source: &Source<'_>,
        event: &Event,
        outcome: &Result<Outcome, StepFault>,
    ) -> Result<(), NoMemory>
        ensures { OnOk result (self.new ≡ record self.old {
          expected = self.old.expected
              ++ let_out taps.now self.old.reference.place source.now event.now outcome.now;
        }) }
    {
        match outcome {
            Ok(outcome) => put_copies(
                alloc,
                &mut self.expected,
                taps,
                self.reference.place(),
                source,
                event,
                outcome,
            ),
            Err(_) => Ok(()),
        }
    }

    /// Lets an event happen that a passage asks for, and puts what it lets out.
    fn step(
        &mut self,
        alloc: Global,
        taps: &Taps,
        source: &Source<'_>,
        event: &Event,
        taken: Taken,
    ) -> Result<(), NoMemory>
        ensures { OnOk result (self.new ≡ step_by C taps.now self.old source.now event.now taken) }
    {
        let at = source.passage.at();
        let outcome = self.reference.step(alloc, at, event, taken)?;
        self.answer(source, &outcome)?;
        self.let_out(alloc, taps, source, event, &outcome)
    }

    /// Does what a passage asks.
    fn take(
        &mut self,
        alloc: Global,
        taps: &Taps,
        index: usize,
        passage: &Passage,
        asked: &Asked,
        taken: Taken,
    ) -> Result<(), NoMemory>
        ensures { OnOk result (self.new
            ≡ asked_of C taps.now self.old index passage.now asked.now taken) }
    {
        let came = Source {
            passage,
            index,
            by: Some(passage.end),
        };
        match asked {
            Asked::Nothing => Ok(()),
            Asked::Refused(fault) => {
                let said = Some(Said::Refused(*fault));
                put_answer(&mut self.answers, index, said)
            }
            Asked::Arrival(event) => self.step(alloc, taps, &came, event, taken),
            Asked::Handed(event) => self.step(alloc, taps, &came, event, taken),
            Asked::Own(event) => {
                let own = Source {
                    passage,
                    index,
                    by: None,
                };
                self.step(alloc, taps, &own, event, taken)
            }
        }
    }

    /// Plays a passage.
    fn play_one(
        &mut self,
        alloc: Global,
        taps: &Taps,
        own: &Option<Mac>,
        index: usize,
        passage: &Passage,
        begins: bool,
        taken: Taken,
    ) -> Result<(), NoMemory>
        ensures { OnOk result (self.new
            ≡ played_one C taps.now own.now self.old index passage.now begins taken) }
    {
        let asked = asked_by(alloc, *own, begins, passage)?;
        self.take(alloc, taps, index, passage, &asked, taken)
    }

    /// Plays passages in the order of time.
    #[tactic(auto, using(crate::proofs::Plays::played_all))]
    fn play_all(
        &mut self,
        alloc: Global,
        taps: &Taps,
        own: &Option<Mac>,
        passages: &[Passage],
        begins: &[bool],
        taken: &[Taken],
    ) -> Result<(), NoMemory>
        ensures { OnOk result (self.new
            ≡ played_from C taps.now own.now begins.now taken.now self.old 0 passages.now) }
    {
        for i in 0..passages.len() {
            let passage = &passages[i];
            let begun = begins_at(begins, i);
            let took = taken_at(taken, i);
            self.play_one(alloc, taps, own, i, passage, begun, took)?;
        }
        Ok(())
    }
}

/// A run in which the stations were heard that a RedBox knows from the start; none where the device has no address that it can have.
#[tactic(auto, unfolding(crate::specs::Playing::first_if))]
fn first_run<const C: usize>(alloc: Global, device: &Device) -> Result<Option<Run<C>>, NoMemory>
    requires { IsTableSize C }
    ensures { IfOk result (λ o. o ≡ first_if C device.now) }
{
    match Reference::new(alloc, &device.owner, device.numbers)? {
        Some(mut reference) => {
            reference.hear(alloc, device.stations.as_slice())?;
            Ok(Some(Run {
                reference,
                expected: Vec::new(alloc),
                answers: Vec::new(alloc),
            }))
        }
        None => Ok(None),
    }
}

/// How often each thing happened, without how stations were heard.
fn without(counters: Counters, heard: &Counters) -> Counters
    ensures { result ≡ without counters heard.now }
{
    let mut counters = counters;
    counters.local = counters.local.saturating_sub(heard.local);
    counters
}

/// What came of a run in which this was counted at first.
fn told_of<const C: usize>(run: Run<C>, heard: &Counters) -> Played
    ensures { result ≡ record {
      expected = run.entry.expected;
      answers = run.entry.answers;
      counters = without (counters_of C run.entry.reference.node) heard.now;
    } }
{
    let counters = without(run.reference.counters(), heard);
    Played {
        expected: run.expected,
        answers: run.answers,
        counters,
    }
}

/// What comes of no run.
fn nothing_played(alloc: Global) -> Played
    ensures { result ≡ nothing_played }
{
    Played {
        expected: Vec::new(alloc),
        answers: Vec::new(alloc),
        counters: Counters::new(),
    }
}

/// What comes of a run that plays passages.
fn play_after<const C: usize>(
    alloc: Global,
    device: &Device,
    taps: &Taps,
    first: Run<C>,
    passages: &[Passage],
    begins: &[bool],
    taken: &[Taken],
) -> Result<Played, NoMemory>
    ensures { IfOk result (λ p. p
        ≡ played_after C device.now taps.now passages.now begins.now taken.now first.entry) }
{
    let mut run = first;
    let heard = run.counters();
    run.play_all(alloc, taps, &device.owner.mac, passages, begins, taken)?;
    Ok(told_of(run, &heard))
}

/// The same, where there is a run.
fn play_if<const C: usize>(
    alloc: Global,
    device: &Device,
    taps: &Taps,
    first: Option<Run<C>>,
    passages: &[Passage],
    begins: &[bool],
    taken: &[Taken],
) -> Result<Played, NoMemory>
    ensures { IfOk result (λ p. p
        ≡ played_if C device.now taps.now passages.now begins.now taken.now first.entry) }
{
    match first {
        Some(first) => play_after(alloc, device, taps, first, passages, begins, taken),
        None => Ok(nothing_played(alloc)),
    }
}

/// What the reference answers to passages in the order of time, with tables of `C` entries. `begins` says of each whether it begins a
/// frame of the device's own that no interface shows, `taken` which numbers the device gave where it asks for a frame. The counters don't
/// count how the stations were heard that a RedBox knows from the start. `NoMemory` where room is refused.
#[tactic(auto, unfolding(crate::specs::Playing::answers_to))]
pub fn play<const C: usize>(
    alloc: Global,
    device: &Device,
    taps: &Taps,
    passages: &[Passage],
    begins: &[bool],
    taken: &[Taken],
) -> Result<Played, NoMemory>
    requires { IsTableSize C }
    ensures { IfOk result (λ p. p
        ≡ answers_to C device.now taps.now passages.now begins.now taken.now) }
{
    let first = first_run::<C>(alloc, device)?;
    play_if(alloc, device, taps, first, passages, begins, taken)
}
