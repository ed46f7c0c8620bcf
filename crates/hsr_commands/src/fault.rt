//! How a run ended.
ghost use Rattle.std.specs.Prelude.{◌≡◌, ◌⊎◌, Some};
ghost use Rattle.hsr_commands.specs.Fault.{check_fault, code_of, fault_line, step_fault, transcript_text};
ghost use Rattle.hsr_commands.specs.declared.fault.Fault.TheVariants.{Memory, Read as ReadFailed, Tables};

use hsr_files::PutFault;
use hsr_finished_run::{CheckFault, Disagree};
use hsr_frame::NoMemory;
use hsr_given::Unnamed;
use hsr_scenario::ScenarioFault;
use hsr_text::ReaderFault;
use hsr_world_steps::{DrainFault, WorldFault};
use std::alloc::AllocError;
use std::fmt;

/// How a run ended.
#[derive(Clone, Copy, PartialEq, Eq)]
pub enum Status {
    /// All is as it should be: of `node`, all lines were answered.
    Certified,
    /// The run stopped.
    Fault(Fault),
    /// The run is no proof of delivery.
    Doubt,
    /// The run can't be closed, and is shown as it stands.
    Open,
}

/// Why a run stopped.
#[derive(Clone, Copy, PartialEq, Eq)]
pub enum Fault {
    /// A line, counted from 1, that is bad or too long.
    Line(u64),
    /// A text that is no scenario.
    Scenario(ScenarioFault),
    /// A step of a scenario, counted from 0, that was refused, or a drain that didn't end.
    Step { step: usize, fault: DrainFault },
    /// A step of a scenario, counted from 0, that moves or judges one copy: threads do that by themselves.
    Fine { step: usize },
    /// A text that isn't read as a transcript.
    Transcript(TranscriptFault),
    /// Records, links and receipts disagree at the end.
    Check(Disagree),
    /// What was given for names is no scenario of the run; what it is.
    Names(Unnamed),
    /// A table can't be put into the folder that is given for it.
    Tables,
    /// The reader failed.
    Read,
    /// The writer failed.
    Write,
    /// Memory ran out.
    Memory,
    /// A thread couldn't be started.
    Thread,
    /// A gate shut on a copy.
    Gate,
}

/// Why a text isn't read as a transcript.
#[derive(Clone, Copy, PartialEq, Eq)]
pub enum TranscriptFault {
    /// Its first line is that of no version that is read.
    Version,
    /// A line, counted from 1, that is bad.
    Line(u64),
    /// It ends before its last line does.
    End,
}

impl Status {
    /// The status of the process.
    pub fn code(&self) -> u8
        ensures { result ≡ code_of self.now }
    {
        match self {
            Status::Certified => 0,
            Status::Fault(_) => 1,
            // A run that stays open isn't certified, so no script takes it for that.
            Status::Doubt | Status::Open => 2,
        }
    }
}

impl Fault {
    /// A step that was refused, or a drain that didn't end.
    pub(crate) fn of_step(step: usize, fault: DrainFault) -> Fault
        ensures { result ≡ step_fault step fault }
    {
        match fault {
            // A failed allocation is one fault of a run, wherever it comes.
            DrainFault::World(WorldFault::NoMemory) => Fault::Memory,
            _ => Fault::Step { step, fault },
        }
    }

    /// A table that wasn't put.
    pub(crate) fn of_put(fault: PutFault) -> Fault
        ensures { (result ≡ Tables) ⊎ (result ≡ Memory) }
    {
        match fault {
            PutFault::Unwritten => Fault::Tables,
            PutFault::Memory => Fault::Memory,
        }
    }

    /// A closing that was refused.
    pub(crate) fn of_check(fault: CheckFault) -> Fault
        ensures { result ≡ check_fault fault }
    {
        match fault {
            CheckFault::Disagree(disagree) => Fault::Check(disagree),
            CheckFault::NoMemory => Fault::Memory,
        }
    }
}

/// What follows `fault: transcript`.
impl fmt::Display for TranscriptFault {
    ghost output = { λ fault. Some (transcript_text fault) };

    fn fmt<W: fmt::Write>(&self, f: &mut fmt::Formatter<W>) -> fmt::Result {
        match self {
            TranscriptFault::Version => write!(f, "version"),
            TranscriptFault::Line(n) => write!(f, "line {n}"),
            TranscriptFault::End => write!(f, "end"),
        }
    }
}

/// The line on standard error, without its line feed.
impl fmt::Display for Fault {
    ghost output = { λ fault. Some (fault_line fault) };

    fn fmt<W: fmt::Write>(&self, f: &mut fmt::Formatter<W>) -> fmt::Result {
        match self {
            Fault::Line(n) => write!(f, "fault: line {n}"),
            Fault::Scenario(fault) => write!(f, "fault: scenario {fault}"),
            Fault::Step { step, fault } => write!(f, "fault: step {step} {fault}"),
            Fault::Fine { step } => write!(f, "fault: step {step} fine"),
            Fault::Transcript(fault) => write!(f, "fault: transcript {fault}"),
            Fault::Check(disagree) => {
                let code = disagree.code();
                write!(f, "fault: check {code}")
            }
            Fault::Names(_) => write!(
                f,
                "fault: names, and --names takes the scenario of the run: hsr_plan writes that of a plan"
            ),
            Fault::Tables => write!(f, "fault: tables"),
            Fault::Read => write!(f, "fault: read"),
            Fault::Write => write!(f, "fault: write"),
            Fault::Memory => write!(f, "fault: memory"),
            Fault::Thread => write!(f, "fault: thread"),
            Fault::Gate => write!(f, "fault: gate"),
        }
    }
}

impl From<AllocError> for Fault {
    ghost from_gives = { λ _ e. e ≡ Memory };

    fn from(_e: AllocError) -> Fault {
        Fault::Memory
    }
}

impl From<NoMemory> for Fault {
    ghost from_gives = { λ _ e. e ≡ Memory };

    fn from(_e: NoMemory) -> Fault {
        Fault::Memory
    }
}

impl From<ReaderFault> for Fault {
    ghost from_gives = { λ _ e. e ≡ ReadFailed };

    fn from(_e: ReaderFault) -> Fault {
        Fault::Read
    }
}
