//! Why a run isn't written, and why a text isn't read.
ghost use Rattle.std.specs.Prelude.{◌≡◌};

use hsr_finished_run::Disagree;
use std::alloc::AllocFailed;

/// Why a run isn't written.
#[derive(Clone, Copy, PartialEq, Eq)]
pub enum WriteFault {
    /// The writer failed; some of the text may stand on it.
    Write,
    /// Room for the text was refused; nothing is written.
    NoMemory,
}

/// Why a text isn't read.
#[derive(Clone, Copy, PartialEq, Eq)]
pub enum ReadFault {
    /// The first line is another one than that of this version.
    Version,
    /// A line, counted from 1, is out of form, or the topology, the order of the main worker or an entry that it ends is
    /// refused.
    BadLine { number: u64 },
    /// The text ends before its last line does.
    End,
    /// What the text stands for is no closed run, for this cause.
    Disagrees(Disagree),
    /// The reader failed, or took more than 2^40 reads.
    Read,
    /// Room for what is read was refused.
    NoMemory,
}

impl<T: Drop> From<AllocFailed<T>> for ReadFault {
    ghost use Rattle.hsr_transcript.specs.declared.fault.ReadFault.TheVariants.{NoMemory};

    ghost from_gives = { λ _ fault. fault ≡ NoMemory };

    fn from(_refused: AllocFailed<T>) -> ReadFault {
        ReadFault::NoMemory
    }
}
