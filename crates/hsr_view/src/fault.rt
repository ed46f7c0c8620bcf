//! Why nothing is shown.
ghost use Rattle.std.specs.Prelude.{◌≡◌, Some};
ghost use Rattle.hsr_view.specs.Fault.{extent_text, fault_line, moments_text, fault_of_read, page_fault};

use hsr_capture::BlockFault;
use hsr_diagram::PictureFault;
use hsr_frame::NoMemory;
use hsr_given::{Given, Unnamed};
use hsr_timeline::{ChoiceFault, StoryFault};
use hsr_transcript::ReadFault;
use std::fmt;

/// From the moment of one copy to that of another, in microseconds.
#[derive(Clone, Copy, PartialEq, Eq)]
pub struct Moments {
    pub first: u64,
    pub last: u64,
}

impl fmt::Display for Moments {
    ghost output = { λ moments. Some (moments_text moments) };

    fn fmt<W: fmt::Write>(&self, f: &mut fmt::Formatter<W>) -> fmt::Result {
        let first = self.first;
        let last = self.last;
        write!(f, "{first} to {last}")
    }
}

/// How many copies a run has, and of which moments.
#[derive(Clone, Copy, PartialEq, Eq)]
pub struct Extent {
    pub copies: usize,
    pub moments: Moments,
}

impl fmt::Display for Extent {
    ghost output = { λ extent. Some (extent_text extent) };

    fn fmt<W: fmt::Write>(&self, f: &mut fmt::Formatter<W>) -> fmt::Result {
        let copies = self.copies;
        let moments = self.moments;
        write!(f, "{copies}, of moments {moments}")
    }
}

/// Why nothing is shown.
#[derive(Clone, Copy, PartialEq, Eq)]
pub enum Fault {
    /// The text is no transcript of a finished run.
    Transcript(ReadFault),
    /// The text is no transcript, but one that another program knows; whether it ended in its first line.
    Other { given: Given, has_ended: bool },
    /// The names are of no scenario, or of one with other nodes or links; what was given in its place.
    Names(Unnamed),
    /// There is no such link.
    Link,
    /// There is no such send.
    Send,
    /// The moments until which a picture or a page goes are before those from which it does.
    Moments,
    /// A picture of too many copies is asked for: of this number.
    Copies { copies: usize },
    /// A page of too many copies is asked for: of this number.
    PageCopies { copies: usize },
    /// The run has no copies.
    NoCopies,
    /// The run has these copies, and none of them is asked for.
    NoneAsked { extent: Extent },
    /// Entries of the run follow one another in a circle.
    Circle,
    /// A name or a frame is too long for a capture.
    TooLong,
    /// The reader failed.
    Read,
    /// The writer failed.
    Write,
    /// Memory ran out.
    Memory,
}

impl From<NoMemory> for Fault {
    ghost use Rattle.std.specs.Prelude.{◌≡◌};
    ghost use Rattle.hsr_view.specs.declared.fault.Fault.TheVariants.{Memory as NoRoom};

    ghost from_gives = { λ _ fault. fault ≡ NoRoom };

    fn from(_refused: NoMemory) -> Fault {
        Fault::Memory
    }
}

impl From<ChoiceFault> for Fault {
    ghost use Rattle.std.specs.Prelude.{◌≡◌};
    ghost use Rattle.hsr_view.specs.Fault.{choice_fault};

    ghost from_gives = { λ refused fault. fault ≡ choice_fault refused };

    fn from(refused: ChoiceFault) -> Fault {
        match refused {
            ChoiceFault::NoLink => Fault::Link,
            ChoiceFault::NoSend => Fault::Send,
        }
    }
}

impl From<StoryFault> for Fault {
    ghost use Rattle.std.specs.Prelude.{◌≡◌};
    ghost use Rattle.hsr_view.specs.Fault.{story_fault};

    ghost from_gives = { λ refused fault. fault ≡ story_fault refused };

    fn from(refused: StoryFault) -> Fault {
        match refused {
            StoryFault::Circle => Fault::Circle,
            StoryFault::NoMemory => Fault::Memory,
        }
    }
}

impl From<BlockFault> for Fault {
    ghost use Rattle.std.specs.Prelude.{◌≡◌};
    ghost use Rattle.hsr_view.specs.Fault.{block_fault};

    ghost from_gives = { λ refused fault. fault ≡ block_fault refused };

    fn from(refused: BlockFault) -> Fault {
        match refused {
            BlockFault::TooLong => Fault::TooLong,
            BlockFault::NoMemory => Fault::Memory,
        }
    }
}

impl From<PictureFault> for Fault {
    ghost use Rattle.std.specs.Prelude.{◌≡◌};
    ghost use Rattle.hsr_view.specs.Fault.{picture_fault};

    ghost from_gives = { λ refused fault. fault ≡ picture_fault refused };

    fn from(refused: PictureFault) -> Fault {
        match refused {
            PictureFault::NoSend => Fault::Send,
            PictureFault::Reversed => Fault::Moments,
            PictureFault::Circle => Fault::Circle,
            PictureFault::TooMany { copies } => Fault::Copies { copies },
            PictureFault::NoMemory => Fault::Memory,
        }
    }
}

/// Why there is no page of what a picture would show.
pub(crate) fn page_fault(refused: PictureFault) -> Fault
    ensures { result ≡ page_fault refused }
{
    match refused {
        PictureFault::TooMany { copies } => Fault::PageCopies { copies },
        other => Fault::from(other),
    }
}

/// Why a text is none of a finished run; where it is one that another program knows, with what it is.
pub(crate) fn fault_of_read(fault: ReadFault, given: Option<Given>) -> Fault
    ensures { result ≡ fault_of_read fault given }
{
    match (fault, given) {
        (ReadFault::Version, Some(given)) => Fault::Other {
            given,
            has_ended: false,
        },
        (ReadFault::End, Some(given)) => Fault::Other {
            given,
            has_ended: true,
        },
        _ => Fault::Transcript(fault),
    }
}

/// The line on standard error, without its line feed; that of a transcript is the one that `hsr_bench audit` has.
/// Behind it stands, where the text is one that another program knows, a line that says which; and a line that says
/// what was given for names.
impl fmt::Display for Fault {
    ghost output = { λ fault. Some (fault_line fault) };

    fn fmt<W: fmt::Write>(&self, f: &mut fmt::Formatter<W>) -> fmt::Result {
        match self {
            Fault::Transcript(ReadFault::Version) => write!(f, "fault: transcript version"),
            Fault::Transcript(ReadFault::BadLine { number }) => {
                write!(f, "fault: transcript line {number}")
            }
            Fault::Transcript(ReadFault::End) => write!(f, "fault: transcript end"),
            Fault::Transcript(ReadFault::Disagrees(cause)) => {
                let code = cause.code();
                write!(f, "fault: check {code}")
            }
            Fault::Transcript(ReadFault::Read) => write!(f, "fault: read"),
            Fault::Transcript(ReadFault::NoMemory) => write!(f, "fault: memory"),
            Fault::Other {
                given,
                has_ended: false,
            } => write!(f, "fault: transcript version\nexplain: {given}"),
            Fault::Other {
                given,
                has_ended: true,
            } => write!(f, "fault: transcript end\nexplain: {given}"),
            Fault::Names(unnamed) => write!(
                f,
                "fault: names, and --names takes the scenario of the run: hsr_plan writes that of a plan\nexplain: {unnamed}"
            ),
            Fault::Link => write!(f, "fault: link"),
            Fault::Send => write!(f, "fault: send"),
            Fault::Moments => write!(f, "fault: moments"),
            Fault::Copies { copies } => write!(
                f,
                "fault: copies {copies}, and a picture shows 400: choose by --send, --from or --until"
            ),
            Fault::PageCopies { copies } => write!(
                f,
                "fault: copies {copies}, and a page shows 6000: choose by --send, --from or --until"
            ),
            Fault::NoCopies => write!(f, "fault: nothing to show: the run has no copies"),
            Fault::NoneAsked { extent } => write!(
                f,
                "fault: nothing to show: copies {extent}, and none is asked for: change --link, --send, --from or --until"
            ),
            Fault::Circle => write!(f, "fault: order"),
            Fault::TooLong => write!(f, "fault: length"),
            Fault::Read => write!(f, "fault: read"),
            Fault::Write => write!(f, "fault: write"),
            Fault::Memory => write!(f, "fault: memory"),
        }
    }
}
