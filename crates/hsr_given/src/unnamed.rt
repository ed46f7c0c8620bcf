//! What was given in place of the scenario of a run.
ghost use Rattle.std.specs.Prelude.{◌≡◌, Some};
ghost use Rattle.hsr_given.specs.Unnamed.{no_text, other, unnamed_words, unread};

use crate::given::{Given, begins, given_of};
use std::fmt;

/// What was given in place of the scenario from which a run came.
#[derive(Clone, Copy, PartialEq, Eq)]
pub enum Unnamed {
    /// A file that can't be read.
    NoFile,
    /// Octets that are no text.
    NoText,
    /// It is compressed by gzip.
    Gzip,
    /// A transcript.
    Transcript,
    /// A report of `hsr_bench`.
    Report,
    /// A plan.
    Plan,
    /// A scenario with a fault.
    Faulty,
    /// A scenario with other nodes or links than the run.
    Other,
    /// A scenario with other sends than the run.
    Sends,
    /// Another text.
    Unknown,
}

/// What it is, and what would do.
impl fmt::Display for Unnamed {
    ghost output = { λ unnamed. Some (unnamed_words unnamed) };

    fn fmt<W: fmt::Write>(&self, f: &mut fmt::Formatter<W>) -> fmt::Result {
        match self {
            Unnamed::NoFile => write!(f, "the file can't be read"),
            Unnamed::NoText => write!(f, "this is no text in UTF-8"),
            Unnamed::Gzip => write!(
                f,
                "this is compressed by gzip: give what gunzip makes of it"
            ),
            Unnamed::Transcript => write!(
                f,
                "this is a transcript: it comes on standard input, and --names takes the scenario of its run"
            ),
            Unnamed::Report => write!(
                f,
                "this is a report: give the scenario that was played for it"
            ),
            Unnamed::Plan => write!(
                f,
                "this is a plan: give the scenario that hsr_plan writes of it"
            ),
            Unnamed::Faulty => write!(
                f,
                "this is a scenario with a fault: hsr_plan --check says where"
            ),
            Unnamed::Other => write!(
                f,
                "this is a scenario with other nodes or links: give the one from which the run came"
            ),
            Unnamed::Sends => write!(
                f,
                "this is a scenario with other sends: give the one from which the run came"
            ),
            Unnamed::Unknown => write!(f, "this is no scenario"),
        }
    }
}

/// What a text is that isn't read as a scenario.
pub fn unread(text: &[u8]) -> Unnamed
    ensures { result ≡ unread text.now }
{
    if begins(text, b"hsr-bench ") {
        return Unnamed::Transcript;
    }
    match given_of(text) {
        Some(Given::Gzip) => Unnamed::Gzip,
        Some(Given::Report) => Unnamed::Report,
        Some(Given::Scenario) => Unnamed::Faulty,
        Some(Given::Plan) => Unnamed::Plan,
        None => Unnamed::Unknown,
    }
}

/// What a text is that is read as a scenario of other nodes or links. A plan has none of a scenario's kind, so it is
/// read as one without any.
pub fn other(text: &[u8]) -> Unnamed
    ensures { result ≡ other text.now }
{
    match given_of(text) {
        Some(Given::Plan) => Unnamed::Plan,
        _ => Unnamed::Other,
    }
}

/// What octets are that are no text.
pub fn no_text(octets: &[u8]) -> Unnamed
    ensures { result ≡ no_text octets.now }
{
    if begins(octets, b"\x1f\x8b") {
        Unnamed::Gzip
    } else {
        Unnamed::NoText
    }
}
