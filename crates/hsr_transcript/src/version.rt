//! The first line of a text.
ghost use Rattle.std.specs.Prelude.{◌≡◌};
ghost use Rattle.hsr_transcript_lines.specs.Parsed.{read_version};
ghost use Rattle.hsr_transcript_lines.specs.Spelled.{version_text};

use hsr_frame::NoMemory;
use hsr_text::{TimeUnit, WordFault};
use hsr_transcript_lines::LineKind;
use std::alloc::Global;

/// The first line, whose version says in which unit the text tells moments.
#[derive(Clone, Copy)]
pub(crate) struct VersionLine;

/// The first line of a text with moments in this unit.
fn version_text(unit: TimeUnit) -> &'static str
    ensures { result.now ≡ version_text unit }
{
    match unit {
        // Version 1 is what earlier releases wrote. It is still read, and no longer written.
        TimeUnit::Milliseconds => "hsr-bench 1",
        TimeUnit::Microseconds => "hsr-bench 2",
    }
}

/// The unit of the moments of a text with this first line.
fn read_version(line: &[u8]) -> Option<TimeUnit>
    ensures { result ≡ read_version line.now }
{
    if line == b"hsr-bench 1".as_slice() {
        Some(TimeUnit::Milliseconds)
    } else if line == b"hsr-bench 2".as_slice() {
        Some(TimeUnit::Microseconds)
    } else {
        None
    }
}

impl LineKind for VersionLine {
    ghost use Rattle.hsr_transcript_lines.specs.Parsed.{read_version};
    ghost use Rattle.hsr_transcript_lines.specs.Spelled.{version_text};

    type Value = TimeUnit;

    ghost spelled = { λ _. version_text };

    ghost said = { λ _. read_version };

    ghost fits = { λ _ _. Unit {0} };

    fn put(&self, text: &mut Vec<u8>, unit: &TimeUnit) -> Result<(), NoMemory> {
        text.extend_from_slice(version_text(*unit).as_bytes())?;
        Ok(())
    }

    fn parse(
        &self,
        _alloc: Global,
        line: &[u8],
        _room: &mut Vec<u8>,
    ) -> Result<(TimeUnit, bool), WordFault> {
        let unit = read_version(line).ok_or(WordFault::Bad)?;
        Ok((unit, false))
    }
}
