//! The size of tables of which a transcript tells.
ghost use Rattle.std.specs.Prelude.{◌≡◌, option_map};
ghost use Rattle.hsr_head.specs.Told.{behind, behind_table, in_line, told_in, told_size};
ghost use Rattle.hsr_text.specs.Words.{cut};

use hsr_table_size::TableSize;
use hsr_text::{decimal, split_at};

/// What follows these octets, at the front of a text.
fn behind<'a>(text: &'a [u8], words: &[u8]) -> Option<&'a [u8]>
    ensures { option_map (λ s. s.now) result ≡ behind text.now words.now }
{
    if text.starts_with(words) {
        Some(&text[words.len()..])
    } else {
        None
    }
}

/// What follows the word `table` in the second line, behind a first line as of a transcript.
fn behind_table(front: &[u8]) -> Option<&[u8]>
    ensures { option_map (λ s. s.now) result ≡ behind_table front.now }
{
    match behind(front, b"hsr-bench 2\ntable ") {
        Some(rest) => Some(rest),
        None => behind(front, b"hsr-bench 1\ntable "),
    }
}

/// The size of so many entries as a line spells, which has its end.
fn in_line(rest: &[u8]) -> Option<TableSize>
    ensures { result ≡ in_line (cut 10 rest.now) }
{
    match split_at(rest, b'\n') {
        (line, Some(_)) => TableSize::from_capacity(decimal(line)?),
        (_, None) => None,
    }
}

/// The size that the second line tells, if it is one of those that there are.
fn told_in(front: &[u8]) -> Option<TableSize>
    ensures { result ≡ told_in front.now }
{
    in_line(behind_table(front)?)
}

/// The size of the tables of which a transcript tells in its second line, by its front. Where that tells none that there is, it is the
/// large: then the reading of the text refuses it at that line, or at an earlier one (RULES, Transcripts).
pub fn told_size(front: &[u8]) -> TableSize
    ensures { result ≡ told_size front.now }
{
    match told_in(front) {
        Some(table) => table,
        None => TableSize::Large,
    }
}
