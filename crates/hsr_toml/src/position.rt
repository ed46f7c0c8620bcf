//! Where a word stands in a text.
ghost use Rattle.std.specs.Prelude.{◌≡◌, ◌≤◌, ◌==◌, ◌+◌, ◌-◌, ℕ, true, false, count_by, length, take, drop, slice_get};
ghost use Rattle.hsr_toml.specs.Position.{before, column, is_edge, is_whole, is_word_octet, position_of};

/// A position in a text: its line and its column, both from 1; columns are counted in octets.
#[derive(Clone, Copy, PartialEq, Eq)]
pub struct Position {
    pub line: usize,
    pub column: usize,
}

/// Whether an octet is a letter, a digit, a hyphen or an underscore.
fn is_word_octet(b: u8) -> bool
    ensures { result ≡ is_word_octet b }
{
    b.is_ascii_lowercase() || b.is_ascii_uppercase() || b.is_ascii_digit() || b == b'-' || b == b'_'
}

/// Whether no octet of a word stands there.
fn is_edge(b: Option<u8>) -> bool
    ensures { result ≡ is_edge b }
{
    match b {
        // The start and the end of a text part words too.
        None => true,
        Some(b) => !is_word_octet(b),
    }
}

/// The octet before an offset.
pub(crate) fn before(text: &[u8], at: usize) -> Option<u8>
    ensures { result ≡ before text.now at }
{
    if at == 0 {
        return None;
    }
    text.get(at - 1).copied()
}

/// Whether a word stands at an offset, and isn't part of a longer one.
#[tactic(auto, unfolding(crate::specs::Position::is_whole))]
pub(crate) fn is_whole(text: &[u8], word: &[u8], at: usize) -> bool
    requires { at ≤ length text.now }
    ensures { result ≡ is_whole text.now word.now at }
{
    let rest = &text[at..];
    if rest.len() < word.len() || &rest[..word.len()] != word {
        return false;
    }
    is_edge(before(text, at)) && is_edge(text.get(at + word.len()).copied())
}

/// How many octets stand behind the last line feed.
#[tactic(auto, using(crate::proofs::Columns::column_step))]
fn column(text: &[u8]) -> usize
    ensures value { result ≡ column 0 text.now }
    ensures most { result ≤ length text.now }
{
    let mut column = 0;
    for b in text.iter() {
        column = if *b == b'\n' { 0 } else { column + 1 };
    }
    column
}

/// How many lines end in a text.
fn lines(text: &[u8]) -> usize
    ensures value { result ≡ count_by (λ b. b == 10) text.now }
    ensures most { result ≤ length text.now }
{
    text.iter().filter(|b| **b == b'\n').count()
}

/// Line and column of the octet at an offset.
pub fn position_of(text: &[u8], at: usize) -> Position
    requires { at ≤ length text.now }
    ensures { result ≡ position_of text.now at }
{
    let front = &text[..at];
    Position {
        line: lines(front) + 1,
        column: column(front) + 1,
    }
}
