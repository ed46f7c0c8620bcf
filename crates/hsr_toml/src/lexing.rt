//! A text of TOML without what its comments and strings say.
//!
//! The crate `toml` says where a text isn't TOML, and not where a key of a read one stands. So faults find their
//! words by this walk. Octets keep their offsets, so an offset in the bare text is one in the text.
ghost use Rattle.std.specs.Prelude.{◌≡◌, IfOk};
ghost use Rattle.hsr_toml.specs.Lexing.{bare, empty, ending, lexed, line, long, opened, plain, shown};
ghost use Rattle.hsr_toml.specs.declared.lexing.Lexing.TheVariants as lexing;

use hsr_frame::NoMemory;
use std::alloc::Global;

/// What the octets of a text are part of. A string is told by the octet that quotes it.
#[derive(Clone, Copy, PartialEq, Eq)]
pub enum Lexing {
    /// Neither a comment nor a string.
    Plain,
    Comment,
    /// Behind the first quote of a string.
    Opened(u8),
    /// Behind two quotes: an empty string, or the start of one of several lines.
    Empty(u8),
    /// In a string of one line.
    Line(u8),
    /// Behind a backslash there.
    LineEscape,
    /// In a string of several lines, behind this number of quotes of its end.
    Long(u8, u8),
    /// Behind a backslash there.
    LongEscape,
}

/// Behind an octet that is in no string.
fn plain(b: u8) -> Lexing
    ensures { result ≡ plain b }
{
    match b {
        b'"' | b'\'' => Lexing::Opened(b),
        b'#' => Lexing::Comment,
        _ => Lexing::Plain,
    }
}

/// Behind an octet in a string of one line.
fn line(quote: u8, b: u8) -> Lexing
    ensures { result ≡ line quote b }
{
    if b == quote {
        Lexing::Plain
    } else if b == b'\\' && quote == b'"' {
        // In a string of single quotes a backslash stands for itself.
        Lexing::LineEscape
    } else {
        Lexing::Line(quote)
    }
}

/// Behind the octet that follows the first quote of a string.
fn opened(quote: u8, b: u8) -> Lexing
    ensures { result ≡ opened quote b }
{
    if b == quote {
        Lexing::Empty(quote)
    } else {
        line(quote, b)
    }
}

/// Behind the octet that follows two quotes.
fn empty(quote: u8, b: u8) -> Lexing
    ensures { result ≡ empty quote b }
{
    // Three quotes begin a string of several lines; two that anything else follows were an empty string.
    if b == quote {
        Lexing::Long(quote, 0)
    } else {
        plain(b)
    }
}

/// How many quotes of the end of a string of several lines follow each other, with one more; three end it.
fn ending(quotes: u8) -> u8
    ensures { result ≡ ending quotes }
{
    if quotes < 3 { quotes + 1 } else { 3 }
}

/// Behind an octet in a string of several lines.
fn long(quote: u8, quotes: u8, b: u8) -> Lexing
    ensures { result ≡ long quote quotes b }
{
    if b == quote {
        Lexing::Long(quote, ending(quotes))
    } else if quotes == 3 {
        // The string ended with the quotes before.
        plain(b)
    } else if b == b'\\' && quote == b'"' {
        Lexing::LongEscape
    } else {
        Lexing::Long(quote, 0)
    }
}

impl Lexing {
    /// What it is behind one more octet.
    fn behind(self, b: u8) -> Lexing
        ensures { result ≡ lexed self b }
    {
        match self {
            Lexing::Plain => plain(b),
            Lexing::Comment => {
                if b == b'\n' {
                    Lexing::Plain
                } else {
                    Lexing::Comment
                }
            }
            Lexing::Opened(quote) => opened(quote, b),
            Lexing::Empty(quote) => empty(quote, b),
            Lexing::Line(quote) => line(quote, b),
            Lexing::LineEscape => Lexing::Line(b'"'),
            Lexing::Long(quote, quotes) => long(quote, quotes, b),
            Lexing::LongEscape => Lexing::Long(b'"', 0),
        }
    }

    /// What is shown of the octet that it is behind: the octet itself, of a comment a blank, and of a string a quote.
    fn shown(self, b: u8) -> u8
        ensures { result ≡ shown self b }
    {
        match self {
            // A quote stands for itself as `"`, so that both kinds of string look alike.
            Lexing::Plain => { if b == b'\'' { b'"' } else { b } }
            Lexing::Comment => b' ',
            _ => b'"',
        }
    }
}

/// A text of TOML, octet for octet, in which a comment is blank, and a string with its quotes is a row of quotes. `NoMemory` if allocation
/// fails.
#[tactic(auto, using(crate::proofs::Lexings::bare_step))]
pub fn bare(alloc: Global, text: &[u8]) -> Result<Vec<u8>, NoMemory>
    ensures { IfOk result (λ v. v.items ≡ bare lexing.Plain text.now) }
{
    let mut bare = Vec::new(alloc);
    let mut lexing = Lexing::Plain;
    for b in text.iter() {
        lexing = lexing.behind(*b);
        bare.push(lexing.shown(*b))?;
    }
    Ok(bare)
}
