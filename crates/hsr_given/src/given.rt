//! What a text is that is no transcript.
ghost use Rattle.std.specs.Prelude.{◌≡◌, ◌<◌, Some, nat_eq, true};
ghost use Rattle.std.specs.List.{starts_with};
ghost use Rattle.hsr_given.specs.Given.{begins, ends_key, given_at, given_from, given_of, given_words, has_key, is_plan_line, is_scenario_line, without_bracket};

use std::fmt;

/// A text that is no transcript, and that another program knows.
#[derive(Clone, Copy, PartialEq, Eq)]
pub enum Given {
    /// It is compressed by gzip.
    Gzip,
    /// A report of `hsr_bench`.
    Report,
    /// A scenario.
    Scenario,
    /// A plan.
    Plan,
}

/// What the text is, and which program takes it.
impl fmt::Display for Given {
    ghost output = { λ given. Some (given_words given) };

    fn fmt<W: fmt::Write>(&self, f: &mut fmt::Formatter<W>) -> fmt::Result {
        match self {
            Given::Gzip => write!(
                f,
                "this is compressed by gzip: gunzip makes a transcript of it"
            ),
            Given::Report => write!(
                f,
                "this is a report: hsr_bench run --transcript writes the transcript of a scenario"
            ),
            Given::Scenario => write!(
                f,
                "this is a scenario: hsr_bench run --transcript takes it, and writes a transcript"
            ),
            Given::Plan => write!(
                f,
                "this is a plan: hsr_plan takes it, and writes a scenario for hsr_bench run --transcript"
            ),
        }
    }
}

/// Whether a text begins so.
pub(crate) fn begins(text: &[u8], front: &[u8]) -> bool
    ensures { result ≡ begins text.now front.now }
{
    text.starts_with(front)
}

/// A line without the bracket at its front, if it has one.
fn without_bracket(line: &[u8]) -> &[u8]
    ensures { result.now ≡ without_bracket line.now }
{
    match line.split_first() {
        Some((b'[', rest)) => rest,
        _ => line,
    }
}

/// Whether a key of TOML ends here.
fn ends_key(rest: &[u8]) -> bool
    ensures { result ≡ ends_key rest.now }
{
    begins(rest, b" =") || begins(rest, b"=") || begins(rest, b"]")
}

/// Whether a line gives a key of TOML, or is the head of its table.
fn has_key(line: &[u8], key: &[u8]) -> bool
    ensures { result ≡ has_key line.now key.now }
{
    let bare = without_bracket(without_bracket(line));
    begins(bare, key) && ends_key(&bare[key.len()..])
}

/// Whether a line gives a key of a scenario.
fn is_scenario_line(line: &[u8]) -> bool
    ensures { result ≡ is_scenario_line line.now }
{
    has_key(line, b"unit")
        || has_key(line, b"node")
        || has_key(line, b"link")
        || has_key(line, b"step")
}

/// Whether a line gives a key of a plan.
fn is_plan_line(line: &[u8]) -> bool
    ensures { result ≡ is_plan_line line.now }
{
    has_key(line, b"title")
        || has_key(line, b"ring")
        || has_key(line, b"rings")
        || has_key(line, b"moves")
        || has_key(line, b"stream")
        || has_key(line, b"until_us")
}

/// What a line tells of its text.
fn given_at(line: &[u8]) -> Option<Given>
    ensures { result ≡ given_at line.now }
{
    if is_scenario_line(line) {
        Some(Given::Scenario)
    } else if is_plan_line(line) {
        Some(Given::Plan)
    } else {
        None
    }
}

/// What the first line tells that tells something.
fn given_from(text: &[u8]) -> Option<Given>
    ensures { result ≡ given_from true text.now }
{
    let mut left = text;
    let mut is_line = true;
    // What is left is a variable, since the loop's invariant speaks of it.
    while let Some((octet, rest)) = left.split_first() {
        if is_line && let Some(given) = given_at(left) {
            return Some(given);
        }
        is_line = *octet == b'\n';
        left = rest;
    }
    None
}

/// What a text is, by its front.
pub fn given_of(front: &[u8]) -> Option<Given>
    ensures { result ≡ given_of front.now }
{
    if begins(front, b"\x1f\x8b") {
        Some(Given::Gzip)
    } else if begins(front, b"bench 1 table ") {
        Some(Given::Report)
    } else {
        given_from(front)
    }
}
