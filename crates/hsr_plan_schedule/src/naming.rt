//! The names of a plan's streams.
ghost use Rattle.std.specs.Prelude.{◌≡◌, ◌+◌, IfOk};
ghost use Rattle.hsr_plan_schedule.specs.Naming.{count_of, kind_word, none, stream_name, stream_names, with_more};

use hsr_frame::NoMemory;
use hsr_plan_text::{Kind, Stream, Word};
use hsr_text::{put, put_number};
use std::alloc::Global;

/// How many there are of each kind: streams, or senders of these.
#[derive(Clone, Copy, PartialEq, Eq)]
pub(crate) struct Counts {
    goose: u64,
    sampled: u64,
    other: u64,
}

/// The word for a kind in the names of its streams.
fn kind_word(kind: Kind) -> &'static str
    ensures { result.now ≡ kind_word kind }
{
    match kind {
        Kind::Goose => "goose",
        Kind::SampledValues => "sv",
        Kind::Number(_) => "other",
    }
}

impl Counts {
    /// None of any kind.
    pub(crate) fn none() -> Counts
        ensures { result ≡ none }
    {
        Counts {
            goose: 0,
            sampled: 0,
            other: 0,
        }
    }
}

/// How many there are of a kind.
pub(crate) fn count_of(kind: Kind, counts: Counts) -> u64
    ensures { result ≡ count_of kind counts }
{
    match kind {
        Kind::Goose => counts.goose,
        Kind::SampledValues => counts.sampled,
        Kind::Number(_) => counts.other,
    }
}

/// So many more.
pub(crate) fn added(count: u64, more: u64) -> Result<u64, NoMemory>
    ensures { IfOk result (λ n. n ≡ count + more) }
{
    match count.checked_add(more) {
        Some(sum) => Ok(sum),
        // no plan that is read comes near it
        None => Err(NoMemory),
    }
}

/// So many more of a kind.
pub(crate) fn with_more(kind: Kind, more: u64, counts: Counts) -> Result<Counts, NoMemory>
    ensures { IfOk result (λ c. c ≡ with_more kind more counts) }
{
    let Counts {
        mut goose,
        mut sampled,
        mut other,
    } = counts;
    match kind {
        Kind::Goose => goose = added(goose, more)?,
        Kind::SampledValues => sampled = added(sampled, more)?,
        Kind::Number(_) => other = added(other, more)?,
    }
    Ok(Counts {
        goose,
        sampled,
        other,
    })
}

/// The name of the last stream of a kind, where there are so many.
pub(crate) fn stream_name(alloc: Global, kind: Kind, counts: Counts) -> Result<Word, NoMemory>
    ensures { IfOk result (λ name. name ≡ stream_name kind counts) }
{
    let mut name = Vec::new(alloc);
    put(&mut name, kind_word(kind))?;
    put_number(&mut name, count_of(kind, counts))?;
    Word::of(alloc, name.as_slice())
}

/// The names of a plan's streams, as `goose1`, `sv2` and `other1`: those of each kind are numbered from 1.
#[tactic(auto, using(crate::proofs::Names::names_step))]
pub(crate) fn stream_names(alloc: Global, streams: &[Stream]) -> Result<Vec<Word>, NoMemory>
    ensures { IfOk result (λ names. names.items ≡ stream_names streams.now) }
{
    let mut names = Vec::new(alloc);
    let mut counts = Counts::none();
    for stream in streams.iter() {
        let kind = stream.framing.kind;
        counts = with_more(kind, 1, counts)?;
        names.push(stream_name(alloc, kind, counts)?)?;
    }
    Ok(names)
}
