//! What deviates, in its order.
ghost use Rattle.std.specs.Prelude.{◌≡◌, ◌==◌, ◌++◌, ◌<◌, IfOk, OnOk, find, length, slice_get, take};
ghost use Rattle.std.specs.List.{flat_map, range_with_len};
ghost use Rattle.std.specs.List.Sorted.{IsPermutation, IsSortedByKey, IsStableByKey};
ghost use Rattle.std.specs.Option.{option_copied, option_or};
ghost use Rattle.std.specs.Ordering.{nat_cmp};
ghost use Rattle.hsr_judging.specs.Matching.{views};
ghost use Rattle.hsr_judging_text.specs.declared.deviation.Deviation.{Deviation as OneDeviation};
ghost use Rattle.hsr_judging_text.specs.Deviations.{IsInOrder, IsToldOnce, deviations, extra_word, gravest, has_word, lacking, missing_at, missing_by, missing_told, observed_at, observed_by, observed_told, rank, seen_deviates, word_by, word_text};

use hsr_frame::NoMemory;
use hsr_judging::{ExpectedFate, Judgement, ObservedFate, is_twice};
use hsr_playback::{Expected, Passage};
use std::alloc::Global;

/// The copy that deviates, by its index.
#[derive(Clone, Copy, PartialEq, Eq)]
pub(crate) enum Which {
    Expected(usize),
    Observed(usize),
}

/// How a copy deviates, the gravest first: a second copy feeds a storm, a stray one the least.
#[derive(Clone, Copy, PartialEq, Eq)]
pub(crate) enum Word {
    Twice,
    Missing,
    Altered,
    Late,
    Stray,
}

/// A copy that deviates: when, in microseconds, of which packet, and how.
#[derive(Clone, Copy, PartialEq, Eq)]
pub(crate) struct Deviation {
    pub at: u64,
    pub packet: u32,
    pub word: Word,
    pub which: Which,
}

impl Word {
    /// Its word in a report.
    pub(crate) fn text(self) -> &'static str
        ensures { result.now ≡ word_text self }
    {
        match self {
            Word::Twice => "extra",
            Word::Missing => "missing",
            Word::Altered => "altered",
            Word::Late => "late",
            Word::Stray => "extra",
        }
    }

    /// Its place among all, the gravest first.
    fn rank(self) -> u8
        ensures { result ≡ rank self }
    {
        match self {
            Word::Twice => 0,
            Word::Missing => 1,
            Word::Altered => 2,
            Word::Late => 3,
            Word::Stray => 4,
        }
    }

    /// Whether they are one word.
    fn is_same(self, other: Word) -> bool
        ensures { result ≡ (rank self == rank other) }
    {
        self.rank() == other.rank()
    }
}

// ---- observed copies

/// The observed copy with this index.
pub(crate) fn copy_at<'a>(judgement: &'a Judgement<'_>, k: usize) -> Option<&'a Passage>
    ensures { option_copied result ≡ slice_get judgement.now.observed k }
{
    let observed = judgement.observed.as_slice();
    if k < observed.len() {
        Some(observed[k])
    } else {
        None
    }
}

/// Whether a copy that nothing caused went out a second time, behind these copies.
fn extra_word(earlier: &[&Passage], copy: &Passage) -> Word
    ensures { result ≡ extra_word (views earlier.now) copy.now }
{
    if is_twice(earlier, copy) {
        Word::Twice
    } else {
        Word::Stray
    }
}

/// How an observed copy deviates, if it does; `earlier` are the copies that were observed before it.
fn word_by(earlier: &[&Passage], copy: &Passage, fate: ObservedFate) -> Option<Word>
    ensures { result ≡ word_by (views earlier.now) copy.now fate }
{
    match fate {
        ObservedFate::Altered => Some(Word::Altered),
        ObservedFate::Late => Some(Word::Late),
        ObservedFate::Extra => Some(extra_word(earlier, copy)),
        ObservedFate::Same => None,
        ObservedFate::Ignored => None,
        ObservedFate::Open => None,
    }
}

/// An observed copy that deviates so.
fn seen_deviates(k: usize, copy: &Passage, word: Word) -> Deviation
    ensures { result ≡ seen_deviates k copy.now word }
{
    Deviation {
        at: copy.at(),
        packet: copy.packet,
        word,
        which: Which::Observed(k),
    }
}

/// How an observed copy deviates among all, if it does.
#[tactic(auto, using(crate::proofs::Copies::earlier))]
fn word_among(observed: &[&Passage], k: usize, copy: &Passage, fate: ObservedFate) -> Option<Word>
    requires { k < length observed.now }
    ensures { result ≡ word_by (take k (views observed.now)) copy.now fate }
{
    word_by(&observed[..k], copy, fate)
}

/// The observed copy with this index, if it deviates.
#[tactic(auto, unfolding(crate::specs::Deviations::observed_at))]
fn observed_at(judgement: &Judgement<'_>, k: usize) -> Option<Deviation>
    ensures { result ≡ observed_at judgement.now k }
{
    let observed = judgement.observed.as_slice();
    let fates = judgement.observed_fates.as_slice();
    if k < observed.len() && k < fates.len() {
        let copy = observed[k];
        let word = word_among(observed, k, copy, fates[k])?;
        Some(seen_deviates(k, copy, word))
    } else {
        None
    }
}

/// Puts the observed copy with this index last, if it deviates.
fn put_observed_at(
    deviations: &mut Vec<Deviation>,
    judgement: &Judgement<'_>,
    k: usize,
) -> Result<(), NoMemory>
    ensures { OnOk result (deviations.new.items ≡ deviations.old.items
        ++ observed_told judgement.now k) }
{
    match observed_at(judgement, k) {
        None => Ok(()),
        Some(deviation) => {
            deviations.push(deviation)?;
            Ok(())
        }
    }
}

/// Puts the observed copies that deviate last.
fn put_observed(deviations: &mut Vec<Deviation>, judgement: &Judgement<'_>) -> Result<(), NoMemory>
    ensures { OnOk result (deviations.new.items ≡ deviations.old.items
        ++ flat_map (observed_told judgement.now) (range_with_len 0 (length judgement.now.observed))) }
{
    for k in 0..judgement.observed.len() {
        put_observed_at(deviations, judgement, k)?;
    }
    Ok(())
}

// ---- expected copies

/// An expected copy that is missing.
fn lacking(i: usize, expected: &Expected) -> Deviation
    ensures { result ≡ lacking i expected.now }
{
    Deviation {
        at: expected.at(),
        packet: expected.packet,
        word: Word::Missing,
        which: Which::Expected(i),
    }
}

/// An expected copy, if it is missing.
fn missing_by(i: usize, expected: &Expected, fate: ExpectedFate) -> Option<Deviation>
    ensures { result ≡ missing_by i (Some expected.now) (Some fate) }
{
    match fate {
        ExpectedFate::Missing => Some(lacking(i, expected)),
        ExpectedFate::Matched => None,
        ExpectedFate::Ignored => None,
        ExpectedFate::Open => None,
    }
}

/// The expected copy with this index, if it is missing.
#[tactic(auto, unfolding(crate::specs::Deviations::missing_at))]
fn missing_at(judgement: &Judgement<'_>, i: usize) -> Option<Deviation>
    ensures { result ≡ missing_at judgement.now i }
{
    let expected = judgement.played.expected.as_slice();
    let fates = judgement.expected_fates.as_slice();
    if i < expected.len() && i < fates.len() {
        missing_by(i, &expected[i], fates[i])
    } else {
        None
    }
}

/// Puts the expected copy with this index last, if it is missing.
fn put_missing_at(
    deviations: &mut Vec<Deviation>,
    judgement: &Judgement<'_>,
    i: usize,
) -> Result<(), NoMemory>
    ensures { OnOk result (deviations.new.items ≡ deviations.old.items
        ++ missing_told judgement.now i) }
{
    match missing_at(judgement, i) {
        None => Ok(()),
        Some(deviation) => {
            deviations.push(deviation)?;
            Ok(())
        }
    }
}

/// Puts the expected copies that are missing last.
fn put_missing(deviations: &mut Vec<Deviation>, judgement: &Judgement<'_>) -> Result<(), NoMemory>
    ensures { OnOk result (deviations.new.items ≡ deviations.old.items
        ++ flat_map (missing_told judgement.now) (range_with_len 0 (length judgement.now.played.expected))) }
{
    for i in 0..judgement.played.expected.len() {
        put_missing_at(deviations, judgement, i)?;
    }
    Ok(())
}

// ---- all

/// All that deviates: the observed copies, then the missing ones.
#[tactic(auto, unfolding(crate::specs::Deviations::deviations))]
fn all_of(alloc: Global, judgement: &Judgement<'_>) -> Result<Vec<Deviation>, NoMemory>
    ensures { IfOk result (λ all. all.items ≡ deviations judgement.now) }
{
    let mut all = Vec::new(alloc);
    put_observed(&mut all, judgement)?;
    put_missing(&mut all, judgement)?;
    Ok(all)
}

/// Sorts by packet; what is of one packet keeps its order.
fn sort_by_packet(deviations: &mut Vec<Deviation>) -> Result<(), NoMemory>
    ensures same { IsPermutation deviations.old.items deviations.new.items }
    ensures sorted { OnOk result (IsSortedByKey (λ (d : OneDeviation). d.packet) nat_cmp deviations.new.items) }
    ensures stable { IsStableByKey (λ (d : OneDeviation). d.packet) nat_cmp deviations.old.items deviations.new.items }
{
    deviations.sort_by_key(|deviation| deviation.packet)?;
    Ok(())
}

/// Sorts by moment; what is of one moment keeps its order.
fn sort_by_moment(deviations: &mut Vec<Deviation>) -> Result<(), NoMemory>
    ensures same { IsPermutation deviations.old.items deviations.new.items }
    ensures sorted { OnOk result (IsSortedByKey (λ (d : OneDeviation). d.at) nat_cmp deviations.new.items) }
    ensures stable { IsStableByKey (λ (d : OneDeviation). d.at) nat_cmp deviations.old.items deviations.new.items }
{
    deviations.sort_by_key(|deviation| deviation.at)?;
    Ok(())
}

/// All that deviates, by moment, then packet. `NoMemory` where room is refused.
pub(crate) fn deviations_of(
    alloc: Global,
    judgement: &Judgement<'_>,
) -> Result<Vec<Deviation>, NoMemory>
    ensures order { IfOk result (λ told. IsInOrder (deviations judgement.now) told.items) }
    ensures once { IfOk result (λ told. IsToldOnce judgement.now told.items) }
{
    let mut deviations = all_of(alloc, judgement)?;
    sort_by_packet(&mut deviations)?;
    sort_by_moment(&mut deviations)?;
    Ok(deviations)
}

// ---- the gravest

/// The first deviation with this word.
fn first_with(deviations: &[Deviation], word: Word) -> Option<Deviation>
    ensures { result ≡ find (has_word word) deviations.now }
{
    for deviation in deviations {
        if deviation.word.is_same(word) {
            return Some(*deviation);
        }
    }
    None
}

/// The first of two that is there.
fn either(first: Option<Deviation>, next: Option<Deviation>) -> Option<Deviation>
    ensures { result ≡ option_or first next }
{
    match first {
        Some(_) => first,
        None => next,
    }
}

/// The first deviation of the gravest word.
pub(crate) fn gravest(deviations: &[Deviation]) -> Option<Deviation>
    ensures { result ≡ gravest deviations.now }
{
    let late = either(
        first_with(deviations, Word::Late),
        first_with(deviations, Word::Stray),
    );
    let altered = either(first_with(deviations, Word::Altered), late);
    let missing = either(first_with(deviations, Word::Missing), altered);
    either(first_with(deviations, Word::Twice), missing)
}
