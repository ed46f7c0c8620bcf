//! The kind of a deviation.
ghost use Rattle.std.specs.Prelude.{◌≡◌, ◌++◌, IfOk, OnOk, slice_get};
ghost use Rattle.std.specs.List.{flat_map};
ghost use Rattle.std.specs.Option.{option_copied};
ghost use Rattle.hsr_judging_text.specs.Lines.{extra_kind, fields_at, fields_kind, kind, kind_by, late_kind, matched_kind, missing_kind, missing_kind_if, reason_at, rest_kind, said_if, seen_kind, seen_kind_if};
ghost use Rattle.hsr_judging_text.specs.Words.{behind, field_word as word_of_field, parted};

use crate::deviation::{Deviation, Which, Word, copy_at};
use crate::lines::{Scene, expected_at, fields_at, matched_at, reason_at, twice_word};
use crate::words::{field_word, put_by, put_said};
use hsr_frame::NoMemory;
use hsr_judging::{Difference, Reason};
use hsr_playback::{Expected, Passage};
use hsr_text::put;
use std::alloc::Global;

/// Puts what the reference said last; a hyphen where it said nothing.
fn put_said_if(kind: &mut Vec<u8>, reason: Option<Reason>) -> Result<(), NoMemory>
    ensures { OnOk result (kind.new.items ≡ kind.old.items ++ said_if reason) }
{
    match reason {
        None => put(kind, "-"),
        Some(reason) => put_said(kind, reason.said),
    }
}

/// Puts the kind of a copy that nothing caused last.
#[tactic(auto, unfolding(crate::specs::Lines::extra_kind))]
fn put_extra_kind(kind: &mut Vec<u8>, word: Word, reason: Option<Reason>) -> Result<(), NoMemory>
    ensures { OnOk result (kind.new.items ≡ kind.old.items ++ extra_kind word reason) }
{
    put(kind, " ")?;
    put(kind, twice_word(word))?;
    put(kind, " reference ")?;
    put_said_if(kind, reason)
}

/// Puts the kind of a late copy last.
#[tactic(auto, unfolding(crate::specs::Lines::late_kind))]
fn put_late_kind(kind: &mut Vec<u8>, expected: &Expected) -> Result<(), NoMemory>
    ensures { OnOk result (kind.new.items ≡ kind.old.items ++ late_kind expected.now) }
{
    put(kind, " came by ")?;
    put_by(kind, expected.by)
}

/// Puts the word of a field behind a comma last.
fn put_next_field(kind: &mut Vec<u8>, difference: &Difference) -> Result<(), NoMemory>
    ensures { OnOk result (kind.new.items ≡ kind.old.items
        ++ behind word_of_field difference.now) }
{
    put(kind, ",")?;
    put(kind, field_word(difference))
}

/// Puts the words of fields last, each behind a comma.
#[tactic(auto, using(hsr_frame::proofs::OneMore::grown))]
fn put_other_fields(kind: &mut Vec<u8>, fields: &[Difference]) -> Result<(), NoMemory>
    ensures { OnOk result (kind.new.items ≡ kind.old.items
        ++ flat_map (behind word_of_field) fields.now) }
{
    for difference in fields {
        put_next_field(kind, difference)?;
    }
    Ok(())
}

/// Puts the words of fields last, parted by commas.
fn put_fields(kind: &mut Vec<u8>, fields: &[Difference]) -> Result<(), NoMemory>
    ensures { OnOk result (kind.new.items ≡ kind.old.items
        ++ parted word_of_field fields.now) }
{
    match fields.split_first() {
        None => put(kind, "-"),
        Some((first, others)) => {
            put(kind, field_word(first))?;
            put_other_fields(kind, others)
        }
    }
}

/// Puts the kind of a copy last that differs in these fields.
#[tactic(auto, unfolding(crate::specs::Lines::fields_kind))]
fn put_fields_kind(kind: &mut Vec<u8>, fields: &[Difference]) -> Result<(), NoMemory>
    ensures { OnOk result (kind.new.items ≡ kind.old.items ++ fields_kind fields.now) }
{
    put(kind, " ")?;
    put_fields(kind, fields)
}

/// Puts the kind of an altered copy last.
fn put_altered_kind(
    alloc: Global,
    kind: &mut Vec<u8>,
    scene: &Scene<'_>,
    k: usize,
    expected: &Expected,
    copy: &Passage,
) -> Result<(), NoMemory>
    ensures { OnOk result (kind.new.items ≡ kind.old.items
        ++ fields_kind (fields_at scene.now k expected.now copy.now)) }
{
    let fields = fields_at(alloc, scene, k, expected, copy)?;
    put_fields_kind(kind, fields.as_slice())
}

/// Puts the kind of a copy that was matched last.
fn put_matched_kind(
    alloc: Global,
    kind: &mut Vec<u8>,
    scene: &Scene<'_>,
    k: usize,
    word: Word,
    expected: &Expected,
    copy: &Passage,
) -> Result<(), NoMemory>
    ensures { OnOk result (kind.new.items ≡ kind.old.items
        ++ matched_kind scene.now k word expected.now copy.now) }
{
    match word {
        Word::Late => put_late_kind(kind, expected),
        Word::Twice => put_altered_kind(alloc, kind, scene, k, expected, copy),
        Word::Missing => put_altered_kind(alloc, kind, scene, k, expected, copy),
        Word::Altered => put_altered_kind(alloc, kind, scene, k, expected, copy),
        Word::Stray => put_altered_kind(alloc, kind, scene, k, expected, copy),
    }
}

/// Puts what stands behind the end in the kind of an observed copy last.
fn put_rest_kind(
    alloc: Global,
    kind: &mut Vec<u8>,
    scene: &Scene<'_>,
    k: usize,
    word: Word,
    expected: Option<&Expected>,
    copy: &Passage,
) -> Result<(), NoMemory>
    ensures { OnOk result (kind.new.items ≡ kind.old.items
        ++ rest_kind scene.now k word (option_copied expected.entry) copy.now) }
{
    match expected {
        None => put_extra_kind(kind, word, reason_at(scene, copy)),
        Some(expected) => put_matched_kind(alloc, kind, scene, k, word, expected, copy),
    }
}

/// Puts the kind of an observed copy that deviates last.
#[tactic(auto, unfolding(crate::specs::Lines::seen_kind))]
fn put_seen_kind(
    alloc: Global,
    kind: &mut Vec<u8>,
    scene: &Scene<'_>,
    word: Word,
    k: usize,
    copy: &Passage,
) -> Result<(), NoMemory>
    ensures { OnOk result (kind.new.items ≡ kind.old.items
        ++ seen_kind scene.now word k copy.now) }
{
    let expected = matched_at(scene.judgement, k);
    put(kind, copy.end.word())?;
    put_rest_kind(alloc, kind, scene, k, word, expected, copy)
}

/// Puts the kind of an expected copy that is missing last.
#[tactic(auto, unfolding(crate::specs::Lines::missing_kind))]
fn put_missing_kind(kind: &mut Vec<u8>, expected: &Expected) -> Result<(), NoMemory>
    ensures { OnOk result (kind.new.items ≡ kind.old.items ++ missing_kind expected.now) }
{
    put(kind, expected.out.word())?;
    put(kind, " came by ")?;
    put_by(kind, expected.by)
}

/// Puts the kind of an observed copy that deviates last, if it is there.
fn put_seen_kind_if(
    alloc: Global,
    kind: &mut Vec<u8>,
    scene: &Scene<'_>,
    word: Word,
    k: usize,
) -> Result<(), NoMemory>
    ensures { OnOk result (kind.new.items ≡ kind.old.items
        ++ seen_kind_if scene.now word k (slice_get scene.now.judgement.observed k)) }
{
    match copy_at(scene.judgement, k) {
        None => Ok(()),
        Some(copy) => put_seen_kind(alloc, kind, scene, word, k, copy),
    }
}

/// Puts the kind of an expected copy that is missing last, if it is there.
fn put_missing_kind_if(kind: &mut Vec<u8>, scene: &Scene<'_>, i: usize) -> Result<(), NoMemory>
    ensures { OnOk result (kind.new.items ≡ kind.old.items
        ++ missing_kind_if (slice_get scene.now.judgement.played.expected i)) }
{
    match expected_at(scene.judgement, i) {
        None => Ok(()),
        Some(expected) => put_missing_kind(kind, expected),
    }
}

/// Puts what stands behind the word in the kind of a deviation last.
fn put_kind_by(
    alloc: Global,
    kind: &mut Vec<u8>,
    scene: &Scene<'_>,
    word: Word,
    which: Which,
) -> Result<(), NoMemory>
    ensures { OnOk result (kind.new.items ≡ kind.old.items ++ kind_by scene.now word which) }
{
    match which {
        Which::Observed(k) => put_seen_kind_if(alloc, kind, scene, word, k),
        Which::Expected(i) => put_missing_kind_if(kind, scene, i),
    }
}

/// The kind of a deviation: what sums count. `NoMemory` where room is refused.
#[tactic(auto, unfolding(crate::specs::Lines::kind))]
pub(crate) fn kind_of(
    alloc: Global,
    scene: &Scene<'_>,
    deviation: &Deviation,
) -> Result<Vec<u8>, NoMemory>
    ensures { IfOk result (λ text. text.items ≡ kind scene.now deviation.now) }
{
    let mut kind = Vec::new(alloc);
    put(&mut kind, deviation.word.text())?;
    put(&mut kind, " ")?;
    put_kind_by(alloc, &mut kind, scene, deviation.word, deviation.which)?;
    Ok(kind)
}
