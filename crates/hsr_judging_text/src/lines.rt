//! The line of a deviation.
ghost use Rattle.std.specs.Prelude.{◌≡◌, ◌++◌, IfOk, OnOk, slice_get};
ghost use Rattle.std.specs.List.{flat_map};
ghost use Rattle.std.specs.Option.{option_copied};
ghost use Rattle.hsr_tag.specs.Seen.{classified};
ghost use Rattle.hsr_playback.specs.Letting.{number_by};
ghost use Rattle.hsr_judging.specs.Fates.{got_at};
ghost use Rattle.hsr_judging.specs.Numbers.{copy_of, jumps_in};
ghost use Rattle.hsr_judging_text.specs.Lines.{altered_by, altered_text, by_passage, came_text, cause_by, difference_text, extra_by, extra_text, fields_at, front_text, is_altered, late_text, line, matched_at, matched_text, missing_if, missing_text, number_for, number_in, reason_at, rest_text, seen_if, seen_text, stretches, text_by, twice_word};
ghost use Rattle.hsr_judging_text.specs.Words.{behind, parted};

use crate::deviation::{Deviation, Which, Word, copy_at};
use crate::frames::{put_frame, put_stretch};
use crate::words::{field_word, put_by, put_said, put_values};
use hsr_frame::NoMemory;
use hsr_judging::{Difference, Got, Judgement, Reason, Word as Matched, differences, reason_of};
use hsr_playback::{Expected, Jump, Passage};
use hsr_tag::{EitherView, look_at};
use hsr_tap_device::Device;
use hsr_text::{put, put_count};
use std::alloc::Global;
use std::marker::Model;

/// What lines are told of: the device, what passed its ends, and the judgement.
#[derive(Drop)]
pub(crate) struct Scene<'a> {
    pub device: &'a Device,
    pub passages: &'a [Passage],
    pub judgement: &'a Judgement<'a>,
}

impl<'a> Model for Scene<'a> {
    ghost use Rattle.hsr_judging_text.specs.Lines.{SceneFields};

    ghost Value = { SceneFields };

    ghost view = { λ s. record { device = s.device.now; passages = s.passages.now; judgement = s.judgement.now } };
}

/// The passage with this index.
fn passage_at<'a>(passages: &'a [Passage], i: usize) -> Option<&'a Passage>
    ensures { option_copied result ≡ slice_get passages.now i }
{
    passages.get(i)
}

/// The expected copy with this index.
pub(crate) fn expected_at<'a>(judgement: &'a Judgement<'_>, i: usize) -> Option<&'a Expected>
    ensures { option_copied result ≡ slice_get judgement.now.played.expected i }
{
    judgement.played.expected.as_slice().get(i)
}

/// How an observed copy was matched.
fn got_at(judgement: &Judgement<'_>, k: usize) -> Option<Got>
    ensures { result ≡ got_at judgement.now.gots k }
{
    judgement.gots.as_slice().get(k).copied().unwrap_or(None)
}

/// The expected copy of a match.
fn copy_of<'a>(judgement: &'a Judgement<'_>, got: Option<Got>) -> Option<&'a Expected>
    ensures { option_copied result ≡ copy_of judgement.now.played.expected got }
{
    match got {
        None => None,
        Some(got) => expected_at(judgement, got.expected),
    }
}

/// The expected copy with which an observed one was matched.
pub(crate) fn matched_at<'a>(judgement: &'a Judgement<'_>, k: usize) -> Option<&'a Expected>
    ensures { option_copied result ≡ matched_at judgement.now k }
{
    copy_of(judgement, got_at(judgement, k))
}

// ---- the front of a line

/// Puts the front of a line last.
#[tactic(auto, unfolding(crate::specs::Lines::front_text))]
fn put_front(text: &mut Vec<u8>, deviation: &Deviation, out: &str) -> Result<(), NoMemory>
    ensures { OnOk result (text.new.items ≡ text.old.items ++ front_text deviation.now out.now) }
{
    put(text, deviation.word.text())?;
    put(text, " ")?;
    put(text, out)?;
    put_count(text, b" at ", deviation.at)?;
    put_count(text, b" packet ", u64::from(deviation.packet))
}

// ---- a copy that nothing caused

/// What the reference said of a copy that nothing caused.
pub(crate) fn reason_at(scene: &Scene<'_>, copy: &Passage) -> Option<Reason>
    ensures { result ≡ reason_at scene.now copy.now }
{
    let device = scene.device;
    let judgement = scene.judgement;
    let answers = judgement.played.answers.as_slice();
    reason_of(scene.passages, answers, device.times.early, copy)
}

/// Puts by which end a frame came last, and as which packet.
fn put_came_by(text: &mut Vec<u8>, came: Option<&Passage>) -> Result<(), NoMemory>
    ensures { OnOk result (text.new.items ≡ text.old.items ++ by_passage (option_copied came.entry)) }
{
    match came {
        None => Ok(()),
        Some(came) => {
            put(text, " by ")?;
            put(text, came.end.word())?;
            put_count(text, b" packet ", u64::from(came.packet))
        }
    }
}

/// Puts what the reference said of a frame last, and where it came.
fn put_cause(
    text: &mut Vec<u8>,
    passages: &[Passage],
    reason: Option<Reason>,
) -> Result<(), NoMemory>
    ensures { OnOk result (text.new.items ≡ text.old.items ++ cause_by passages.now reason) }
{
    match reason {
        None => put(text, "-"),
        Some(reason) => {
            put_said(text, reason.said)?;
            put_came_by(text, passage_at(passages, reason.passage))
        }
    }
}

/// The number of the tagged frame that octets are.
fn number_by(octets: &[u8]) -> Option<u16>
    ensures { result ≡ number_by (classified octets.now) }
{
    let Ok(seen) = look_at(octets) else {
        return None;
    };
    match &seen.frame {
        EitherView::Tagged(frame) => Some(frame.seq),
        EitherView::Plain(_) => None,
    }
}

/// The number of the tagged frame that came.
fn number_in(came: Option<&Passage>) -> Option<u16>
    ensures { result ≡ number_in (option_copied came.entry) }
{
    match came {
        None => None,
        Some(came) => number_by(came.octets.as_slice()),
    }
}

/// The number of the tagged frame of which the reference said this.
fn number_for(passages: &[Passage], reason: Option<Reason>) -> Option<u16>
    ensures { result ≡ number_for passages.now reason }
{
    match reason {
        None => None,
        Some(reason) => number_in(passage_at(passages, reason.passage)),
    }
}

/// Whether a frame left a second time, in words.
pub(crate) fn twice_word(word: Word) -> &'static str
    ensures { result.now ≡ twice_word word }
{
    match word {
        Word::Twice => "twice",
        Word::Missing => "stray",
        Word::Altered => "stray",
        Word::Late => "stray",
        Word::Stray => "stray",
    }
}

/// Puts the rest of the line of a copy that nothing caused last, by what the reference said.
#[tactic(auto, unfolding(crate::specs::Lines::extra_by))]
fn put_extra_by(
    alloc: Global,
    text: &mut Vec<u8>,
    passages: &[Passage],
    reason: Option<Reason>,
    all: bool,
    word: Word,
    octets: &[u8],
) -> Result<(), NoMemory>
    ensures { OnOk result (text.new.items ≡ text.old.items
        ++ extra_by passages.now reason all word octets.now) }
{
    put(text, " ")?;
    put(text, twice_word(word))?;
    put(text, " reference ")?;
    put_cause(text, passages, reason)?;
    put_frame(alloc, text, octets, number_for(passages, reason), all)
}

/// Puts the rest of the line of a copy that nothing caused last.
fn put_extra(
    alloc: Global,
    text: &mut Vec<u8>,
    scene: &Scene<'_>,
    all: bool,
    word: Word,
    copy: &Passage,
) -> Result<(), NoMemory>
    ensures { OnOk result (text.new.items ≡ text.old.items
        ++ extra_text scene.now all word copy.now) }
{
    let reason = reason_at(scene, copy);
    put_extra_by(
        alloc,
        text,
        scene.passages,
        reason,
        all,
        word,
        copy.octets.as_slice(),
    )
}

// ---- a copy that was matched

/// Puts where an expected copy came from last, and the frame that was seen.
#[tactic(auto, unfolding(crate::specs::Lines::came_text))]
fn put_came(
    alloc: Global,
    text: &mut Vec<u8>,
    all: bool,
    expected: &Expected,
    copy: &Passage,
) -> Result<(), NoMemory>
    ensures { OnOk result (text.new.items ≡ text.old.items
        ++ came_text all expected.now copy.now) }
{
    put(text, " came by ")?;
    put_by(text, expected.by)?;
    put_count(text, b" packet ", u64::from(expected.packet))?;
    put_frame(alloc, text, copy.octets.as_slice(), expected.number, all)
}

/// Puts the rest of the line of a late copy last.
#[tactic(auto, unfolding(crate::specs::Lines::late_text))]
fn put_late(
    alloc: Global,
    text: &mut Vec<u8>,
    all: bool,
    expected: &Expected,
    copy: &Passage,
) -> Result<(), NoMemory>
    ensures { OnOk result (text.new.items ≡ text.old.items
        ++ late_text all expected.now copy.now) }
{
    let after = copy.moment.saturating_sub(expected.moment) / 1000;
    put_count(text, b" after ", after)?;
    put_came(alloc, text, all, expected, copy)
}

/// Puts of payloads that differ eight octets of each last.
fn put_stretches(
    text: &mut Vec<u8>,
    expected: &Expected,
    copy: &Passage,
    difference: &Difference,
) -> Result<(), NoMemory>
    ensures { OnOk result (text.new.items ≡ text.old.items
        ++ stretches expected.now copy.now difference.now) }
{
    match *difference {
        Difference::Payload(at) => {
            put_stretch(text, expected.octets.as_slice(), at)?;
            put_stretch(text, copy.octets.as_slice(), at)
        }
        _ => Ok(()),
    }
}

/// Puts a field in which two copies differ last, with what was expected and what was seen.
#[tactic(auto, unfolding(crate::specs::Lines::difference_text))]
fn put_difference(
    alloc: Global,
    text: &mut Vec<u8>,
    expected: &Expected,
    copy: &Passage,
    difference: &Difference,
) -> Result<(), NoMemory>
    ensures { OnOk result (text.new.items ≡ text.old.items
        ++ difference_text expected.now copy.now difference.now) }
{
    put(text, field_word(difference))?;
    put_values(alloc, text, difference)?;
    put_stretches(text, expected, copy, difference)
}

/// Puts a field in which two copies differ behind a comma last.
fn put_next_difference(
    alloc: Global,
    text: &mut Vec<u8>,
    expected: &Expected,
    copy: &Passage,
    difference: &Difference,
) -> Result<(), NoMemory>
    ensures { OnOk result (text.new.items ≡ text.old.items
        ++ behind (difference_text expected.now copy.now) difference.now) }
{
    put(text, ",")?;
    put_difference(alloc, text, expected, copy, difference)
}

/// Puts fields in which two copies differ last, each behind a comma.
#[tactic(auto, using(hsr_frame::proofs::OneMore::grown))]
fn put_other_differences(
    alloc: Global,
    text: &mut Vec<u8>,
    expected: &Expected,
    copy: &Passage,
    fields: &[Difference],
) -> Result<(), NoMemory>
    ensures { OnOk result (text.new.items ≡ text.old.items
        ++ flat_map (behind (difference_text expected.now copy.now)) fields.now) }
{
    for difference in fields {
        put_next_difference(alloc, text, expected, copy, difference)?;
    }
    Ok(())
}

/// Puts fields in which two copies differ last, parted by commas.
fn put_differences(
    alloc: Global,
    text: &mut Vec<u8>,
    expected: &Expected,
    copy: &Passage,
    fields: &[Difference],
) -> Result<(), NoMemory>
    ensures { OnOk result (text.new.items ≡ text.old.items
        ++ parted (difference_text expected.now copy.now) fields.now) }
{
    match fields.split_first() {
        None => put(text, "-"),
        Some((first, others)) => {
            put_difference(alloc, text, expected, copy, first)?;
            put_other_differences(alloc, text, expected, copy, others)
        }
    }
}

/// Whether a copy was matched as one that is altered.
fn is_altered(got: Option<Got>) -> bool
    ensures { result ≡ is_altered got }
{
    match got {
        None => false,
        Some(got) => match got.word {
            Matched::Altered => true,
            Matched::Same => false,
            Matched::Late => false,
        },
    }
}

/// No jump of numbers.
fn no_jump() -> Jump
    ensures { result ≡ record { number = None; life = None } }
{
    Jump {
        number: None,
        life: None,
    }
}

/// Where the numbers of an observed copy didn't go on by one.
fn jump_at(judgement: &Judgement<'_>, k: usize) -> Jump
    ensures { result ≡ jumps_in judgement.now.jumps k }
{
    judgement
        .jumps
        .as_slice()
        .get(k)
        .copied()
        .unwrap_or(no_jump())
}

/// The fields in which an observed copy differs from the expected one.
pub(crate) fn fields_at(
    alloc: Global,
    scene: &Scene<'_>,
    k: usize,
    expected: &Expected,
    copy: &Passage,
) -> Result<Vec<Difference>, NoMemory>
    ensures { IfOk result (λ fields. fields.items
        ≡ fields_at scene.now k expected.now copy.now) }
{
    let device = scene.device;
    let judgement = scene.judgement;
    let is_altered = is_altered(got_at(judgement, k));
    let jump = jump_at(judgement, k);
    differences(alloc, &device.ignored, expected, copy, is_altered, &jump)
}

/// Puts the rest of the line of a copy last that differs in these fields.
#[tactic(auto, unfolding(crate::specs::Lines::altered_by))]
fn put_altered_by(
    alloc: Global,
    text: &mut Vec<u8>,
    all: bool,
    fields: &[Difference],
    expected: &Expected,
    copy: &Passage,
) -> Result<(), NoMemory>
    ensures { OnOk result (text.new.items ≡ text.old.items
        ++ altered_by all fields.now expected.now copy.now) }
{
    put(text, " ")?;
    put_differences(alloc, text, expected, copy, fields)?;
    put_came(alloc, text, all, expected, copy)
}

/// Puts the rest of the line of a copy that was altered last.
fn put_altered(
    alloc: Global,
    text: &mut Vec<u8>,
    scene: &Scene<'_>,
    all: bool,
    k: usize,
    expected: &Expected,
    copy: &Passage,
) -> Result<(), NoMemory>
    ensures { OnOk result (text.new.items ≡ text.old.items
        ++ altered_text scene.now all k expected.now copy.now) }
{
    let fields = fields_at(alloc, scene, k, expected, copy)?;
    put_altered_by(alloc, text, all, fields.as_slice(), expected, copy)
}

// ---- lines

/// Puts the rest of the line of a copy that was matched last.
fn put_matched(
    alloc: Global,
    text: &mut Vec<u8>,
    scene: &Scene<'_>,
    all: bool,
    k: usize,
    word: Word,
    expected: &Expected,
    copy: &Passage,
) -> Result<(), NoMemory>
    ensures { OnOk result (text.new.items ≡ text.old.items
        ++ matched_text scene.now all k word expected.now copy.now) }
{
    match word {
        Word::Late => put_late(alloc, text, all, expected, copy),
        Word::Twice => put_altered(alloc, text, scene, all, k, expected, copy),
        Word::Missing => put_altered(alloc, text, scene, all, k, expected, copy),
        Word::Altered => put_altered(alloc, text, scene, all, k, expected, copy),
        Word::Stray => put_altered(alloc, text, scene, all, k, expected, copy),
    }
}

/// Puts what stands behind the front of the line of an observed copy last.
fn put_rest(
    alloc: Global,
    text: &mut Vec<u8>,
    scene: &Scene<'_>,
    all: bool,
    k: usize,
    word: Word,
    expected: Option<&Expected>,
    copy: &Passage,
) -> Result<(), NoMemory>
    ensures { OnOk result (text.new.items ≡ text.old.items
        ++ rest_text scene.now all k word (option_copied expected.entry) copy.now) }
{
    match expected {
        None => put_extra(alloc, text, scene, all, word, copy),
        Some(expected) => put_matched(alloc, text, scene, all, k, word, expected, copy),
    }
}

/// Puts the line of an observed copy that deviates last.
#[tactic(auto, unfolding(crate::specs::Lines::seen_text))]
fn put_seen(
    alloc: Global,
    text: &mut Vec<u8>,
    scene: &Scene<'_>,
    all: bool,
    deviation: &Deviation,
    k: usize,
    copy: &Passage,
) -> Result<(), NoMemory>
    ensures { OnOk result (text.new.items ≡ text.old.items
        ++ seen_text scene.now all deviation.now k copy.now) }
{
    let expected = matched_at(scene.judgement, k);
    put_front(text, deviation, copy.end.word())?;
    put_rest(alloc, text, scene, all, k, deviation.word, expected, copy)
}

/// Puts the line of an expected copy that is missing last.
#[tactic(auto, unfolding(crate::specs::Lines::missing_text))]
fn put_missing(
    alloc: Global,
    text: &mut Vec<u8>,
    all: bool,
    deviation: &Deviation,
    expected: &Expected,
) -> Result<(), NoMemory>
    ensures { OnOk result (text.new.items ≡ text.old.items
        ++ missing_text all deviation.now expected.now) }
{
    put_front(text, deviation, expected.out.word())?;
    put(text, " came by ")?;
    put_by(text, expected.by)?;
    put_frame(
        alloc,
        text,
        expected.octets.as_slice(),
        expected.number,
        all,
    )
}

/// Puts the line of an observed copy that deviates last, if it is there.
fn put_seen_if(
    alloc: Global,
    text: &mut Vec<u8>,
    scene: &Scene<'_>,
    all: bool,
    deviation: &Deviation,
    k: usize,
) -> Result<(), NoMemory>
    ensures { OnOk result (text.new.items ≡ text.old.items
        ++ seen_if scene.now all deviation.now k (slice_get scene.now.judgement.observed k)) }
{
    match copy_at(scene.judgement, k) {
        None => Ok(()),
        Some(copy) => put_seen(alloc, text, scene, all, deviation, k, copy),
    }
}

/// Puts the line of an expected copy that is missing last, if it is there.
fn put_missing_if(
    alloc: Global,
    text: &mut Vec<u8>,
    scene: &Scene<'_>,
    all: bool,
    deviation: &Deviation,
    i: usize,
) -> Result<(), NoMemory>
    ensures { OnOk result (text.new.items ≡ text.old.items
        ++ missing_if all deviation.now (slice_get scene.now.judgement.played.expected i)) }
{
    match expected_at(scene.judgement, i) {
        None => Ok(()),
        Some(expected) => put_missing(alloc, text, all, deviation, expected),
    }
}

/// Puts the words of the line of a deviation last.
fn put_text(
    alloc: Global,
    text: &mut Vec<u8>,
    scene: &Scene<'_>,
    all: bool,
    deviation: &Deviation,
) -> Result<(), NoMemory>
    ensures { OnOk result (text.new.items ≡ text.old.items
        ++ text_by scene.now all deviation.now deviation.now.which) }
{
    match deviation.which {
        Which::Observed(k) => put_seen_if(alloc, text, scene, all, deviation, k),
        Which::Expected(i) => put_missing_if(alloc, text, scene, all, deviation, i),
    }
}

/// Puts the line of a deviation last, with all octets of its frame, or the first. `NoMemory` where room is refused.
#[tactic(auto, unfolding(crate::specs::Lines::line))]
pub(crate) fn put_line(
    alloc: Global,
    text: &mut Vec<u8>,
    scene: &Scene<'_>,
    all: bool,
    deviation: &Deviation,
) -> Result<(), NoMemory>
    ensures { OnOk result (text.new.items ≡ text.old.items ++ line scene.now all deviation.now) }
{
    put_text(alloc, text, scene, all, deviation)?;
    put(text, "\n")
}
