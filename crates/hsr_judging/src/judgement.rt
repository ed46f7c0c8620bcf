//! All of a judgement.
ghost use Rattle.std.specs.Prelude.{◌≡◌, ◌↔◌, IfOk, IsTrue};
ghost use Rattle.std.specs.List.{count_by};
ghost use Rattle.hsr_duptable.specs.Table.{IsTableSize};
ghost use Rattle.hsr_judging.specs.Judged.{IsMatchedOnce, begins_of, has_host, is_out, judged, matched_by, numbers_given, observed_in, rule_of};
ghost use Rattle.hsr_judging.specs.Matching.{views};

use crate::agreement::Rule;
use crate::fates::{ExpectedFate, ObservedFate, conforms, expected_fates, observed_fates};
use crate::matching::{Got, matching_of};
use crate::numbers::{jumps_told, taken_of};
use hsr_frame::NoMemory;
use hsr_playback::{Heading, Jump, Passage, Played, Taken, Taps, jumps_of, own_begins, play};
use hsr_tap_device::{Device, End};
use std::alloc::Global;
use std::marker::Model;

/// Whether a device does what the reference does.
#[derive(Drop)]
pub struct Judgement<'a> {
    /// What the reference answered, with the copies that are expected.
    pub played: Played,
    /// The copies that left the device.
    pub observed: Vec<&'a Passage>,
    /// For each observed copy the expected one that it was matched with.
    pub gots: Vec<Option<Got>>,
    /// For each observed copy where the device's numbers didn't go on by one.
    pub jumps: Vec<Jump>,
    /// What became of each observed copy, and of each expected one.
    pub observed_fates: Vec<ObservedFate>,
    pub expected_fates: Vec<ExpectedFate>,
    /// How many frames of its own the device began that no interface shows.
    pub own: usize,
}

impl<'a> Model for Judgement<'a> {
    ghost use Rattle.hsr_judging.specs.Judged.{JudgementFields};
    ghost use Rattle.hsr_judging.specs.Matching.{views};

    ghost Value = { JudgementFields };

    ghost view = { λ j. record { played = j.played; observed = views j.observed.items; gots = j.gots.items; jumps = j.jumps.items; observed_fates = j.observed_fates.items; expected_fates = j.expected_fates.items; own = j.own } };
}

impl<'a> Judgement<'a> {
    ghost use Rattle.hsr_judging.specs.Fates.{conforms};
    ghost use Rattle.hsr_judging.specs.Judged.{IsNothingLeft};

    /// Whether the fates of all copies are such that the device conforms.
    fn is_conforming(&self) -> bool
        ensures { result ≡ conforms self.now.observed_fates self.now.expected_fates }
    {
        conforms(
            self.observed_fates.as_slice(),
            self.expected_fates.as_slice(),
        )
    }

    /// Whether the device conforms: no observed copy is late, altered or extra, no expected one is missing, and some copy is the same.
    pub fn conforms(&self) -> bool
        ensures value { result ≡ conforms self.now.observed_fates self.now.expected_fates }
        ensures exact { IsTrue result
            ↔ IsNothingLeft self.now.observed_fates self.now.expected_fates }
    {
        self.is_conforming()
    }
}

/// Whether what passes so leaves the device.
fn is_out(heading: Heading) -> bool
    ensures { result ≡ is_out heading }
{
    match heading {
        Heading::Out => true,
        Heading::In => false,
    }
}

/// The copies that left the device.
#[tactic(auto, using(crate::proofs::Verdict::observed_out, crate::proofs::Verdict::observed_in_left, crate::proofs::Verdict::observed_all))]
fn observed_of<'a>(alloc: Global, passages: &'a [Passage]) -> Result<Vec<&'a Passage>, NoMemory>
    ensures { IfOk result (λ observed. views observed.items ≡ observed_in passages.now) }
{
    let mut observed = Vec::new(alloc);
    for i in 0..passages.len() {
        let passage = &passages[i];
        if is_out(passage.heading) {
            observed.push(passage)?;
        }
    }
    Ok(observed)
}

/// How many of some are true.
fn count_of(begins: &[bool]) -> usize
    ensures { result ≡ count_by (λ b. b) begins.now }
{
    begins.iter().filter(|begins| **begins).count()
}

/// Whether all that the host sends is in the capture.
fn has_host(device: &Device, taps: &Taps) -> bool
    ensures { result ≡ has_host device.now taps.now }
{
    match device.host {
        Some(host) => host,
        None => taps.has_in(End::Up),
    }
}

/// What need not agree; `has_numbers` says whether the device's own numbers have to.
fn rule_of(device: &Device, has_numbers: bool) -> Rule
    ensures { result ≡ rule_of device.now has_numbers }
{
    Rule {
        ignored: device.ignored,
        has_numbers,
    }
}

/// Of each passage whether it begins a frame of the device's own that no interface shows.
fn begins_of(
    alloc: Global,
    device: &Device,
    taps: &Taps,
    passages: &[Passage],
) -> Result<Vec<bool>, NoMemory>
    ensures { IfOk result (λ begins. begins.items ≡ begins_of device.now taps.now passages.now) }
{
    own_begins(
        alloc,
        device.owner.mac,
        has_host(device, taps),
        device.times.within,
        passages,
    )
}

/// The numbers that the device gave: found by a first matching, in which they need not agree.
#[tactic(auto, unfolding(crate::specs::Judged::numbers_given))]
fn numbers_given<const C: usize>(
    alloc: Global,
    device: &Device,
    taps: &Taps,
    passages: &[Passage],
    observed: &[&Passage],
    begins: &[bool],
) -> Result<Vec<Taken>, NoMemory>
    requires entries { IsTableSize C }
    requires observed { views observed.now ≡ observed_in passages.now }
    ensures { IfOk result (λ taken. taken.items
        ≡ numbers_given C device.now taps.now passages.now begins.now) }
{
    let played = play::<C>(alloc, device, taps, passages, begins, &[])?;
    let rule = rule_of(device, false);
    let expected = played.expected.as_slice();
    let matching = matching_of(alloc, &device.times, rule, expected, observed)?;
    taken_of(
        alloc,
        passages.len(),
        expected,
        observed,
        matching.gots.as_slice(),
    )
}

/// The judgement of observed copies by what the reference answered, where numbers agree, and the jumps of numbers.
#[tactic(auto, unfolding(crate::specs::Judged::matched_by))]
fn matched_by<'a>(
    alloc: Global,
    device: &Device,
    observed: Vec<&'a Passage>,
    last: u64,
    own: usize,
    jumps: &[Jump],
    played: Played,
) -> Result<Judgement<'a>, NoMemory>
    ensures { IfOk result (λ j. j
        ≡ matched_by device.now (views observed.entry.items) last own jumps.now played) }
{
    let rule = rule_of(device, true);
    let expected = played.expected.as_slice();
    let seen = observed.as_slice();
    let matching = matching_of(alloc, &device.times, rule, expected, seen)?;
    let gots = matching.gots.as_slice();
    let told = jumps_told(alloc, jumps, expected, gots)?;
    let observed_fates = observed_fates(alloc, device, seen, gots, told.as_slice())?;
    let expected_fates = expected_fates(alloc, device, last, expected, matching.alone.as_slice())?;
    Ok(Judgement {
        own,
        gots: matching.gots,
        jumps: told,
        observed_fates,
        expected_fates,
        played,
        observed,
    })
}

/// The judgement of a device with tables of `C` entries by what passed its ends, in the order of time; `last` is the last moment that
/// counts, in nanoseconds since the capture began. Each expected copy was matched exactly where one observed copy has it, and no other.
/// `NoMemory` where room is refused.
#[tactic(auto, using(crate::proofs::Once::once_at), unfolding(crate::specs::Judged::judged))]
pub fn judgement_of<'a, const C: usize>(
    alloc: Global,
    device: &Device,
    taps: &Taps,
    passages: &'a [Passage],
    last: u64,
) -> Result<Judgement<'a>, NoMemory>
    requires { IsTableSize C }
    ensures value { IfOk result (λ j. j
        ≡ judged C device.now taps.now passages.now last) }
    ensures once { IfOk result (λ j. IsMatchedOnce j) }
{
    let observed = observed_of(alloc, passages)?;
    let begins = begins_of(alloc, device, taps, passages)?;
    let begins = begins.as_slice();
    let taken = numbers_given::<C>(alloc, device, taps, passages, observed.as_slice(), begins)?;
    let numbers = device.numbers;
    let jumps = jumps_of(alloc, numbers.start, numbers.life_start, taken.as_slice())?;
    let played = play::<C>(alloc, device, taps, passages, begins, taken.as_slice())?;
    let own = count_of(begins);
    matched_by(alloc, device, observed, last, own, jumps.as_slice(), played)
}
