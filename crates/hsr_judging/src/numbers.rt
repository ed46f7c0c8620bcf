//! The numbers that the device gave.
ghost use Rattle.std.specs.Prelude.{◌≡◌, IfOk, List, length};
ghost use Rattle.std.specs.Option.{option_copied, option_or};
ghost use Rattle.hsr_tag.specs.Seen.{classified};
ghost use Rattle.hsr_judging.specs.Matching.{views};
ghost use Rattle.hsr_judging.specs.Numbers.{copy_of, counter_in, first_of, jumps_told, life_in, no_jump, no_numbers, number_in, numbered_cause, numbers_in, taken_of, taken_with, untold};

use crate::matching::Got;
use hsr_frame::{NoMemory, u16_at};
use hsr_playback::{Expected, Jump, Passage, Taken};
use hsr_tag::{EitherView, TaggedView, look_at};
use std::alloc::Global;

/// Where a supervision payload has its counter, and how long the part of the payload is that ends with it (IEC 62439-3 clause 5.7).
const COUNTER_AT: usize = 2;

const COUNTER_END: usize = 4;

/// No numbers.
fn no_numbers() -> Taken
    ensures { result ≡ no_numbers }
{
    Taken {
        number: None,
        life: None,
    }
}

/// All numbers were the next.
pub(crate) fn no_jump() -> Jump
    ensures { result ≡ no_jump }
{
    Jump {
        number: None,
        life: None,
    }
}

/// The counter in a supervision payload.
pub(crate) fn counter_in(payload: &[u8]) -> Option<u16>
    ensures { result ≡ counter_in payload.now }
{
    if COUNTER_END <= payload.len() {
        Some(u16_at(payload, COUNTER_AT))
    } else {
        None
    }
}

/// The number of the device's own counter that a copy has, if the expected one has one.
fn number_in(expected: &Expected, frame: &TaggedView<'_>) -> Option<u16>
    ensures { result ≡ number_in expected.now frame.now }
{
    if expected.is_numbered {
        Some(frame.seq)
    } else {
        None
    }
}

/// The supervision number of the device's own that a copy has, if the expected one has one.
fn life_in(expected: &Expected, frame: &TaggedView<'_>) -> Option<u16>
    ensures { result ≡ life_in expected.now frame.now }
{
    if expected.is_life {
        counter_in(frame.payload.as_slice())
    } else {
        None
    }
}

/// What an observed copy has of the numbers of the device's own that an expected one has.
fn numbers_in(expected: &Expected, seen: &Passage) -> Taken
    ensures { result ≡ numbers_in expected.now (classified seen.now.octets) }
{
    let Ok(view) = look_at(seen.octets.as_slice()) else {
        return no_numbers();
    };
    match view.frame {
        EitherView::Tagged(frame) => Taken {
            number: number_in(expected, &frame),
            life: life_in(expected, &frame),
        },
        EitherView::Plain(_) => no_numbers(),
    }
}

/// The first of two numbers that is there.
fn either(first: Option<u16>, next: Option<u16>) -> Option<u16>
    ensures { result ≡ option_or first next }
{
    match first {
        Some(_) => first,
        None => next,
    }
}

/// The first numbers of two copies that are there.
fn first_of(first: Taken, next: Taken) -> Taken
    ensures { result ≡ first_of first next }
{
    Taken {
        number: either(first.number, next.number),
        life: either(first.life, next.life),
    }
}

/// The expected copy that an observed one was matched with.
fn copy_of<'a>(expected: &'a [Expected], got: Option<Got>) -> Option<&'a Expected>
    ensures { option_copied result ≡ copy_of expected.now got }
{
    match got {
        Some(got) => expected.get(got.expected),
        None => None,
    }
}

/// Notes what an observed copy has of the numbers of what caused the expected one that it was matched with.
fn take_from(taken: &mut [Taken], seen: &Passage, copy: Option<&Expected>)
    ensures { taken.new ≡ taken_with taken.old seen.now (option_copied copy.entry) }
{
    if let Some(copy) = copy
        && copy.cause < taken.len()
    {
        let before = taken[copy.cause];
        taken[copy.cause] = first_of(before, numbers_in(copy, seen));
    }
}

/// Notes what an observed copy has, among what was noted.
fn take_into(taken: &mut Vec<Taken>, seen: &Passage, copy: Option<&Expected>)
    ensures { taken.new.items
        ≡ taken_with taken.old.items seen.now (option_copied copy.entry) }
{
    take_from(taken.as_mut_slice(), seen, copy);
}

/// For each of so many passages the numbers of the first observed copy of what it caused. `NoMemory` where room is refused.
#[tactic(auto, using(crate::proofs::Numbered::taken_first))]
pub(crate) fn taken_of(
    alloc: Global,
    passages: usize,
    expected: &[Expected],
    observed: &[&Passage],
    gots: &[Option<Got>],
) -> Result<Vec<Taken>, NoMemory>
    requires { length gots.now ≡ length observed.now }
    ensures { IfOk result (λ taken. taken.items
        ≡ taken_of passages expected.now (views observed.now) gots.now) }
{
    let mut taken = vec![in alloc; no_numbers(); passages]?;
    for k in 0..observed.len() {
        let seen = observed[k];
        let copy = copy_of(expected, gots[k]);
        take_into(&mut taken, seen, copy);
    }
    Ok(taken)
}

/// The passage that caused a copy with a number of the device's own.
fn numbered_cause(copy: Option<&Expected>) -> Option<usize>
    ensures { result ≡ numbered_cause (option_copied copy.entry) }
{
    match copy {
        Some(copy) => {
            if copy.is_numbered {
                Some(copy.cause)
            } else {
                None
            }
        }
        None => None,
    }
}

/// Takes the jump at a place out of those that aren't told yet.
fn take_at(left: &mut [Jump], cause: usize) -> Jump
    ensures { (result, left.new) ≡ untold left.old (Some cause) }
{
    if cause < left.len() {
        let jump = left[cause];
        left[cause] = no_jump();
        jump
    } else {
        no_jump()
    }
}

/// Takes the jump of a passage out of those that aren't told yet.
fn take_jump(left: &mut [Jump], cause: Option<usize>) -> Jump
    ensures { (result, left.new) ≡ untold left.old cause }
{
    match cause {
        None => no_jump(),
        Some(cause) => take_at(left, cause),
    }
}

/// Takes the jump of a passage out of those that aren't told yet.
fn take_told(left: &mut Vec<Jump>, cause: Option<usize>) -> Jump
    ensures { (result, left.new.items) ≡ untold left.old.items cause }
{
    take_jump(left.as_mut_slice(), cause)
}

/// The passage that caused the copy that an observed one was matched with, if that has a number of the device's own.
fn cause_of(expected: &[Expected], got: Option<Got>) -> Option<usize>
    ensures { result ≡ numbered_cause (copy_of expected.now got) }
{
    numbered_cause(copy_of(expected, got))
}

/// For each observed copy where the device's numbers didn't go on by one, as told once for each frame: of its first observed copy that has
/// a number of the device's own. `NoMemory` where room is refused.
#[tactic(auto, using(crate::proofs::Numbered::jumps_all))]
pub(crate) fn jumps_told(
    alloc: Global,
    jumps: &[Jump],
    expected: &[Expected],
    gots: &[Option<Got>],
) -> Result<Vec<Jump>, NoMemory>
    ensures { IfOk result (λ told. told.items ≡ jumps_told jumps.now expected.now gots.now) }
{
    let mut left = Vec::from_slice(alloc, jumps)?;
    let mut told = Vec::new(alloc);
    for k in 0..gots.len() {
        let cause = cause_of(expected, gots[k]);
        let jump = take_told(&mut left, cause);
        told.push(jump)?;
    }
    Ok(told)
}
