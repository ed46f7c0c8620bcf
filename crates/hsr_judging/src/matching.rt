//! Which observed copy is which expected one.
ghost use Rattle.std.specs.Prelude.{◌≡◌, ◌≤◌, ◌<◌, ◌&&◌, length, drop, vec_len, IfOk, IfSome, replicate, None};
ghost use Rattle.hsr_judging.specs.Matching.{first_alone, fits, given, got_by, is_alone, matched, over_front, says, turn_of, turned, views};
ghost use Rattle.hsr_judging.specs.Partition.{IsPartition};

use crate::agreement::{Rule, is_equal};
use crate::alikeness::is_alike;
use crate::window::Window;
use hsr_frame::NoMemory;
use hsr_playback::{Expected, Passage};
use hsr_tap_device::Times;
use std::alloc::Global;

/// How an observed copy was matched.
#[derive(Clone, Copy, PartialEq, Eq)]
pub enum Word {
    /// It says the same, in time.
    Same,
    /// It says the same, too late.
    Late,
    /// It is that frame, altered, in time.
    Altered,
}

/// The expected copy that an observed one was matched with, by its index.
#[derive(Clone, Copy, PartialEq, Eq)]
pub struct Got {
    pub expected: usize,
    pub word: Word,
}

/// What is asked of copies in one turn of the matching: the word that is told, the window, and what need not agree.
#[derive(Clone, Copy)]
struct Turn {
    word: Word,
    window: Window,
    rule: Rule,
}

/// Whether an observed copy says what is asked for.
fn says(word: Word, rule: Rule, expected: &Expected, seen: &Passage) -> bool
    ensures { result ≡ says word rule expected.now seen.now }
{
    match word {
        Word::Same => is_equal(rule, expected, seen),
        Word::Late => is_equal(rule, expected, seen),
        Word::Altered => is_alike(rule, expected, seen),
    }
}

/// Whether an observed copy may be matched with an expected one.
#[tactic(auto, unfolding(crate::specs::Matching::fits))]
fn fits(turn: Turn, expected: &Expected, seen: &Passage) -> bool
    ensures { result ≡ fits turn expected.now seen.now }
{
    expected.out.is_same(seen.end)
        && (turn.window.has(expected.moment, seen.moment)
            && says(turn.word, turn.rule, expected, seen))
}

/// The first expected copy whose window isn't over at a moment; those before an index are known to be over.
fn first_open(window: Window, expected: &[Expected], from: usize, at: u64) -> usize
    requires { from ≤ over_front window at expected.now }
    ensures value { result ≡ over_front window at expected.now }
    ensures within { result ≤ length expected.now }
{
    for i in from..expected.len() {
        let copy = &expected[i];
        if !window.is_over(copy.moment, at) {
            return i;
        }
    }
    expected.len()
}

/// From which expected copy on the first whose window isn't over is looked for, where it was found at an index for a moment before: from
/// there on, if that moment isn't later.
#[tactic(auto, using(crate::proofs::Opening::over_grows))]
fn start_at(window: Window, expected: &[Expected], from: usize, last: u64, at: u64) -> usize
    requires { from ≤ over_front window last expected.now }
    ensures { result ≤ over_front window at expected.now }
{
    if last <= at { from } else { 0 }
}

/// Whether an expected copy is alone.
fn is_alone(alone: &[bool], i: usize) -> bool
    ensures { result ≡ is_alone alone.now i }
{
    alone.get(i).copied().unwrap_or(false)
}

/// Whether an expected copy is alone and fits an observed one.
fn is_free(turn: Turn, alone: &[bool], i: usize, copy: &Expected, seen: &Passage) -> bool
    ensures { result ≡ (is_alone alone.now i && fits turn copy.now seen.now) }
{
    is_alone(alone, i) && fits(turn, copy, seen)
}

/// The first expected copy, from an index on, that is alone and fits an observed one; none where a window has not begun yet.
fn first_alone(
    turn: Turn,
    expected: &[Expected],
    alone: &[bool],
    from: usize,
    seen: &Passage,
) -> Option<usize>
    requires { from ≤ length expected.now }
    ensures value { result
        ≡ first_alone turn alone.now seen.now from (drop from expected.now) }
    ensures within { IfSome result (λ n. n < length alone.now) }
{
    for i in from..expected.len() {
        let copy = &expected[i];
        if turn.window.is_ahead(copy.moment, seen.moment) {
            return None;
        }
        if is_free(turn, alone, i, copy, seen) {
            return Some(i);
        }
    }
    None
}

/// What an observed copy gets, where this expected copy was found for it, if one was; that is alone no longer.
fn given(word: Word, alone: &mut Vec<bool>, found: Option<usize>) -> Option<Got>
    requires { IfSome found (λ n. n < vec_len alone.old) }
    ensures { (result, alone.new.items) ≡ given word alone.old.items found }
{
    match found {
        Some(i) => {
            alone[i] = false;
            Some(Got { expected: i, word })
        }
        None => None,
    }
}

/// What an observed copy gets that has this so far: the first expected copy that is alone and fits it, which is alone no longer. `from` is
/// the first expected copy whose window isn't over.
fn got_by(
    turn: Turn,
    expected: &[Expected],
    alone: &mut Vec<bool>,
    from: usize,
    got: Option<Got>,
    seen: &Passage,
) -> Option<Got>
    requires first { from ≡ over_front turn.window seen.now.moment expected.now }
    requires within { from ≤ length expected.now }
    ensures { (result, alone.new.items)
        ≡ got_by turn expected.now alone.old.items got seen.now }
{
    match got {
        Some(got) => Some(got),
        None => {
            let found = first_alone(turn, expected, alone.as_slice(), from, seen);
            given(turn.word, alone, found)
        }
    }
}

/// One turn: each observed copy that isn't matched, in their order, gets the first expected copy that is alone and fits it.
fn take_turn(
    alloc: Global,
    turn: Turn,
    expected: &[Expected],
    observed: &[&Passage],
    alone: &mut Vec<bool>,
    gots: &[Option<Got>],
) -> Result<Vec<Option<Got>>, NoMemory>
    requires long { length gots.now ≡ length observed.now }
    ensures value { IfOk result (λ next. (next.items, alone.new.items)
        ≡ turned turn expected.now alone.old.items gots.now (views observed.now)) }
    ensures long { IfOk result (λ next. length next.items ≡ length observed.now) }
{
    let mut next = Vec::new(alloc);
    let mut from = 0;
    let mut last = 0;
    for k in 0..observed.len() {
        let seen = observed[k];
        let start = start_at(turn.window, expected, from, last, seen.moment);
        from = first_open(turn.window, expected, start, seen.moment);
        last = seen.moment;
        let got = got_by(turn, expected, alone, from, gots[k], seen);
        next.push(got)?;
    }
    Ok(next)
}

/// What is asked of copies in the turn of a word.
fn turn_of(times: &Times, rule: Rule, word: Word) -> Turn
    ensures { result ≡ turn_of times.now rule word }
{
    let window = match word {
        Word::Same => Window::in_time(times),
        Word::Late => Window::late(times),
        Word::Altered => Window::in_time(times),
    };
    Turn { word, window, rule }
}

/// The expected copies that are alone, and for each observed one the copy that it was matched with.
#[derive(Drop)]
pub(crate) struct Matching {
    pub alone: Vec<bool>,
    pub gots: Vec<Option<Got>>,
}

/// No observed copy is matched: none of so many.
fn none_matched(alloc: Global, many: usize) -> Result<Vec<Option<Got>>, NoMemory>
    ensures { IfOk result (λ gots. gots.items ≡ replicate many None) }
{
    let mut gots = Vec::new(alloc);
    for i in 0..many {
        gots.push(None)?;
    }
    Ok(gots)
}

/// Which observed copy is which expected one: the same in time; of what is left, the same too late; of what is
/// left then, the same frame, altered, in time. Each expected copy is alone then, or one observed copy has it, and no other. `NoMemory`
/// where room is refused.
pub(crate) fn matching_of(
    alloc: Global,
    times: &Times,
    rule: Rule,
    expected: &[Expected],
    observed: &[&Passage],
) -> Result<Matching, NoMemory>
    ensures value { IfOk result (λ m. (m.gots.items, m.alone.items)
        ≡ matched times.now rule expected.now (views observed.now)) }
    ensures partition { IfOk result (λ m.
        IsPartition (length expected.now) (m.gots.items, m.alone.items)) }
    ensures long { IfOk result (λ m. length m.gots.items ≡ length observed.now) }
{
    let mut alone = vec![in alloc; true; expected.len()]?;
    let none = none_matched(alloc, observed.len())?;
    let nothing = none.as_slice();
    let same = turn_of(times, rule, Word::Same);
    let first = take_turn(alloc, same, expected, observed, &mut alone, nothing)?;
    let firsts = first.as_slice();
    let late = turn_of(times, rule, Word::Late);
    let second = take_turn(alloc, late, expected, observed, &mut alone, firsts)?;
    let seconds = second.as_slice();
    let altered = turn_of(times, rule, Word::Altered);
    let gots = take_turn(alloc, altered, expected, observed, &mut alone, seconds)?;
    Ok(Matching { alone, gots })
}
