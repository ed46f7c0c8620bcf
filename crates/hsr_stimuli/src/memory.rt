//! What a table remembers: for how long, and how much. Numbers that wrap.
ghost use Rattle.std.specs.Prelude.{◌≡◌, ◌≤◌, ◌++◌, [], ◌∷◌, OnOk};
ghost use Rattle.hsr_stimuli.specs.Scenes.{behind, below, can_fill, fill, filling, forgetting, full_table, numbers, step_for};

use crate::rule::Rule;
use crate::scene::{Scene, Stimulus, group};
use hsr_frame::NoMemory;

/// The microseconds in which a table is filled and tried: less than 400 ms, after which it forgets (IEC 62439-3 clause 5.8).
const FILL_TIME: u32 = 390_000;

/// The microseconds that a least frame takes at 100 Mbit/s, with preamble and gap (IEEE 802.3 clause 4).
const LEAST_STEP: u32 = 7;

/// The most microseconds between frames that fill a table.
const MOST_STEP: u32 = 1000;

/// A frame, and the same one millisecond before it is forgotten, and when it is.
#[tactic(auto, unfolding(crate::specs::Scenes::forgetting))]
pub(crate) fn forgetting(scene: &Scene) -> [Stimulus; 3]
    ensures { result ≡ forgetting scene.now }
{
    let to = group();
    [
        scene.tagged(0, Rule::First, to, 0),
        scene.tagged(399, Rule::Remembered, to, 0),
        scene.tagged(400, Rule::Forgotten, to, 0),
    ]
}

/// Numbers that wrap, and one that another source has too.
#[tactic(auto, unfolding(crate::specs::Scenes::numbers))]
pub(crate) fn numbers(scene: &Scene) -> [Stimulus; 9]
    ensures { result ≡ numbers scene.now }
{
    let to = group();
    let another = scene.from(502);
    [
        scene.tagged(0, Rule::NumberWraps, to, 65534),
        scene.tagged(1, Rule::NumberWraps, to, 65535),
        scene.tagged(2, Rule::NumberWraps, to, 0),
        scene.tagged(3, Rule::NumberWraps, to, 1),
        scene.tagged(4, Rule::NumberAgain, to, 65534),
        scene.tagged(5, Rule::NumberAgain, to, 65535),
        scene.tagged(6, Rule::NumberAgain, to, 0),
        scene.tagged(7, Rule::NumberAgain, to, 1),
        another.tagged(8, Rule::NumberOfAnother, to, 0),
    ]
}

/// The microseconds between frames that fill a table with so many entries.
fn step_for(entries: u16) -> u32
    ensures { result ≡ step_for entries }
{
    MOST_STEP.min(FILL_TIME / (u32::from(entries) + 4))
}

/// Whether a table with so many entries can be filled before it forgets.
pub(crate) fn can_fill(entries: u16) -> bool
    ensures { result ≡ can_fill entries }
{
    LEAST_STEP <= step_for(entries)
}

/// A frame to the group, so many steps behind the scene's start.
fn filling(scene: &Scene, step: u32, rule: Rule, index: u32, number: u16) -> Stimulus
    requires { step ≤ 1000 }
    ensures { result ≡ filling scene.now step rule index number }
{
    let at = u64::from(scene.start) + u64::from(step) * u64::from(index);
    Stimulus {
        at,
        ..scene.tagged(0, rule, group(), number)
    }
}

/// Puts one of the frames last that fill a table.
/// As a slice: a push that is refused hands the frame back, and gets no proof here.
fn put_filling(list: &mut Vec<Stimulus>, scene: &Scene, step: u32, n: u16) -> Result<(), NoMemory>
    requires { step ≤ 1000 }
    ensures { OnOk result (list.new.items ≡ list.old.items ++ fill scene.now step n ∷ []) }
{
    let frame = filling(scene, step, Rule::Fill, u32::from(n), n);
    list.extend_from_slice(&[frame])?;
    Ok(())
}

/// Puts frames last that fill a table.
#[tactic(auto, using(crate::proofs::Growing::below_none, crate::proofs::Growing::below_grown))]
fn put_fill(
    list: &mut Vec<Stimulus>,
    scene: &Scene,
    step: u32,
    entries: u16,
) -> Result<(), NoMemory>
    requires { step ≤ 1000 }
    ensures { OnOk result (list.new.items ≡ list.old.items ++ below (fill scene.now step) entries) }
{
    for n in 0..entries {
        put_filling(list, scene, step, n)?;
    }
    Ok(())
}

/// What comes to a table that is full.
#[tactic(auto, unfolding(crate::specs::Scenes::behind))]
fn behind(scene: &Scene, step: u32, entries: u16) -> [Stimulus; 4]
    requires { step ≤ 1000 }
    ensures { result ≡ behind scene.now step entries }
{
    let many = u32::from(entries);
    [
        filling(scene, step, Rule::Full, many, 0),
        filling(scene, step, Rule::OneMore, many + 1, entries),
        filling(scene, step, Rule::Kept, many + 2, 1),
        filling(scene, step, Rule::PushedOut, many + 3, 0),
    ]
}

/// Puts frames last that fill a table with so many entries exactly, and what comes then; nothing where it can't be filled.
pub(crate) fn put_full_table(
    list: &mut Vec<Stimulus>,
    scene: &Scene,
    entries: u16,
) -> Result<(), NoMemory>
    ensures { OnOk result (list.new.items ≡ list.old.items ++ full_table scene.now entries) }
{
    if !can_fill(entries) {
        return Ok(());
    }
    let step = step_for(entries);
    put_fill(list, scene, step, entries)?;
    list.extend_from_slice(&behind(scene, step, entries))?;
    Ok(())
}
