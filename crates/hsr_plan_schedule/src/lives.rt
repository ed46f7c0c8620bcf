//! When supervision frames are sent.
ghost use Rattle.std.specs.Prelude.{◌≡◌, ◌++◌, IfOk, OnOk};
ghost use Rattle.hsr_plan_text.specs.Fallible.{Gives};
ghost use Rattle.hsr_plan_schedule.specs.Moments.{life_of, lives, lives_at, lives_until, rounds, supervises};

use crate::occasion::{Happening, Occasion};
use hsr_frame::NoMemory;
use hsr_node::Place;
use hsr_plan_network::Node;
use hsr_plan_text::{Key, Outline, Refusal, What};
use std::alloc::Global;

/// The most rounds of supervision.
const ROUNDS: u64 = 16384;

/// Whether a kind of node sends supervision.
fn supervises(place: &Place) -> bool
    ensures { result ≡ supervises place.now }
{
    matches!(place, Place::Danh { .. } | Place::RedBox { .. })
}

/// Puts the supervision of a node behind other occasions, if its kind sends any.
fn add_life(
    occasions: &mut Vec<Occasion>,
    at: u64,
    node: usize,
    place: &Place,
) -> Result<(), NoMemory>
    ensures { OnOk result (occasions.new.items ≡ occasions.old.items ++ life_of place.now at node) }
{
    if supervises(place) {
        let what = Happening::Life { node };
        occasions.push(Occasion { at, what })?;
    }
    Ok(())
}

/// Puts the supervision of each DANH and each RedBox at a moment behind other occasions.
#[tactic(auto, using(crate::proofs::Moments::lives_step))]
fn add_round(occasions: &mut Vec<Occasion>, at: u64, nodes: &[Node]) -> Result<(), NoMemory>
    ensures { OnOk result (occasions.new.items ≡ occasions.old.items ++ lives_at at 0 nodes.now) }
{
    for (number, node) in nodes.iter().enumerate() {
        add_life(occasions, at, number, &node.place)?;
    }
    Ok(())
}

/// All rounds of supervision, up to a moment.
#[tactic(auto, using(crate::proofs::Moments::rounds_step, crate::proofs::Moments::rounds_stop, crate::proofs::Moments::rounds_over))]
fn rounds(alloc: Global, every: u64, until: u64, nodes: &[Node]) -> Result<Vec<Occasion>, NoMemory>
    ensures { IfOk result (λ v. v.items ≡ rounds 16384 0 every until nodes.now) }
{
    let mut occasions = Vec::new(alloc);
    let mut at = 0;
    for _round in 0..ROUNDS {
        if at >= until {
            return Ok(occasions);
        }
        add_round(&mut occasions, at, nodes)?;
        // Saturating, so that the last round ends the loop and doesn't begin anew.
        at = at.saturating_add(every);
    }
    Ok(occasions)
}

/// All rounds of supervision, up to a moment that has to be told, and 16384 at most.
fn lives_until(
    alloc: Global,
    every: u64,
    until: Option<u64>,
    nodes: &[Node],
) -> Result<Vec<Occasion>, What>
    ensures { Gives (λ v. v.items) result (lives_until every until nodes.now) }
{
    let Some(until) = until else {
        return Err(What::Refused(Refusal::Endless(Key::Until)));
    };
    // Counted before it is listed, so that a short plan can't ask for a long list.
    if until > every.saturating_mul(ROUNDS) {
        return Err(What::Refused(Refusal::TooMany(Key::Life)));
    }
    let occasions = rounds(alloc, every, until, nodes)?;
    Ok(occasions)
}

/// All supervision of a plan.
pub(crate) fn lives(alloc: Global, outline: &Outline, nodes: &[Node]) -> Result<Vec<Occasion>, What>
    ensures { Gives (λ v. v.items) result (lives outline.now nodes.now) }
{
    // A period of 0 says that there is no supervision.
    if outline.life == 0 {
        return Ok(Vec::new(alloc));
    }
    lives_until(alloc, outline.life, outline.until, nodes)
}
